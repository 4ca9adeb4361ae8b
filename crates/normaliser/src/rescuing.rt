// What can be kept of a clipped save, into a lent output, with the Closes that it lacks.
ghost use Rattle.std.specs.Prelude.{◌≡◌, ◌+◌, ◌*◌, ◌≤◌, length};
ghost use Rattle.form.specs.Numbers.{MAX};
ghost use Rattle.form.specs.Saves.{LIMIT as Saves-as-LIMIT};
ghost use Rattle.form.specs.Writing.{Follows};
ghost use Rattle.form.specs.Rescue.{closes, rescue as Rescue·rescue, told};
ghost use Rattle.normaliser.specs.Answers.{rescued_outcome, rescued_report};
ghost use Rattle.normaliser.specs.Stretches.{Appends};
ghost use Rattle.normaliser.specs.Rescues.{Stretches, Surveyed, Needs};

use crate::telling;
use crate::telling::Passed;
use lexeme::LexemeId;

// How many bytes were cut off at the end, how many strays were left out, and how many Closes were added.
#[derive(Clone, Copy)]
pub struct Report {
    pub cut: usize,
    pub strays: usize,
    pub closes: usize,
}

// How many bytes the rescued save has, and what is told of it.
#[derive(Clone, Copy)]
pub struct Rescued {
    pub written: usize,
    pub report: Report,
}

// Why nothing is written.
#[derive(Clone, Copy, Debug, PartialEq, Eq)]
pub enum RescueError {
    NoRoom(usize),
    TooLong(usize),
}

// Where a stretch of tokens without a stray ends: at a stray, or where reading does, with so many containers open.
#[derive(Clone, Copy)]
enum Ending {
    Stray(usize),
    End(usize, usize),
}

// The stretch from a place outside of every container.
fn stretch(bytes: &[u8], start: usize) -> Ending
    requires { start ≤ length bytes.now }
    ensures { Stretches bytes.now start result }
{
    let mut at = start;
    let mut open: usize = 0;
    loop {
        let Some((token, next)) = telling::pass_token(bytes, at) else {
            return Ending::End(at, open);
        };
        match token {
            Passed::Open => {
                open += 1;
                at = next;
            }
            Passed::Close => {
                if open == 0 {
                    return Ending::Stray(at);
                }
                open -= 1;
                at = next;
            }
            Passed::Other => at = next,
        }
    }
}

// So many Closes after so many bytes of the output. Answers how many bytes there are then.
fn put_closes(out: &mut [u8], need: usize, count: usize) -> usize
    requires { need + 2 * count ≤ MAX }
    ensures { Appends out.old need (closes count) out.new result }
{
    let mut need = need;
    for _ in 0..count {
        need = crate::put_number(out, need, LexemeId::CLOSE, 0, 0);
    }
    need
}

// The stretches of a save, of which the first is known, and then the Closes. What does not fit is counted and not written.
fn pass(bytes: &[u8], first: Ending, out: &mut [u8]) -> Rescued
    requires { (length bytes.now ≤ Saves-as-LIMIT) × Stretches bytes.now 0 first }
    ensures { Surveyed bytes.now out.old out.new result }
{
    let mut at: usize = 0;
    let mut need: usize = 0;
    let mut strays: usize = 0;
    let mut ending = first;
    loop {
        match ending {
            Ending::Stray(end) => {
                need = crate::copy_run(bytes, at, end, out, need);
                strays += 1;
                at = end + 2;
                ending = stretch(bytes, at);
            }
            Ending::End(end, open) => {
                need = crate::copy_run(bytes, at, end, out, need);
                need = put_closes(out, need, open);
                let cut = bytes.len() - end;
                return Rescued {
                    written: need,
                    report: Report {
                        cut,
                        strays,
                        closes: open,
                    },
                };
            }
        }
    }
}

// The bytes that the rescued save has; or 0, where there is room for that of any save so long.
fn needed(bytes: &[u8], first: Ending, room: usize) -> usize
    requires { (length bytes.now ≤ Saves-as-LIMIT) × Stretches bytes.now 0 first }
    ensures { Needs bytes.now room result }
{
    if bytes.len() <= room / 2 {
        return 0;
    }
    let mut none = [0; 1];
    let measured = pass(bytes, first, &mut none[..0]);
    measured.written
}

// The rescued save at the front of the output, or a refusal that leaves the output as it is.
pub fn rescue(bytes: &[u8], out: &mut [u8]) -> Result<Rescued, RescueError>
    ensures { Follows (Rescue·rescue (length out.old) bytes.now) (rescued_outcome result) out.old out.new × (rescued_report result ≡ told (length out.old) bytes.now) }
{
    let len = bytes.len();
    if token::LIMIT < len {
        return Err(RescueError::TooLong(len));
    }
    let first = stretch(bytes, 0);
    let need = needed(bytes, first, out.len());
    if out.len() < need {
        return Err(RescueError::NoRoom(need));
    }
    Ok(pass(bytes, first, out))
}

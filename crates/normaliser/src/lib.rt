// The whole save in normal form, into a lent output; in its shortest spelling; and what can be rescued of a clipped one.
#![tactic(auto)]

mod rescuing;
mod shortening;
mod spelling;
mod telling;

ghost use Rattle.std.specs.Prelude.{◌≡◌, ◌+◌, ◌-◌, ◌≤◌, ◌<◌, length};
ghost use Rattle.form.specs.Numbers.{MAX};
ghost use Rattle.form.specs.Saves.{LIMIT as Saves-as-LIMIT};
ghost use Rattle.form.specs.Spelling.{spell};
ghost use Rattle.form.specs.Writing.{Follows, normalise as Writing·normalise};
ghost use Rattle.writer.specs.Layouts.{id_number};
ghost use Rattle.normaliser.specs.Answers.{normalised_outcome};
ghost use Rattle.normaliser.specs.Spellings.{number_value};
ghost use Rattle.normaliser.specs.Stretches.{Style, normal_style, saved, Passed, between, Placed, count_of, Respells, Appends};
ghost use Rattle.normaliser.specs.declared.NormalError.TheVariants as Refused;

pub use crate::rescuing::{Report, RescueError, Rescued, rescue};
pub use crate::shortening::shorten;
use crate::spelling::Number;
use lexeme::LexemeId;
use payload::{LexError, LexErrorAt};
use writer::WriteError;

// Why nothing is written.
#[derive(Clone, Copy, Debug, PartialEq, Eq)]
pub enum NormalError {
    Refused(LexErrorAt),
    WideLookup(usize),
    NoRoom(usize),
    TooLong(usize),
}

impl From<LexErrorAt> for NormalError {
    ghost from_gives = { λ e r. r ≡ Refused.Refused e };

    fn from(e: LexErrorAt) -> NormalError {
        NormalError::Refused(e)
    }
}

// The refusal of the token at a place.
fn refused(kind: LexError, at: usize) -> LexErrorAt
    ensures { result ≡ record { at = at; kind = kind } }
{
    LexErrorAt { at, kind }
}

// Where bytes go in an output after so many: at its end, where those do not fit.
fn place(need: usize, room: usize) -> usize
    ensures { Placed need room result }
{
    if need <= room { need } else { room }
}

// How many bytes a token is spelled by, whether they fit or not; none, where it has no spelling.
fn counted(written: Result<usize, WriteError>) -> Option<usize>
    ensures { result ≡ count_of written }
{
    match written {
        Ok(n) => Some(n),
        Err(WriteError::NoRoom(n)) => Some(n),
        Err(_) => None,
    }
}

// The token at a place, in its normal spelling after so many bytes of the output: the place after it, and how many bytes it is spelled by.
fn respell(
    bytes: &[u8],
    at: usize,
    out: &mut [u8],
    need: usize,
) -> Result<(usize, usize), NormalError>
    requires { at < length bytes.now }
    ensures { Respells bytes.now at out.old need out.new result }
{
    let (t, next) = token::read_token(bytes, at).map_err(|kind| refused(kind, at))?;
    let to = place(need, out.len());
    let Some(n) = counted(writer::write(bytes, t, &mut out[to..])) else {
        // No text that was read is long or at a bad place, and no id that was read as a plain one is reserved.
        return Err(NormalError::WideLookup(at));
    };
    Ok((next, n))
}

// An id and a number after so many bytes of the output. Answers how many there are then.
fn put_number(out: &mut [u8], need: usize, id: LexemeId, width: u8, x: u64) -> usize
    requires { need + (2 + width) ≤ MAX }
    ensures { Appends out.old need (id_number id.0 width x) out.new result }
{
    let to = place(need, out.len());
    let _ = writer::write_number(id, width, x, &mut out[to..]);
    need + (2 + width as usize)
}

// A float or a lookup in its normal spelling after so many bytes of the output. Answers how many there are then.
fn put_spelling(out: &mut [u8], need: usize, x: Number) -> usize
    requires { need + 10 ≤ MAX }
    ensures { Appends out.old need (spell (number_value x)) out.new result }
{
    match x {
        Number::F64(x) => put_number(out, need, LexemeId::F64, 8, x),
        Number::Lookup(x) => put_number(out, need, LexemeId::LOOKUP_U24, 3, x as u64),
    }
}

// The bytes between two places, as they stand.
fn copy_run(bytes: &[u8], start: usize, end: usize, out: &mut [u8], need: usize) -> usize
    requires { (start ≤ end) × (end ≤ length bytes.now) × (need + (end - start) ≤ MAX) }
    ensures { Appends out.old need (between bytes.now start end) out.new result }
{
    if start == end {
        return need;
    }
    let to = place(need, out.len());
    let _ = writer::copy(&bytes[start..end], &mut out[to..]);
    need + (end - start)
}

// A pass over a save, which spells its tokens in a style. What does not fit is counted and not written: so on an output of no bytes the
// pass measures.
trait Pass {
    ghost style: { Style };

    fn pass(bytes: &[u8], out: &mut [u8]) -> Result<usize, NormalError>
        requires { length bytes.now ≤ Saves-as-LIMIT }
        ensures { Passed style bytes.now out.old out.new (normalised_outcome result) };
}

// The save in a style at the front of the output, or a refusal that leaves the output as it is.
fn pass_twice<P: Pass>(bytes: &[u8], out: &mut [u8]) -> Result<usize, NormalError>
    ensures { Follows (saved P.style (length out.old) bytes.now) (normalised_outcome result) out.old out.new }
{
    let len = bytes.len();
    if token::LIMIT < len {
        return Err(NormalError::TooLong(len));
    }
    let need = P::pass(bytes, &mut out[..0])?;
    if out.len() < need {
        return Err(NormalError::NoRoom(need));
    }
    P::pass(bytes, out)
}

struct Normal;

impl Pass for Normal {
    ghost style = { normal_style };

    // The tokens that stand as they are spelled, then the one after them in its normal spelling, and so on.
    fn pass(bytes: &[u8], out: &mut [u8]) -> Result<usize, NormalError> {
        let mut at: usize = 0;
        let mut need: usize = 0;
        loop {
            let run = spelling::standing(bytes, at);
            let end = run.end;
            // The run is copied in each arm: so each end of `standing`'s loop is the arm itself.
            match run.next {
                Some((x, next)) => {
                    need = copy_run(bytes, at, end, out, need);
                    need = put_spelling(out, need, x);
                    at = next;
                }
                None => {
                    need = copy_run(bytes, at, end, out, need);
                    if end == bytes.len() {
                        return Ok(need);
                    }
                    let (next, n) = respell(bytes, end, out, need)?;
                    need += n;
                    at = next;
                }
            }
        }
    }
}

// The normal form at the front of the output, or a refusal that leaves the output as it is.
pub fn normalise(bytes: &[u8], out: &mut [u8]) -> Result<usize, NormalError>
    ensures { Follows (Writing·normalise (length out.old) bytes.now) (normalised_outcome result) out.old out.new }
{
    pass_twice::<Normal>(bytes, out)
}

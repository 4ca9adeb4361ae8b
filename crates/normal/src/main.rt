// Writes the normal form of standard input, of up to 8,192 bytes, to standard output; or the line of its first refusal.
#![tactic(auto)]

ghost use Rattle.std.specs.Prelude.{◌≤◌, ◌≡◌, ◌∷◌, [], length};
ghost use Rattle.form.specs.Refusals as R;
ghost use Rattle.form.specs.Ascii.{ascii, decimal, line};
ghost use Rattle.form.specs.Writing.{written, leaves};
ghost use Rattle.form.specs.Listing.{error_line};
ghost use Rattle.form.specs.Put.{Put};
ghost use Rattle.payload.specs.Answers.{refusal_of};
ghost use Rattle.normal.specs.Lines.{shown};

use normaliser::NormalError;
use payload::{LexError, LexErrorAt};
use text::Printer;

// The line `error`, a word and a position, at the front of out; its length.
fn put_line(out: &mut [u8], word: &[u8], at: usize) -> usize
    ensures { Put out.old 0 (line (ascii "error") (word.now ∷ decimal at ∷ [])) out.new result }
{
    let mut p = Printer { out, at: 0 };
    p.put_error(word, at as u64);
    p.at
}

// The line of a save that is refused at a position.
fn put_refused(out: &mut [u8], e: LexErrorAt) -> usize
    ensures { Put out.old 0 (error_line (refusal_of e)) out.new result }
{
    match e.kind {
        LexError::Eof(_) => put_line(out, b"eof", e.at),
        LexError::InvalidRgb => put_line(out, b"rgb", e.at),
    }
}

// The line of a lookup that is too wide to be written.
fn put_wide(out: &mut [u8], at: usize) -> usize
    ensures { Put out.old 0 (error_line (R.WideLookup at)) out.new result }
{
    put_line(out, b"wide", at)
}

// The normal form of a save at the front of out, or the line of its first refusal; its length.
fn form(bytes: &[u8], out: &mut [u8]) -> usize
    requires { (length bytes.now ≤ 8192) × (40960 ≤ length out.old) }
    ensures len { result ≡ length (shown bytes.now) }
    ensures output { out.new ≡ leaves (written (shown bytes.now)) out.old }
{
    match normaliser::normalise(bytes, out) {
        Ok(n) => n,
        Err(NormalError::Refused(e)) => put_refused(out, e),
        Err(NormalError::WideLookup(at)) => put_wide(out, at),
        // Neither comes: there is room for every normal form.
        Err(NormalError::NoRoom(_)) => unreachable!(),
        Err(NormalError::TooLong(_)) => unreachable!(),
    }
}

// Writes the normal form of a save by way of out, or why it has none.
fn show(rt: &HostRuntime, bytes: &[u8], out: &mut [u8])
    requires { (length bytes.now ≤ 8192) × (40960 ≤ length out.old) }
{
    let n = form(bytes, out);
    stdio::print(rt, &out[..n]);
}

fn main(rt: HostRuntime) {
    let mut bytes = [0u8; 8193];
    // Room for every normal form: five bytes for each of the save.
    let mut out = [0u8; 40960];
    match stdio::read_all(&mut rt.stdin(), &mut bytes) {
        Ok(n) if n <= 8192 => show(&rt, &bytes[..n], &mut out),
        Ok(_) => {
            stdio::print(&rt, b"too long\n");
        }
        Err(_) => {
            stdio::write_all(&mut rt.stderr(), b"cannot read\n");
        }
    }
}

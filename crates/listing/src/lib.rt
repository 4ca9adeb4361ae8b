// The dump's text of a save, into a lent output.
#![tactic(auto)]

mod line;
mod tally;

ghost use Rattle.std.specs.Prelude.{◌≡◌, length};
ghost use Rattle.form.specs.Refusals.{refusal_at};
ghost use Rattle.form.specs.Ascii.{spaced};
ghost use Rattle.form.specs.Writing.{Follows};
ghost use Rattle.form.specs.Listing.{count_words, end_line, error_line, listing, list as Listing·list};
ghost use Rattle.payload.specs.Answers.{fault_of};
ghost use Rattle.form.specs.Put.{Put};
ghost use Rattle.text.specs.Puts.{Puts};
ghost use Rattle.listing.specs.Answers.{listed_outcome};
ghost use Rattle.listing.specs.Tallies.{counted};

use crate::tally::Tally;
use payload::LexError;
use text::Printer;

// Why a save is not listed: the number of bytes needed, or that of an input that is too long.
#[derive(Clone, Copy, Debug, PartialEq, Eq)]
pub enum ListError {
    NoRoom(usize),
    TooLong(usize),
}

// The last line of a save that is refused at a position.
fn put_refusal(p: &mut Printer<'_>, e: LexError, at: usize)
    ensures { Puts p.old p.new (error_line (refusal_at at (fault_of e))) }
{
    match e {
        LexError::Eof(_) => p.put_error(b"eof", at as u64),
        LexError::InvalidRgb => p.put_error(b"rgb", at as u64),
    }
}

// The counts, each with its word in front.
fn put_counts(p: &mut Printer<'_>, c: Tally)
    ensures { Puts p.old p.new (spaced (count_words (counted c))) }
{
    p.put_field(b"tokens", c.tokens as u64);
    p.put_field(b"containers", c.containers as u64);
    p.put_field(b"keys", c.keys as u64);
    p.put_field(b"stray", c.strays as u64);
}

// The last line of a save of len bytes that is read to its end.
fn put_end(p: &mut Printer<'_>, len: usize, c: Tally)
    ensures { Puts p.old p.new (end_line len (counted c)) }
{
    p.put_all(b"end");
    p.put_number(len as u64);
    put_counts(p, c);
    p.put(b'\n');
}

// The whole text from the front of the output on, as far as it reaches; its length.
fn put_listing(out: &mut [u8], bytes: &[u8]) -> usize
    ensures { Put out.old 0 (listing bytes.now) out.new result }
{
    let mut p = Printer { out, at: 0 };
    let mut at: usize = 0;
    let mut tally = Tally::default();
    while at < bytes.len() {
        match token::read_token(bytes, at) {
            Ok((t, next)) => {
                line::put_line(&mut p, bytes, at, t);
                tally = tally.after(t);
                at = next;
            }
            Err(e) => {
                put_refusal(&mut p, e, at);
                return p.at;
            }
        }
    }
    put_end(&mut p, bytes.len(), tally);
    p.at
}

// The dump at the front of the output, and its length; or an error that leaves the output as it is.
pub fn list(bytes: &[u8], out: &mut [u8]) -> Result<usize, ListError>
    ensures { Follows (Listing·list (length out.old) bytes.now) (listed_outcome result) out.old out.new }
{
    let len = bytes.len();
    if token::LIMIT < len {
        return Err(ListError::TooLong(len));
    }
    let needed = put_listing(&mut out[..0], bytes);
    if out.len() < needed {
        return Err(ListError::NoRoom(needed));
    }
    put_listing(out, bytes);
    Ok(needed)
}

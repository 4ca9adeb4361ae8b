// The checked writer: one token at the front of a lent output, or bytes that are spelled already, or an id and a number.
#![tactic(auto)]

mod layout;
mod put;

ghost use Rattle.std.specs.Prelude.{◌≡◌, ◌++◌, ◌^◌, ltb, length};
ghost use Rattle.form.specs.Numbers.{le_bytes};
ghost use Rattle.form.specs.Writing.{outcome, Follows, fitted};
ghost use Rattle.writer.specs.Layouts.{write_by, Judged};
ghost use Rattle.writer.specs.Writes.{write_token, write_shortest_token, wrote_outcome, Fitted};
ghost use Rattle.writer.specs.declared.WriteError.TheVariants as Refused;

use crate::layout::Layout;
use crate::put::Pen;
use lexeme::LexemeId;
use payload::Text;
use token::{BadPlace, Token};

// Why nothing is written.
#[derive(Clone, Copy, Debug, PartialEq, Eq)]
pub enum WriteError {
    LongString(usize),
    WideLookup(usize),
    ReservedId(usize),
    NoRoom(usize),
    BadPlace(usize),
}

impl From<BadPlace> for WriteError {
    ghost from_gives = { λ e r. r ≡ Refused.BadPlace e.0 };

    fn from(e: BadPlace) -> WriteError {
        WriteError::BadPlace(e.0)
    }
}

// Bytes of this number, by the room that there is.
fn fit(need: usize, room: usize) -> Result<usize, WriteError>
    ensures { Fitted need room result }
{
    if need <= room {
        Ok(need)
    } else {
        Err(WriteError::NoRoom(need))
    }
}

// Whether two bytes hold the length of a text.
fn is_short(len: usize) -> bool
    ensures { result ≡ ltb len 65536 }
{
    len < 65536
}

// Whether three bytes hold the number of a lookup.
fn is_narrow(n: u32) -> bool
    ensures { result ≡ ltb n (2 ^ 24) }
{
    n < 0x100_0000
}

fn judge_text(bytes: &[u8], id: LexemeId, t: Text, room: usize) -> Result<usize, WriteError>
    ensures { wrote_outcome result ≡ outcome (write_by room bytes.now (Layout.Text id t)) }
{
    token::text(bytes, t)?;
    let len = t.len;
    if !is_short(len) {
        return Err(WriteError::LongString(0));
    }
    fit(4 + len, room)
}

fn judge_lookup(n: u32, room: usize) -> Result<usize, WriteError>
    ensures { Judged room (Layout.Lookup n) result }
{
    if is_narrow(n) {
        return fit(5, room);
    }
    Err(WriteError::WideLookup(0))
}

// An id that stands alone has two bytes.
fn judge_plain(room: usize) -> Result<usize, WriteError>
    ensures { Fitted 2 room result }
{
    fit(2, room)
}

fn judge_id(x: u16, room: usize) -> Result<usize, WriteError>
    ensures { Judged room (Layout.Id x) result }
{
    let id = LexemeId::new(x);
    if id.is_id() {
        return judge_plain(room);
    }
    Err(WriteError::ReservedId(0))
}

// The text is of no bytes.
fn judge_empty(bytes: &[u8], t: Text, room: usize) -> Result<usize, WriteError>
    ensures { wrote_outcome result ≡ outcome (write_by room bytes.now (Layout.Empty t)) }
{
    token::text(bytes, t)?;
    judge_plain(room)
}

// What a write of a token so laid out answers.
fn judge(bytes: &[u8], p: Layout, room: usize) -> Result<usize, WriteError>
    ensures { wrote_outcome result ≡ outcome (write_by room bytes.now p) }
{
    match p {
        Layout::Number(_, width, _) => fit(2 + width as usize, room),
        Layout::Text(id, t) => judge_text(bytes, id, t, room),
        Layout::Empty(t) => judge_empty(bytes, t, room),
        Layout::Lookup(n) => judge_lookup(n, room),
        Layout::Rgb(c) => match c.a {
            None => fit(24, room),
            Some(_) => fit(30, room),
        },
        Layout::Id(x) => judge_id(x, room),
    }
}

// A token by its layout.
fn write_layout(bytes: &[u8], p: Layout, out: &mut [u8]) -> Result<usize, WriteError>
    ensures { Follows (write_by (length out.old) bytes.now p) (wrote_outcome result) out.old out.new }
{
    let n = judge(bytes, p, out.len())?;
    let mut pen = Pen { out, at: 0 };
    pen.layout(bytes, p);
    Ok(n)
}

// The token at the front of the output, or a refusal that leaves the output as it is. A string's text stands in bytes.
pub fn write(bytes: &[u8], token: Token, out: &mut [u8]) -> Result<usize, WriteError>
    ensures { Follows (write_token (length out.old) bytes.now token) (wrote_outcome result) out.old out.new }
{
    let p = layout::laid_out(token);
    write_layout(bytes, p, out)
}

// The same in the token's shortest spelling: the fewest bytes that read to it.
pub fn write_shortest(bytes: &[u8], token: Token, out: &mut [u8]) -> Result<usize, WriteError>
    ensures { Follows (write_shortest_token (length out.old) bytes.now token) (wrote_outcome result) out.old out.new }
{
    let p = layout::shortest(token);
    write_layout(bytes, p, out)
}

// The bytes as they are at the front of the output, or a refusal that leaves the output as it is.
pub fn copy(src: &[u8], out: &mut [u8]) -> Result<usize, WriteError>
    ensures { Follows (fitted (length out.old) src.now) (wrote_outcome result) out.old out.new }
{
    let n = fit(src.len(), out.len())?;
    let mut pen = Pen { out, at: 0 };
    pen.all(src);
    Ok(n)
}

// An id and the low width bytes of a number at the front of the output, or a refusal that leaves the output as it is.
pub fn write_number(id: LexemeId, width: u8, x: u64, out: &mut [u8]) -> Result<usize, WriteError>
    ensures { Follows (fitted (length out.old) (le_bytes 2 id.0 ++ le_bytes width x)) (wrote_outcome result) out.old out.new }
{
    let w = width as usize;
    let n = fit(2 + w, out.len())?;
    let mut pen = Pen { out, at: 0 };
    pen.id_number(id, w, x);
    Ok(n)
}

// Payload reads: a slice and a place in, a value and the place after it out, or a refusal. No position is known here. Those that are marked to be
// inlined are arms of token's read, which is compiled into each of its callers: with so many places they would be calls.
#![tactic(auto)]

pub mod answers;
pub mod bits;
mod colour;
mod compact;
mod numbers;

ghost use Rattle.std.specs.Prelude.{◌≡◌, not, eqb};
ghost use Rattle.std.specs.Int.{w32, w64};
ghost use Rattle.std.proofs.Common.{to_z};
ghost use Rattle.form.specs.Readers.{at as read_at, mapped, placed};
ghost use Rattle.form.specs.Reading.{next, num, string, rgb};
ghost use Rattle.payload.specs.Answers.{read_as, lexed_as, colour_of, text_of};
ghost use Rattle.payload.specs.Compact.{compact};

pub use crate::answers::{Eof, LexError, LexErrorAt, Read, Rgb, Text};
pub use crate::numbers::signed64;
use lexeme::LexemeId;

// An id: two bytes.
pub fn read_id(bytes: &[u8], at: usize) -> Read<LexemeId>
    ensures { read_as (λ x. x.0) result ≡ read_at (num 2) bytes.now at }
{
    let (id, next) = numbers::read_width(bytes, at, 2)?;
    Ok((LexemeId::new(id as u16), next))
}

// The place of the next bytes, so many. Every read asks for its bytes here, and hands on how many are missing.
pub fn read_bytes(bytes: &[u8], at: usize, count: usize) -> Read<Text>
    ensures { read_as (λ x. x) result ≡ placed text_of (read_at (next count) bytes.now at) }
{
    if !split::has(bytes, at, count) {
        let missing = count - split::left(bytes, at);
        return Err(Eof(missing));
    }
    let end = at + count;
    let text = Text {
        start: at,
        len: count,
    };
    Ok((text, end))
}

// A string: two bytes of length, and as many bytes of text.
#[inline(always)]
pub fn read_string(bytes: &[u8], at: usize) -> Read<Text>
    ensures { read_as (λ x. x) result ≡ placed text_of (read_at string bytes.now at) }
{
    let (len, start) = numbers::read_width(bytes, at, 2)?;
    read_bytes(bytes, start, len as usize)
}

// A bool: one byte, true where it is not zero.
pub fn read_bool(bytes: &[u8], at: usize) -> Read<bool>
    ensures { read_as (λ x. x) result ≡ mapped (λ x. not (eqb x 0)) (read_at (num 1) bytes.now at) }
{
    let (truth, next) = numbers::read_width(bytes, at, 1)?;
    Ok((truth != 0, next))
}

// An unsigned number of four bytes.
pub fn read_u32(bytes: &[u8], at: usize) -> Read<u32>
    ensures { read_as (λ x. x) result ≡ read_at (num 4) bytes.now at }
{
    numbers::read_width32(bytes, at, 4)
}

// An unsigned number of eight bytes.
#[inline(always)]
pub fn read_u64(bytes: &[u8], at: usize) -> Read<u64>
    ensures { read_as (λ x. x) result ≡ read_at (num 8) bytes.now at }
{
    numbers::read_width(bytes, at, 8)
}

// A signed number of four bytes.
pub fn read_i32(bytes: &[u8], at: usize) -> Read<i32>
    ensures { read_as (λ x. x) result ≡ mapped (to_z w32) (read_at (num 4) bytes.now at) }
{
    let (x, next) = numbers::read_width(bytes, at, 4)?;
    Ok((numbers::signed32(x), next))
}

// A signed number of eight bytes.
#[inline(always)]
pub fn read_i64(bytes: &[u8], at: usize) -> Read<i64>
    ensures { read_as (λ x. x) result ≡ mapped (to_z w64) (read_at (num 8) bytes.now at) }
{
    let (x, next) = numbers::read_width(bytes, at, 8)?;
    Ok((numbers::signed64(x), next))
}

// The number that the four bytes of a float spell.
pub fn read_f32(bytes: &[u8], at: usize) -> Read<u32>
    ensures { read_as (λ x. x) result ≡ read_at (num 4) bytes.now at }
{
    read_u32(bytes, at) // raw bytes
}

// The number that the eight bytes of a float spell.
#[inline(always)]
pub fn read_f64(bytes: &[u8], at: usize) -> Read<u64>
    ensures { read_as (λ x. x) result ≡ read_at (num 8) bytes.now at }
{
    read_u64(bytes, at)
}

// A lookup of one byte.
pub fn read_lookup_u8(bytes: &[u8], at: usize) -> Read<u8>
    ensures { read_as (λ x. x) result ≡ read_at (num 1) bytes.now at }
{
    let (x, next) = numbers::read_width(bytes, at, 1)?;
    Ok((x as u8, next))
}

// A lookup of two bytes.
pub fn read_lookup_u16(bytes: &[u8], at: usize) -> Read<u16>
    ensures { read_as (λ x. x) result ≡ read_at (num 2) bytes.now at }
{
    let (x, next) = numbers::read_width(bytes, at, 2)?;
    Ok((x as u16, next))
}

// A lookup of three bytes.
pub fn read_lookup_u24(bytes: &[u8], at: usize) -> Read<u32>
    ensures { read_as (λ x. x) result ≡ read_at (num 3) bytes.now at }
{
    numbers::read_width32(bytes, at, 3)
}

// A lookup of four bytes.
pub fn read_lookup_u32(bytes: &[u8], at: usize) -> Read<u32>
    ensures { read_as (λ x. x) result ≡ read_at (num 4) bytes.now at }
{
    read_u32(bytes, at) // an index
}

// The number that the eight bytes of a compact float spell.
pub fn read_compact_f64(bytes: &[u8], at: usize, width: usize, negative: bool) -> Read<u64>
    ensures { read_as (λ x. x) result ≡ compact width negative bytes.now at }
{
    let (x, next) = numbers::read_width(bytes, at, compact::capped(width))?;
    if negative {
        Ok((compact::negate(x), next))
    } else {
        Ok((x, next))
    }
}

// A colour, after its id. It is read in the bytes from the place on: all places inside it are then constants.
pub fn read_rgb(bytes: &[u8], at: usize) -> Result<(Rgb, usize), LexError>
    ensures { lexed_as colour_of result ≡ read_at rgb bytes.now at }
{
    let rest = split::split_rest(bytes, at);
    let (colour, n) = colour::read_colour(rest, 0)?;
    let next = at + n;
    Ok((colour, next))
}

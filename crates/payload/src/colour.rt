// Colours.
ghost use Rattle.std.specs.Prelude.{◌≡◌};
ghost use Rattle.form.specs.Readers.{at as read_at};
ghost use Rattle.form.specs.Reading.{channel, channels, rgb, alpha_end, with_alpha, ending, headed};
ghost use Rattle.payload.specs.Answers.{read_as, lexed_as, colour_of};
ghost use Rattle.payload.specs.Colour.{channel_of};

use crate::answers::{LexError, Read, Rgb};
use lexeme::{LexemeId, number};

// An id and the four bytes after it.
#[derive(Clone, Copy)]
struct Channel {
    pub id: LexemeId,
    pub value: u32,
}

fn read_channel(bytes: &[u8], at: usize) -> Read<Channel>
    ensures { read_as channel_of result ≡ read_at channel bytes.now at }
{
    let (id, start) = crate::read_id(bytes, at)?;
    let (value, next) = crate::read_u32(bytes, start)?;
    Ok((Channel { id, value }, next))
}

// Whether a colour begins as it must.
fn begins(o: LexemeId, r: LexemeId, g: LexemeId, b: LexemeId) -> bool
    ensures { result ≡ headed o.0 r.0 g.0 b.0 }
{
    if !o.is(LexemeId::OPEN) {
        return false;
    }
    if !r.is(LexemeId::U32) {
        return false;
    }
    if !g.is(LexemeId::U32) {
        return false;
    }
    b.is(LexemeId::U32)
}

// A fourth channel's number and the end, by what stands there.
fn read_last(bytes: &[u8], at: usize, r: u32, g: u32, b: u32) -> Result<(Rgb, usize), LexError>
    ensures { lexed_as colour_of result ≡ read_at (alpha_end r g b) bytes.now at }
{
    let (a, middle) = crate::read_u32(bytes, at)?;
    let (end, next) = crate::read_id(bytes, middle)?;
    if end.is(LexemeId::CLOSE) {
        let a = Some(a);
        Ok((Rgb { r, g, b, a }, next))
    } else {
        Err(LexError::InvalidRgb)
    }
}

// The same, where all its bytes are there.
fn read_alpha(bytes: &[u8], at: usize, r: u32, g: u32, b: u32) -> Result<(Rgb, usize), LexError>
    ensures { lexed_as colour_of result ≡ read_at (with_alpha r g b) bytes.now at }
{
    crate::read_bytes(bytes, at, 6)?;
    read_last(bytes, at, r, g, b)
}

// What follows the third channel.
fn closing(
    bytes: &[u8],
    at: usize,
    end: LexemeId,
    r: u32,
    g: u32,
    b: u32,
) -> Result<(Rgb, usize), LexError>
    ensures { lexed_as colour_of result ≡ read_at (ending end.0 r g b) bytes.now at }
{
    match end.0 {
        number::CLOSE => {
            let a = None;
            Ok((Rgb { r, g, b, a }, at))
        }
        number::U32 => read_alpha(bytes, at, r, g, b),
        _ => Err(LexError::InvalidRgb),
    }
}

// Three channels and what follows them, by what stands there.
fn read_channels(bytes: &[u8], at: usize) -> Result<(Rgb, usize), LexError>
    ensures { lexed_as colour_of result ≡ read_at channels bytes.now at }
{
    let (open, at1) = crate::read_id(bytes, at)?;
    let (r, at2) = read_channel(bytes, at1)?;
    let (g, at3) = read_channel(bytes, at2)?;
    let (b, at4) = read_channel(bytes, at3)?;
    let (end, at5) = crate::read_id(bytes, at4)?;
    if begins(open, r.id, g.id, b.id) {
        closing(bytes, at5, end, r.value, g.value, b.value)
    } else {
        Err(LexError::InvalidRgb)
    }
}

// The same, where its first 22 bytes are there.
pub(crate) fn read_colour(bytes: &[u8], at: usize) -> Result<(Rgb, usize), LexError>
    ensures { lexed_as colour_of result ≡ read_at rgb bytes.now at }
{
    crate::read_bytes(bytes, at, 22)?;
    read_channels(bytes, at)
}

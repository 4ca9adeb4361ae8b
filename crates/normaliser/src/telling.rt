// A token that is passed over: told by its id, and not made.
ghost use Rattle.std.specs.Prelude.{◌≡◌};
ghost use Rattle.form.specs.Table.{after as Table·after};
ghost use Rattle.form.specs.Readers.{at as read_at};
ghost use Rattle.form.specs.Reading.{next, string, rgb, token};
ghost use Rattle.normaliser.specs.Passings.{span_of, Past, After, Told};

use lexeme::{LexemeId, number};

// One end of a container or anything else.
#[derive(Clone, Copy)]
pub(crate) enum Passed {
    Open,
    Close,
    Other,
}

// What follows an id: so many bytes, a text or a colour.
#[derive(Clone, Copy)]
enum Extent {
    Bytes(u8),
    Text,
    Colour,
}

// There is one caller, and no arm has two neighbouring numbers: so it compiles to tables in the caller's loop.
fn span(id: LexemeId) -> Extent
    ensures { result ≡ span_of (Table·after id.0) }
{
    let n = id.0;
    match n {
        number::RGB => Extent::Colour,
        number::QUOTED | number::UNQUOTED | number::STR_SAV03 => Extent::Text,
        number::BOOL | number::LOOKUP_U8 | number::LOOKUP_U8_ALT | number::LOOKUP_U8_SAV03 =>
            Extent::Bytes(1),
        number::LOOKUP_U16 | number::LOOKUP_U16_ALT | number::LOOKUP_U16_SAV03 => Extent::Bytes(2),
        number::LOOKUP_U24 | number::LOOKUP_U24_ALT | number::LOOKUP_U24_SAV03 => Extent::Bytes(3),
        number::U32
        | number::I32
        | number::LOOKUP_U32
        | number::LOOKUP_U32_ALT
        | number::LOOKUP_U32_SAV03 => Extent::Bytes(4),
        number::F32 => Extent::Bytes(4),
        number::U64 | number::I64 | number::F64 => Extent::Bytes(8),
        _ => {
            if n < number::FIXED5_ZERO {
                return Extent::Bytes(0);
            }
            if n <= number::FIXED5_U56 {
                return Extent::Bytes((n - number::FIXED5_ZERO) as u8);
            }
            if n <= number::FIXED5_I56 {
                return Extent::Bytes((n - number::FIXED5_U56) as u8);
            }
            Extent::Bytes(0)
        }
    }
}

fn fixed(bytes: &[u8], at: usize, width: usize) -> Option<usize>
    ensures { Past (read_at (next width) bytes.now at) result }
{
    let (_, next) = payload::read_bytes(bytes, at, width).ok()?;
    Some(next)
}

fn text(bytes: &[u8], at: usize) -> Option<usize>
    ensures { Past (read_at string bytes.now at) result }
{
    let (_, next) = payload::read_string(bytes, at).ok()?;
    Some(next)
}

// The read is compiled as a call, and gets a slice of its own, as in `token`.
fn colour(bytes: &[u8], at: usize) -> Option<usize>
    ensures { Past (read_at rgb bytes.now at) result }
{
    let (_, next) = payload::read_rgb(&bytes[0..], at).ok()?;
    Some(next)
}

// Where what follows an id ends.
fn after(bytes: &[u8], at: usize, extent: Extent) -> Option<usize>
    ensures { After extent bytes.now at result }
{
    match extent {
        Extent::Bytes(width) => fixed(bytes, at, width as usize),
        Extent::Text => text(bytes, at),
        Extent::Colour => colour(bytes, at),
    }
}

// The token at a place, and the place after it; none, where nothing can be read.
pub(crate) fn pass_token(bytes: &[u8], at: usize) -> Option<(Passed, usize)>
    ensures { Told (read_at token bytes.now at) result }
{
    let (id, next) = payload::read_id(bytes, at).ok()?;
    if id.is(LexemeId::OPEN) {
        return Some((Passed::Open, next));
    }
    if id.is(LexemeId::CLOSE) {
        return Some((Passed::Close, next));
    }
    let end = after(bytes, next, span(id))?;
    Some((Passed::Other, end))
}

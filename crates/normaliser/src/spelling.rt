// How tokens are spelled in the normal form, by their ids and payloads. Runs of tokens that stand as they are spelled need no respelling.
ghost use Rattle.std.specs.Prelude.{◌^◌, ◌≤◌, length};
ghost use Rattle.form.specs.Readers.{found};
ghost use Rattle.form.specs.Reading.{string, rgb};
ghost use Rattle.payload.specs.Compact.{compact as Compact·compact};
ghost use Rattle.normaliser.specs.Spellings.{Below, Within, Floats, Indexes, Spelt, SpeltAfter, Ran};

use lexeme::{LexemeId, number};

// A float or a lookup, which may stand by another id than the one that it is spelled by.
#[derive(Clone, Copy)]
pub(crate) enum Number {
    F64(u64),
    Lookup(u32),
}

// The place after a token, and how it is spelled: as it stands, or as a number. The place is first, so that both have it in the same bytes.
#[derive(Clone, Copy)]
enum Spelling {
    Stands(usize),
    Number(usize, Number),
}

// Up to where tokens stand as they are spelled; and how the one after them is, where it is spelled as a number.
#[derive(Clone, Copy)]
pub(crate) struct Run {
    pub end: usize,
    pub next: Option<(Number, usize)>,
}

fn fixed(bytes: &[u8], at: usize, width: usize) -> Option<Spelling>
    ensures { Below (256 ^ width) width bytes.now at result }
{
    if !split::has(bytes, at, width) {
        return None;
    }
    let end = at + width;
    Some(Spelling::Stands(end))
}

// Of a truth's bytes, 0 and 1 are spelled so.
fn truth(bytes: &[u8], at: usize) -> Option<Spelling>
    ensures { Below 2 1 bytes.now at result }
{
    let (x, next) = payload::read_lookup_u8(bytes, at).ok()?;
    if 1 < x {
        return None;
    }
    Some(Spelling::Stands(next))
}

fn string(bytes: &[u8], at: usize) -> Option<Spelling>
    ensures { Within string bytes.now at result }
{
    let (_, next) = payload::read_string(bytes, at).ok()?;
    Some(Spelling::Stands(next))
}

// A colour that reads is spelled so: its ids are judged there. The read is compiled as a call, and gets a slice of its own, as in `token`.
fn colour(bytes: &[u8], at: usize) -> Option<Spelling>
    ensures { Within rgb bytes.now at result }
{
    let (_, next) = payload::read_rgb(&bytes[0..], at).ok()?;
    Some(Spelling::Stands(next))
}

// A lookup that was read; a wide one has no spelling.
fn lookup(x: u32, next: usize) -> Option<Spelling>
    ensures { Indexes (found x next) result }
{
    if 0xff_ffff < x {
        return None;
    }
    Some(Spelling::Number(next, Number::Lookup(x)))
}

// A compact number.
fn compact(bytes: &[u8], at: usize, width: usize, negative: bool) -> Option<Spelling>
    ensures { Floats (Compact·compact width negative bytes.now at) result }
{
    let (x, next) = payload::read_compact_f64(bytes, at, width, negative).ok()?;
    Some(Spelling::Number(next, Number::F64(x)))
}

// The token of an id among those of lookups and compact numbers, which ends at a place.
fn among_lookups(bytes: &[u8], at: usize, id: LexemeId) -> Option<Spelling>
    ensures { SpeltAfter id.0 bytes.now at result }
{
    let n = id.0;
    match n {
        number::LOOKUP_U24 => fixed(bytes, at, 3),
        number::LOOKUP_U8 | number::LOOKUP_U8_ALT | number::LOOKUP_U8_SAV03 => {
            let (x, next) = payload::read_lookup_u8(bytes, at).ok()?;
            lookup(x as u32, next)
        }
        number::LOOKUP_U16 | number::LOOKUP_U16_ALT | number::LOOKUP_U16_SAV03 => {
            let (x, next) = payload::read_lookup_u16(bytes, at).ok()?;
            lookup(x as u32, next)
        }
        number::LOOKUP_U24_ALT | number::LOOKUP_U24_SAV03 => {
            let (x, next) = payload::read_lookup_u24(bytes, at).ok()?;
            lookup(x, next)
        }
        number::LOOKUP_U32 | number::LOOKUP_U32_ALT | number::LOOKUP_U32_SAV03 => {
            let (x, next) = payload::read_lookup_u32(bytes, at).ok()?;
            lookup(x, next)
        }
        _ => {
            if n < number::FIXED5_ZERO {
                return None;
            }
            if n <= number::FIXED5_U56 {
                let width = (n - number::FIXED5_ZERO) as usize;
                return compact(bytes, at, width, false);
            }
            if n <= number::FIXED5_I56 {
                let width = (n - number::FIXED5_U56) as usize;
                return compact(bytes, at, width, true);
            }
            None
        }
    }
}

// How the token at a place is spelled. As in `skip`, no arm has two neighbouring numbers, and there is one caller: so it compiles to jump
// tables in the caller's loop.
fn spell(bytes: &[u8], at: usize) -> Option<Spelling>
    ensures { Spelt bytes.now at result }
{
    let (id, next) = payload::read_id(bytes, at).ok()?;
    let n = id.0;
    match n {
        number::QUOTED | number::UNQUOTED => string(bytes, next),
        number::I32 | number::U32 => fixed(bytes, next, 4),
        number::F32 => fixed(bytes, next, 4),
        number::F64 | number::U64 | number::I64 => fixed(bytes, next, 8),
        number::BOOL => truth(bytes, next),
        number::RGB => colour(bytes, next),
        _ => {
            if n < number::LOOKUP_U16 {
                return Some(Spelling::Stands(next));
            }
            if number::STR_SAV03 < n {
                return Some(Spelling::Stands(next));
            }
            among_lookups(bytes, next, id)
        }
    }
}

// The run of tokens from a place on that stand as they are spelled.
pub(crate) fn standing(bytes: &[u8], start: usize) -> Run
    requires { start ≤ length bytes.now }
    ensures { Ran bytes.now start result }
{
    let mut at = start;
    loop {
        match spell(bytes, at) {
            Some(Spelling::Stands(next)) => {
                at = next;
            }
            Some(Spelling::Number(next, x)) => {
                return Run {
                    end: at,
                    next: Some((x, next)),
                };
            }
            None => {
                return Run {
                    end: at,
                    next: None,
                };
            }
        }
    }
}

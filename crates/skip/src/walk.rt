// The walk: ids and what follows them, with a depth.
ghost use Rattle.std.specs.Prelude.{◌≡◌, ◌*◌, ◌≤◌};
ghost use Rattle.std.proofs.Math.Option.{some};
ghost use Rattle.form.specs.Skipping.{passing};
ghost use Rattle.payload.specs.Answers.{read_as};
ghost use Rattle.payload.specs.declared.answers.LexError.TheVariants.{Eof as Lacks};
ghost use Rattle.skip.specs.Skips.{skip_answer};
ghost use Rattle.skip.specs.Walks.{steps_over, walk_after, Turned};

use lexeme::{LexemeId, number};
use payload::{Eof, LexError, LexErrorAt, Read, Text};

// After an id and its payload: on at a depth, or out of the value that the walk began with.
#[derive(Clone, Copy)]
enum Turn {
    On(usize, u64),
    Out(usize),
}

// How many bytes a compact number has after its id: by arithmetic, so that the widths are no jump.
fn compact_width(id: LexemeId) -> usize
    requires { (0x0d47 ≤ id.0) × (id.0 ≤ 0x0d55) }
    ensures { steps_over id.0 ≡ some result }
{
    let offset = (id.0 - number::FIXED5_ZERO) as usize;
    if offset <= 7 { offset } else { offset - 7 }
}

// Where the payload of an id stands; a colour's id stands alone. It has one caller, and no arm has two neighbouring numbers, so that it
// compiles to jump tables in the caller's loop. The compact numbers come last, by their width.
fn skip_payload(bytes: &[u8], at: usize, id: LexemeId) -> Read<Text>
    ensures { read_as (λ _. tt) result ≡ passing id.0 bytes.now at }
{
    let n = id.0;
    match n {
        number::QUOTED | number::UNQUOTED | number::STR_SAV03 => payload::read_string(bytes, at),
        number::BOOL | number::LOOKUP_U8 | number::LOOKUP_U8_ALT | number::LOOKUP_U8_SAV03 => {
            payload::read_bytes(bytes, at, 1)
        }
        number::LOOKUP_U16 | number::LOOKUP_U16_ALT | number::LOOKUP_U16_SAV03 => {
            payload::read_bytes(bytes, at, 2)
        }
        number::LOOKUP_U24 | number::LOOKUP_U24_ALT | number::LOOKUP_U24_SAV03 => {
            payload::read_bytes(bytes, at, 3)
        }
        number::U32
        | number::I32
        | number::LOOKUP_U32
        | number::LOOKUP_U32_ALT
        | number::LOOKUP_U32_SAV03 => payload::read_bytes(bytes, at, 4),
        number::F32 => payload::read_bytes(bytes, at, 4),
        number::U64 | number::I64 | number::F64 => payload::read_bytes(bytes, at, 8),
        _ => {
            if n < number::FIXED5_ZERO {
                return payload::read_bytes(bytes, at, 0);
            }
            if number::FIXED5_I56 < n {
                return payload::read_bytes(bytes, at, 0);
            }
            payload::read_bytes(bytes, at, compact_width(id))
        }
    }
}

// Over what the id just before the place starts.
fn over(bytes: &[u8], at: usize, id: LexemeId, depth: u64) -> Result<Turn, Eof>
    requires { 2 * depth ≤ at }
    ensures { Turned id.0 depth bytes.now at result }
{
    let n = id.0;
    match n {
        number::OPEN => {
            let deeper = depth + 1;
            Ok(Turn::On(at, deeper))
        }
        number::CLOSE => {
            if depth < 2 {
                return Ok(Turn::Out(at));
            }
            let higher = depth - 1;
            Ok(Turn::On(at, higher))
        }
        _ => {
            let (_, end) = skip_payload(bytes, at, id)?;
            if depth == 0 {
                return Ok(Turn::Out(end));
            }
            Ok(Turn::On(end, depth))
        }
    }
}

// The bytes of what begins at a place end too early.
fn cut(e: Eof, at: usize) -> LexErrorAt
    ensures { result ≡ record { at = at; kind = Lacks e.0 } }
{
    LexErrorAt {
        at,
        kind: LexError::from(e),
    }
}

// From the id that stands just before the place to the end of the value that it starts.
pub(crate) fn skip_from(bytes: &[u8], start: usize, first: LexemeId) -> Result<usize, LexErrorAt>
    ensures { skip_answer result ≡ walk_after first.0 0 bytes.now start }
{
    let mut at = start;
    let mut id = first;
    let mut depth: u64 = 0;
    loop {
        match over(bytes, at, id, depth).map_err(|e| cut(e, at))? {
            Turn::On(end, inner) => {
                (id, at) = payload::read_id(bytes, end).map_err(|e| cut(e, end))?;
                depth = inner;
            }
            Turn::Out(end) => return Ok(end),
        }
    }
}

// The walk from key to key, over tokens that are told by their ids.
#![tactic(auto)]

ghost use Rattle.std.specs.Prelude.{◌≡◌, ◌-◌, is_some, not};
ghost use Rattle.std.proofs.Math.Option.{none, some};
ghost use Rattle.form.specs.Values.{Id};
ghost use Rattle.form.specs.Readers.{at as read_at};
ghost use Rattle.form.specs.Reading.{rgb, token};
ghost use Rattle.form.specs.Keys.{makes_key};
ghost use Rattle.keys.specs.Passing.{Past, Told, ToldAfter, ahead_at, asked};
ghost use Rattle.keys.specs.Seeking.{wants, NextKey};

use lexeme::{LexemeId, number};
use payload::{LexError, LexErrorAt};

// A key's place, and the place after it.
#[derive(Clone, Copy, Debug, PartialEq, Eq)]
pub struct Key {
    pub at: usize,
    pub end: usize,
}

// What the walk goes by, of a token: one end of a container, Equal, a plain id, or anything else.
#[derive(Clone, Copy)]
enum Passed {
    Open,
    Close,
    Equal,
    Plain(LexemeId),
    Other,
}

// Whether a plain id is wanted: every token is, or the id that is named.
fn is_wanted(id: LexemeId, wanted: Option<LexemeId>) -> bool
    ensures { result ≡ wants wanted (Id id.0) }
{
    let Some(named) = wanted else {
        return true;
    };
    id.is(named)
}

// Whether a token that is no plain id is wanted. By both cases: as `is_none` it is compared anew for each token.
fn is_other_wanted(wanted: Option<LexemeId>) -> bool
    ensures { is_some wanted ≡ not result }
{
    match wanted {
        Some(_) => false,
        None => true,
    }
}

fn fixed(bytes: &[u8], at: usize, width: usize) -> Result<(Passed, usize), LexError>
    ensures { Past (some width) bytes.now at result }
{
    let (_, next) = payload::read_bytes(bytes, at, width)?;
    Ok((Passed::Other, next))
}

fn string(bytes: &[u8], at: usize) -> Result<(Passed, usize), LexError>
    ensures { Past none bytes.now at result }
{
    let (_, next) = payload::read_string(bytes, at)?;
    Ok((Passed::Other, next))
}

// The read is compiled as a call, and gets a slice of its own, as in `token`.
fn colour(bytes: &[u8], at: usize) -> Result<(Passed, usize), LexError>
    ensures { Told (read_at rgb bytes.now at) result }
{
    let (_, next) = payload::read_rgb(&bytes[0..], at)?;
    Ok((Passed::Other, next))
}

// The token of an id that ends at a place. As in `skip`, no arm has two neighbouring numbers, and there is one caller: so it compiles to
// jump tables in the caller's loop.
fn by_id(bytes: &[u8], at: usize, id: LexemeId) -> Result<(Passed, usize), LexError>
    ensures { ToldAfter id.0 bytes.now at result }
{
    let n = id.0;
    match n {
        number::OPEN => Ok((Passed::Open, at)),
        number::CLOSE => Ok((Passed::Close, at)),
        number::EQUAL => Ok((Passed::Equal, at)),
        number::EMPTY_STRING => fixed(bytes, at, 0),
        number::RGB => colour(bytes, at),
        number::QUOTED | number::UNQUOTED | number::STR_SAV03 => string(bytes, at),
        number::BOOL | number::LOOKUP_U8 | number::LOOKUP_U8_ALT | number::LOOKUP_U8_SAV03 => {
            fixed(bytes, at, 1)
        }
        number::LOOKUP_U16 | number::LOOKUP_U16_ALT | number::LOOKUP_U16_SAV03 => fixed(
            bytes, at, 2,
        ),
        number::LOOKUP_U24 | number::LOOKUP_U24_ALT | number::LOOKUP_U24_SAV03 => fixed(
            bytes, at, 3,
        ),
        number::U32
        | number::I32
        | number::LOOKUP_U32
        | number::LOOKUP_U32_ALT
        | number::LOOKUP_U32_SAV03 => fixed(bytes, at, 4),
        number::F32 => fixed(bytes, at, 4),
        number::U64 | number::I64 | number::F64 => fixed(bytes, at, 8),
        _ => {
            if n < number::FIXED5_ZERO {
                return Ok((Passed::Plain(id), at));
            }
            if n <= number::FIXED5_U56 {
                return fixed(bytes, at, (n - number::FIXED5_ZERO) as usize);
            }
            if n <= number::FIXED5_I56 {
                return fixed(bytes, at, (n - number::FIXED5_U56) as usize);
            }
            Ok((Passed::Plain(id), at))
        }
    }
}

// The token at a place.
fn pass(bytes: &[u8], at: usize) -> Result<(Passed, usize), LexError>
    ensures { Told (read_at token bytes.now at) result }
{
    let (id, next) = payload::read_id(bytes, at)?;
    by_id(bytes, next, id)
}

// Whether the token at a place, told by its id, makes a key of the one that ends there, which is a value if it is directly after an Equal.
fn makes_key(bytes: &[u8], at: usize, value: bool) -> bool
    ensures { result ≡ makes_key value (ahead_at bytes.now at) }
{
    let Ok((follower, _)) = payload::read_id(bytes, at) else {
        return false;
    };
    follower.is(LexemeId::EQUAL) || (!value && follower.is(LexemeId::OPEN))
}

// Whether a token is wanted, and a key: it is a value or not, stands at a depth, and ends at a place.
fn is_key(bytes: &[u8], at: usize, value: bool, depth: usize, wanted: bool) -> bool
    ensures { result ≡ asked wanted value depth bytes.now at }
{
    wanted && depth == 0 && makes_key(bytes, at, value)
}

// The first key that is wanted, of the walk that begins at a place, at depth 0 and with no token before it: every key, or those that are a
// plain id.
pub fn next_key(
    bytes: &[u8],
    from: usize,
    wanted: Option<LexemeId>,
) -> Result<Option<Key>, LexErrorAt>
    ensures { NextKey (wants wanted) bytes.now from result }
{
    let mut at = from;
    let mut depth: usize = 0;
    let mut equal = false;
    while at < bytes.len() {
        // A match, and arms of their own below: so each arm of `by_id` jumps to its arm here.
        let (passed, end) = match pass(bytes, at) {
            Ok(told) => told,
            Err(kind) => return Err(LexErrorAt { at, kind }),
        };
        let value = equal;
        equal = false;
        match passed {
            Passed::Open => depth += 1,
            Passed::Close => depth = depth.saturating_sub(1),
            Passed::Equal => equal = true,
            Passed::Plain(id) => {
                if is_key(bytes, end, value, depth, is_wanted(id, wanted)) {
                    return Ok(Some(Key { at, end }));
                }
            }
            Passed::Other => {
                if is_key(bytes, end, value, depth, is_other_wanted(wanted)) {
                    return Ok(Some(Key { at, end }));
                }
            }
        }
        at = end;
    }
    Ok(None)
}

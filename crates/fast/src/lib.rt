// The fast step: the next token of a window by its kind and length, with its number, length or id in eight held bytes.
#![tactic(auto)]

mod hold;

ghost use Rattle.std.specs.Prelude.{◌≡◌, ◌+◌, ◌≤◌, length, take, replicate};
ghost use Rattle.form.specs.Numbers.{le};
ghost use Rattle.form.specs.Table.{after};
ghost use Rattle.form.specs.Fast.{step_by, fast_step};
ghost use Rattle.lexeme.specs.declared.TokenKind.TheVariants.{Lookup};
ghost use Rattle.fast.specs.Steps.{stepped, slowly, alone_of, named_of, copied, compactly, texted};

use lexeme::{LexemeId, TokenKind, number};

// The kind of the next token and its length, or none where it is not fast; and the eight bytes that are held after it.
#[derive(Clone, Copy)]
pub struct FastToken {
    pub step: Option<(TokenKind, usize)>,
    pub held: [u8; 8],
}

// Not fast: nothing is changed.
fn slow(held: [u8; 8]) -> FastToken
    ensures { result ≡ slowly held }
{
    FastToken { step: None, held }
}

// The bytes after the id, over the front of eight bytes.
fn copy(window: &[u8], kind: TokenKind, width: usize, held: [u8; 8]) -> FastToken
    requires { (width ≤ 8) × (16 ≤ length window.now) }
    ensures { result ≡ copied kind width window.now held }
{
    FastToken {
        step: Some((kind, 2 + width)),
        held: hold::hold(window, 2, width, held),
    }
}

// A lookup: zeros come after its bytes.
fn lookup(window: &[u8], width: usize) -> FastToken
    requires { (width ≤ 8) × (16 ≤ length window.now) }
    ensures { result ≡ copied Lookup width window.now (replicate 8 0) }
{
    copy(window, TokenKind::Lookup, width, [0u8; 8])
}

// A compact number, as eight bytes.
fn compact(window: &[u8], width: usize, negative: bool, held: [u8; 8]) -> FastToken
    requires { (width ≤ 7) × (16 ≤ length window.now) }
    ensures { result ≡ compactly width negative window.now }
{
    let Ok((x, next)) = payload::read_compact_f64(window, 2, width, negative) else {
        return slow(held);
    };
    FastToken {
        step: Some((TokenKind::F64, next)),
        held: hold::spell(x),
    }
}

// A string, where all of it is there: its length is held.
fn string(window: &[u8], kind: TokenKind, held: [u8; 8]) -> FastToken
    requires { 16 ≤ length window.now }
    ensures { result ≡ texted kind window.now held }
{
    let Ok((text, _)) = payload::read_string(window, 2) else {
        return slow(held);
    };
    FastToken {
        step: Some((kind, 4 + text.len)),
        held: hold::hold(window, 2, 2, held),
    }
}

// A token of its id alone.
fn alone(kind: TokenKind, held: [u8; 8]) -> FastToken
    ensures { result ≡ alone_of kind held }
{
    FastToken {
        step: Some((kind, 2)),
        held,
    }
}

// A plain id: its two bytes are held.
fn named(window: &[u8], held: [u8; 8]) -> FastToken
    requires { 16 ≤ length window.now }
    ensures { result ≡ named_of window.now held }
{
    alone(TokenKind::Id, hold::hold(window, 0, 2, held))
}

// The token of an id, which the window begins with.
fn by_id(window: &[u8], id: LexemeId, held: [u8; 8]) -> FastToken
    requires { (16 ≤ length window.now) × (id.0 ≡ le (take 2 window.now)) }
    ensures { stepped result ≡ step_by (after id.0) window.now held }
{
    let zeros = [0u8; 8];
    let n = id.0;
    match n {
        number::EQUAL => alone(TokenKind::Equal, held),
        number::OPEN => alone(TokenKind::Open, held),
        number::CLOSE => alone(TokenKind::Close, held),
        number::U32 => copy(window, TokenKind::U32, 4, held),
        number::I32 => copy(window, TokenKind::I32, 4, held),
        number::F32 => copy(window, TokenKind::F32, 4, held),
        number::U64 => copy(window, TokenKind::U64, 8, held),
        number::I64 => copy(window, TokenKind::I64, 8, held),
        number::F64 => copy(window, TokenKind::F64, 8, held),
        number::BOOL => copy(window, TokenKind::Bool, 1, held),
        number::QUOTED => string(window, TokenKind::Quoted, held),
        number::UNQUOTED | number::STR_SAV03 => string(window, TokenKind::Unquoted, held),
        number::EMPTY_STRING => alone(TokenKind::Quoted, zeros),
        number::RGB => slow(held),
        number::LOOKUP_U8 | number::LOOKUP_U8_ALT | number::LOOKUP_U8_SAV03 => lookup(window, 1),
        number::LOOKUP_U16 | number::LOOKUP_U16_ALT | number::LOOKUP_U16_SAV03 => lookup(window, 2),
        number::LOOKUP_U24 | number::LOOKUP_U24_ALT | number::LOOKUP_U24_SAV03 => lookup(window, 3),
        number::LOOKUP_U32 | number::LOOKUP_U32_ALT | number::LOOKUP_U32_SAV03 => lookup(window, 4),
        number::FIXED5_ZERO..=number::FIXED5_U56 => {
            let width = (n - number::FIXED5_ZERO) as usize;
            compact(window, width, false, held)
        }
        number::FIXED5_I8..=number::FIXED5_I56 => {
            let width = (n - number::FIXED5_U56) as usize;
            compact(window, width, true, held)
        }
        _ => named(window, held),
    }
}

// The next token of a window, with what is held after it. Under 16 bytes, for a colour and for a string that is not wholly there it is not
// fast, and nothing is changed.
pub fn next_token_fast(window: &[u8], held: [u8; 8]) -> FastToken
    ensures { stepped result ≡ fast_step window.now held }
{
    if window.len() < 16 {
        return slow(held);
    }
    let Ok((id, _)) = payload::read_id(window, 0) else {
        return slow(held);
    };
    by_id(window, id, held)
}

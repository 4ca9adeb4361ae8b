// Tokens: a slice and a place in, a token and the place after it out.
#![tactic(auto)]

mod texts;

ghost use Rattle.std.specs.Prelude.{◌≡◌, ℕ};
ghost use Rattle.form.specs.Table.{after};
ghost use Rattle.form.specs.Readers.{at as read_at, placed};
ghost use Rattle.form.specs.Reading.{payload};
ghost use Rattle.payload.specs.Answers.{lexed_as, colour_of};
ghost use Rattle.payload.specs.Compact.{compact};
ghost use Rattle.token.specs.Tokens.{Makes, token_answer, token_of, token_at};
ghost use Rattle.token.specs.declared.Token.TheVariants as T;

pub use crate::texts::{BadPlace, text, text_part};
use lexeme::{LexemeId, number};
use payload::{LexError, Read, Rgb, Text};

// The longest save that is written in normal form or dumped: 2^31 bytes.
pub const LIMIT: usize = 2147483648;

// A string is where its text stands; a float is the number that its bytes spell.
#[derive(Clone, Copy)]
pub enum Token {
    Open,
    Close,
    Equal,
    U32(u32),
    U64(u64),
    I32(i32),
    Bool(bool),
    Quoted(Text),
    Unquoted(Text),
    F32(u32),
    F64(u64),
    Rgb(Rgb),
    I64(i64),
    Lookup(u32),
    Id(u16),
}

// The token of a payload that was read.
fn made<T, F: FnOnce(T) -> Token>(read: Read<T>, make: F) -> Result<(Token, usize), LexError>
    requires { F.IsAlwaysCallable make }
    ensures { Makes (λ x. F.post make x) read result }
{
    let (x, next) = read?;
    Ok((make(x), next))
}

// The same of a lookup's index.
fn lookup<N: Into<u32>>(read: Read<N>) -> Result<(Token, usize), LexError>
    ensures { Makes (λ x t. (n : ℕ) × N.converts x n × (t ≡ T.Lookup n)) read result }
{
    made(read, |x| Token::Lookup(x.into()))
}

// The same of a colour, which is refused where it is none.
fn rgb_token(read: Result<(Rgb, usize), LexError>) -> Result<(Token, usize), LexError>
    ensures { token_answer result ≡ placed token_of (lexed_as colour_of read) }
{
    let (colour, next) = read?;
    // Field by field: as one piece it is stored and loaded at places that overlap, and waits.
    let Rgb { r, g, b, a } = colour;
    Ok((Token::Rgb(Rgb { r, g, b, a }), next))
}

// The same of a compact number.
fn compact_token(
    bytes: &[u8],
    at: usize,
    width: u16,
    negative: bool,
) -> Result<(Token, usize), LexError>
    ensures { token_answer result ≡ placed (λ _. T.F64) (compact width negative bytes.now at) }
{
    made(
        payload::read_compact_f64(&bytes[0..], at, width as usize, negative),
        Token::F64,
    )
}

// The empty string is its id alone: its text stands after it.
fn empty_token(next: usize) -> Token
    ensures { result ≡ T.Quoted (record { start = next; len = 0 }) }
{
    Token::Quoted(Text {
        start: next,
        len: 0,
    })
}

// The token of an id that ends at a place. Reads that are compiled as calls get a slice of their own: the address of this one is then
// nobody's, and it stays in registers.
#[inline(always)]
fn by_id(bytes: &[u8], id: LexemeId, next: usize) -> Result<(Token, usize), LexError>
    ensures { token_answer result ≡ placed token_of (read_at (payload (after id.0)) bytes.now next) }
{
    let n = id.0;
    match n {
        number::EQUAL => Ok((Token::Equal, next)),
        number::OPEN => Ok((Token::Open, next)),
        number::CLOSE => Ok((Token::Close, next)),
        number::U32 => made(payload::read_u32(bytes, next), Token::U32),
        number::I32 => made(payload::read_i32(bytes, next), Token::I32),
        number::F32 => made(payload::read_f32(bytes, next), Token::F32),
        number::U64 => made(payload::read_u64(&bytes[0..], next), Token::U64),
        number::I64 => made(payload::read_i64(&bytes[0..], next), Token::I64),
        number::F64 => made(payload::read_f64(&bytes[0..], next), Token::F64),
        number::BOOL => made(payload::read_bool(bytes, next), Token::Bool),
        number::QUOTED => made(payload::read_string(bytes, next), Token::Quoted),
        number::UNQUOTED | number::STR_SAV03 => {
            made(payload::read_string(bytes, next), Token::Unquoted)
        }
        number::EMPTY_STRING => Ok((empty_token(next), next)),
        number::RGB => rgb_token(payload::read_rgb(&bytes[0..], next)),
        number::LOOKUP_U8 | number::LOOKUP_U8_ALT | number::LOOKUP_U8_SAV03 => lookup(
            payload::read_lookup_u8(bytes, next),
        ),
        number::LOOKUP_U16 | number::LOOKUP_U16_ALT | number::LOOKUP_U16_SAV03 => lookup(
            payload::read_lookup_u16(bytes, next),
        ),
        number::LOOKUP_U24 | number::LOOKUP_U24_ALT | number::LOOKUP_U24_SAV03 => lookup(
            payload::read_lookup_u24(bytes, next),
        ),
        number::LOOKUP_U32 | number::LOOKUP_U32_ALT | number::LOOKUP_U32_SAV03 => lookup(
            payload::read_lookup_u32(bytes, next),
        ),
        number::FIXED5_ZERO..=number::FIXED5_U56 => {
            compact_token(bytes, next, n - number::FIXED5_ZERO, false)
        }
        number::FIXED5_I8..=number::FIXED5_I56 => {
            compact_token(bytes, next, n - number::FIXED5_U56, true)
        }
        _ => Ok((Token::Id(n), next)),
    }
}

// The token at a place, and the place after it. It is compiled into each caller, which makes what it needs of the answer alone: as a call it
// answers in memory.
#[inline(always)]
pub fn read_token(bytes: &[u8], at: usize) -> Result<(Token, usize), LexError>
    ensures { token_answer result ≡ token_at bytes.now at }
{
    let (id, next) = payload::read_id(bytes, at)?;
    by_id(bytes, id, next)
}

// The layout of a token: what its spelling is put together from.
ghost use Rattle.std.specs.Prelude.{◌≡◌};
ghost use Rattle.form.specs.Shortest.{Width};
ghost use Rattle.writer.specs.Layouts.{magnitude as Layouts·magnitude, before_ids, LaysOut, LaysOutShortest};

use lexeme::{LexemeId, number};
use payload::{Rgb, Text, bits};
use token::Token;

#[derive(Clone, Copy)]
pub(crate) enum Layout {
    // An id and a number of so many bytes: of none, where the id stands alone.
    Number(LexemeId, u8, u64),
    // An id, and a text after its length.
    Text(LexemeId, Text),
    // The id of the empty string, which stands for a text of no bytes.
    Empty(Text),
    Lookup(u32),
    Rgb(Rgb),
    Id(u16),
}

pub(crate) fn laid_out(token: Token) -> Layout
    ensures { LaysOut token result }
{
    match token {
        Token::Open => Layout::Number(LexemeId::OPEN, 0, 0),
        Token::Close => Layout::Number(LexemeId::CLOSE, 0, 0),
        Token::Equal => Layout::Number(LexemeId::EQUAL, 0, 0),
        Token::U32(x) => Layout::Number(LexemeId::U32, 4, x as u64),
        Token::U64(x) => Layout::Number(LexemeId::U64, 8, x),
        Token::I32(x) => Layout::Number(LexemeId::I32, 4, bits::of_i32(x)),
        Token::Bool(x) => Layout::Number(LexemeId::BOOL, 1, bits::of_bool(x)),
        Token::Quoted(x) => Layout::Text(LexemeId::QUOTED, x),
        Token::Unquoted(x) => Layout::Text(LexemeId::UNQUOTED, x),
        Token::F32(x) => Layout::Number(LexemeId::F32, 4, x as u64),
        Token::F64(x) => Layout::Number(LexemeId::F64, 8, x),
        Token::Rgb(x) => Layout::Rgb(x),
        Token::I64(x) => Layout::Number(LexemeId::I64, 8, bits::of_i64(x)),
        Token::Lookup(x) => Layout::Lookup(x),
        Token::Id(x) => Layout::Id(x),
    }
}

// How many bytes a number has.
fn width_of(x: u64) -> u8
    ensures { Width x result }
{
    let zeros = u64::leading_zeros(x);
    ((71 - zeros) / 8) as u8
}

// The magnitude of a float, and the id before those of its sign; a float from 2^63 on is the negation of its magnitude.
fn magnitude(x: u64) -> (u64, u16)
    ensures { result ≡ (Layouts·magnitude x, before_ids x) }
{
    if x < 0x8000_0000_0000_0000 {
        return (x, number::FIXED5_ZERO);
    }
    (u64::MAX - x + 1, number::FIXED5_U56)
}

fn float(x: u64) -> Layout
    ensures { LaysOutShortest (Token.F64 x) result }
{
    let (n, before) = magnitude(x);
    let width = width_of(n);
    if 7 < width {
        return Layout::Number(LexemeId::F64, 8, x);
    }
    let id = LexemeId::new(before + width as u16);
    Layout::Number(id, width, n)
}

fn lookup(x: u32) -> Layout
    ensures { LaysOutShortest (Token.Lookup x) result }
{
    let n = x as u64;
    if n < 0x100 {
        return Layout::Number(LexemeId::LOOKUP_U8, 1, n);
    }
    if n < 0x1_0000 {
        return Layout::Number(LexemeId::LOOKUP_U16, 2, n);
    }
    if n < 0x100_0000 {
        return Layout::Number(LexemeId::LOOKUP_U24, 3, n);
    }
    Layout::Number(LexemeId::LOOKUP_U32, 4, n)
}

fn quoted(t: Text) -> Layout
    ensures { LaysOutShortest (Token.Quoted t) result }
{
    if t.len == 0 {
        return Layout::Empty(t);
    }
    Layout::Text(LexemeId::QUOTED, t)
}

// The layout of a token's shortest spelling.
pub(crate) fn shortest(token: Token) -> Layout
    ensures { LaysOutShortest token result }
{
    match token {
        Token::F64(x) => float(x),
        Token::Lookup(x) => lookup(x),
        Token::Quoted(x) => quoted(x),
        _ => laid_out(token),
    }
}

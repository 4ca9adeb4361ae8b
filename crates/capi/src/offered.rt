// A token that a caller hands over: its kind's number, and the words of what it holds.
ghost use Rattle.std.specs.Prelude.{◌≡◌};
ghost use Rattle.payload.specs.Answers.{option_as};
ghost use Rattle.capi.specs.Offered.{bool_token, colour_token, kind_token, offered_token};

use payload::{Rgb, Text};
use token::Token;

fn truth(x: u64) -> Option<Token>
    ensures { option_as (λ t. t) result ≡ bool_token x }
{
    if x <= 1 {
        Some(Token::Bool(x == 1))
    } else {
        None
    }
}

// An alpha is looked at where it is said to be there.
fn colour(r: u64, g: u64, b: u64, has: u64, a: u64) -> Option<Token>
    ensures { option_as (λ t. t) result ≡ colour_token r g b has a }
{
    let r = u32::try_from(r).ok()?;
    let g = u32::try_from(g).ok()?;
    let b = u32::try_from(b).ok()?;
    let a = match has {
        0 => None,
        1 => Some(u32::try_from(a).ok()?),
        _ => return None,
    };
    Some(Token::Rgb(Rgb { r, g, b, a }))
}

fn text(start: u64, len: u64) -> Text
    ensures { result ≡ record { start = start; len = len } }
{
    Text {
        start: start as usize,
        len: len as usize,
    }
}

// A signed number: two's complement of 64 bits.
#[tactic(auto, unfolding(crate::specs::Offered::kind_token, crate::specs::Offered::kind_tokens))]
fn of_words(kind: u32, words: [u64; 5]) -> Option<Token>
    ensures { option_as (λ t. t) result ≡ kind_token kind words }
{
    let [x, y, z, has, a] = words;
    match kind {
        0 => Some(Token::Open),
        1 => Some(Token::Close),
        2 => Some(Token::Equal),
        3 => Some(Token::U32(u32::try_from(x).ok()?)),
        4 => Some(Token::U64(x)),
        5 => Some(Token::I32(i32::try_from(x.cast_signed()).ok()?)),
        6 => truth(x),
        7 => Some(Token::Quoted(text(x, y))),
        8 => Some(Token::Unquoted(text(x, y))),
        9 => Some(Token::F32(u32::try_from(x).ok()?)),
        10 => Some(Token::F64(x)),
        11 => colour(x, y, z, has, a),
        12 => Some(Token::I64(x.cast_signed())),
        13 => Some(Token::Lookup(u32::try_from(x).ok()?)),
        14 => Some(Token::Id(u16::try_from(x).ok()?)),
        _ => None,
    }
}

// Five words are asked for, whatever the kind.
#[tactic(auto, unfolding(crate::specs::Offered::offered_token, crate::specs::Offered::kind_token))]
pub(crate) fn given(kind: u32, words: &[u64]) -> Option<Token>
    ensures { option_as (λ t. t) result ≡ offered_token kind words.now }
{
    of_words(kind, *words.first_chunk()?)
}

// The line of a token.
ghost use Rattle.std.specs.Prelude.{◌≡◌, ◌∷◌};
ghost use Rattle.form.specs.Ascii.{spaced};
ghost use Rattle.text.specs.Puts.{Puts};
ghost use Rattle.listing.specs.Words.{name_of, value_words, colour_words, line_of};

use payload::Rgb;
use text::Printer;
use token::Token;

// The name of a token's kind.
fn name(t: Token) -> &'static [u8]
    ensures { result.now ≡ name_of t }
{
    match t {
        Token::Open => b"open",
        Token::Close => b"close",
        Token::Equal => b"equal",
        Token::U32(_) => b"u32",
        Token::U64(_) => b"u64",
        Token::I32(_) => b"i32",
        Token::Bool(_) => b"bool",
        Token::Quoted(_) => b"quoted",
        Token::Unquoted(_) => b"unquoted",
        Token::F32(_) => b"f32",
        Token::F64(_) => b"f64",
        Token::Rgb(_) => b"rgb",
        Token::I64(_) => b"i64",
        Token::Lookup(_) => b"lookup",
        Token::Id(_) => b"id",
    }
}

// The channels of a colour.
fn put_colour(p: &mut Printer<'_>, c: Rgb)
    ensures { Puts p.old p.new (spaced (colour_words c)) }
{
    p.put_number(u64::from(c.r));
    p.put_number(u64::from(c.g));
    p.put_number(u64::from(c.b));
    if let Some(a) = c.a {
        p.put_number(u64::from(a));
    }
}

// The name of a token's kind and what shows its value, each with a space in front.
fn put_words(p: &mut Printer<'_>, bytes: &[u8], t: Token)
    ensures { Puts p.old p.new (spaced (name_of t ∷ value_words bytes.now t)) }
{
    p.put_word(name(t));
    match t {
        Token::Open | Token::Close | Token::Equal => {}
        Token::U32(x) | Token::Lookup(x) => p.put_number(u64::from(x)),
        Token::U64(x) => p.put_number(x),
        Token::Id(x) => p.put_number(u64::from(x)),
        Token::I32(x) => {
            p.put(b' ');
            p.put_signed(i64::from(x));
        }
        Token::I64(x) => {
            p.put(b' ');
            p.put_signed(x);
        }
        Token::Bool(b) => {
            p.put(b' ');
            p.put_truth(b);
        }
        Token::Quoted(text) | Token::Unquoted(text) => {
            p.put(b' ');
            p.put_text(token::text_part(bytes, text));
        }
        Token::F32(x) => {
            p.put(b' ');
            p.put_le(4, u64::from(x));
        }
        Token::F64(x) => {
            p.put(b' ');
            p.put_le(8, x);
        }
        Token::Rgb(c) => put_colour(p, c),
    }
}

// The line of the token t at a position.
pub(crate) fn put_line(p: &mut Printer<'_>, bytes: &[u8], at: usize, t: Token)
    ensures { Puts p.old p.new (line_of bytes.now at t) }
{
    p.put_decimal(at as u64);
    put_words(p, bytes, t);
    p.put(b'\n');
}

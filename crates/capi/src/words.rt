// What is said of a value: up to seven words of 64 bits, by its type.
ghost use Rattle.std.specs.Prelude.{◌≡◌, ℕ, List, ◌∷◌};
ghost use Rattle.lexeme.specs.Kinds.{kind_number};
ghost use Rattle.capi.specs.Replies.{padded};
ghost use Rattle.capi.specs.Words.{no_words, number_words, bool_words, signed_words, text_words, alpha_words, rgb_words, report_words, token_words};

use lexeme::{LexemeId, TokenKind};
use normaliser::Report;
use payload::{Rgb, Text};
use token::Token;

// A value with words.
pub(crate) trait Words: Copy {
    ghost words: { Self → List ℕ };

    // All seven: zeros come after the last.
    fn words(self) -> [u64; 7]
        ensures { result ≡ padded 7 (words self) };
}

fn one(n: u64) -> [u64; 7]
    ensures { result ≡ padded 7 (number_words n) }
{
    [n, 0, 0, 0, 0, 0, 0]
}

impl Words for () {
    ghost words = { no_words };

    fn words(self) -> [u64; 7] {
        [0; 7]
    }
}

impl Words for bool {
    ghost words = { bool_words };

    fn words(self) -> [u64; 7] {
        one(u64::from(self))
    }
}

impl Words for u8 {
    ghost words = { number_words };

    fn words(self) -> [u64; 7] {
        u64::from(self).words()
    }
}

impl Words for u16 {
    ghost words = { number_words };

    fn words(self) -> [u64; 7] {
        u64::from(self).words()
    }
}

impl Words for u32 {
    ghost words = { number_words };

    fn words(self) -> [u64; 7] {
        u64::from(self).words()
    }
}

impl Words for u64 {
    ghost words = { number_words };

    fn words(self) -> [u64; 7] {
        one(self)
    }
}

impl Words for usize {
    ghost words = { number_words };

    fn words(self) -> [u64; 7] {
        one(self as u64)
    }
}

// Signed numbers: two's complement of 64 bits, whatever their own width.
impl Words for i32 {
    ghost words = { signed_words };

    fn words(self) -> [u64; 7] {
        i64::from(self).words()
    }
}

impl Words for i64 {
    ghost words = { signed_words };

    fn words(self) -> [u64; 7] {
        one(self.cast_unsigned())
    }
}

impl Words for LexemeId {
    ghost words = { λ i. number_words i.0 };

    fn words(self) -> [u64; 7] {
        self.0.words()
    }
}

// A kind by its number.
impl Words for TokenKind {
    ghost words = { λ k. number_words (kind_number k) };

    fn words(self) -> [u64; 7] {
        self.number().words()
    }
}

impl Words for Text {
    ghost words = { text_words };

    fn words(self) -> [u64; 7] {
        [self.start as u64, self.len as u64, 0, 0, 0, 0, 0]
    }
}

// Whether there is a fourth channel, and its value.
fn alpha(a: Option<u32>) -> [u64; 2]
    ensures { result ≡ alpha_words a }
{
    match a {
        None => [0, 0],
        Some(a) => [1, u64::from(a)],
    }
}

impl Words for Rgb {
    ghost words = { rgb_words };

    fn words(self) -> [u64; 7] {
        let [r, g, b] = [u64::from(self.r), u64::from(self.g), u64::from(self.b)];
        let [has, a] = alpha(self.a);
        [r, g, b, has, a, 0, 0]
    }
}

// Of a rescue: the bytes cut, the strays, the Closes.
impl Words for Report {
    ghost words = { report_words };

    fn words(self) -> [u64; 7] {
        let [cut, strays, closes] = [self.cut as u64, self.strays as u64, self.closes as u64];
        [cut, strays, closes, 0, 0, 0, 0]
    }
}

// The number of a kind, and what a token of it holds.
fn held<T: Words>(kind: TokenKind, x: T) -> [u64; 7]
    ensures { result ≡ kind_number kind ∷ padded 6 (T.words x) }
{
    let [a, b, c, d, e, f, _] = x.words();
    [u64::from(kind.number()), a, b, c, d, e, f]
}

impl Words for Token {
    ghost words = { token_words };

    #[tactic(auto, unfolding(form::specs::Values::kind, token::specs::Tokens::value_of))]
    fn words(self) -> [u64; 7] {
        match self {
            Token::Open => held(TokenKind::Open, ()),
            Token::Close => held(TokenKind::Close, ()),
            Token::Equal => held(TokenKind::Equal, ()),
            Token::U32(n) => held(TokenKind::U32, n),
            Token::U64(n) => held(TokenKind::U64, n),
            Token::I32(z) => held(TokenKind::I32, z),
            Token::Bool(b) => held(TokenKind::Bool, b),
            Token::Quoted(t) => held(TokenKind::Quoted, t),
            Token::Unquoted(t) => held(TokenKind::Unquoted, t),
            Token::F32(n) => held(TokenKind::F32, n),
            Token::F64(n) => held(TokenKind::F64, n),
            Token::Rgb(x) => held(TokenKind::Rgb, x),
            Token::I64(z) => held(TokenKind::I64, z),
            Token::Lookup(n) => held(TokenKind::Lookup, n),
            Token::Id(n) => held(TokenKind::Id, n),
        }
    }
}

// The answers of the reads: a value and the place after it, or a refusal.
ghost use Rattle.std.specs.Prelude.{◌≡◌};
ghost use Rattle.payload.specs.declared.answers.LexError.TheVariants as Refused;

use lexeme::LexemeId;

// A read lacks bytes: so many are missing.
#[derive(Clone, Copy, Debug, PartialEq, Eq)]
pub struct Eof(pub usize);

// Why a read is refused: so many bytes are missing, or a colour is none.
#[derive(Clone, Copy, Debug, PartialEq, Eq)]
pub enum LexError {
    Eof(usize),
    InvalidRgb,
}

impl From<Eof> for LexError {
    ghost from_gives = { λ e r. r ≡ Refused.Eof e.0 };

    fn from(e: Eof) -> LexError {
        LexError::Eof(e.0)
    }
}

// Why a token is refused, and the place where it begins.
#[derive(Clone, Copy, Debug, PartialEq, Eq)]
pub struct LexErrorAt {
    pub at: usize,
    pub kind: LexError,
}

// What a read answers that only lacking bytes refuse: a value and the place after it.
pub type Read<T> = Result<(T, usize), Eof>;

// Where the text of a string stands in the input.
#[derive(Clone, Copy)]
pub struct Text {
    pub start: usize,
    pub len: usize,
}

// A colour; its fourth channel may be absent.
#[derive(Clone, Copy)]
pub struct Rgb {
    pub r: u32,
    pub g: u32,
    pub b: u32,
    pub a: Option<u32>,
}

// The answers of the calls: a value and the next cursor, or a refusal.
ghost use Rattle.std.specs.Prelude.{◌≡◌};

use crate::Lexer;
use payload::LexError;

// Why a read is refused, and the position.
#[derive(Clone, Copy, Debug, PartialEq, Eq)]
pub struct LexerError {
    pub position: usize,
    pub kind: LexError,
}

impl LexerError {
    // Where the refused read began.
    pub fn position(self) -> usize
        ensures { result ≡ self.position }
    {
        self.position
    }

    // Why it is refused.
    pub fn kind(self) -> LexError
        ensures { result ≡ self.kind }
    {
        self.kind // the caller has the error still
    }

    // Why it is refused, by the name that the original has for giving the error up.
    pub fn into_kind(self) -> LexError
        ensures { result ≡ self.kind }
    {
        self.kind // and the error is done with
    }
}

// Why a call is refused: the read is, or the offset is too large or the cursor past the input.
#[derive(Clone, Copy, Debug, PartialEq, Eq)]
pub enum Refusal {
    Lexed(LexerError),
    BadPlace(usize),
}

// Why a skip is refused, and the cursor where it ended.
#[derive(Clone, Copy, Debug, PartialEq, Eq)]
pub struct Halt {
    pub refusal: Refusal,
    pub next: Lexer,
}

// What a read answers: a value and the next cursor.
pub type Lexed<T> = Result<(T, Lexer), Refusal>;

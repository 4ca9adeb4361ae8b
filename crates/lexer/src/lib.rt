// The lexer: a cursor by value, whose calls take the input and give the next cursor with the answer.
#![tactic(auto)]

pub mod answers;
mod finding;
mod parts;
mod reads;
mod skips;
mod tokens;

ghost use Rattle.std.specs.Prelude.{◌≤◌, ◌≡◌, ◌&&◌, length, eqb};
ghost use Rattle.form.specs.Numbers.{MAX};
ghost use Rattle.form.specs.Refusals.{refusal_at};
ghost use Rattle.form.specs.Readers.{refused as refused_by};
ghost use Rattle.form.specs.Calls.{cursor_in, at_start, moved_to, position_of, fits, within, positions, gives, reads};
ghost use Rattle.payload.specs.Answers.{fault_of};
ghost use Rattle.lexer.specs.Calls.{cursor_of, refusal_of, staying_call, refused_call};
ghost use Rattle.lexer.specs.Twins.{Ended, next_of, peek_of};

pub use crate::answers::{Halt, Lexed, LexerError, Refusal};
use payload::LexError;

// The place in the input where the next call begins, and the offset of the input's first byte in the file.
#[derive(Clone, Copy, Debug, PartialEq, Eq)]
pub struct Lexer {
    pub at: usize,
    pub offset: usize,
}

impl Lexer {
    // The cursor at the start of an input that is the whole file.
    pub fn new() -> Self
        ensures { cursor_of result ≡ at_start }
    {
        Lexer { at: 0, offset: 0 }
    }

    // The cursor at the start of an input that begins at an offset of the file.
    pub fn at_offset(offset: usize) -> Self
        ensures { cursor_of result ≡ cursor_in offset 0 }
    {
        Lexer { at: 0, offset }
    }

    // The position of the cursor in the file.
    pub fn position(self, bytes: &[u8]) -> Result<usize, Refusal>
        ensures { staying_call (λ p. p) self result ≡ positions bytes.now (cursor_of self) }
    {
        self.place(bytes)?;
        Ok(self.position_in_file())
    }

    // The same, of a cursor that is known to have one.
    fn position_in_file(self) -> usize
        requires { position_of (cursor_of self) (cursor_of self).at ≤ MAX }
        ensures { result ≡ position_of (cursor_of self) (cursor_of self).at }
    {
        self.offset + self.at
    }

    // The cursor at another place.
    fn moved(self, at: usize) -> Lexer
        ensures { cursor_of result ≡ moved_to (cursor_of self) at }
    {
        Lexer {
            at,
            offset: self.offset,
        }
    }

    // Whether every place of the input has a position.
    fn fits(self, bytes: &[u8]) -> bool
        ensures { result ≡ fits bytes.now (cursor_of self) }
    {
        bytes.len() <= usize::MAX - self.offset
    }

    // Whether the cursor stands at the end of the input, and has a position there.
    fn ends(self, bytes: &[u8]) -> bool
        ensures { result ≡ (fits bytes.now (cursor_of self) && eqb (cursor_of self).at (length bytes.now)) }
    {
        self.fits(bytes) && self.at == bytes.len()
    }

    // Whether the cursor is a place of the input: outside every call is refused.
    fn place(self, bytes: &[u8]) -> Result<(), Refusal>
        ensures { staying_call (λ x. x) self result ≡ within bytes.now (cursor_of self) (gives tt (cursor_of self)) }
    {
        let at = self.at;
        if !self.fits(bytes) {
            return Err(Refusal::BadPlace(self.offset));
        }
        if at <= bytes.len() {
            Ok(())
        } else {
            Err(Refusal::BadPlace(at))
        }
    }

    // A fault at the cursor: here alone a position is added.
    fn located(self, e: LexError) -> Refusal
        requires { position_of (cursor_of self) (cursor_of self).at ≤ MAX }
        ensures { refusal_of result ≡ refusal_at (position_of (cursor_of self) (cursor_of self).at) (fault_of e) }
    {
        let position = self.position_in_file();
        Refusal::Lexed(LexerError { position, kind: e })
    }

    // Why a read from the cursor is refused, where it found a fault.
    fn refused(self, bytes: &[u8], e: LexError) -> Refusal
        ensures { refused_call self result ≡ reads (λ _ _. refused_by (fault_of e)) bytes.now (cursor_of self) }
    {
        match self.place(bytes) {
            Ok(()) => self.located(e),
            Err(r) => r,
        }
    }

    // What a call answers whose read has this answer at the cursor: an offset that is too large is refused first, whatever the read found. It
    // is small, so that it is compiled into each call.
    fn ended<T: Copy, E: Copy>(self, bytes: &[u8], read: Result<(T, usize), E>) -> Lexed<T>
    where
        LexError: From<E>,
        ensures { Ended (⟦<LexError as From<E>>⟧.from_gives) bytes.now self read result }
    {
        if !self.fits(bytes) {
            return Err(Refusal::BadPlace(self.offset));
        }
        match read {
            Ok((x, next)) => Ok((x, self.moved(next))),
            Err(e) => Err(self.refused(bytes, LexError::from(e))),
        }
    }

    // The next one, by what its read answers: nothing at the end.
    fn next<T: Copy>(self, bytes: &[u8], read: Lexed<T>) -> Result<Option<(T, Lexer)>, Refusal>
        ensures { result ≡ next_of (fits bytes.now (cursor_of self) && eqb (cursor_of self).at (length bytes.now)) read }
    {
        match read {
            Ok(found) => Ok(Some(found)),
            Err(_) if self.ends(bytes) => Ok(None),
            Err(e) => Err(e),
        }
    }
}

// What a peek answers, by what its read answers: nothing where a fault was found.
fn peeked<T: Copy>(read: Lexed<T>) -> Result<Option<T>, Refusal>
    ensures { result ≡ peek_of read }
{
    match read {
        Ok((x, _)) => Ok(Some(x)),
        Err(Refusal::Lexed(_)) => Ok(None),
        Err(Refusal::BadPlace(p)) => Err(Refusal::BadPlace(p)),
    }
}

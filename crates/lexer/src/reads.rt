// Reads of an id or a payload.
ghost use Rattle.std.specs.Prelude.{◌≡◌};
ghost use Rattle.form.specs.Readers.{at as read_at};
ghost use Rattle.form.specs.Reading.{num, rgb};
ghost use Rattle.form.specs.Calls.{reads, nexts, peeks};
ghost use Rattle.payload.specs.Answers.{option_as, colour_of};
ghost use Rattle.lexer.specs.Calls.{cursor_of, bool_at, i32_at, i64_at, string_at, read_call, next_call, staying_call};

use crate::Lexer;
use crate::answers::{Lexed, Refusal};
use lexeme::LexemeId;
use payload::{Rgb, Text};

impl Lexer {
    // An id: two bytes.
    pub fn read_id(self, bytes: &[u8]) -> Lexed<LexemeId>
        ensures { read_call (λ x. x.0) self result ≡ reads (read_at (num 2)) bytes.now (cursor_of self) }
    {
        self.ended(bytes, payload::read_id(bytes, self.at))
    }

    // The next id, or nothing at the end.
    pub fn next_id(self, bytes: &[u8]) -> Result<Option<(LexemeId, Lexer)>, Refusal>
        ensures { next_call (λ x. x.0) self result ≡ nexts (read_at (num 2)) bytes.now (cursor_of self) }
    {
        self.next(bytes, self.read_id(bytes))
    }

    // The next id, or nothing where it is refused. Nothing is moved.
    pub fn peek_id(self, bytes: &[u8]) -> Result<Option<LexemeId>, Refusal>
        ensures { staying_call (option_as (λ x. x.0)) self result ≡ peeks (read_at (num 2)) bytes.now (cursor_of self) }
    {
        crate::peeked(self.read_id(bytes))
    }

    // A string, after its id: where its text stands.
    pub fn read_string(self, bytes: &[u8]) -> Lexed<Text>
        ensures { read_call (λ x. x) self result ≡ reads string_at bytes.now (cursor_of self) }
    {
        self.ended(bytes, payload::read_string(bytes, self.at))
    }

    // A bool: one byte, true where it is not zero.
    pub fn read_bool(self, bytes: &[u8]) -> Lexed<bool>
        ensures { read_call (λ x. x) self result ≡ reads bool_at bytes.now (cursor_of self) }
    {
        self.ended(bytes, payload::read_bool(bytes, self.at))
    }

    // A lookup of one byte.
    pub fn read_lookup_u8(self, bytes: &[u8]) -> Lexed<u8>
        ensures { read_call (λ x. x) self result ≡ reads (read_at (num 1)) bytes.now (cursor_of self) }
    {
        self.ended(bytes, payload::read_lookup_u8(bytes, self.at))
    }

    // A lookup of two bytes.
    pub fn read_lookup_u16(self, bytes: &[u8]) -> Lexed<u16>
        ensures { read_call (λ x. x) self result ≡ reads (read_at (num 2)) bytes.now (cursor_of self) }
    {
        self.ended(bytes, payload::read_lookup_u16(bytes, self.at))
    }

    // A lookup of three bytes.
    pub fn read_lookup_u24(self, bytes: &[u8]) -> Lexed<u32>
        ensures { read_call (λ x. x) self result ≡ reads (read_at (num 3)) bytes.now (cursor_of self) }
    {
        self.ended(bytes, payload::read_lookup_u24(bytes, self.at))
    }

    // A lookup of four bytes.
    pub fn read_lookup_u32(self, bytes: &[u8]) -> Lexed<u32>
        ensures { read_call (λ x. x) self result ≡ reads (read_at (num 4)) bytes.now (cursor_of self) }
    {
        self.read_u32(bytes) // an index
    }

    // An unsigned number of four bytes.
    pub fn read_u32(self, bytes: &[u8]) -> Lexed<u32>
        ensures { read_call (λ x. x) self result ≡ reads (read_at (num 4)) bytes.now (cursor_of self) }
    {
        self.ended(bytes, payload::read_u32(bytes, self.at))
    }

    // An unsigned number of eight bytes.
    pub fn read_u64(self, bytes: &[u8]) -> Lexed<u64>
        ensures { read_call (λ x. x) self result ≡ reads (read_at (num 8)) bytes.now (cursor_of self) }
    {
        self.ended(bytes, payload::read_u64(bytes, self.at))
    }

    // A signed number of eight bytes.
    pub fn read_i64(self, bytes: &[u8]) -> Lexed<i64>
        ensures { read_call (λ x. x) self result ≡ reads i64_at bytes.now (cursor_of self) }
    {
        self.ended(bytes, payload::read_i64(bytes, self.at))
    }

    // A signed number of four bytes.
    pub fn read_i32(self, bytes: &[u8]) -> Lexed<i32>
        ensures { read_call (λ x. x) self result ≡ reads i32_at bytes.now (cursor_of self) }
    {
        self.ended(bytes, payload::read_i32(bytes, self.at))
    }

    // The number that the four bytes of a float spell.
    pub fn read_f32(self, bytes: &[u8]) -> Lexed<u32>
        ensures { read_call (λ x. x) self result ≡ reads (read_at (num 4)) bytes.now (cursor_of self) }
    {
        self.read_u32(bytes) // raw bytes
    }

    // The number that the eight bytes of a float spell.
    pub fn read_f64(self, bytes: &[u8]) -> Lexed<u64>
        ensures { read_call (λ x. x) self result ≡ reads (read_at (num 8)) bytes.now (cursor_of self) }
    {
        self.read_u64(bytes)
    }

    // A colour, after its id.
    pub fn read_rgb(self, bytes: &[u8]) -> Lexed<Rgb>
        ensures { read_call colour_of self result ≡ reads (read_at rgb) bytes.now (cursor_of self) }
    {
        self.ended(bytes, payload::read_rgb(bytes, self.at))
    }
}

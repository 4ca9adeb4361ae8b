// Bytes of the input that are handed back as they stand.
ghost use Rattle.std.specs.Prelude.{◌≡◌};
ghost use Rattle.form.specs.Calls.{reads};
ghost use Rattle.lexer.specs.Calls.{cursor_of, bytes_at, remainder_of, read_call, given_part};

use crate::Lexer;
use crate::answers::Lexed;
use payload::Text;

impl Lexer {
    // The place of the bytes that are left.
    pub fn remainder(self, bytes: &[u8]) -> Lexed<Text>
        ensures { read_call (λ t. t) self result ≡ remainder_of bytes.now (cursor_of self) }
    {
        self.place(bytes)?;
        let start = self.at;
        let len = bytes.len() - start;
        Ok((Text { start, len }, self))
    }

    // The place of the next bytes, so many.
    pub fn read_bytes(self, bytes: &[u8], count: usize) -> Lexed<Text>
        ensures { read_call (λ t. t) self result ≡ reads (bytes_at count) bytes.now (cursor_of self) }
    {
        self.place(bytes)?;
        self.ended(bytes, payload::read_bytes(bytes, self.at, count))
    }

    // The bytes whose place a call gave; none where it is refused.
    fn part(self, bytes: &[u8], read: Lexed<Text>) -> &[u8]
        ensures { result.now ≡ given_part bytes.now (read_call (λ t. t) self read) }
    {
        match read {
            Ok((text, _)) => token::text_part(bytes, text),
            Err(_) => &bytes[..0],
        }
    }

    // The bytes that are left; none where they are refused.
    pub fn remainder_part(self, bytes: &[u8]) -> &[u8]
        ensures { result.now ≡ given_part bytes.now (remainder_of bytes.now (cursor_of self)) }
    {
        self.part(bytes, self.remainder(bytes))
    }

    // The next bytes, so many; none where they are refused.
    pub fn read_bytes_part(self, bytes: &[u8], count: usize) -> &[u8]
        ensures { result.now ≡ given_part bytes.now (reads (bytes_at count) bytes.now (cursor_of self)) }
    {
        self.part(bytes, self.read_bytes(bytes, count))
    }
}

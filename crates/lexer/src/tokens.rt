// Tokens.
ghost use Rattle.std.specs.Prelude.{◌≡◌};
ghost use Rattle.form.specs.Calls.{reads, nexts, peeks};
ghost use Rattle.payload.specs.Answers.{option_as};
ghost use Rattle.token.specs.Tokens.{token_at};
ghost use Rattle.lexer.specs.Calls.{cursor_of, read_call, next_call, staying_call};

use crate::Lexer;
use crate::answers::{Lexed, Refusal};
use token::Token;

impl Lexer {
    // A token: an id and its payload. Compiled into each caller, as token's.
    #[inline(always)]
    pub fn read_token(self, bytes: &[u8]) -> Lexed<Token>
        ensures { read_call (λ t. t) self result ≡ reads token_at bytes.now (cursor_of self) }
    {
        self.ended(bytes, token::read_token(bytes, self.at))
    }

    // The next token, or nothing at the end.
    pub fn next_token(self, bytes: &[u8]) -> Result<Option<(Token, Lexer)>, Refusal>
        ensures { next_call (λ t. t) self result ≡ nexts token_at bytes.now (cursor_of self) }
    {
        self.next(bytes, self.read_token(bytes))
    }

    // The next token, or nothing where it is refused. Nothing is moved.
    pub fn peek_token(self, bytes: &[u8]) -> Result<Option<Token>, Refusal>
        ensures { staying_call (option_as (λ t. t)) self result ≡ peeks token_at bytes.now (cursor_of self) }
    {
        crate::peeked(self.read_token(bytes))
    }
}

// Finding a key, from the cursor on.
ghost use Rattle.std.specs.Prelude.{◌≡◌};
ghost use Rattle.form.specs.Finding.{sought, staying, walk_at, finds};
ghost use Rattle.payload.specs.Answers.{option_as};
ghost use Rattle.lexer.specs.Calls.{cursor_of, staying_call, Stands};

use crate::Lexer;
use crate::answers::Refusal;
use keys::Key;
use lexeme::LexemeId;

impl Lexer {
    // The walk from the cursor on, up to the token after the key.
    fn walk(self, bytes: &[u8], id: LexemeId) -> Result<Option<usize>, Refusal>
        requires { Stands self bytes.now }
        ensures { staying_call (option_as (λ p. p)) self result ≡ staying (cursor_of self) (sought id.0 (walk_at bytes.now (cursor_of self))) }
    {
        match keys::next_key(bytes, self.at, Some(id)) {
            Ok(Some(key)) => Ok(Some(self.moved(key.at).position_in_file())),
            Ok(None) => Ok(None),
            Err(e) => Err(self.moved(e.at).located(e.kind)),
        }
    }

    // The position of the first key that is a plain id, from the cursor on. Nothing is moved.
    pub fn find_key(self, bytes: &[u8], id: LexemeId) -> Result<Option<usize>, Refusal>
        ensures { staying_call (option_as (λ p. p)) self result ≡ finds id.0 bytes.now (cursor_of self) }
    {
        self.place(bytes)?;
        self.walk(bytes, id)
    }
}

// Skips: refused or not, the cursor is left where the skip ended.
ghost use Rattle.std.specs.Prelude.{◌≡◌};
ghost use Rattle.form.specs.Skipping.{skip_container, skip_value};
ghost use Rattle.form.specs.Calls.{landed, skips};
ghost use Rattle.skip.specs.Skips.{skip_answer};
ghost use Rattle.lexer.specs.Calls.{cursor_of, skip_call, Lands};

use crate::Lexer;
use crate::answers::Halt;
use lexeme::LexemeId;
use payload::LexErrorAt;

impl Lexer {
    // The end of a skip from the cursor.
    fn land(self, end: Result<usize, LexErrorAt>) -> Result<Lexer, Halt>
        requires { Lands self end }
        ensures { skip_call result ≡ landed (cursor_of self) (skip_answer end) }
    {
        match end {
            Ok(at) => Ok(self.moved(at)),
            Err(e) => {
                let next = self.moved(e.at);
                let refusal = next.located(e.kind);
                Err(Halt { refusal, next })
            }
        }
    }

    // Past the value whose id was read just before the cursor.
    pub fn skip_value(self, bytes: &[u8], id: LexemeId) -> Result<Lexer, Halt>
        ensures { skip_call result ≡ skips (skip_value id.0) bytes.now (cursor_of self) }
    {
        self.place(bytes).map_err(|refusal| Halt {
            refusal,
            next: self,
        })?;
        self.land(skip::skip_value(bytes, self.at, id))
    }

    // From inside a container to the place after its end.
    pub fn skip_container(self, bytes: &[u8]) -> Result<Lexer, Halt>
        ensures { skip_call result ≡ skips skip_container bytes.now (cursor_of self) }
    {
        self.place(bytes).map_err(|refusal| Halt {
            refusal,
            next: self,
        })?;
        self.land(skip::skip_container(bytes, self.at))
    }
}

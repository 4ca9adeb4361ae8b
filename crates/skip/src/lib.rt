// Skipping a value or a container: a walk over ids.
#![tactic(auto)]

mod walk;

ghost use Rattle.std.specs.Prelude.{◌≡◌};
ghost use Rattle.form.specs.Skipping.{skip_container, skip_value};
ghost use Rattle.skip.specs.Skips.{skip_answer};

use lexeme::LexemeId;
use payload::LexErrorAt;

// From inside a container to the place after its end.
pub fn skip_container(bytes: &[u8], at: usize) -> Result<usize, LexErrorAt>
    ensures { skip_answer result ≡ skip_container bytes.now at }
{
    walk::skip_from(bytes, at, LexemeId::OPEN)
}

// Past the value whose id stands just before the place. A colour is read strictly here; inside a container it is not.
pub fn skip_value(bytes: &[u8], at: usize, id: LexemeId) -> Result<usize, LexErrorAt>
    ensures { skip_answer result ≡ skip_value id.0 bytes.now at }
{
    if id.is(LexemeId::RGB) {
        let (_, end) = payload::read_rgb(bytes, at).map_err(|kind| LexErrorAt { at, kind })?;
        return Ok(end);
    }
    walk::skip_from(bytes, at, id)
}

// The whole save in its shortest spelling, into a lent output.
ghost use Rattle.std.specs.Prelude.{◌+◌, length};
ghost use Rattle.form.specs.Shortest.{shortest};
ghost use Rattle.form.specs.Writing.{Follows, shorten as Writing·shorten};
ghost use Rattle.token.specs.Tokens.{value_of};
ghost use Rattle.normaliser.specs.Answers.{normalised_outcome};
ghost use Rattle.normaliser.specs.Stretches.{short_style, Appends, HasSpelling};

use crate::{NormalError, Pass};
use token::Token;

// A token in its shortest spelling after so many bytes of the output. Answers how many bytes it is spelled by.
fn append(bytes: &[u8], t: Token, out: &mut [u8], need: usize) -> usize
    requires { HasSpelling short_style bytes.now t }
    ensures { Appends out.old need (shortest (value_of bytes.now t)) out.new (need + result) }
{
    let to = crate::place(need, out.len());
    crate::counted(writer::write_shortest(bytes, t, &mut out[to..])).unwrap()
}

pub(crate) struct Short;

impl Pass for Short {
    ghost style = { short_style };

    // The tokens in their shortest spellings, one after the other.
    fn pass(bytes: &[u8], out: &mut [u8]) -> Result<usize, NormalError> {
        let mut at: usize = 0;
        let mut need: usize = 0;
        while at < bytes.len() {
            let (t, next) = token::read_token(bytes, at).map_err(|kind| crate::refused(kind, at))?;
            need += append(bytes, t, out, need);
            at = next;
        }
        Ok(need)
    }
}

// The shortest spelling at the front of the output, or a refusal that leaves the output as it is.
pub fn shorten(bytes: &[u8], out: &mut [u8]) -> Result<usize, NormalError>
    ensures { Follows (Writing·shorten (length out.old) bytes.now) (normalised_outcome result) out.old out.new }
{
    crate::pass_twice::<Short>(bytes, out)
}

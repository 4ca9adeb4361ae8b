// How many tokens a save has.
ghost use Rattle.std.specs.Prelude.{◌≡◌};
ghost use Rattle.capi.specs.Replies.{returned, into};
ghost use Rattle.capi.specs.Code.{as_reply};
ghost use Rattle.capi.specs.Counting.{count_reply};

use crate::replies;
use crate::replies::Reply;
use payload::LexErrorAt;

// How many tokens there are, with the cursor at the end; the first refusal where not all can be read.
#[unsafe(no_mangle)]
pub extern "C" fn stivlaheim_count_tokens(bytes: &[u8], answer: &mut [u64]) -> u32
    ensures { returned result answer.new ≡ into answer.old (count_reply bytes.now) }
{
    replies::store(answer, count(bytes))
}

fn count(bytes: &[u8]) -> Reply
    ensures { as_reply result ≡ count_reply bytes.now }
{
    let mut at: usize = 0;
    let mut n: usize = 0;
    while at < bytes.len() {
        match token::read_token(bytes, at) {
            Ok((_, next)) => at = next,
            Err(kind) => return replies::refused(at, LexErrorAt { at, kind }.into()),
        }
        n += 1;
    }
    replies::answered(at, n)
}

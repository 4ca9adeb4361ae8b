// The fast step over a window, with the eight held bytes in a lent list.
ghost use Rattle.std.specs.Prelude.{◌≡◌, length};
ghost use Rattle.form.specs.Fast.{fast_step};
ghost use Rattle.fast.specs.Steps.{step_of};
ghost use Rattle.capi.specs.Code.{as_reply};
ghost use Rattle.capi.specs.Replies.{returned};
ghost use Rattle.capi.specs.Steps.{step_reply, held_returned, held_after};

use crate::replies::Reply;
use crate::{codes, replies};
use lexeme::TokenKind;

// The next token of a window: its length and its kind's number; none where it is not fast. Held bytes that are not eight are a bad argument.
#[unsafe(no_mangle)]
pub extern "C" fn stivlaheim_next_token_fast(
    window: &[u8],
    held: &mut [u8],
    answer: &mut [u64],
) -> u32
    ensures answer_after { returned result answer.new ≡ held_returned held.old answer.old (fast_step window.now held.old) }
    ensures held { held.new ≡ held_after held.old answer.old (fast_step window.now held.old) }
{
    if answer.len() < 8 {
        return codes::SHORT_ANSWER;
    }
    let Ok(before) = <[u8; 8]>::try_from(&*held) else {
        return codes::BAD_ARGUMENT;
    };
    let x = step(window, before, held);
    replies::store(answer, step_reply(x))
}

// The step, which leaves other bytes held.
fn step(window: &[u8], before: [u8; 8], held: &mut [u8]) -> Option<(TokenKind, usize)>
    requires { length held.old ≡ 8 }
    ensures step { step_of result ≡ (fast_step window.now before).step }
    ensures held { held.new ≡ (fast_step window.now before).held }
{
    let x = fast::next_token_fast(window, before);
    held.copy_from_slice(&x.held);
    x.step
}

fn step_reply(x: Option<(TokenKind, usize)>) -> Reply
    ensures { as_reply result ≡ step_reply (step_of x) }
{
    match x {
        Some((kind, len)) => replies::answered(len, kind),
        None => replies::absent(0),
    }
}

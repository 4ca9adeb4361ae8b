// What can be rescued of a clipped save, into a lent output.
#![tactic(auto, unfolding(crate::specs::Replies::into))]

ghost use Rattle.std.specs.Prelude.{◌≡◌, length};
ghost use Rattle.form.specs.Writing.{outcome};
ghost use Rattle.form.specs.Rescue.{rescue as Rescue·rescue, told};
ghost use Rattle.normaliser.specs.Answers.{rescued_outcome, rescued_report};
ghost use Rattle.capi.specs.Replies.{returned, into};
ghost use Rattle.capi.specs.Code.{as_reply};
ghost use Rattle.capi.specs.Outputs.{rescue_reply, left_by};

use crate::replies::Reply;
use crate::{codes, replies};
use normaliser::{RescueError, Rescued};

// The rescued save. The output is left alone where the answer list is too short.
#[unsafe(no_mangle)]
pub extern "C" fn stivlaheim_rescue(bytes: &[u8], out: &mut [u8], answer: &mut [u64]) -> u32
    ensures answer_after { returned result answer.new ≡ into answer.old (rescue_reply (outcome (Rescue·rescue (length out.old) bytes.now)) (told (length out.old) bytes.now)) }
    ensures out_after { out.new ≡ left_by answer.old (Rescue·rescue (length out.old) bytes.now) out.old }
{
    if answer.len() < 8 {
        return codes::SHORT_ANSWER;
    }
    let x = normaliser::rescue(bytes, out);
    replies::store(answer, rescued_reply(x))
}

fn rescued_reply(x: Result<Rescued, RescueError>) -> Reply
    ensures { as_reply result ≡ rescue_reply (rescued_outcome x) (rescued_report x) }
{
    match x {
        Ok(rescued) => replies::answered(rescued.written, rescued.report),
        Err(e) => replies::refused(0, e.into()),
    }
}

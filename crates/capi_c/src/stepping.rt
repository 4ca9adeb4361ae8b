// The fast step over a window, with the eight held bytes in a lent list.
ghost use Rattle.std.specs.Prelude.{◌≡◌};
ghost use Rattle.form.specs.Fast.{fast_step};
ghost use Rattle.capi.specs.Replies.{returned};
ghost use Rattle.capi.specs.Steps.{held_returned, held_after};

// The next token of a window: its length and its kind's number; none where it is not fast. Held bytes that are not eight are a bad argument.
#[unsafe(no_mangle)]
pub extern "C" fn stivlaheim_next_token_fast(
    window: &[u8],
    held: &mut [u8],
    answer: &mut [u64],
) -> u32
    ensures answer_after { returned result answer.new ≡ held_returned held.old answer.old (fast_step window.now held.old) }
    ensures held { held.new ≡ held_after held.old answer.old (fast_step window.now held.old) }
{
    capi::stepping::stivlaheim_next_token_fast(window, held, answer)
}

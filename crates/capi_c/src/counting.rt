// How many tokens a save has.
ghost use Rattle.std.specs.Prelude.{◌≡◌};
ghost use Rattle.capi.specs.Replies.{returned, into};
ghost use Rattle.capi.specs.Counting.{count_reply};

// How many tokens there are, with the cursor at the end; the first refusal where not all can be read.
#[unsafe(no_mangle)]
pub extern "C" fn stivlaheim_count_tokens(bytes: &[u8], answer: &mut [u64]) -> u32
    ensures { returned result answer.new ≡ into answer.old (count_reply bytes.now) }
{
    capi::counting::stivlaheim_count_tokens(bytes, answer)
}

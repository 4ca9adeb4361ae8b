// Parts of the bytes.
ghost use Rattle.std.specs.Prelude.{◌≡◌};
ghost use Rattle.split.specs.Splits.{split_at};
ghost use Rattle.token.specs.Texts.{place_of};
ghost use Rattle.capi.specs.Replies.{returned, into};
ghost use Rattle.capi.specs.PartReplies.{split_reply, text_reply};

// The part that follows the first bytes, so many; none where there are fewer.
#[unsafe(no_mangle)]
pub extern "C" fn stivlaheim_get_split(bytes: &[u8], count: usize, answer: &mut [u64]) -> u32
    ensures { returned result answer.new ≡ into answer.old (split_reply bytes.now (split_at bytes.now count)) }
{
    capi::parts::stivlaheim_get_split(bytes, count, answer)
}

// The part of the bytes that holds a text; refused where they do not hold it.
#[unsafe(no_mangle)]
pub extern "C" fn stivlaheim_text(bytes: &[u8], start: usize, len: usize, answer: &mut [u64]) -> u32
    ensures { returned result answer.new ≡ into answer.old (text_reply (record { start = start; len = len }) (place_of bytes.now (record { start = start; len = len }))) }
{
    capi::parts::stivlaheim_text(bytes, start, len, answer)
}

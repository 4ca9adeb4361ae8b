// Parts of the bytes.
ghost use Rattle.std.specs.Prelude.{◌≡◌};
ghost use Rattle.split.specs.Splits.{split_at};
ghost use Rattle.token.specs.Texts.{place_of};
ghost use Rattle.capi.specs.Replies.{returned, into};
ghost use Rattle.capi.specs.Code.{as_reply};
ghost use Rattle.capi.specs.PartReplies.{split_reply, text_reply};

use crate::replies;
use crate::replies::Reply;
use payload::Text;

// The part that follows the first bytes, so many; none where there are fewer.
#[unsafe(no_mangle)]
pub extern "C" fn stivlaheim_get_split(bytes: &[u8], count: usize, answer: &mut [u64]) -> u32
    ensures { returned result answer.new ≡ into answer.old (split_reply bytes.now (split_at bytes.now count)) }
{
    replies::store(answer, split_reply(bytes, count))
}

fn split_reply(bytes: &[u8], count: usize) -> Reply
    ensures { as_reply result ≡ split_reply bytes.now (split_at bytes.now count) }
{
    match split::get_split(bytes, count) {
        Some(start) => {
            let len = split::split_rest(bytes, start).len();
            replies::answered(start, Text { start, len })
        }
        None => replies::absent(0),
    }
}

// The part of the bytes that holds a text; refused where they do not hold it.
#[unsafe(no_mangle)]
pub extern "C" fn stivlaheim_text(bytes: &[u8], start: usize, len: usize, answer: &mut [u64]) -> u32
    ensures { returned result answer.new ≡ into answer.old (text_reply (record { start = start; len = len }) (place_of bytes.now (record { start = start; len = len }))) }
{
    let t = Text { start, len };
    replies::store(answer, text_reply(bytes, t))
}

fn text_reply(bytes: &[u8], t: Text) -> Reply
    ensures { as_reply result ≡ text_reply t (place_of bytes.now t) }
{
    match token::text(bytes, t) {
        Ok(()) => replies::answered(t.start, t),
        Err(e) => replies::refused(t.start, e.into()),
    }
}

// Reading the format through the window.
#![tactic(auto, unfolding(crate::specs::Sources::called, crate::specs::Sources::called_from, crate::specs::Sources::asked))]

ghost use Rattle.std.specs.Prelude.{◌≡◌};
ghost use Rattle.source.specs.Binary.{id, peeked_id, string, colour};
ghost use Rattle.capi.specs.Replies.{returned, reply_of, reply_or_none};
ghost use Rattle.capi.specs.Words.{number_words, text_words, colour_words};
ghost use Rattle.capi.specs.Sources.{caller_has, called};

use crate::{source_replies, states};

// A string: two bytes of length, and as many bytes of text.
#[unsafe(no_mangle)]
pub extern "C" fn stivlaheim_source_read_bstr(
    buffer: &mut [u8],
    supply: &[u8],
    schedule: &[u32],
    state: &mut [u64],
    answer: &mut [u64],
) -> u32
    ensures { caller_has (returned result answer.new) state.new buffer.new ≡ called (reply_of text_words) (string supply.now schedule.now) answer.old state.old buffer.old }
{
    let s = match states::ask(state, answer) {
        Ok(s) => s,
        Err(e) => return e.number(),
    };
    let text = s.read_bstr(buffer, supply, schedule);
    source_replies::hand_over(source_replies::of_taken(text), state, answer)
}

// The next two bytes as an id.
#[unsafe(no_mangle)]
pub extern "C" fn stivlaheim_source_read_lexeme_id(
    buffer: &mut [u8],
    supply: &[u8],
    schedule: &[u32],
    state: &mut [u64],
    answer: &mut [u64],
) -> u32
    ensures { caller_has (returned result answer.new) state.new buffer.new ≡ called (reply_of number_words) (id supply.now schedule.now) answer.old state.old buffer.old }
{
    let s = match states::ask(state, answer) {
        Ok(s) => s,
        Err(e) => return e.number(),
    };
    let id = s.read_lexeme_id(buffer, supply, schedule);
    source_replies::hand_over(source_replies::of_taken(id), state, answer)
}

// The next two bytes as an id, unread; none at the end.
#[unsafe(no_mangle)]
pub extern "C" fn stivlaheim_source_peek_lexeme_id(
    buffer: &mut [u8],
    supply: &[u8],
    schedule: &[u32],
    state: &mut [u64],
    answer: &mut [u64],
) -> u32
    ensures { caller_has (returned result answer.new) state.new buffer.new ≡ called (reply_or_none number_words) (peeked_id supply.now schedule.now) answer.old state.old buffer.old }
{
    let s = match states::ask(state, answer) {
        Ok(s) => s,
        Err(e) => return e.number(),
    };
    let x = s.peek_lexeme_id(buffer, supply, schedule);
    source_replies::hand_over(source_replies::of_tried(x), state, answer)
}

// A colour, after its id.
#[unsafe(no_mangle)]
pub extern "C" fn stivlaheim_source_read_rgb(
    buffer: &mut [u8],
    supply: &[u8],
    schedule: &[u32],
    state: &mut [u64],
    answer: &mut [u64],
) -> u32
    ensures { caller_has (returned result answer.new) state.new buffer.new ≡ called (reply_of colour_words) (colour supply.now schedule.now) answer.old state.old buffer.old }
{
    let s = match states::ask(state, answer) {
        Ok(s) => s,
        Err(e) => return e.number(),
    };
    let colour = s.read_rgb(buffer, supply, schedule);
    source_replies::hand_over(source_replies::of_taken(colour), state, answer)
}

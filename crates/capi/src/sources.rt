// The window: each call takes its state from six words that the caller keeps, and puts back the state that it leaves.
#![tactic(auto, unfolding(crate::specs::Sources::called, crate::specs::Sources::called_from, crate::specs::Sources::asked))]

ghost use Rattle.std.specs.Prelude.{◌≡◌, length};
ghost use Rattle.source.specs.Window.{new_slice, new_stream, ensured, refilled, advanced, window_len, taken, tried, peeked};
ghost use Rattle.capi.specs.Replies.{returned, reply_of, reply_or_none};
ghost use Rattle.capi.specs.Words.{no_words, number_words, bool_words, text_words};
ghost use Rattle.capi.specs.Sources.{begun, caller_has, called, window_part};

use crate::{source_replies, states};
use source::ParserSource;

// The state of a source over a slice.
#[unsafe(no_mangle)]
pub extern "C" fn stivlaheim_source_from_slice(slice: &[u8], state: &mut [u64]) -> u32
    ensures { returned result state.new ≡ begun (new_slice (length slice.now)) state.old }
{
    states::begin(state, ParserSource::from_slice(slice))
}

// The state of a stream before its first call.
#[unsafe(no_mangle)]
pub extern "C" fn stivlaheim_source_from_reader(state: &mut [u64]) -> u32
    ensures { returned result state.new ≡ begun new_stream state.old }
{
    states::begin(state, ParserSource::from_reader())
}

// Has so many bytes unread, reading as needed.
#[unsafe(no_mangle)]
pub extern "C" fn stivlaheim_source_ensure_bytes(
    buffer: &mut [u8],
    supply: &[u8],
    schedule: &[u32],
    state: &mut [u64],
    count: usize,
    answer: &mut [u64],
) -> u32
    ensures { caller_has (returned result answer.new) state.new buffer.new ≡ called (reply_of no_words) (ensured supply.now schedule.now count) answer.old state.old buffer.old }
{
    let s = match states::ask(state, answer) {
        Ok(s) => s,
        Err(e) => return e.number(),
    };
    let x = s.ensure_bytes(count, buffer, supply, schedule);
    source_replies::hand_over(source_replies::of_ensured(x), state, answer)
}

// One read, behind the unread bytes: how many bytes came.
#[unsafe(no_mangle)]
pub extern "C" fn stivlaheim_source_refill(
    buffer: &mut [u8],
    supply: &[u8],
    schedule: &[u32],
    state: &mut [u64],
    answer: &mut [u64],
) -> u32
    ensures { caller_has (returned result answer.new) state.new buffer.new ≡ called (reply_of number_words) (refilled supply.now schedule.now) answer.old state.old buffer.old }
{
    let s = match states::ask(state, answer) {
        Ok(s) => s,
        Err(e) => return e.number(),
    };
    let read = s.refill(buffer, supply, schedule);
    source_replies::hand_over(source_replies::of_taken(read), state, answer)
}

// Reads so many of the unread bytes; none where there are fewer.
#[unsafe(no_mangle)]
pub extern "C" fn stivlaheim_source_advance(
    buffer: &[u8],
    supply: &[u8],
    schedule: &[u32],
    state: &mut [u64],
    count: usize,
    answer: &mut [u64],
) -> u32
    ensures { caller_has (returned result answer.new) state.new buffer.now ≡ called (reply_of bool_words) (advanced supply.now schedule.now count) answer.old state.old buffer.now }
{
    let s = match states::ask(state, answer) {
        Ok(s) => s,
        Err(e) => return e.number(),
    };
    let moved = s.advance(count, buffer, supply, schedule);
    source_replies::hand_over(source_replies::of_taken(moved), state, answer)
}

// How many bytes are unread.
#[unsafe(no_mangle)]
pub extern "C" fn stivlaheim_source_window_len(
    buffer: &[u8],
    supply: &[u8],
    schedule: &[u32],
    state: &mut [u64],
    answer: &mut [u64],
) -> u32
    ensures { caller_has (returned result answer.new) state.new buffer.now ≡ called (reply_of number_words) (window_len supply.now schedule.now) answer.old state.old buffer.now }
{
    let s = match states::ask(state, answer) {
        Ok(s) => s,
        Err(e) => return e.number(),
    };
    let x = s.window_len(buffer, supply, schedule);
    source_replies::hand_over(source_replies::of_window_len(s, x), state, answer)
}

// The part that is unread.
#[unsafe(no_mangle)]
pub extern "C" fn stivlaheim_source_window(
    buffer: &[u8],
    supply: &[u8],
    schedule: &[u32],
    state: &mut [u64],
    answer: &mut [u64],
) -> u32
    ensures { caller_has (returned result answer.new) state.new buffer.now ≡ called (reply_of text_words) (window_part supply.now schedule.now) answer.old state.old buffer.now }
{
    let s = match states::ask(state, answer) {
        Ok(s) => s,
        Err(e) => return e.number(),
    };
    let x = s.window_len(buffer, supply, schedule);
    source_replies::hand_over(source_replies::of_window(s, x), state, answer)
}

// The next bytes, which are read.
#[unsafe(no_mangle)]
pub extern "C" fn stivlaheim_source_take(
    buffer: &mut [u8],
    supply: &[u8],
    schedule: &[u32],
    state: &mut [u64],
    count: usize,
    answer: &mut [u64],
) -> u32
    ensures { caller_has (returned result answer.new) state.new buffer.new ≡ called (reply_of text_words) (taken supply.now schedule.now count) answer.old state.old buffer.old }
{
    let s = match states::ask(state, answer) {
        Ok(s) => s,
        Err(e) => return e.number(),
    };
    let taken = s.take(count, buffer, supply, schedule);
    source_replies::hand_over(source_replies::of_taken(taken), state, answer)
}

// As `take`.
#[unsafe(no_mangle)]
pub extern "C" fn stivlaheim_source_take_bytes(
    buffer: &mut [u8],
    supply: &[u8],
    schedule: &[u32],
    state: &mut [u64],
    count: usize,
    answer: &mut [u64],
) -> u32
    ensures { caller_has (returned result answer.new) state.new buffer.new ≡ called (reply_of text_words) (taken supply.now schedule.now count) answer.old state.old buffer.old }
{
    stivlaheim_source_take(buffer, supply, schedule, state, count, answer)
}

// The next bytes, which are read; none at the end.
#[unsafe(no_mangle)]
pub extern "C" fn stivlaheim_source_try_take(
    buffer: &mut [u8],
    supply: &[u8],
    schedule: &[u32],
    state: &mut [u64],
    count: usize,
    answer: &mut [u64],
) -> u32
    ensures { caller_has (returned result answer.new) state.new buffer.new ≡ called (reply_or_none text_words) (tried supply.now schedule.now count) answer.old state.old buffer.old }
{
    let s = match states::ask(state, answer) {
        Ok(s) => s,
        Err(e) => return e.number(),
    };
    let x = s.try_take(count, buffer, supply, schedule);
    source_replies::hand_over(source_replies::of_tried(x), state, answer)
}

// As `try_take`.
#[unsafe(no_mangle)]
pub extern "C" fn stivlaheim_source_try_take_bytes(
    buffer: &mut [u8],
    supply: &[u8],
    schedule: &[u32],
    state: &mut [u64],
    count: usize,
    answer: &mut [u64],
) -> u32
    ensures { caller_has (returned result answer.new) state.new buffer.new ≡ called (reply_or_none text_words) (tried supply.now schedule.now count) answer.old state.old buffer.old }
{
    stivlaheim_source_try_take(buffer, supply, schedule, state, count, answer)
}

// The next bytes, which stay unread; none at the end.
#[unsafe(no_mangle)]
pub extern "C" fn stivlaheim_source_peek(
    buffer: &mut [u8],
    supply: &[u8],
    schedule: &[u32],
    state: &mut [u64],
    count: usize,
    answer: &mut [u64],
) -> u32
    ensures { caller_has (returned result answer.new) state.new buffer.new ≡ called (reply_or_none text_words) (peeked supply.now schedule.now count) answer.old state.old buffer.old }
{
    let s = match states::ask(state, answer) {
        Ok(s) => s,
        Err(e) => return e.number(),
    };
    let x = s.peek(count, buffer, supply, schedule);
    source_replies::hand_over(source_replies::of_tried(x), state, answer)
}

// The calls of the window, by their numbers. Their input is the buffer, a state's six words, in one byte how many entries the schedule has,
// the entries, four bytes each, and the supply. What they leave is the buffer and the words.
use crate::outputs;
use capi::{source_reads, sources};

// The call, whose buffer is the first of the bytes; the state goes behind it.
pub(crate) fn ask(
    call: u64,
    bytes: &[u8],
    room: usize,
    arg: usize,
    out: &mut [u8],
    answer: &mut [u64],
) -> Option<u32> {
    let (front, rest) = bytes.split_at_checked(room)?;
    if room > out.len() {
        return None;
    }
    let mut state: [u64; 6] = outputs::words(rest);
    let code = ask_within(call, front, rest, arg, &mut out[..room], &mut state, answer);
    for (eight, word) in out[room..].chunks_mut(8).zip(&state) {
        outputs::copy(&word.to_le_bytes(), eight);
    }
    code
}

// The buffer is filled, and what stands behind it is taken apart.
fn ask_within(
    call: u64,
    bytes: &[u8],
    rest: &[u8],
    arg: usize,
    buffer: &mut [u8],
    state: &mut [u64],
    answer: &mut [u64],
) -> Option<u32> {
    let (_, rest) = rest.split_at_checked(48)?;
    let (count, rest) = rest.split_first()?;
    let count = usize::from(*count);
    if count > 8 {
        return None;
    }
    let (entries, supply) = rest.split_at_checked(count * 4)?;
    let entries: [u32; 8] = outputs::numbers(entries);
    let schedule = &entries[..count];
    outputs::copy(bytes, buffer);
    match call {
        33 | 35..=40 => ask_counted(call, arg, buffer, supply, schedule, state, answer),
        _ => ask_plain(call, buffer, supply, schedule, state, answer),
    }
}

// The calls that are given a count. The numbers go on from those of the other calls.
fn ask_counted(
    call: u64,
    arg: usize,
    buffer: &mut [u8],
    supply: &[u8],
    schedule: &[u32],
    state: &mut [u64],
    answer: &mut [u64],
) -> Option<u32> {
    Some(match call {
        33 => sources::stivlaheim_source_ensure_bytes(buffer, supply, schedule, state, arg, answer),
        35 => sources::stivlaheim_source_peek(buffer, supply, schedule, state, arg, answer),
        36 => sources::stivlaheim_source_take(buffer, supply, schedule, state, arg, answer),
        37 => sources::stivlaheim_source_try_take(buffer, supply, schedule, state, arg, answer),
        38 => sources::stivlaheim_source_take_bytes(buffer, supply, schedule, state, arg, answer),
        39 => sources::stivlaheim_source_try_take_bytes(
            buffer, supply, schedule, state, arg, answer,
        ),
        40 => sources::stivlaheim_source_advance(buffer, supply, schedule, state, arg, answer),
        _ => return None,
    })
}

// Those that are given none; the last two make a state.
fn ask_plain(
    call: u64,
    buffer: &mut [u8],
    supply: &[u8],
    schedule: &[u32],
    state: &mut [u64],
    answer: &mut [u64],
) -> Option<u32> {
    Some(match call {
        34 => sources::stivlaheim_source_refill(buffer, supply, schedule, state, answer),
        41 => sources::stivlaheim_source_window_len(buffer, supply, schedule, state, answer),
        42 => sources::stivlaheim_source_window(buffer, supply, schedule, state, answer),
        43 => source_reads::stivlaheim_source_read_bstr(buffer, supply, schedule, state, answer),
        44 => source_reads::stivlaheim_source_read_lexeme_id(
            buffer, supply, schedule, state, answer,
        ),
        45 => source_reads::stivlaheim_source_peek_lexeme_id(
            buffer, supply, schedule, state, answer,
        ),
        46 => source_reads::stivlaheim_source_read_rgb(buffer, supply, schedule, state, answer),
        47 => sources::stivlaheim_source_from_slice(supply, state),
        48 => sources::stivlaheim_source_from_reader(state),
        _ => return None,
    })
}

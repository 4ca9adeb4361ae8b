// The calls that are lent bytes as well, by their numbers, and what they leave there.
use crate::lists;
use capi::{rescuing, stepping, writing};
use std::array;

pub const LONGEST_OUTPUT: usize = 1024;

// What the bytes are before the call.
pub const LENT: u8 = 0xa5;

// The call, which is lent the first of the bytes.
pub(crate) fn ask(
    call: u64,
    bytes: &[u8],
    room: usize,
    arg: usize,
    out: &mut [u8],
    answer: &mut [u64],
) -> Option<u32> {
    if room <= out.len() {
        ask_within(call, bytes, arg, &mut out[..room], answer)
    } else {
        None
    }
}

// The numbers go on from those of the other calls.
fn ask_within(
    call: u64,
    bytes: &[u8],
    arg: usize,
    out: &mut [u8],
    answer: &mut [u64],
) -> Option<u32> {
    match call {
        29 => write(bytes, arg, out, answer, false),
        30 => Some(writing::stivlaheim_normalise(bytes, out, answer)),
        31 => Some(writing::stivlaheim_list(bytes, out, answer)),
        32 => next_token_fast(bytes, out, answer),
        49 => write(bytes, arg, out, answer, true),
        50 => Some(writing::stivlaheim_shorten(bytes, out, answer)),
        54 => lists::write(bytes, out, answer),
        57 => Some(rescuing::stivlaheim_rescue(bytes, out, answer)),
        _ => None,
    }
}

// The token's five words stand before the bytes.
fn write(
    bytes: &[u8],
    kind: usize,
    out: &mut [u8],
    answer: &mut [u64],
    shortest: bool,
) -> Option<u32> {
    let kind = u32::try_from(kind).ok()?;
    let (front, text) = bytes.split_at_checked(40)?;
    let words: [u64; 5] = words(front);
    Some(if shortest {
        writing::stivlaheim_write_shortest(text, kind, &words, out, answer)
    } else {
        writing::stivlaheim_write(text, kind, &words, out, answer)
    })
}

// The numbers that the bytes spell, eight bytes each, lowest byte first; zeros where there are fewer.
pub(crate) fn words<const N: usize>(bytes: &[u8]) -> [u64; N] {
    let (eights, _) = bytes.as_chunks();
    array::from_fn(|i| match eights.get(i) {
        Some(eight) => u64::from_le_bytes(*eight),
        None => 0,
    })
}

// The same of four bytes each.
pub(crate) fn numbers<const N: usize>(bytes: &[u8]) -> [u32; N] {
    let (fours, _) = bytes.as_chunks();
    array::from_fn(|i| match fours.get(i) {
        Some(four) => u32::from_le_bytes(*four),
        None => 0,
    })
}

// The held bytes stand before the window.
fn next_token_fast(bytes: &[u8], held: &mut [u8], answer: &mut [u64]) -> Option<u32> {
    let (front, window) = bytes.split_at_checked(held.len())?;
    copy(front, held);
    Some(stepping::stivlaheim_next_token_fast(window, held, answer))
}

// As many of the bytes as there is room for; those after them are as the lent ones.
pub(crate) fn copy(from: &[u8], to: &mut [u8]) {
    let len = from.len().min(to.len());
    to[..len].copy_from_slice(&from[..len]);
    to[len..].fill(LENT);
}

// The bytes are those of the output, and after them as they were.
pub(crate) fn same_output(output: &[u8], out: &[u8; LONGEST_OUTPUT]) -> bool {
    let len = output.len().min(LONGEST_OUTPUT);
    out[..len] == output[..len] && out[len..].iter().all(|b| *b == LENT)
}

// The calls by their numbers, and whether one answers as a line says. What a call returns is its code; nothing for a number that no call
// has, or for what cannot be given to it.
use crate::line::NUMBERS;
use crate::outputs::{LENT, LONGEST_OUTPUT};
use crate::{lists, outputs, sources};
use capi::{counting, kinds, lexing, parts};

// The code and all eight words are those of the line, and so are the lent bytes.
pub(crate) fn holds(numbers: &[u64; NUMBERS], bytes: &[u8], output: &[u8]) -> bool {
    let call = numbers[0];
    let at = numbers[1] as usize;
    let offset = numbers[2] as usize;
    let arg = numbers[3] as usize;
    let before = lent(call);
    let mut answer = [before; 8];
    let mut out = [LENT; LONGEST_OUTPUT];
    let asked = match call {
        29..=32 | 49..=50 | 54 | 57 => outputs::ask(call, bytes, at, arg, &mut out, &mut answer),
        33..=48 => sources::ask(call, bytes, at, arg, &mut out, &mut answer),
        52 | 55 => lists::ask(call, bytes, at, &mut out, &mut answer),
        _ => ask(call, bytes, at, offset, arg, &mut answer),
    };
    match asked {
        Some(code) if u64::from(code) == numbers[4] => {
            numbers[5..] == answer[..] && outputs::same_output(output, &out)
        }
        _ => false,
    }
}

// What the words are before the call, so that one that is left alone shows. The calls on an id and those that make a state are lent none.
fn lent(call: u64) -> u64 {
    match call {
        3..=46 | 49..=57 => u64::MAX,
        _ => 0,
    }
}

// The recording numbers them in the same order.
fn ask(
    call: u64,
    bytes: &[u8],
    at: usize,
    offset: usize,
    arg: usize,
    answer: &mut [u64],
) -> Option<u32> {
    match call {
        1 => Some(kinds::stivlaheim_into_kind(u16::try_from(arg).ok()?)),
        2 => Some(u32::from(kinds::stivlaheim_is_id(u16::try_from(arg).ok()?))),
        3..=6 => ask_part(call, bytes, at, offset, arg, answer),
        7..=13 => ask_token(call, bytes, at, offset, answer),
        14..=19 => ask_text(call, bytes, at, offset, answer),
        20..=26 => ask_number(call, bytes, at, offset, answer),
        27 => {
            let id = u16::try_from(arg).ok()?;
            Some(lexing::stivlaheim_skip_value(bytes, at, offset, id, answer))
        }
        28 => Some(lexing::stivlaheim_skip_container(bytes, at, offset, answer)),
        51 => {
            let id = u16::try_from(arg).ok()?;
            Some(lexing::stivlaheim_find_key(bytes, at, offset, id, answer))
        }
        53 => lists::search(bytes, at as u64, answer),
        56 => Some(lexing::stivlaheim_position(bytes, at, offset, answer)),
        _ => None,
    }
}

fn ask_part(
    call: u64,
    bytes: &[u8],
    at: usize,
    offset: usize,
    arg: usize,
    answer: &mut [u64],
) -> Option<u32> {
    Some(match call {
        3 => parts::stivlaheim_get_split(bytes, arg, answer),
        4 => parts::stivlaheim_text(bytes, at, arg, answer),
        5 => lexing::stivlaheim_remainder(bytes, at, offset, answer),
        6 => lexing::stivlaheim_read_bytes(bytes, at, offset, arg, answer),
        _ => return None,
    })
}

// Ids and tokens.
fn ask_token(call: u64, bytes: &[u8], at: usize, offset: usize, answer: &mut [u64]) -> Option<u32> {
    Some(match call {
        7 => lexing::stivlaheim_read_id(bytes, at, offset, answer),
        8 => lexing::stivlaheim_next_id(bytes, at, offset, answer),
        9 => lexing::stivlaheim_peek_id(bytes, at, offset, answer),
        10 => lexing::stivlaheim_read_token(bytes, at, offset, answer),
        11 => lexing::stivlaheim_next_token(bytes, at, offset, answer),
        12 => lexing::stivlaheim_peek_token(bytes, at, offset, answer),
        13 => counting::stivlaheim_count_tokens(bytes, answer),
        _ => return None,
    })
}

// Strings, bools and lookups.
fn ask_text(call: u64, bytes: &[u8], at: usize, offset: usize, answer: &mut [u64]) -> Option<u32> {
    Some(match call {
        14 => lexing::stivlaheim_read_string(bytes, at, offset, answer),
        15 => lexing::stivlaheim_read_bool(bytes, at, offset, answer),
        16 => lexing::stivlaheim_read_lookup_u8(bytes, at, offset, answer),
        17 => lexing::stivlaheim_read_lookup_u16(bytes, at, offset, answer),
        18 => lexing::stivlaheim_read_lookup_u24(bytes, at, offset, answer),
        19 => lexing::stivlaheim_read_lookup_u32(bytes, at, offset, answer),
        _ => return None,
    })
}

// Numbers and colours.
fn ask_number(
    call: u64,
    bytes: &[u8],
    at: usize,
    offset: usize,
    answer: &mut [u64],
) -> Option<u32> {
    Some(match call {
        20 => lexing::stivlaheim_read_u32(bytes, at, offset, answer),
        21 => lexing::stivlaheim_read_u64(bytes, at, offset, answer),
        22 => lexing::stivlaheim_read_i32(bytes, at, offset, answer),
        23 => lexing::stivlaheim_read_i64(bytes, at, offset, answer),
        24 => lexing::stivlaheim_read_f32(bytes, at, offset, answer),
        25 => lexing::stivlaheim_read_f64(bytes, at, offset, answer),
        26 => lexing::stivlaheim_read_rgb(bytes, at, offset, answer),
        _ => return None,
    })
}

// The calls of a table of contents, by their numbers. A list's numbers are four bytes each, lowest byte first.
ghost use Rattle.std.specs.Prelude.{◌≤◌, IfSome};

use crate::outputs;
use capi::entries;

// Of a list's numbers, lent or given.
pub const LONGEST_LIST: usize = 16;

// What a lent number is before the call: four lent bytes.
pub const LENT_NUMBER: u32 = 0xa5a5_a5a5;

// The call, which is lent the first numbers of a list; all of the list is left in the bytes.
pub(crate) fn ask(
    call: u64,
    bytes: &[u8],
    room: usize,
    out: &mut [u8],
    answer: &mut [u64],
) -> Option<u32> {
    if room > LONGEST_LIST {
        return None;
    }
    let mut list = [LENT_NUMBER; LONGEST_LIST];
    let code = ask_within(call, bytes, &mut list[..room], answer);
    for (four, n) in out.chunks_mut(4).zip(&list) {
        outputs::copy(&n.to_le_bytes(), four);
    }
    code
}

// The list is filled from a save or from a file.
fn ask_within(call: u64, bytes: &[u8], list: &mut [u32], answer: &mut [u64]) -> Option<u32> {
    Some(match call {
        52 => entries::stivlaheim_contents(bytes, list, answer),
        55 => entries::stivlaheim_contents_read(bytes, list, answer),
        _ => return None,
    })
}

// A position is sought in the list that the bytes are.
pub(crate) fn search(bytes: &[u8], position: u64, answer: &mut [u64]) -> Option<u32> {
    let len = list_len(bytes)?;
    let list: [u32; LONGEST_LIST] = outputs::numbers(bytes);
    Some(entries::stivlaheim_contents_search(&list[..len], position, answer))
}

// The list that the bytes are becomes a file.
pub(crate) fn write(bytes: &[u8], out: &mut [u8], answer: &mut [u64]) -> Option<u32> {
    let len = list_len(bytes)?;
    let list: [u32; LONGEST_LIST] = outputs::numbers(bytes);
    Some(entries::stivlaheim_contents_write(&list[..len], out, answer))
}

// How many numbers the bytes are: whole ones, and no more than can be given.
fn list_len(bytes: &[u8]) -> Option<usize>
    ensures { IfSome result (λ n. n ≤ 16) }
{
    let len = bytes.len() / 4;
    if bytes.len() % 4 == 0 && len <= LONGEST_LIST {
        Some(len)
    } else {
        None
    }
}

// Replays the answers of the original that the file `answers` has, one a line, through the library. Prints the number of each line
// whose answer differs or that cannot be read, how many answers there were of each group of calls, and how many in all.
#![tactic(auto)]

mod calls;
mod line;
mod lists;
mod outputs;
mod sources;
mod tally;

use crate::line::{LONGEST, Line, NUMBERS};
use crate::tally::Tally;
use std::fs::File;
use std::io::{Error, Read};

// The line that is being read, and what came of those before it.
#[derive(Clone, Copy)]
pub struct State {
    pub line: Line,
    pub tally: Tally,
}

// The end of a line: its call is made.
fn finish(
    rt: &HostRuntime,
    line: Line,
    tally: Tally,
    numbers: &[u64; NUMBERS],
    bytes: &[u8; LONGEST],
) -> Tally {
    let t = tally.next_line();
    if line.comment {
        return t;
    }
    if line.is_whole() {
        let call = numbers[0];
        let input = part(bytes, 0, line.input);
        let output = part(bytes, line.input, line.len);
        return t.answer(rt, call, calls::holds(numbers, input, output));
    }
    t.answer(rt, 0, false)
}

// The bytes from one place to another; all where there is no such part.
fn part(s: &[u8], from: usize, to: usize) -> &[u8] {
    s.get(from..to).unwrap_or(s)
}

// The next byte of the file.
fn feed(
    rt: &HostRuntime,
    s: State,
    b: u8,
    numbers: &mut [u64; NUMBERS],
    bytes: &mut [u8; LONGEST],
) -> State {
    let line = s.line;
    let tally = s.tally;
    if b == b'\n' {
        return State {
            line: Line::new(),
            tally: finish(rt, line, tally, numbers, bytes),
        };
    }
    State {
        line: line.feed(b, numbers, bytes),
        tally,
    }
}

// A piece of the file; its last line may go on in the next.
fn take(
    rt: &HostRuntime,
    s: State,
    piece: &[u8],
    numbers: &mut [u64; NUMBERS],
    bytes: &mut [u8; LONGEST],
) -> State {
    let mut now = s;
    for b in piece {
        now = feed(rt, now, *b, numbers, bytes);
    }
    now
}

// The file to its end, or to the first read that fails. The turns are counted, up to a number that no file uses up.
fn replay(
    rt: &HostRuntime,
    file: &mut File,
    numbers: &mut [u64; NUMBERS],
    bytes: &mut [u8; LONGEST],
) -> State {
    let mut s = State {
        line: Line::new(),
        tally: Tally::new(),
    };
    for _ in 0..u64::MAX {
        let mut piece = [0u8; 4096];
        let Ok(n) = file.read(&mut piece) else {
            return s;
        };
        if n == 0 {
            return s;
        }
        s = take(rt, s, &piece[..n], numbers, bytes);
    }
    s
}

// Says on standard error why the file cannot be opened, in the system's words.
fn fail(rt: &HostRuntime, error: Error) {
    let mut text = [0u8; 256];
    let len = tally::spell(error, &mut text);
    let words = match std::str::from_utf8(&text[..len]) {
        Ok(words) => words,
        Err(_) => "",
    };
    // The number of the error stands behind them.
    let words = match words.split_once(" (os error ") {
        Some((words, _)) => words,
        None => words,
    };
    let _ = eprintln!(rt; "answers: {words}");
}

fn main(rt: HostRuntime) {
    let mut file = match File::open(&rt, "answers") {
        Ok(file) => file,
        Err(error) => {
            fail(&rt, error);
            return;
        }
    };
    let mut numbers = [0u64; NUMBERS];
    let mut bytes = [0u8; LONGEST];
    let s = replay(&rt, &mut file, &mut numbers, &mut bytes);
    drop(file);
    let line = s.line;
    let tally = s.tally;
    if line.is_empty() {
        tally.print(&rt);
        return;
    }
    // A line without an end.
    tally.next_line().answer(&rt, 0, false).print(&rt);
}

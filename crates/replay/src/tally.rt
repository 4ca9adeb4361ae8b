// What came of the lines so far.
ghost use Rattle.std.specs.Prelude.{◌≤◌, length};

use std::fmt::Display;
use std::io::Write;

// The lines, the answers by groups of calls, and those that differ.
#[derive(Clone, Copy)]
pub struct Tally {
    pub lines: u64,
    pub kinds: u64,
    pub parts: u64,
    pub ids: u64,
    pub tokens: u64,
    pub payloads: u64,
    pub skips: u64,
    pub writes: u64,
    pub steps: u64,
    pub sources: u64,
    pub finds: u64,
    pub contents: u64,
    pub positions: u64,
    pub rescues: u64,
    pub unreadable: u64,
    pub answers: u64,
    pub different: u64,
}

impl Tally {
    pub(crate) fn new() -> Tally {
        Tally {
            lines: 0,
            kinds: 0,
            parts: 0,
            ids: 0,
            tokens: 0,
            payloads: 0,
            skips: 0,
            writes: 0,
            steps: 0,
            sources: 0,
            finds: 0,
            contents: 0,
            positions: 0,
            rescues: 0,
            unreadable: 0,
            answers: 0,
            different: 0,
        }
    }

    pub(crate) fn next_line(self) -> Tally {
        let mut t = self;
        t.lines = more(t.lines);
        t
    }

    // The last line has an answer to a call, which holds or differs; a line that cannot be read has one to call 0.
    pub(crate) fn answer(self, rt: &HostRuntime, call: u64, holds: bool) -> Tally {
        let mut t = self.counted(call);
        t.answers = more(t.answers);
        if holds {
            return t;
        }
        t.different = more(t.different);
        print(rt, b"line ", t.lines);
        stdio::print(rt, b" differs\n");
        t
    }

    fn counted(self, call: u64) -> Tally {
        let mut t = self;
        match call {
            1..=2 => t.kinds = more(t.kinds),
            3..=6 => t.parts = more(t.parts),
            7..=9 => t.ids = more(t.ids),
            10..=13 => t.tokens = more(t.tokens),
            14..=26 => t.payloads = more(t.payloads),
            27..=28 => t.skips = more(t.skips),
            29..=31 => t.writes = more(t.writes),
            32 => t.steps = more(t.steps),
            33..=48 => t.sources = more(t.sources),
            49..=50 => t.writes = more(t.writes),
            51 => t.finds = more(t.finds),
            52..=55 => t.contents = more(t.contents),
            56 => t.positions = more(t.positions),
            57 => t.rescues = more(t.rescues),
            _ => t.unreadable = more(t.unreadable),
        }
        t
    }

    pub(crate) fn print(self, rt: &HostRuntime) {
        print(rt, b"kinds ", self.kinds);
        print(rt, b", parts ", self.parts);
        print(rt, b", ids ", self.ids);
        print(rt, b", tokens ", self.tokens);
        print(rt, b", payloads ", self.payloads);
        print(rt, b", skips ", self.skips);
        print(rt, b", writes ", self.writes);
        print(rt, b", steps ", self.steps);
        print(rt, b", sources ", self.sources);
        print(rt, b", finds ", self.finds);
        print(rt, b", contents ", self.contents);
        print(rt, b", positions ", self.positions);
        print(rt, b", rescues ", self.rescues);
        print(rt, b", unreadable ", self.unreadable);
        print(rt, b"\n", self.answers);
        print(rt, b" answers replayed, ", self.different);
        stdio::print(rt, b" different\n");
    }
}

fn more(n: u64) -> u64 {
    n.wrapping_add(1)
}

fn print(rt: &HostRuntime, words: &[u8], n: u64) {
    stdio::print(rt, words);
    print_decimal(rt, n);
}

// The text of a value at the front of out, as far as there is room; its length.
pub(crate) fn spell<D: Display + Drop>(value: D, out: &mut [u8]) -> usize
    ensures { result ≤ length out.new }
{
    let room = out.len();
    let mut rest = &mut out[..];
    let _ = write!(rest, "{value}");
    room.saturating_sub(rest.len())
}

// Writes the digits to standard output. A write that fails, or that a signal interrupts, ends it.
fn print_decimal(rt: &HostRuntime, n: u64) {
    let mut text = [0u8; 20];
    let len = spell(n, &mut text);
    let mut written: usize = 0;
    while written < len {
        let Ok(more) = rt.stdout().write(&text[written..len]) else {
            return;
        };
        if more == 0 {
            return;
        }
        written += more;
    }
}

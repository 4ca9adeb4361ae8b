// A line: thirteen numbers and bytes in hex, with single spaces between them. The numbers are the call, its cursor, the input's offset, what
// else it is given, the code of its answer and the eight words. The bytes are the input, or the input, a slash and what the call leaves in
// the bytes that it is lent; a dash stands for none. A line that begins with # is a comment.

ghost use Rattle.std.specs.Prelude.{◌<◌, IfSome};

pub const NUMBERS: usize = 13;

// Of the input and the output together.
pub const LONGEST: usize = 1280;

// The digits of a byte, two by two.
#[derive(Clone, Copy, Debug, PartialEq, Eq)]
pub enum Digits {
    // None waits for its second.
    Even,
    // One does: sixteen times its value.
    High(u8),
    // A dash stands for all of them.
    Dash,
}

// How far it is read.
#[derive(Clone, Copy)]
pub struct Line {
    // Numbers that are read to their end.
    pub column: usize,
    // Whether the next one, or the part of the bytes, has begun, and what a number's digits spell so far.
    pub begun: bool,
    pub number: u64,
    // Bytes so far, and those of them that are the input.
    pub len: usize,
    pub input: usize,
    // The input has ended.
    pub parted: bool,
    pub digits: Digits,
    pub comment: bool,
    pub sound: bool,
}

impl Line {
    pub(crate) fn new() -> Line {
        Line {
            column: 0,
            begun: false,
            number: 0,
            len: 0,
            input: 0,
            parted: false,
            digits: Digits::Even,
            comment: false,
            sound: true,
        }
    }

    // Nothing is read of it.
    pub(crate) fn is_empty(self) -> bool {
        !self.begun && self.column == 0
    }

    // All columns are there.
    pub(crate) fn is_whole(self) -> bool {
        self.sound && self.column == NUMBERS && self.part_is_whole()
    }

    fn part_is_whole(self) -> bool {
        self.begun && !matches!(self.digits, Digits::High(_))
    }

    // Its next byte.
    pub(crate) fn feed(
        self,
        b: u8,
        numbers: &mut [u64; NUMBERS],
        bytes: &mut [u8; LONGEST],
    ) -> Line {
        if self.comment {
            return self;
        }
        if self.column < NUMBERS {
            return self.feed_number(b, numbers);
        }
        self.feed_bytes(b, bytes)
    }

    fn spoilt(self) -> Line {
        Line {
            begun: true,
            sound: false,
            ..self
        }
    }

    fn feed_number(self, b: u8, numbers: &mut [u64; NUMBERS]) -> Line {
        match b {
            b'0'..=b'9' => self.digit(b - b'0'),
            b' ' => self.end_number(numbers),
            b'#' => self.comment(),
            _ => self.spoilt(),
        }
    }

    fn digit(self, d: u8) -> Line {
        let tens = self.number.checked_mul(10);
        match tens.and_then(|tens| tens.checked_add(u64::from(d))) {
            Some(number) => Line {
                begun: true,
                number,
                ..self
            },
            None => self.spoilt(),
        }
    }

    fn end_number(self, numbers: &mut [u64; NUMBERS]) -> Line {
        let column = self.column;
        if self.begun && column < NUMBERS {
            numbers[column] = self.number;
            return Line {
                column: column + 1,
                begun: false,
                number: 0,
                ..self
            };
        }
        self.spoilt()
    }

    fn comment(self) -> Line {
        if self.is_empty() {
            return Line {
                begun: true,
                comment: true,
                ..self
            };
        }
        self.spoilt()
    }

    fn feed_bytes(self, b: u8, bytes: &mut [u8; LONGEST]) -> Line {
        match b {
            b'-' => self.no_bytes(),
            b'/' => self.end_input(),
            _ => self.hex(b, bytes),
        }
    }

    // A dash, alone in its part.
    fn no_bytes(self) -> Line {
        if self.begun {
            return self.spoilt();
        }
        Line {
            begun: true,
            digits: Digits::Dash,
            ..self
        }
    }

    // A slash, after a whole input.
    fn end_input(self) -> Line {
        if self.parted || !self.part_is_whole() {
            return self.spoilt();
        }
        Line {
            parted: true,
            begun: false,
            digits: Digits::Even,
            ..self
        }
    }

    fn hex(self, b: u8, bytes: &mut [u8; LONGEST]) -> Line {
        let Some(d) = hex_digit(b) else {
            return self.spoilt();
        };
        match self.digits {
            Digits::Even => Line {
                begun: true,
                digits: Digits::High(d * 16),
                ..self
            },
            Digits::High(high) => self.byte(high | d, bytes),
            Digits::Dash => self.spoilt(),
        }
    }

    fn byte(self, b: u8, bytes: &mut [u8; LONGEST]) -> Line {
        if self.len < LONGEST {
            bytes[self.len] = b;
            let len = self.len + 1;
            return Line {
                digits: Digits::Even,
                len,
                input: if self.parted { self.input } else { len },
                ..self
            };
        }
        self.spoilt()
    }
}

// A digit's value.
fn hex_digit(b: u8) -> Option<u8>
    ensures { IfSome result (λ d. d < 16) }
{
    match b {
        b'0'..=b'9' => Some(b - b'0'),
        b'a'..=b'f' => Some(b - b'a' + 10),
        _ => None,
    }
}

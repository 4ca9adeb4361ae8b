// The window: a source of bytes over a lent buffer, a supply and a schedule.
#![tactic(auto)]

pub mod answers;
mod binary;
mod reads;

ghost use Rattle.std.specs.Prelude.{◌≡◌, ◌+◌, ◌-◌, ◌≤◌, length};
ghost use Rattle.form.specs.Numbers.{pick, MAX};
ghost use Rattle.payload.specs.Answers.{option_as};
ghost use Rattle.source.specs.Window.{new_stream, new_slice, unread, checked, checked_in, read_past, filled, topped, ensured, once, refilled, advanced, window_len, window_of, text_in, taken, tried, peeked};
ghost use Rattle.source.specs.Answers.{judged, ensured_answer, drawn_as, window_len_answer};
ghost use Rattle.source.specs.Good.{Good};

pub use crate::answers::{ParserError, Stop, Taken, taken_part, tried_part};
use crate::reads::Reads;
use payload::Text;

// The unread bytes are those from start to end, of the buffer or, of a slice, of the supply. So many bytes of the supply are handed over and
// so many entries of the schedule used; position bytes are read.
#[derive(Clone, Copy, Debug, PartialEq, Eq)]
pub struct ParserSource {
    pub start: usize,
    pub end: usize,
    pub supply: usize,
    pub schedule: usize,
    pub position: usize,
    pub streaming: bool,
}

impl ParserSource {
    // A source over a slice, which each call is given as the supply. No buffer is looked at.
    pub fn from_slice(slice: &[u8]) -> Self
        ensures { result ≡ new_slice (length slice.now) }
    {
        let len = slice.len();
        ParserSource {
            start: 0,
            end: len,
            supply: len,
            schedule: 0,
            position: 0,
            streaming: false,
        }
    }

    // A source over a supply, which comes by way of a buffer.
    pub fn from_reader() -> Self
        ensures { result ≡ new_stream }
    {
        ParserSource {
            start: 0,
            end: 0,
            supply: 0,
            schedule: 0,
            position: 0,
            streaming: true,
        }
    }

    // How many bytes are read.
    pub fn position(self) -> usize
        ensures { result ≡ self.position }
    {
        self.position
    }

    // The bytes that hold the window.
    pub(crate) fn held_in<'a>(self, buffer: &'a [u8], supply: &'a [u8]) -> &'a [u8]
        ensures { result.now ≡ pick self.streaming buffer.now supply.now }
    {
        if self.streaming { buffer } else { supply }
    }

    // The first number that does not fit, in FORMAT.md's order.
    #[tactic(auto, unfolding(crate::specs::Window::checked))]
    fn check_in(self, held: usize, supply: usize, schedule: usize) -> Option<usize>
        ensures { result ≡ checked self held supply schedule }
    {
        if self.end < self.start {
            return Some(self.start);
        }
        if held < self.end {
            return Some(self.end);
        }
        if supply < self.supply {
            return Some(self.supply);
        }
        if schedule < self.schedule {
            return Some(self.schedule);
        }
        let spare = usize::MAX - (self.end - self.start);
        let left = supply - self.supply;
        if spare < left {
            return Some(self.position);
        }
        if spare - left < self.position {
            return Some(self.position);
        }
        None
    }

    // Refuses a state whose numbers do not fit.
    #[tactic(auto, unfolding(crate::specs::Answers::judged))]
    fn check(self, buffer: &[u8], supply: &[u8], schedule: &[u32]) -> Result<(), Stop>
        ensures { result ≡ judged self (checked_in supply.now schedule.now self buffer.now) }
    {
        let held = self.held_in(buffer, supply);
        match self.check_in(held.len(), supply.len(), schedule.len()) {
            None => Ok(()),
            Some(p) => Err(Stop {
                error: ParserError::BadPlace(p),
                next: self,
            }),
        }
    }

    // The state after its unread bytes moved to the front, and reads behind them.
    fn filled(self, r: Reads) -> Self
        requires { (self.start ≤ self.end) × (unread self + r.got ≤ MAX) × (self.supply + r.got ≤ MAX) × (self.schedule + r.used ≤ MAX) }
        ensures { result ≡ filled self r }
    {
        ParserSource {
            start: 0,
            end: self.end - self.start + r.got,
            supply: self.supply + r.got,
            schedule: self.schedule + r.used,
            ..self
        }
    }

    // Moves the unread bytes to the front and fills the buffer.
    fn refill_slow(
        self,
        required: usize,
        buffer: &mut [u8],
        supply: &[u8],
        schedule: &[u32],
    ) -> Result<ParserSource, Stop>
        requires { Good self (length buffer.old) (length supply.now) (length schedule.now) }
        ensures { ensured_answer result buffer.new ≡ topped supply.now schedule.now required self buffer.old }
    {
        let len = self.end - self.start;
        reads::slide(buffer, self.start, len);
        let r = reads::fill_up(
            &mut buffer[len..],
            &supply[self.supply..],
            &schedule[self.schedule..],
        );
        let next = self.filled(r);
        if r.failed {
            return Err(Stop {
                error: ParserError::ReadFailed(self.position),
                next,
            });
        }
        let end = next.end;
        if end < required {
            let missing = required - end;
            return Err(Stop {
                error: ParserError::Eof(self.position, missing),
                next,
            });
        }
        Ok(next)
    }

    // Has so many bytes unread in the window, reading as needed.
    #[tactic(auto, using(crate::proofs::Cases::checks))]
    pub fn ensure_bytes(
        self,
        required: usize,
        buffer: &mut [u8],
        supply: &[u8],
        schedule: &[u32],
    ) -> Result<ParserSource, Stop>
        ensures { ensured_answer result buffer.new ≡ ensured supply.now schedule.now required self buffer.old }
    {
        self.check(buffer, supply, schedule)?;
        let unread = self.end - self.start;
        if required <= unread {
            return Ok(self);
        }
        if !self.streaming {
            let missing = required - unread;
            return Err(Stop {
                error: ParserError::Eof(self.position, missing),
                next: self,
            });
        }
        if buffer.len() < required {
            return Err(Stop {
                error: ParserError::BufferTooSmall(self.position),
                next: self,
            });
        }
        self.refill_slow(required, buffer, supply, schedule)
    }

    // Moves the unread bytes to the front and reads once.
    fn read_more(self, buffer: &mut [u8], supply: &[u8], schedule: &[u32]) -> Taken<usize>
        requires { Good self (length buffer.old) (length supply.now) (length schedule.now) }
        ensures { drawn_as (λ n. n) result buffer.new ≡ once supply.now schedule.now self buffer.old }
    {
        let len = self.end - self.start;
        reads::slide(buffer, self.start, len);
        let r = reads::read_once(
            &mut buffer[len..],
            &supply[self.supply..],
            &schedule[self.schedule..],
        );
        let next = self.filled(r);
        if r.failed {
            return Err(Stop {
                error: ParserError::ReadFailed(self.position),
                next,
            });
        }
        Ok((r.got, next))
    }

    // Reads once into the buffer, behind the unread bytes, and says how many bytes came; none for a slice.
    #[tactic(auto, using(crate::proofs::Cases::checks))]
    pub fn refill(self, buffer: &mut [u8], supply: &[u8], schedule: &[u32]) -> Taken<usize>
        ensures { drawn_as (λ n. n) result buffer.new ≡ refilled supply.now schedule.now self buffer.old }
    {
        self.check(buffer, supply, schedule)?;
        if !self.streaming {
            return Ok((0, self));
        }
        if buffer.len() <= self.end - self.start {
            return Err(Stop {
                error: ParserError::BufferTooSmall(self.position),
                next: self,
            });
        }
        self.read_more(buffer, supply, schedule)
    }

    // The state after so many of its unread bytes.
    pub(crate) fn past(self, bytes: usize) -> Self
        requires { (self.start + bytes ≤ MAX) × (self.position + bytes ≤ MAX) }
        ensures { result ≡ read_past bytes self }
    {
        ParserSource {
            start: self.start + bytes,
            position: self.position + bytes,
            ..self
        }
    }

    // Reads so many bytes of the window; none where it does not have them.
    #[tactic(auto, using(crate::proofs::Cases::checks))]
    pub fn advance(
        self,
        bytes: usize,
        buffer: &[u8],
        supply: &[u8],
        schedule: &[u32],
    ) -> Taken<bool>
        ensures { drawn_as (λ b. b) result buffer.now ≡ advanced supply.now schedule.now bytes self buffer.now }
    {
        self.check(buffer, supply, schedule)?;
        if bytes <= self.end - self.start {
            return Ok((true, self.past(bytes)));
        }
        Ok((false, self))
    }

    // How many bytes are unread in the window.
    #[tactic(auto, using(crate::proofs::Cases::checks))]
    pub fn window_len(
        self,
        buffer: &[u8],
        supply: &[u8],
        schedule: &[u32],
    ) -> Result<usize, ParserError>
        ensures { window_len_answer self result buffer.now ≡ window_len supply.now schedule.now self buffer.now }
    {
        match self.check(buffer, supply, schedule) {
            Ok(()) => Ok(self.end - self.start),
            Err(x) => Err(x.error),
        }
    }

    // The unread bytes; none where the state is refused.
    #[tactic(auto, using(crate::proofs::Cases::checks))]
    pub fn window<'a>(self, buffer: &'a [u8], supply: &'a [u8], schedule: &[u32]) -> &'a [u8]
        ensures { result.now ≡ window_of supply.now schedule.now self buffer.now }
    {
        let held = self.held_in(buffer, supply);
        match self.check(buffer, supply, schedule) {
            Ok(()) => &held[self.start..self.end],
            Err(_) => &held[..0],
        }
    }

    // The bytes of a text; none where it does not lie within those that hold the window.
    pub(crate) fn text<'a>(self, text: Text, buffer: &'a [u8], supply: &'a [u8]) -> &'a [u8]
        ensures { result.now ≡ text_in supply.now text self buffer.now }
    {
        let held = self.held_in(buffer, supply);
        match text.start.checked_add(text.len) {
            Some(end) if end <= held.len() => &held[text.start..end],
            _ => &held[..0],
        }
    }

    // The next bytes, which are read.
    #[tactic(auto, using(crate::proofs::Through::reads))]
    pub fn take(
        self,
        count: usize,
        buffer: &mut [u8],
        supply: &[u8],
        schedule: &[u32],
    ) -> Taken<Text>
        ensures { drawn_as (λ t. t) result buffer.new ≡ taken supply.now schedule.now count self buffer.old }
    {
        let s = self.ensure_bytes(count, buffer, supply, schedule)?;
        let text = Text {
            start: s.start,
            len: count,
        };
        Ok((text, s.past(count)))
    }

    // As `take`: of an array and of a slice, a count is all that is asked.
    pub fn take_bytes(
        self,
        n: usize,
        buffer: &mut [u8],
        supply: &[u8],
        schedule: &[u32],
    ) -> Taken<Text>
        ensures { drawn_as (λ t. t) result buffer.new ≡ taken supply.now schedule.now n self buffer.old }
    {
        self.take(n, buffer, supply, schedule)
    }

    // The next bytes, which are read; nothing at the end.
    #[tactic(auto, using(crate::proofs::Through::reads))]
    pub fn try_take(
        self,
        count: usize,
        buffer: &mut [u8],
        supply: &[u8],
        schedule: &[u32],
    ) -> Taken<Option<Text>>
        ensures { drawn_as (option_as (λ t. t)) result buffer.new ≡ tried supply.now schedule.now count self buffer.old }
    {
        match self.take(count, buffer, supply, schedule) {
            Ok((text, s)) => Ok((Some(text), s)),
            Err(x) => x.or_nothing(),
        }
    }

    // As `try_take`.
    pub fn try_take_bytes(
        self,
        n: usize,
        buffer: &mut [u8],
        supply: &[u8],
        schedule: &[u32],
    ) -> Taken<Option<Text>>
        ensures { drawn_as (option_as (λ t. t)) result buffer.new ≡ tried supply.now schedule.now n self buffer.old }
    {
        self.try_take(n, buffer, supply, schedule)
    }

    // The next bytes, which stay unread; nothing at the end.
    #[tactic(auto, using(crate::proofs::Through::reads))]
    pub fn peek(
        self,
        count: usize,
        buffer: &mut [u8],
        supply: &[u8],
        schedule: &[u32],
    ) -> Taken<Option<Text>>
        ensures { drawn_as (option_as (λ t. t)) result buffer.new ≡ peeked supply.now schedule.now count self buffer.old }
    {
        match self.ensure_bytes(count, buffer, supply, schedule) {
            Ok(s) => {
                let text = Text {
                    start: s.start,
                    len: count,
                };
                Ok((Some(text), s))
            }
            Err(x) => x.or_nothing(),
        }
    }
}

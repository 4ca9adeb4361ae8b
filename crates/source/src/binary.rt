// Reading the format through the window.
#![tactic(auto, using(crate::proofs::Through::reads))]

ghost use Rattle.std.specs.Prelude.{◌≡◌, ◌+◌, ◌≤◌, length, take, drop, IfOk};
ghost use Rattle.form.specs.Numbers.{le};
ghost use Rattle.payload.specs.Answers.{colour_of, option_as};
ghost use Rattle.source.specs.Window.{held_in};
ghost use Rattle.source.specs.Answers.{drawn_as, ensured_answer};
ghost use Rattle.source.specs.Binary.{id, number, peeked_id, string, string_of, expected, channel, with_alpha, ending, channels, colour};

use crate::ParserSource;
use crate::answers::{ParserError, Stop, Taken};
use lexeme::{LexemeId, number};
use payload::{Rgb, Text};

impl ParserSource {
    // The N bytes from a place, of those that hold the window.
    fn bytes_at<const N: usize>(self, at: usize, buffer: &[u8], supply: &[u8]) -> [u8; N]
        requires { at + N ≤ length (held_in supply.now self buffer.now) }
        ensures { result ≡ take N (drop at (held_in supply.now self buffer.now)) }
    {
        let held = self.held_in(buffer, supply);
        let mut bytes = [0; N];
        bytes.copy_from_slice(&held[at..at + N]);
        bytes
    }

    // The next N bytes, which spell a number and are read.
    fn take_number<const N: usize>(
        self,
        buffer: &mut [u8],
        supply: &[u8],
        schedule: &[u32],
    ) -> Taken<[u8; N]>
        ensures value { drawn_as le result buffer.new ≡ number supply.now schedule.now N self buffer.old }
        ensures len { IfOk result (λ x. length x.0 ≡ N) }
    {
        let (text, s) = self.take(N, buffer, supply, schedule)?;
        Ok((s.bytes_at(text.start, buffer, supply), s))
    }

    // The next two bytes as an id.
    pub fn read_lexeme_id(
        self,
        buffer: &mut [u8],
        supply: &[u8],
        schedule: &[u32],
    ) -> Taken<LexemeId>
        ensures { drawn_as (λ i. i.0) result buffer.new ≡ id supply.now schedule.now self buffer.old }
    {
        let (bytes, s) = self.take_number::<2>(buffer, supply, schedule)?;
        Ok((LexemeId::new(u16::from_le_bytes(bytes)), s))
    }

    // The next two bytes as an id, unread; nothing at the end.
    pub fn peek_lexeme_id(
        self,
        buffer: &mut [u8],
        supply: &[u8],
        schedule: &[u32],
    ) -> Taken<Option<LexemeId>>
        ensures { drawn_as (option_as (λ i. i.0)) result buffer.new ≡ peeked_id supply.now schedule.now self buffer.old }
    {
        let (found, s) = self.peek(2, buffer, supply, schedule)?;
        let Some(text) = found else {
            return Ok((None, s));
        };
        let bytes = s.bytes_at(text.start, buffer, supply);
        Ok((Some(LexemeId::new(u16::from_le_bytes(bytes))), s))
    }

    // The number of the next four bytes.
    fn take_u32(self, buffer: &mut [u8], supply: &[u8], schedule: &[u32]) -> Taken<u32>
        ensures { drawn_as (λ x. x) result buffer.new ≡ number supply.now schedule.now 4 self buffer.old }
    {
        let (bytes, s) = self.take_number::<4>(buffer, supply, schedule)?;
        Ok((u32::from_le_bytes(bytes), s))
    }

    // A string: two bytes of length, and as many bytes of text.
    pub fn read_bstr(self, buffer: &mut [u8], supply: &[u8], schedule: &[u32]) -> Taken<Text>
        ensures { drawn_as (λ t. t) result buffer.new ≡ string supply.now schedule.now self buffer.old }
    {
        let s = self.ensure_bytes(2, buffer, supply, schedule)?;
        let len = u16::from_le_bytes(s.bytes_at(s.start, buffer, supply));
        s.read_text(len, buffer, supply, schedule)
    }

    // The text of so many bytes, behind its length.
    fn read_text(self, len: u16, buffer: &mut [u8], supply: &[u8], schedule: &[u32]) -> Taken<Text>
        ensures { drawn_as (λ t. t) result buffer.new ≡ string_of supply.now schedule.now len self buffer.old }
    {
        let len = len as usize;
        let whole = 2 + len;
        let s = self.ensure_bytes(whole, buffer, supply, schedule)?;
        let start = s.start + 2;
        Ok((Text { start, len }, s.past(whole)))
    }

    // An id that has to be this one.
    fn expect(
        self,
        id: LexemeId,
        buffer: &mut [u8],
        supply: &[u8],
        schedule: &[u32],
    ) -> Result<ParserSource, Stop>
        ensures { ensured_answer result buffer.new ≡ expected supply.now schedule.now id.0 self buffer.old }
    {
        let (found, s) = self.read_lexeme_id(buffer, supply, schedule)?;
        if found.is(id) {
            Ok(s)
        } else {
            Err(Stop {
                error: ParserError::InvalidRgb(s.position),
                next: s,
            })
        }
    }

    fn read_channel(self, buffer: &mut [u8], supply: &[u8], schedule: &[u32]) -> Taken<u32>
        ensures { drawn_as (λ x. x) result buffer.new ≡ channel supply.now schedule.now self buffer.old }
    {
        let s = self.expect(LexemeId::U32, buffer, supply, schedule)?;
        s.take_u32(buffer, supply, schedule)
    }

    // A colour's alpha and its end.
    fn read_alpha(
        self,
        colour: Rgb,
        buffer: &mut [u8],
        supply: &[u8],
        schedule: &[u32],
    ) -> Taken<Rgb>
        ensures { drawn_as colour_of result buffer.new ≡ with_alpha supply.now schedule.now colour.r colour.g colour.b self buffer.old }
    {
        let (a, s) = self.take_u32(buffer, supply, schedule)?;
        let last = s.expect(LexemeId::CLOSE, buffer, supply, schedule)?;
        let a = Some(a);
        Ok((Rgb { a, ..colour }, last))
    }

    // What follows the third channel: the end, or an alpha before it.
    fn read_ending(
        self,
        colour: Rgb,
        buffer: &mut [u8],
        supply: &[u8],
        schedule: &[u32],
    ) -> Taken<Rgb>
        ensures { drawn_as colour_of result buffer.new ≡ ending supply.now schedule.now colour.r colour.g colour.b self buffer.old }
    {
        let (end, s) = self.read_lexeme_id(buffer, supply, schedule)?;
        let n = end.0;
        match n {
            number::CLOSE => Ok((Rgb { a: None, ..colour }, s)),
            number::U32 => s.read_alpha(colour, buffer, supply, schedule),
            _ => Err(Stop {
                error: ParserError::InvalidRgb(s.position),
                next: s,
            }),
        }
    }

    // The three channels, and what follows them.
    fn read_channels(self, buffer: &mut [u8], supply: &[u8], schedule: &[u32]) -> Taken<Rgb>
        ensures { drawn_as colour_of result buffer.new ≡ channels supply.now schedule.now self buffer.old }
    {
        let (r, s1) = self.read_channel(buffer, supply, schedule)?;
        let (g, s2) = s1.read_channel(buffer, supply, schedule)?;
        let (b, s3) = s2.read_channel(buffer, supply, schedule)?;
        let a = None;
        s3.read_ending(Rgb { r, g, b, a }, buffer, supply, schedule)
    }

    // A colour, after its id. Each id is judged as it comes.
    pub fn read_rgb(self, buffer: &mut [u8], supply: &[u8], schedule: &[u32]) -> Taken<Rgb>
        ensures { drawn_as colour_of result buffer.new ≡ colour supply.now schedule.now self buffer.old }
    {
        let s = self.expect(LexemeId::OPEN, buffer, supply, schedule)?;
        s.read_channels(buffer, supply, schedule)
    }
}

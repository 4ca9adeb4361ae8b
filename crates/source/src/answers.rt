// The answers of the source's calls, each with the state that the call leaves.
ghost use Rattle.std.specs.Prelude.{◌≡◌};
ghost use Rattle.form.specs.Refusals.{is_eof};
ghost use Rattle.payload.specs.Answers.{option_as};
ghost use Rattle.source.specs.Answers.{refusal_of, or_nothing, drawn_as};
ghost use Rattle.source.specs.Window.{taken_part, tried_part};

use crate::ParserSource;
use payload::Text;

// Why a call is refused: the position, and with Eof how many bytes are missing; or the number that does not fit.
#[derive(Clone, Copy, Debug, PartialEq, Eq)]
pub enum ParserError {
    Eof(usize, usize),
    InvalidRgb(usize),
    BufferTooSmall(usize),
    ReadFailed(usize),
    BadPlace(usize),
}

impl ParserError {
    // Whether the bytes ended too early.
    #[tactic(auto, unfolding(form::specs::Refusals::is_eof))]
    pub fn is_eof(self) -> bool
        ensures { result ≡ is_eof (refusal_of self) }
    {
        matches!(self, ParserError::Eof(_, _))
    }
}

// A refusal, and the state that it leaves.
#[derive(Clone, Copy, Debug, PartialEq, Eq)]
pub struct Stop {
    pub error: ParserError,
    pub next: ParserSource,
}

// What a call answers: a value and the state that it leaves, or a refusal.
pub type Taken<T> = Result<(T, ParserSource), Stop>;

impl Stop {
    // Nothing, where the bytes ended with none unread.
    pub(crate) fn or_nothing(self) -> Taken<Option<Text>>
        ensures { result ≡ or_nothing self }
    {
        let next = self.next;
        if self.error.is_eof() && next.end <= next.start {
            Ok((None, next))
        } else {
            Err(self)
        }
    }
}

// The bytes taken; none on a refusal.
#[tactic(auto, unfolding(crate::specs::Window::taken_part))]
pub fn taken_part<'a>(taken: Taken<Text>, buffer: &'a [u8], supply: &'a [u8]) -> &'a [u8]
    ensures { result.now ≡ taken_part supply.now (drawn_as (λ t. t) taken buffer.now) }
{
    match taken {
        Ok((text, next)) => next.text(text, buffer, supply),
        Err(_) => &buffer[..0],
    }
}

// The bytes found; none where there is nothing, and on a refusal.
#[tactic(auto, unfolding(crate::specs::Window::tried_part))]
pub fn tried_part<'a>(tried: Taken<Option<Text>>, buffer: &'a [u8], supply: &'a [u8]) -> &'a [u8]
    ensures { result.now ≡ tried_part supply.now (drawn_as (option_as (λ t. t)) tried buffer.now) }
{
    match tried {
        Ok((Some(text), next)) => next.text(text, buffer, supply),
        Ok((None, _)) => &buffer[..0],
        Err(_) => &buffer[..0],
    }
}

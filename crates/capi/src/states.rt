// A source's state, as six words that a caller keeps.
ghost use Rattle.std.specs.Prelude.{◌≡◌, ◌≤◌, length, OnOk};
ghost use Rattle.capi.specs.Replies.{returned};
ghost use Rattle.capi.specs.Sources.{state_of, state_words, with_state, asked, bad_call_number, begun};

use crate::codes;
use source::ParserSource;

// Why no call is made: the answer list is too short, or another argument is bad.
#[derive(Clone, Copy, Debug, PartialEq, Eq)]
pub(crate) enum BadCall {
    ShortAnswer,
    BadArgument,
}

impl BadCall {
    // Its number in include/stivlaheim.h.
    pub(crate) fn number(self) -> u32
        ensures { result ≡ bad_call_number self }
    {
        match self {
            BadCall::ShortAnswer => codes::SHORT_ANSWER,
            BadCall::BadArgument => codes::BAD_ARGUMENT,
        }
    }
}

fn of_words(words: &[u64; 6]) -> ParserSource
    ensures { result ≡ state_of words.now }
{
    let [start, end, supply, schedule, position, streaming] = *words;
    ParserSource {
        start: start as usize,
        end: end as usize,
        supply: supply as usize,
        schedule: schedule as usize,
        position: position as usize,
        streaming: streaming == 1,
    }
}

fn words_of(s: ParserSource) -> [u64; 6]
    ensures { result ≡ state_words s }
{
    [
        s.start as u64,
        s.end as u64,
        s.supply as u64,
        s.schedule as u64,
        s.position as u64,
        u64::from(s.streaming),
    ]
}

// The state that is handed over. The answer list is tested first.
#[tactic(auto, unfolding(crate::specs::Sources::asked))]
pub(crate) fn ask(state: &[u64], answer: &[u64]) -> Result<ParserSource, BadCall>
    ensures state { result ≡ asked answer.now state.now }
    ensures six { OnOk result (6 ≤ length state.now) }
{
    if answer.len() < 8 {
        return Err(BadCall::ShortAnswer);
    }
    match state.first_chunk() {
        Some(words) if words[5] <= 1 => Ok(of_words(words)),
        _ => Err(BadCall::BadArgument),
    }
}

pub(crate) fn put(state: &mut [u64], s: ParserSource)
    requires { 6 ≤ length state.old }
    ensures { state.new ≡ with_state s state.old }
{
    state[..6].copy_from_slice(&words_of(s));
}

// A new state, where there is room for it.
#[tactic(auto, unfolding(crate::specs::Sources::begun))]
pub(crate) fn begin(state: &mut [u64], s: ParserSource) -> u32
    ensures { returned result state.new ≡ begun s state.old }
{
    if state.len() < 6 {
        return codes::BAD_ARGUMENT;
    }
    put(state, s);
    codes::ANSWERED
}

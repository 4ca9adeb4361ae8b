// What each kind of answer of a source's call leaves: the reply and the state.
ghost use Rattle.std.specs.Prelude.{◌≡◌, ℕ, List, ◌≤◌, length};
ghost use Rattle.payload.specs.Answers.{option_as};
ghost use Rattle.source.specs.Answers.{refusal_of, ensured_answer, drawn_as, window_len_answer};
ghost use Rattle.capi.specs.Replies as Replies;
ghost use Rattle.capi.specs.Replies.{returned, into, reply_of, reply_or_none};
ghost use Rattle.capi.specs.Words.{no_words, number_words, text_words};
ghost use Rattle.capi.specs.Code.{as_reply};
ghost use Rattle.capi.specs.Sources.{with_state, source_reply_of, source_reply_to, as_part};

use crate::replies::Reply;
use crate::words::Words;
use crate::{replies, states};
use payload::Text;
use source::{ParserError, ParserSource, Stop, Taken};

#[derive(Clone, Copy)]
pub(crate) struct SourceReply {
    pub reply: Reply,
    pub next: ParserSource,
}

fn got<T: Words>(s: ParserSource, x: T) -> SourceReply
    ensures reply { as_reply result.reply ≡ Replies.answered s.position (T.words x) }
    ensures next { result.next ≡ s }
{
    SourceReply {
        reply: replies::answered(s.position, x),
        next: s,
    }
}

fn nothing(s: ParserSource) -> SourceReply
    ensures reply { as_reply result.reply ≡ Replies.absent s.position }
    ensures next { result.next ≡ s }
{
    SourceReply {
        reply: replies::absent(s.position),
        next: s,
    }
}

fn stopped(x: Stop) -> SourceReply
    ensures reply { as_reply result.reply ≡ Replies.refused x.next.position (refusal_of x.error) }
    ensures next { result.next ≡ x.next }
{
    SourceReply {
        reply: replies::refused(x.next.position, x.error.into()),
        next: x.next,
    }
}

// A value, with the next state.
pub(crate) fn of_taken<T: Words>(x: Taken<T>) -> SourceReply
    ensures { (buffer : List ℕ) → source_reply_of result buffer ≡ source_reply_to (reply_of T.words) (drawn_as (λ v. v) x) buffer }
{
    match x {
        Ok((value, next)) => got(next, value),
        Err(stop) => stopped(stop),
    }
}

// The same, or nothing.
pub(crate) fn of_tried<T: Words>(x: Taken<Option<T>>) -> SourceReply
    ensures { (buffer : List ℕ) → source_reply_of result buffer ≡ source_reply_to (reply_or_none T.words) (drawn_as (option_as (λ v. v)) x) buffer }
{
    match x {
        Ok((Some(value), next)) => got(next, value),
        Ok((None, next)) => nothing(next),
        Err(stop) => stopped(stop),
    }
}

pub(crate) fn of_ensured(x: Result<ParserSource, Stop>) -> SourceReply
    ensures { (buffer : List ℕ) → source_reply_of result buffer ≡ source_reply_to (reply_of no_words) (ensured_answer x) buffer }
{
    match x {
        Ok(next) => got(next, ()),
        Err(stop) => stopped(stop),
    }
}

// The state stays as it was.
pub(crate) fn of_window_len(s: ParserSource, x: Result<usize, ParserError>) -> SourceReply
    ensures { (buffer : List ℕ) → source_reply_of result buffer ≡ source_reply_to (reply_of number_words) (window_len_answer s x) buffer }
{
    match x {
        Ok(len) => got(s, len),
        Err(error) => stopped(Stop { error, next: s }),
    }
}

// The window as a part.
#[tactic(auto, unfolding(source::specs::Window::drawn_then))]
pub(crate) fn of_window(s: ParserSource, x: Result<usize, ParserError>) -> SourceReply
    ensures { (buffer : List ℕ) → source_reply_of result buffer ≡ source_reply_to (reply_of text_words) (λ l. as_part (window_len_answer s x l)) buffer }
{
    let start = s.start;
    match x {
        Ok(len) => got(s, Text { start, len }),
        Err(error) => stopped(Stop { error, next: s }),
    }
}

// Hands over to the caller: the state into its six words, the reply into the answer list.
pub(crate) fn hand_over(x: SourceReply, state: &mut [u64], answer: &mut [u64]) -> u32
    requires { 6 ≤ length state.old }
    ensures answer_after { returned result answer.new ≡ into answer.old (as_reply x.reply) }
    ensures state_after { state.new ≡ with_state x.next state.old }
{
    states::put(state, x.next);
    replies::store(answer, x.reply)
}

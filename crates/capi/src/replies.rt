// Replies: a number to return, and eight words.
ghost use Rattle.std.specs.Prelude.{◌≡◌, [], ◌∷◌, MatchResult};
ghost use Rattle.capi.specs.Replies as Replies;
ghost use Rattle.capi.specs.Replies.{returned, into};
ghost use Rattle.capi.specs.Code.{as_reply, refusal_as};
ghost use Rattle.capi.specs.declared.refusals.Refusal.{Refusal};

use crate::codes;
use crate::refusals::Refusal;
use crate::words::Words;

// The first word is a place; the others say what is there.
#[derive(Clone, Copy)]
pub(crate) struct Reply {
    pub code: u32,
    pub at: usize,
    pub words: [u64; 7],
}

fn coded(code: u32, at: usize, words: [u64; 7]) -> Reply
    ensures { as_reply result ≡ record { code = code; words = at ∷ words } }
{
    Reply { code, at, words }
}

pub(crate) fn answered<T: Words>(at: usize, x: T) -> Reply
    ensures { as_reply result ≡ Replies.answered at (T.words x) }
{
    coded(codes::ANSWERED, at, x.words())
}

pub(crate) fn absent(at: usize) -> Reply
    ensures { as_reply result ≡ Replies.absent at }
{
    coded(codes::NONE, at, ().words())
}

pub(crate) fn refused(at: usize, x: Refusal) -> Reply
    ensures { as_reply result ≡ Replies.refused at (refusal_as x) }
{
    coded(x.number(), at, x.words())
}

// How many bytes a call wrote, or entries it listed; or why it did not.
pub(crate) fn outcome<E: Into<Refusal>>(x: Result<usize, E>) -> Reply
    ensures { MatchResult x (λ n. as_reply result ≡ Replies.answered n []) (λ e. (r : Refusal) × E.converts e r × (as_reply result ≡ Replies.refused 0 (refusal_as r))) }
{
    match x {
        Ok(n) => answered(n, ()),
        Err(e) => refused(0, e.into()),
    }
}

// Hands a reply to the caller: its words in the lent list, unless that is too short.
#[tactic(auto, unfolding(crate::specs::Replies::into))]
pub(crate) fn store(answer: &mut [u64], x: Reply) -> u32
    ensures { returned result answer.new ≡ into answer.old (as_reply x) }
{
    if answer.len() < 8 {
        return codes::SHORT_ANSWER;
    }
    answer[0] = x.at as u64;
    answer[1..8].copy_from_slice(&x.words);
    x.code
}

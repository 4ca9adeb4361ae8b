// The reply to each kind of answer of a lexer's call from a cursor.
ghost use Rattle.std.specs.Prelude.{◌≡◌};
ghost use Rattle.payload.specs.Answers.{option_as};
ghost use Rattle.lexer.specs.Calls.{refusal_of, read_call, next_call, staying_call, skip_call};
ghost use Rattle.capi.specs.Replies as Replies;
ghost use Rattle.capi.specs.Replies.{reply_of, reply_or_none};
ghost use Rattle.capi.specs.Words.{no_words};
ghost use Rattle.capi.specs.Code.{as_reply};

use crate::replies;
use crate::replies::Reply;
use crate::words::Words;
use lexer::{Halt, Lexed, Lexer, Refusal};

// A refused call leaves the cursor where it is.
fn refused(c: Lexer, e: Refusal) -> Reply
    ensures { as_reply result ≡ Replies.refused c.at (refusal_of e) }
{
    replies::refused(c.at, e.into())
}

// A value and the next cursor.
pub(crate) fn of_read<T: Words>(c: Lexer, x: Lexed<T>) -> Reply
    ensures { as_reply result ≡ reply_of T.words (read_call (λ v. v) c x) }
{
    match x {
        Ok((value, next)) => replies::answered(next.at, value),
        Err(e) => refused(c, e),
    }
}

// The same, or nothing at the end.
pub(crate) fn of_next<T: Words>(c: Lexer, x: Result<Option<(T, Lexer)>, Refusal>) -> Reply
    ensures { as_reply result ≡ reply_or_none T.words (next_call (λ v. v) c x) }
{
    match x {
        Ok(Some((value, next))) => replies::answered(next.at, value),
        Ok(None) => replies::absent(c.at),
        Err(e) => refused(c, e),
    }
}

// What is there, with the cursor left where it is.
pub(crate) fn of_peek<T: Words>(c: Lexer, x: Result<Option<T>, Refusal>) -> Reply
    ensures { as_reply result ≡ reply_or_none T.words (staying_call (option_as (λ v. v)) c x) }
{
    match x {
        Ok(Some(value)) => replies::answered(c.at, value),
        Ok(None) => replies::absent(c.at),
        Err(e) => refused(c, e),
    }
}

// What a call tells of the cursor, which stays where it is.
pub(crate) fn of_place<T: Words>(c: Lexer, x: Result<T, Refusal>) -> Reply
    ensures { as_reply result ≡ reply_of T.words (staying_call (λ v. v) c x) }
{
    match x {
        Ok(value) => replies::answered(c.at, value),
        Err(e) => refused(c, e),
    }
}

// The cursor where a skip ended, refused or not.
pub(crate) fn of_skip(x: Result<Lexer, Halt>) -> Reply
    ensures { as_reply result ≡ reply_of no_words (skip_call x) }
{
    match x {
        Ok(end) => replies::answered(end.at, ()),
        Err(e) => replies::refused(e.next.at, e.refusal.into()),
    }
}

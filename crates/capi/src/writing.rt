// Writing: a token and a save, in normal form and in the shortest spelling, and the dump of a save, into a lent output.
#![tactic(auto, unfolding(crate::specs::Replies::into, crate::specs::Offered::write_returns, crate::specs::Offered::write_leaves))]

ghost use Rattle.std.specs.Prelude.{◌≡◌, length};
ghost use Rattle.form.specs.Writing.{outcome, normalise as Writing·normalise, shorten as Writing·shorten};
ghost use Rattle.form.specs.Listing.{list as Listing·list};
ghost use Rattle.writer.specs.Writes.{write_token, write_shortest_token};
ghost use Rattle.capi.specs.Replies.{returned, into};
ghost use Rattle.capi.specs.Outputs.{outcome_reply, left_by};
ghost use Rattle.capi.specs.Offered.{offered_token, write_returns, write_leaves};

use crate::{codes, offered, replies};

// A token, at the front of the output. Where the answer list is too short, or there is no such token, nothing is changed.
#[unsafe(no_mangle)]
pub extern "C" fn stivlaheim_write(
    bytes: &[u8],
    kind: u32,
    words: &[u64],
    out: &mut [u8],
    answer: &mut [u64],
) -> u32
    ensures answer_after { returned result answer.new ≡ write_returns write_token (length out.old) bytes.now answer.old (offered_token kind words.now) }
    ensures out_after { out.new ≡ write_leaves write_token bytes.now answer.old (offered_token kind words.now) out.old }
{
    if answer.len() < 8 {
        return codes::SHORT_ANSWER;
    }
    let Some(t) = offered::given(kind, words) else {
        return codes::BAD_ARGUMENT;
    };
    let x = writer::write(bytes, t, out);
    replies::store(answer, replies::outcome(x))
}

// A token in its shortest spelling, in the same way.
#[unsafe(no_mangle)]
pub extern "C" fn stivlaheim_write_shortest(
    bytes: &[u8],
    kind: u32,
    words: &[u64],
    out: &mut [u8],
    answer: &mut [u64],
) -> u32
    ensures answer_after { returned result answer.new ≡ write_returns write_shortest_token (length out.old) bytes.now answer.old (offered_token kind words.now) }
    ensures out_after { out.new ≡ write_leaves write_shortest_token bytes.now answer.old (offered_token kind words.now) out.old }
{
    if answer.len() < 8 {
        return codes::SHORT_ANSWER;
    }
    let Some(t) = offered::given(kind, words) else {
        return codes::BAD_ARGUMENT;
    };
    let x = writer::write_shortest(bytes, t, out);
    replies::store(answer, replies::outcome(x))
}

// The normal form of a save. The output is left alone where the answer list is too short.
#[unsafe(no_mangle)]
pub extern "C" fn stivlaheim_normalise(bytes: &[u8], out: &mut [u8], answer: &mut [u64]) -> u32
    ensures answer_after { returned result answer.new ≡ into answer.old (outcome_reply (outcome (Writing·normalise (length out.old) bytes.now))) }
    ensures out_after { out.new ≡ left_by answer.old (Writing·normalise (length out.old) bytes.now) out.old }
{
    if answer.len() < 8 {
        return codes::SHORT_ANSWER;
    }
    let normal = normaliser::normalise(bytes, out);
    replies::store(answer, replies::outcome(normal))
}

// A save in its shortest spelling. The output is left alone where the answer list is too short.
#[unsafe(no_mangle)]
pub extern "C" fn stivlaheim_shorten(bytes: &[u8], out: &mut [u8], answer: &mut [u64]) -> u32
    ensures answer_after { returned result answer.new ≡ into answer.old (outcome_reply (outcome (Writing·shorten (length out.old) bytes.now))) }
    ensures out_after { out.new ≡ left_by answer.old (Writing·shorten (length out.old) bytes.now) out.old }
{
    if answer.len() < 8 {
        return codes::SHORT_ANSWER;
    }
    let short = normaliser::shorten(bytes, out);
    replies::store(answer, replies::outcome(short))
}

// The dump of a save. The output is left alone where the answer list is too short.
#[unsafe(no_mangle)]
pub extern "C" fn stivlaheim_list(bytes: &[u8], out: &mut [u8], answer: &mut [u64]) -> u32
    ensures answer_after { returned result answer.new ≡ into answer.old (outcome_reply (outcome (Listing·list (length out.old) bytes.now))) }
    ensures out_after { out.new ≡ left_by answer.old (Listing·list (length out.old) bytes.now) out.old }
{
    if answer.len() < 8 {
        return codes::SHORT_ANSWER;
    }
    let dump = listing::list(bytes, out);
    replies::store(answer, replies::outcome(dump))
}

// A table of contents: the entries of a save in a lent list of numbers, two for each; a search in it; and the file that keeps it.
#![tactic(auto, unfolding(crate::specs::Replies::into))]

ghost use Rattle.std.specs.Prelude.{◌≡◌, ◌/◌, length};
ghost use Rattle.form.specs.Writing.{outcome};
ghost use Rattle.form.specs.Contents.{filling_outcome, search_numbers, write_numbers, read_file, fill as Contents·fill};
ghost use Rattle.contents.specs.Answers.{searched_answer};
ghost use Rattle.capi.specs.Replies.{returned, into};
ghost use Rattle.capi.specs.Code.{as_reply};
ghost use Rattle.capi.specs.Outputs.{outcome_reply, left_by};
ghost use Rattle.capi.specs.Entries.{search_reply, list_left};

use crate::replies::Reply;
use crate::{codes, replies};
use contents::BadIndex;

// The entries of a save. The list is left alone where the answer list is too short.
#[unsafe(no_mangle)]
pub extern "C" fn stivlaheim_contents(bytes: &[u8], list: &mut [u32], answer: &mut [u64]) -> u32
    ensures answer_after { returned result answer.new ≡ into answer.old (outcome_reply (filling_outcome (Contents·fill (length list.old / 2) bytes.now))) }
    ensures list_after { list.new ≡ list_left answer.old (Contents·fill (length list.old / 2) bytes.now) list.old }
{
    if answer.len() < 8 {
        return codes::SHORT_ANSWER;
    }
    let filled = contents::fill(bytes, list);
    replies::store(answer, replies::outcome(filled))
}

// The entry that holds a position.
#[unsafe(no_mangle)]
pub extern "C" fn stivlaheim_contents_search(list: &[u32], position: u64, answer: &mut [u64]) -> u32
    ensures { returned result answer.new ≡ into answer.old (search_reply (search_numbers list.now position)) }
{
    let x = contents::search(list, position);
    replies::store(answer, searched_reply(x))
}

fn searched_reply(x: Result<Option<usize>, BadIndex>) -> Reply
    ensures { as_reply result ≡ search_reply (searched_answer x) }
{
    match x {
        Ok(Some(i)) => replies::answered(i, ()),
        Ok(None) => replies::absent(0),
        Err(e) => replies::refused(0, e.into()),
    }
}

// The file of a list. The output is left alone where the answer list is too short.
#[unsafe(no_mangle)]
pub extern "C" fn stivlaheim_contents_write(list: &[u32], out: &mut [u8], answer: &mut [u64]) -> u32
    ensures answer_after { returned result answer.new ≡ into answer.old (outcome_reply (outcome (write_numbers (length out.old) list.now))) }
    ensures out_after { out.new ≡ left_by answer.old (write_numbers (length out.old) list.now) out.old }
{
    if answer.len() < 8 {
        return codes::SHORT_ANSWER;
    }
    let written = contents::write(list, out);
    replies::store(answer, replies::outcome(written))
}

// The list of a file. The list is left alone where the answer list is too short.
#[unsafe(no_mangle)]
pub extern "C" fn stivlaheim_contents_read(file: &[u8], list: &mut [u32], answer: &mut [u64]) -> u32
    ensures answer_after { returned result answer.new ≡ into answer.old (outcome_reply (filling_outcome (read_file (length list.old / 2) file.now))) }
    ensures list_after { list.new ≡ list_left answer.old (read_file (length list.old / 2) file.now) list.old }
{
    if answer.len() < 8 {
        return codes::SHORT_ANSWER;
    }
    let read = contents::read(file, list);
    replies::store(answer, replies::outcome(read))
}

// The entries of a save, into a list.
ghost use Rattle.std.specs.Prelude.{◌≡◌, ◌/◌, ◌≤◌, ◌<◌, ◌^◌, length};
ghost use Rattle.form.specs.Saves.{LIMIT as Saves-as-LIMIT};
ghost use Rattle.form.specs.Contents.{span, fill as Contents·fill};
ghost use Rattle.contents.specs.Answers.{entry_of, filled_outcome, Fills, FillsEntries};
ghost use Rattle.contents.specs.Slots.{Gets};
ghost use Rattle.contents.specs.Collecting.{end_by, Collects};
ghost use Rattle.contents.specs.declared.filling.FillError.TheVariants as Unfilled;

use crate::Entry;
use crate::slots::{Slot, copy};
use keys::Key;
use payload::LexErrorAt;

// Why a list is not filled; it is left as it is.
#[derive(Clone, Copy, Debug, PartialEq, Eq)]
pub enum FillError {
    Refused(LexErrorAt),
    ListFull(usize),
    TooLong(usize),
}

impl From<LexErrorAt> for FillError {
    ghost from_gives = { λ e r. r ≡ Unfilled.Refused e };

    fn from(e: LexErrorAt) -> FillError {
        FillError::Refused(e)
    }
}

// The entry of a key, up to the next one or to the save's end.
fn entry(key: Key, next: Option<Key>, end: usize) -> Entry
    requires start { key.at < 2 ^ 32 }
    requires end { end_by next end < 2 ^ 32 }
    ensures { entry_of result ≡ span key.at (end_by next end) }
{
    let end = match next {
        Some(next) => next.at,
        None => end,
    };
    Entry {
        start: key.at as u32,
        end: end as u32,
    }
}

// An entry after i others, if the list reaches so far.
fn put<T: Slot>(list: &mut [T], i: usize, e: Entry)
    ensures list { i < length (T.entries list.old) → list.new ≡ T.put i (entry_of e) list.old }
    ensures count { length (T.entries list.new) ≡ length (T.entries list.old) }
{
    if i < T::count(list) {
        T::put(list, i, e);
    }
}

// The entries of a save into the list, as far as it reaches, and how many there are; or why they cannot be told.
fn collect<T: Slot>(bytes: &[u8], list: &mut [T]) -> Result<usize, LexErrorAt>
    requires { length bytes.now ≤ Saves-as-LIMIT }
    ensures { Collects T.put (length (T.entries list.old)) bytes.now result list.old list.new }
{
    let mut n = 0;
    let mut key = keys::next_key(bytes, 0, None)?;
    while let Some(k) = key {
        key = keys::next_key(bytes, k.end, None)?;
        put(list, n, entry(k, key, bytes.len()));
        n += 1;
    }
    Ok(n)
}

// The entries of a save at the front of the list, or a refusal that leaves the list as it is. The first entries are kept on the way, as many
// as the last list has room for, so that a save with no more of them is gone over once.
fn fill_list<T: Slot>(bytes: &[u8], list: &mut [T], early: &mut [Entry]) -> Result<usize, FillError>
    ensures { Gets T.put (Contents·fill (length (T.entries list.old)) bytes.now) (filled_outcome result) list.old list.new }
{
    let len = bytes.len();
    if token::LIMIT < len {
        return Err(FillError::TooLong(len));
    }
    let n = collect(bytes, early)?;
    if T::count(list) < n {
        return Err(FillError::ListFull(n));
    }
    if n <= early.len() {
        copy(early, n, list);
    } else {
        collect(bytes, list)?;
    }
    Ok(n)
}

// The entries of a save at the front of a list of numbers, two for each, or a refusal that leaves the list as it is. The first 32,768 are kept
// on the way.
pub fn fill(bytes: &[u8], list: &mut [u32]) -> Result<usize, FillError>
    ensures { Fills (Contents·fill (length list.old / 2) bytes.now) (filled_outcome result) list.old list.new }
{
    let mut early = [Entry { start: 0, end: 0 }; 32768];
    fill_list(bytes, list, &mut early)
}

// The entries of a save at the front of the list, or a refusal that leaves the list as it is. None is kept on the way.
pub fn fill_entries(bytes: &[u8], list: &mut [Entry]) -> Result<usize, FillError>
    ensures { FillsEntries (Contents·fill (length list.old) bytes.now) (filled_outcome result) list.old list.new }
{
    fill_list(bytes, list, &mut [])
}

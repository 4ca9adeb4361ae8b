// What entries are kept in: records, numbers, two for each, or the bytes of a file.
ghost use Rattle.std.specs.Prelude.{ℕ, ◌≡◌, ◌+◌, ◌/◌, ◌<◌, ◌≤◌, List, ◌∷◌, length, drop, take, map, OnOk, OnErr};
ghost use Rattle.std.proofs.Math.Option.{none, some};
ghost use Rattle.form.specs.Contents as F;
ghost use Rattle.form.specs.Contents.{entries_of, paired};
ghost use Rattle.contents.specs.Answers.{entry_of};
ghost use Rattle.contents.specs.Slots.{pairs, pair_put, record_put, entry_put, put_all};

use crate::Entry;
use crate::file::{entry_at, put_entry};
use crate::searching::BadIndex;

// A part of a list of entries.
pub(crate) trait Slot: Copy {
    // The entries of a list.
    ghost entries: { List Self → List F.Entry };

    // A list with another entry after i others.
    ghost put: { ℕ → F.Entry → List Self → List Self };

    // How many entries a list has.
    fn count(list: &[Self]) -> usize
        ensures { result ≡ length (entries list.now) };

    // The entry after i others.
    fn get(list: &[Self], i: usize) -> Entry
        requires { i < length (entries list.now) }
        ensures { drop i (entries list.now) ≡ entry_of result ∷ drop (i + 1) (entries list.now) };

    // Another entry after i others.
    fn put(list: &mut [Self], i: usize, e: Entry)
        requires { i < length (entries list.old) }
        ensures list { list.new ≡ put i (entry_of e) list.old }
        ensures count { length (entries list.new) ≡ length (entries list.old) };
}

impl Slot for Entry {
    ghost entries = { map entry_of };

    ghost put = { record_put };

    fn count(list: &[Entry]) -> usize {
        list.len()
    }

    fn get(list: &[Entry], i: usize) -> Entry {
        list[i]
    }

    fn put(list: &mut [Entry], i: usize, e: Entry) {
        list[i] = e;
    }
}

impl Slot for u32 {
    ghost entries = { pairs };

    ghost put = { pair_put };

    fn count(list: &[u32]) -> usize {
        list.len() / 2
    }

    fn get(list: &[u32], i: usize) -> Entry {
        pair_at(list, i)
    }

    fn put(list: &mut [u32], i: usize, e: Entry) {
        put_pair(list, i, e)
    }
}

impl Slot for u8 {
    ghost entries = { entries_of };

    ghost put = { entry_put };

    fn count(file: &[u8]) -> usize {
        file.len().saturating_sub(5) / 8
    }

    fn get(file: &[u8], i: usize) -> Entry {
        entry_at(file, i)
    }

    fn put(file: &mut [u8], i: usize, e: Entry) {
        put_entry(file, i, e)
    }
}

// The entry of two numbers after those of i others.
fn pair_at(list: &[u32], i: usize) -> Entry
    requires { i < length list.now / 2 }
    ensures { drop i (pairs list.now) ≡ entry_of result ∷ drop (i + 1) (pairs list.now) }
{
    Entry {
        start: list[2 * i],
        end: list[2 * i + 1],
    }
}

// An entry as two numbers after those of i others.
fn put_pair(list: &mut [u32], i: usize, e: Entry)
    requires { i < length list.old / 2 }
    ensures { list.new ≡ pair_put i (entry_of e) list.old }
{
    list[2 * i] = e.start;
    list[2 * i + 1] = e.end;
}

// That a list of numbers has two for each of its entries.
pub(crate) fn whole(list: &[u32]) -> Result<(), BadIndex>
    ensures ok { OnOk result (paired list.now ≡ some (pairs list.now)) }
    ensures err { OnErr result (paired list.now ≡ none) }
{
    if list.len() % 2 != 0 {
        return Err(BadIndex);
    }
    Ok(())
}

// The first n entries of one list at the front of another.
pub(crate) fn copy<S: Slot, T: Slot>(from: &[S], n: usize, list: &mut [T])
    requires has { n ≤ length (S.entries from.now) }
    requires room { n ≤ length (T.entries list.old) }
    ensures { list.new ≡ put_all T.put 0 (take n (S.entries from.now)) list.old }
{
    for i in 0..n {
        T::put(list, i, S::get(from, i));
    }
}

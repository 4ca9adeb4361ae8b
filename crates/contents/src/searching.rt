// Which entry of a list holds a position.
ghost use Rattle.std.specs.Prelude.{◌≡◌, ◌&&◌, map};
ghost use Rattle.std.specs.Option.{option_or};
ghost use Rattle.form.specs.Contents.{holds_at, search, search_numbers};
ghost use Rattle.contents.specs.Answers.{entry_of, searched_answer};
ghost use Rattle.contents.specs.Searches.{begun, follows_on, held_by, past_of, answer_of};

use crate::Entry;
use crate::slots::{Slot, whole};

// A list is not in order.
#[derive(Clone, Copy, Debug, PartialEq, Eq)]
pub struct BadIndex;

// A search after some entries: where the last one ends, whether they are in order, and which of them holds the position.
#[derive(Clone, Copy)]
struct Seen {
    position: u64,
    edge: Option<u32>,
    ordered: bool,
    found: Option<usize>,
}

// Whether an entry holds a position.
fn holds(e: Entry, position: u64) -> bool
    ensures { result ≡ holds_at position (entry_of e) }
{
    e.start as u64 <= position && position < e.end as u64
}

// Whether an entry is in order after one that ends at an edge, or as the first.
fn follows(edge: Option<u32>, e: Entry) -> bool
    ensures { result ≡ follows_on edge e }
{
    if e.end <= e.start {
        return false;
    }
    match edge {
        None => true,
        Some(edge) => e.start == edge,
    }
}

impl Seen {
    // Before the first entry.
    fn new(position: u64) -> Seen
        ensures { result ≡ begun position }
    {
        Seen {
            position,
            edge: None,
            ordered: true,
            found: None,
        }
    }

    // Whether the entries are in order with one more.
    fn ordered_with(self, e: Entry) -> bool
        ensures { result ≡ (self.ordered && follows_on self.edge e) }
    {
        self.ordered && follows(self.edge, e)
    }

    // Which entry holds the position, with one more after i others. One test for both: an option of the entry's own costs a third more.
    fn found_with(self, i: usize, e: Entry) -> Option<usize>
        ensures { result ≡ option_or self.found (held_by i e self.position) }
    {
        if self.found.is_none() && holds(e, self.position) {
            Some(i)
        } else {
            self.found
        }
    }

    // The search after one more entry, which comes after i others.
    fn past(self, i: usize, e: Entry) -> Seen
        ensures { result ≡ past_of self i e }
    {
        Seen {
            position: self.position,
            edge: Some(e.end),
            ordered: self.ordered_with(e),
            found: self.found_with(i, e),
        }
    }

    // What is said of a whole list.
    fn answer(self) -> Result<Option<usize>, BadIndex>
        ensures { result ≡ answer_of self }
    {
        if self.ordered {
            Ok(self.found)
        } else {
            Err(BadIndex)
        }
    }
}

// The entry of a list that holds a position.
pub(crate) fn search_in<T: Slot>(list: &[T], position: u64) -> Result<Option<usize>, BadIndex>
    ensures { searched_answer result ≡ search (T.entries list.now) position }
{
    let mut s = Seen::new(position);
    for i in 0..T::count(list) {
        s = s.past(i, T::get(list, i));
    }
    s.answer()
}

// The entry of a list of numbers, two for each, that holds a position.
pub fn search(list: &[u32], position: u64) -> Result<Option<usize>, BadIndex>
    ensures { searched_answer result ≡ search_numbers list.now position }
{
    whole(list)?;
    search_in(list, position)
}

// The entry of a list that holds a position.
pub fn search_entries(list: &[Entry], position: u64) -> Result<Option<usize>, BadIndex>
    ensures { searched_answer result ≡ search (map entry_of list.now) position }
{
    search_in(list, position)
}

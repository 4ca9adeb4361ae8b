// A table of contents: the entries of a save, which of them holds a position, and the file that keeps them.
#![tactic(auto)]

mod file;
mod filling;
mod searching;
mod slots;

pub use crate::file::{ReadError, WriteError, read, read_entries, write, write_entries};
pub use crate::filling::{FillError, fill, fill_entries};
pub use crate::searching::{BadIndex, search, search_entries};

// Where an entry begins, and the place after it.
#[repr(C)]
#[derive(Clone, Copy)]
pub struct Entry {
    pub start: u32,
    pub end: u32,
}

// What the exported functions return, by the names of include/stivlaheim.h.
pub(crate) const ANSWERED: u32 = 0;

pub(crate) const EOF: u32 = 1;

pub(crate) const INVALID_RGB: u32 = 2;

pub(crate) const NO_ROOM: u32 = 4;

pub(crate) const BUFFER_TOO_SMALL: u32 = 5;

pub(crate) const READ_FAILED: u32 = 6;

pub(crate) const BAD_PLACE: u32 = 7;

pub(crate) const TOO_LONG: u32 = 8;

pub(crate) const NONE: u32 = 9;

pub(crate) const LIST_FULL: u32 = 10;

pub(crate) const BAD_INDEX: u32 = 11;

pub(crate) const LONG_STRING: u32 = 31;

pub(crate) const WIDE_LOOKUP: u32 = 32;

pub(crate) const RESERVED_ID: u32 = 33;

pub(crate) const SHORT_ANSWER: u32 = 100;

pub(crate) const BAD_ARGUMENT: u32 = 101;

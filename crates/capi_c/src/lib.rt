// The library for C: each function of `capi`, exported under its own name. It has the same signature and the same promise, and calls it.
#![tactic(auto)]

pub mod counting;
pub mod entries;
pub mod kinds;
pub mod lexing;
pub mod parts;
pub mod rescuing;
pub mod source_reads;
pub mod sources;
pub mod stepping;
pub mod writing;

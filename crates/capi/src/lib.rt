// The library for C and Rust. Each exported function takes numbers and slices and asks nothing of them; it returns a number, and most put
// eight words into a list that they are lent.
#![tactic(auto)]

mod codes;
pub mod counting;
pub mod entries;
pub mod kinds;
mod lexer_replies;
pub mod lexing;
mod offered;
pub mod parts;
mod refusals;
mod replies;
pub mod rescuing;
pub mod source_reads;
mod source_replies;
pub mod sources;
mod states;
pub mod stepping;
mod words;
pub mod writing;

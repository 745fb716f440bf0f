//! Questions to the store of an object directory: which ids begin with a prefix, where objects are,
//! and how ids are abbreviated, from the directories to the lines that are written.
#![tactic(auto)]

mod answering;
mod asked;
mod failure;
mod line_reader;
mod output;
mod request;
mod words;

pub use answering::{answer, answer_in};
pub use failure::Failure;
pub use output::{buffered, flushed, report};

/// The status if something was found.
pub const FOUND: u8 = 0;

/// The status if nothing was found, or not what was asked for.
pub const NOTHING: u8 = 1;

/// The status after an error.
pub const FAILED: u8 = 2;

//! The search in a list text, which has an id on each line, in order.
//!
//! [`search_from`] reads a list text from a source, chunk by chunk, for any [`Search`], and writes
//! the ids that begin with a prefix to a sink, a line for each.
#![tactic(auto)]

mod error;
mod finder;
mod list_reader;
mod query;
mod reading;
mod search;

pub use error::SearchError;
pub use search::{Search, search_from};

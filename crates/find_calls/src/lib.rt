//! Prefixes looked up in list texts, which have an id in hex on each line.
//!
//! [`find`], [`find_change`] and [`find_in`] search a text in memory, and [`find_from`] what a
//! source gives. Each is [`search_from`] for one search, with an error of its own.
#![tactic(auto)]

mod finding;
mod finding_from;
mod finding_in;

pub use finding::{FindError, find, find_change, finding_means};
pub use finding_from::{FindFromError, find_from};
pub use finding_in::{FindInError, find_in, finding_in_means};
pub use list_search::{Search, SearchError, search_from};

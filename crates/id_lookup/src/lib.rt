//! Look-ups of prefixes in sorted lists of ids, which count the ids that they compare.
//!
//! A [`SortedIds`] is a list of ids in the order of their digits. [`lookup`] finds the [`Run`] of
//! all members that begin with a prefix by two binary searches over [`Probes`], which lend no id,
//! compare the prefix with one member at a time, and count each comparison.
//!
//! A list is of any ids that have the trait [`Id`]: of owned ids, or of the bytes of digests of one
//! kind, such as the table of ids in one of Git's pack indexes.
//!
//! An [`IdIndex`] is such a list of one kind and without duplicates, with a [`FanOut`] of its first
//! bytes. [`lookup_in`] finds the same run by a search among the ids with the prefix's first byte,
//! and [`IdIndex::abbreviate`] gives the abbreviation of each id, its shortest unique prefix.
#![tactic(auto)]

mod abbreviations;
mod assuming_sorted;
mod fan_out;
mod ids;
mod index;
pub mod laws;
mod part_laws;
mod probes;
mod search;
mod sorted;
mod sorting;
mod unique;

pub use assuming_sorted::{
    abbreviate_assuming_sorted, find_assuming_sorted, find_assuming_sorted_near,
};
pub use fan_out::FanOut;
pub use ids::Id;
pub use index::{Answer, IdIndex, IndexError, abbreviate_in};
pub use probes::Probes;
pub use search::{Run, begins_with, bits_of, lookup, lookup_in};
pub use sorted::{SortedIds, Unsorted};
pub use sorting::sort_ids;
pub use unique::sort_unique;

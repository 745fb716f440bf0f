//! This crate looks up ids in a whole object store: in its pack indexes and its loose objects.
//!
//! An id's first byte decides its part of the store, one of 256. A prefix of 2 digits or more is
//! looked up in one part, and an abbreviation of 4 digits or more is decided in one. [`Parts`] is a
//! cursor that holds one part at a time. So a look-up reads about 1/256 of the ids. Once the ids of
//! a pack index in that part were found in order, a look-up reads only those that begin with the
//! prefix, and a few beside them. A walk over all ids ([`abbreviate_part`]) allocates memory for
//! one part at a time. [`look_up_each`] looks up several prefixes sorted, so that many of them read
//! each part once. A program implements [`Store`] over its directories, and [`Reopen`] if they may
//! change meanwhile.
#![tactic(auto)]

mod abbreviations;
mod error;
pub mod laws;
mod locations;
mod look_ups;
mod parts;
mod store;

pub use abbreviations::{AbbreviatedId, Abbreviation};
pub use error::Error;
pub use locations::{LocatedId, Location};
pub use look_ups::{
    Abbreviating, Locating, LookUp, Matching, abbreviate_part, look_up_each, lookup_prefix,
};
pub use parts::Parts;
pub use store::{LooseTable, Reopen, Store, StorePaths};

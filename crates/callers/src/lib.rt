//! Callers of these crates, as examples: what a tool over Git's object store reads, writes and
//! keeps of ids.
//!
//! The pages CALLING.md of `gix_hash`, `id_lookup` and `pack_index` quote them, and that of
//! `directory_store` names one.
#![tactic(auto)]

pub mod abbreviations;
pub mod branches;
pub mod checking;
pub mod commits;
pub mod offsets;
pub mod paths;
pub mod printed;
pub mod reading;
pub mod references;
pub mod sets;
pub mod sorting;
pub mod typed;

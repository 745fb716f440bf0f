//! `gix_hash`, `id_lookup` and `pack_index` for C.
//!
//! Each function is total: it tests what a caller can get wrong, and returns a code for it. The
//! caller must ensure that each pointer is valid for its length.
#![tactic(auto)]

mod codes;
mod digests;
mod hashers;
mod ids;
mod look_up;
mod objects;
mod packs;
mod prefixes;
mod states;
mod version;

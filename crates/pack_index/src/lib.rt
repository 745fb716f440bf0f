//! Git's pack indexes of version 2, over their bytes. Their format is that of gitformat-pack, and
//! `CALLING.md` says which of its rules are checked.
//!
//! A [`File`] is made of bytes that were checked once: their tables, order, fan-out table, offsets
//! and checksum. Opening does not allocate and copies no id. The ids are looked up by
//! [`lookup_in`](id_lookup::lookup_in) where they are stored, and the index has the offset of each
//! object in the pack.
//!
//! A [`LazyFile`] reads a pack index, or the ids of a multi-pack-index, at positions of a file.
#![tactic(auto)]

mod bucket;
mod checks;
mod digests;
mod error;
mod front;
mod index_file;
mod layout;
mod lazy;
mod lazy_error;
mod multi;
mod offsets;
mod search;
pub mod tables;
mod words;

pub use bucket::Bucket;
pub use error::Error;
pub use index_file::File;
pub use layout::Layout;
pub use lazy::LazyFile;
pub use lazy_error::LazyError;
pub use multi::MultiPackIndex;

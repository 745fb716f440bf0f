//! The commands of `packtool`, over any store, reader, writer and allocator.
//!
//! For each line of a text ([`PrefixLines`]), [`find_each`] writes the ids of a store that begin
//! with it, [`locate_each`] the locations of these ids, and [`abbreviate_each`] the abbreviation of
//! the only one. [`abbreviate_all`] writes all ids after their abbreviations. If a pack index is
//! gone meanwhile, these four open the store again. [`write_abbreviated`] writes the lines of some
//! ids. [`show`] writes the lines of a pack index as `git show-index` does. [`open_index`] opens a
//! pack index. [`write_ending`] writes whether a file ends with its digest, [`write_pairing`]
//! whether a pack index belongs to the pack beside it, as [`pair`] finds, and [`write_named`]
//! another line of a file. These three escape names as `sha1sum` does. [`lossy_text`] tells a word
//! of the command line that is not UTF-8.
#![tactic(auto)]

mod abbreviating;
mod ending;
mod error;
mod escaping;
mod finding;
pub mod laws;
mod line_buffer;
mod line_end;
mod locating;
mod pairing;
mod prefixes;
mod printing;
mod reopening;
mod request;
mod showing;
mod words;

pub use abbreviating::{abbreviate_all, abbreviate_each, write_abbreviated};
pub use ending::write_ending;
pub use error::{FileError, StoreError};
pub use escaping::write_named;
pub use finding::find_each;
pub use locating::locate_each;
pub use pairing::{Pairing, pair, write_pairing};
pub use prefixes::{PrefixLines, prefix_in};
pub use printing::{NoAnswer, Wanted};
pub use request::{Ask, Question, StoreRequest};
pub use showing::{open_index, show};
pub use words::lossy_text;

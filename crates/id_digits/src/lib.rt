//! The digits of digests, over their bytes.
//!
//! A byte is two digits below 16, the high half first. Their letters are those of hex, or z down to
//! k, in which Jujutsu spells change ids. Digits are packed with zeros after them, and compared as
//! numbers of 128 bits. Digests are ordered by their digits, and the digits that two of them share
//! are counted.
#![tactic(auto)]

mod common;
mod copying;
mod lines;
mod order;
mod reading;
mod reverse;
mod spelling;
mod words;

pub use common::common_digits;
pub use copying::copy_digits;
pub use lines::are_sorted_lines;
pub use order::digest_cmp;
pub use reading::read_digest;
pub use reverse::{to_hex_letters, to_reverse_letters};
pub use spelling::spell_digest;
pub use words::Words;

//! The first digits of a prefix, which tell most ids apart from it.

ghost use Rattle.std.specs.Prelude.{◌≡◌, ℕ, List, take};
ghost use Rattle.id_digits.specs.Digits.{digits_of, place, word};
ghost use Rattle.pack_index.specs.Lazy.{AreFront};

use gix_hash::Prefix;
use std::cmp::Ordering;

// The number of digits in a word, four bits each.
const WORD_DIGITS: usize = 16;

/// The first 16 digits of a prefix, or all if it has fewer.
#[derive(Drop)]
pub(crate) struct Front {
    // The number that they write, with zeros after them up to 16 digits.
    word: u64,
    // Ones for their bits in that number, and zeros for the rest.
    mask: u64,
}

impl Front {
    /// The first digits of a prefix.
    pub(crate) fn of(prefix: &Prefix) -> Front
        ensures { AreFront (take 16 prefix.now.digits) result }
    {
        let word = match prefix.as_oid().as_bytes().first_chunk() {
            Some(bytes) => word_of(*bytes),
            None => 0,
        };
        let digits = prefix.hex_len().min(WORD_DIGITS);
        Front {
            word,
            mask: u64::MAX.unbounded_shl(64 - 4 * digits as u32),
        }
    }

    /// The dictionary order of these digits against as many first digits of an id, by its first 8
    /// bytes.
    pub(crate) fn place(&self, bytes: &[u8; 8]) -> Ordering
        ensures { (digits : List ℕ) → AreFront digits self.now
            → result ≡ place digits (digits_of bytes.now) }
    {
        self.word.cmp(&(word_of(*bytes) & self.mask))
    }

    /// How many of some ids with the same first byte come before these digits, if the ids are
    /// spread evenly.
    pub(crate) fn count_before(&self, count: usize) -> usize {
        // The four bytes after the first, as a fraction of 2^32.
        let fraction = self.word >> 24 & 0xffff_ffff;
        ((count as u64).wrapping_mul(fraction) >> 32) as usize
    }
}

// The number that the digits of 8 bytes write.
fn word_of(bytes: [u8; 8]) -> u64
    ensures { result ≡ word 16 (digits_of bytes) }
{
    u64::from_be_bytes(bytes)
}

//! Digits as two numbers of 128 bits, which compare as the digits do.

ghost use Rattle.std.specs.Prelude.{◌≡◌, ◌≤◌, ◌<◌, ◌-◌, ◌*◌, ◌^◌, ℕ, List, All, IsTrue, length, drop};
ghost use Rattle.id_digits.specs.Digits.{digits_of, is_digest_len, place, word, words_of};

use std::cmp::Ordering;

/// The number of digits in a word, four bits each.
const WORD_DIGITS: usize = 32;

/// Up to 64 digits in two words, each from its highest four bits on: the first 32 digits in one,
/// the rest in the other, and zeros after the last.
///
/// ```
/// // Words compare as digits do.
/// assert!(rt; Words::of(&[0x4b; 20]) < Words::of(&[0x4c; 20]));
/// ```
#[derive(Clone, Copy, Debug, PartialEq, Eq, PartialOrd, Ord)]
pub struct Words {
    /// The first 32 digits.
    pub first: u128,
    /// The digits after the first 32.
    pub second: u128,
}

impl Words {
    /// The digits of a digest of 20 or 32 bytes, those of 20 bytes with 24 zeros after them.
    pub fn of(bytes: &[u8]) -> Words
        requires { IsTrue (is_digest_len (length bytes.now)) }
        ensures { result ≡ words_of (digits_of bytes.now) }
    {
        Words {
            first: word_of_16_bytes(bytes),
            second: second_word(bytes),
        }
    }

    /// The dictionary order of these `hex_len` digits against the first `hex_len` digits of a
    /// digest of 20 or 32 bytes, which must have as many. The digest's further digits are masked.
    pub fn place(&self, hex_len: usize, bytes: &[u8]) -> Ordering
        requires most { hex_len ≤ 64 }
        requires digest { IsTrue (is_digest_len (length bytes.now)) }
        ensures { (digits : List ℕ) → All (λ d. d < 16) digits → self.now ≡ words_of digits
            → length digits ≡ hex_len
            → hex_len ≤ 2 * length bytes.now → result ≡ place digits (digits_of bytes.now) }
    {
        if hex_len <= WORD_DIGITS {
            // The second word is zero.
            let theirs = word_of_16_bytes(bytes) & front_mask(hex_len);
            self.first.cmp(&theirs)
        } else {
            match self.first.cmp(&word_of_16_bytes(bytes)) {
                Ordering::Equal => {
                    let theirs = second_word(bytes) & front_mask(hex_len - WORD_DIGITS);
                    self.second.cmp(&theirs)
                }
                order => order,
            }
        }
    }
}

// The digits of a digest from the 33rd on.
fn second_word(bytes: &[u8]) -> u128
    requires { IsTrue (is_digest_len (length bytes.now)) }
    ensures { result ≡ word 32 (drop 32 (digits_of bytes.now)) }
{
    let rest = &bytes[WORD_DIGITS / 2..];
    if rest.len() == 4 {
        word_of_4_bytes(rest)
    } else {
        word_of_16_bytes(rest)
    }
}

// The digits of the first 16 bytes.
pub(crate) fn word_of_16_bytes(bytes: &[u8]) -> u128
    requires { 16 ≤ length bytes.now }
    ensures { result ≡ word 32 (digits_of bytes.now) }
{
    u128::from_be_bytes([
        bytes[0], bytes[1], bytes[2], bytes[3], bytes[4], bytes[5], bytes[6], bytes[7], bytes[8],
        bytes[9], bytes[10], bytes[11], bytes[12], bytes[13], bytes[14], bytes[15],
    ])
}

// The digits of 4 bytes, with zeros after them.
fn word_of_4_bytes(bytes: &[u8]) -> u128
    requires { length bytes.now ≡ 4 }
    ensures { result ≡ word 32 (digits_of bytes.now) }
{
    let front = u32::from_be_bytes([bytes[0], bytes[1], bytes[2], bytes[3]]);
    (front as u128) << 96
}

// Ones for the bits of a word's first digits, and zeros for the rest.
fn front_mask(digits: usize) -> u128
    requires { digits ≤ 32 }
    ensures { result ≡ 2 ^ 128 - 2 ^ (4 * (32 - digits)) }
{
    u128::MAX.unbounded_shl(128 - 4 * digits as u32)
}

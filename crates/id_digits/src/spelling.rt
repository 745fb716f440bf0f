//! The letters of full ids, sixteen bytes at a time.

ghost use Rattle.std.specs.Prelude.{◌≡◌, ◌≤◌, ◌+◌, ◌*◌, ◌%◌, IsTrue, length, map, take, drop};
ghost use Rattle.std.specs.Simd.Lanes.{put_chunk};
ghost use Rattle.id_digits.specs.Digits.{digits_of, hex_letter, is_digest_len, spelling};

use std::simd::prelude::*;
use std::simd::{u8x16, u8x32};

// The bytes that one vector has.
const BYTES: usize = 16;

/// Spells all digits of a digest of 20 or 32 bytes in lowercase hex letters, two for each byte.
#[inline(always)]
pub fn spell_digest(bytes: &[u8], text: &mut [u8])
    requires digest { IsTrue (is_digest_len (length bytes.now)) }
    requires len { length text.old ≡ 2 * length bytes.now }
    ensures { text.new ≡ spelling hex_letter (digits_of bytes.now) }
{
    put_letters(bytes, 0, text);
    // If there are 20 bytes, the last sixteen begin among the first sixteen, so the letters of some
    // are written twice.
    put_letters(bytes, bytes.len() - BYTES, text);
}

// Writes the letters of the sixteen bytes from this index on.
#[inline(always)]
fn put_letters(bytes: &[u8], at: usize, text: &mut [u8])
    requires bytes { at + BYTES ≤ length bytes.now }
    requires len { length text.old ≡ 2 * length bytes.now }
    ensures { text.new ≡ put_chunk (2 * at) text.old (spelling hex_letter
        (digits_of (take BYTES (drop at bytes.now)))) }
{
    letters_of(u8x16::from_slice(&bytes[at..])).copy_to_slice(&mut text[2 * at..]);
}

// The letters of sixteen bytes.
#[inline(always)]
fn letters_of(bytes: u8x16) -> u8x32
    ensures { result ≡ spelling hex_letter (digits_of bytes) }
{
    let high = digit_letters(bytes >> 4);
    let low = digit_letters(bytes & u8x16::splat(15));
    high.shuffle(
        low,
        [
            0, 16, 1, 17, 2, 18, 3, 19, 4, 20, 5, 21, 6, 22, 7, 23, 8, 24, 9, 25, 10, 26, 11, 27,
            12, 28, 13, 29, 14, 30, 15, 31,
        ],
    )
}

// The letters of sixteen digits, in the arithmetic of bytes.
#[inline(always)]
fn digit_letters(digits: u8x16) -> u8x16
    ensures { result ≡ map (λ d. hex_letter d % 256) digits }
{
    let from_0 = u8x16::splat(b'0');
    let from_a = u8x16::splat(b'a' - 10);
    digits + digits.simd_lt(u8x16::splat(10)).select(from_0, from_a)
}

//! The digits of full ids, sixteen letters at a time.

ghost use Rattle.std.specs.Prelude.{◌≡◌, ◌≤◌, ◌+◌, ◌-◌, ◌*◌, ◌++◌, ◌&&◌, IsTrue, Some, None, if◌then◌else◌, length, take, drop};
ghost use Rattle.std.specs.List.{list_all};
ghost use Rattle.id_digits.specs.Digits.{digits_of, digits_read, hex_letter, is_digest_len};
ghost use Rattle.id_digits.specs.Letters.{values_of, is_digit, packed};

use std::simd::prelude::*;
use std::simd::u8x16;

// The letters of one vector, and the bytes that two of them spell.
pub(crate) const LETTERS: usize = 16;

const BYTES: usize = 16;

// All bits except the one by which a lowercase letter differs from its capital.
const CAPITAL: u8 = 0xdf;

/// Whether a text of two hex letters a byte, in either case, reads as a digest of 20 or 32 bytes,
/// which is then written.
#[inline(always)]
pub fn read_digest(text: &[u8], bytes: &mut [u8]) -> bool
    requires digest { IsTrue (is_digest_len (length bytes.old)) }
    requires len { length text.now ≡ 2 * length bytes.old }
    ensures { digits_read hex_letter text.now ≡ (if result then Some (digits_of bytes.new)
        else None) }
{
    let end = text.len() - LETTERS;
    let first = values_at(text, 0);
    let second = values_at(text, LETTERS);
    // For 40 letters the third vector is the last one, which is computed once.
    let third = values_at(text, end.min(2 * LETTERS));
    let last = values_at(text, end);
    packed(first, second).copy_to_slice(bytes);
    put_rest(packed(third, last), bytes);
    // All letters are tested at once, since mostly all are digits.
    are_digits(greater(greater(first, second), greater(third, last)))
}

// Writes the last sixteen bytes of a digest, except for those that are among its first sixteen.
// Each byte is stored once, since a load of bytes that two stores wrote has to wait for both
// stores.
#[inline(always)]
fn put_rest(lanes: u8x16, bytes: &mut [u8])
    requires { IsTrue (is_digest_len (length bytes.old)) }
    ensures { bytes.new ≡ take BYTES bytes.old ++ drop (2 * BYTES - length bytes.old) lanes }
{
    let shared = 2 * BYTES - bytes.len();
    bytes[BYTES..].copy_from_slice(&lanes.to_array()[shared..]);
}

// The digits of the sixteen letters from this index on.
#[inline(always)]
pub(crate) fn values_at(text: &[u8], at: usize) -> u8x16
    requires { at + LETTERS ≤ length text.now }
    ensures { result ≡ values_of (take LETTERS (drop at text.now)) }
{
    values_of(u8x16::from_slice(&text[at..]))
}

// The digits of letters in either case, and for any other byte a number that is not a digit.
#[inline(always)]
fn values_of(letters: u8x16) -> u8x16
    ensures { result ≡ values_of letters }
{
    // Ten less than the digit: 246 to 255 for `0` to `9`, and 0 on for letters. A byte below `A` is
    // kept from wrapping to 255, where it would be a 9.
    let from_10 = letters - u8x16::splat(b'9' + 1);
    let from_a = (letters & u8x16::splat(CAPITAL)) - u8x16::splat(b'A');
    let within = from_a
        .simd_lt(u8x16::splat(245))
        .select(from_a, u8x16::splat(245));
    from_10.simd_ge(u8x16::splat(128)).select(from_10, within) + u8x16::splat(10)
}

// The greater of each two values.
#[inline(always)]
pub(crate) fn greater(one: u8x16, other: u8x16) -> u8x16
    ensures { list_all is_digit result ≡ (list_all is_digit one && list_all is_digit other) }
{
    one.simd_lt(other).select(other, one)
}

// Whether each value is a digit.
#[inline(always)]
pub(crate) fn are_digits(values: u8x16) -> bool
    ensures { result ≡ list_all is_digit values }
{
    values.simd_ge(u8x16::splat(16)).to_bitmask() == 0
}

// The byte of each two values of two vectors, one after the other. The first of the two is its high
// half.
#[inline(always)]
fn packed(front: u8x16, back: u8x16) -> u8x16
    ensures { result ≡ packed (front ++ back) }
{
    let high: u8x16 = front.shuffle(
        back,
        [0, 2, 4, 6, 8, 10, 12, 14, 16, 18, 20, 22, 24, 26, 28, 30],
    );
    let low: u8x16 = front.shuffle(
        back,
        [1, 3, 5, 7, 9, 11, 13, 15, 17, 19, 21, 23, 25, 27, 29, 31],
    );
    high * u8x16::splat(16) + low
}

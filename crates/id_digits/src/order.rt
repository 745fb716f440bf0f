//! The dictionary order of digits, over their bytes.

ghost use Rattle.std.specs.Prelude.{◌≡◌, ◌≤◌, IsTrue, length};
ghost use Rattle.std.specs.Ordering.{nat_cmp};
ghost use Rattle.std.specs.Cmp.Lexicographic.{slice_cmp};
ghost use Rattle.id_digits.specs.Digits.{digits_of, is_digest_len, word};

use std::cmp::Ordering;

// The bytes of the word by which two digests are compared first.
const WORD: usize = 8;

/// The order of two digests of 20 or 32 bytes each: dictionary order of their digits, a shorter
/// beginning first.
#[inline(always)]
pub fn digest_cmp(one: &[u8], other: &[u8]) -> Ordering
    requires one { IsTrue (is_digest_len (length one.now)) }
    requires other { IsTrue (is_digest_len (length other.now)) }
    ensures { result ≡ slice_cmp nat_cmp (digits_of one.now) (digits_of other.now) }
{
    // Two digests mostly differ in their first word, which costs one comparison of numbers.
    let order = first_word(one).cmp(&first_word(other));
    if order.is_eq() {
        one[WORD..].cmp(&other[WORD..])
    } else {
        order
    }
}

// The first eight bytes as a number, which is ordered as they are.
#[inline(always)]
pub(crate) fn first_word(bytes: &[u8]) -> u64
    requires { WORD ≤ length bytes.now }
    ensures { result ≡ word 16 (digits_of bytes.now) }
{
    u64::from_be_bytes([
        bytes[0], bytes[1], bytes[2], bytes[3], bytes[4], bytes[5], bytes[6], bytes[7],
    ])
}

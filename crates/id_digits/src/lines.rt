//! Lines of full ids, of which only the letters and the order are tested.

ghost use Rattle.std.specs.Prelude.{◌≡◌, ◌*◌, ◌-◌, ◌/◌, [], IsTrue, length};
ghost use Rattle.std.specs.Ordering.{nat_cmp};
ghost use Rattle.std.specs.Cmp.Lexicographic.{slice_cmp};
ghost use Rattle.id_digits.specs.Digits.{is_digest_len};
ghost use Rattle.id_digits.specs.Letters.{AreSortedLines, is_line_len, may_follow, values_of};

use crate::order::{digest_cmp, first_word};
use crate::reading::{LETTERS, are_digits, greater, read_digest, values_at};
use crate::words::word_of_16_bytes;
use std::simd::u8x16;

// The most bytes of a digest.
const MAX_BYTES: usize = 32;

const LINE_FEED: u8 = b'\n';

/// Whether lines of full ids are sorted: each is hex letters, in either case, and a line feed, and
/// its id is above that of the line before it, or equal to it if `repeats` are allowed. `LINE` is
/// the number of bytes of a line: 41 for SHA-1, 65 for SHA-256. It also returns false if the first
/// id begins with eight zeros.
pub fn are_sorted_lines<const LINE: usize>(lines: &[[u8; LINE]], repeats: bool) -> bool
    requires { IsTrue (is_line_len LINE) }
    ensures { IsTrue result → AreSortedLines (LINE - 1) repeats [] lines.now }
{
    let end = LINE - 1 - LETTERS;
    let mut before = 0;
    let mut greatest = u8x16::splat(0);
    for at in 0..lines.len() {
        let line = &lines[at];
        if line[LINE - 1] != LINE_FEED {
            return false;
        }
        let letters = &line[..LINE - 1];
        let first = values_at(letters, 0);
        let word = first_word(&first.to_array());
        // Mostly the first eight digits rise, which costs one comparison of numbers.
        if word <= before
            && (at == 0 || !is_in_order(&lines[at - 1][..LINE - 1], letters, repeats))
        {
            return false;
        }
        before = word;
        // For 40 letters the third vector is the last one, as in `read_digest`.
        let rest = greater(
            values_at(letters, end.min(2 * LETTERS)),
            values_at(letters, end),
        );
        let front = greater(first, values_at(letters, LETTERS));
        greatest = greater(greatest, greater(front, rest));
    }
    // All letters are tested at once, since mostly all are digits.
    are_digits(greatest)
}

// Whether the id that letters spell is above that of the letters before them, or equal to it if
// `repeats` are allowed.
#[cold]
#[inline(never)]
fn is_in_order(previous: &[u8], letters: &[u8], repeats: bool) -> bool
    requires digest { IsTrue (is_digest_len (length letters.now / 2)) }
    requires even { length letters.now ≡ 2 * (length letters.now / 2) }
    requires same { length previous.now ≡ length letters.now }
    ensures { IsTrue result → IsTrue (may_follow repeats
        (slice_cmp nat_cmp (values_of previous.now) (values_of letters.now))) }
{
    // Mostly the first sixteen digits rise, or the texts are the same.
    let before = word_of_16_bytes(&values_at(previous, 0).to_array());
    let after = word_of_16_bytes(&values_at(letters, 0).to_array());
    if before < after {
        return true;
    }
    if repeats && previous == letters {
        return true;
    }
    let len = letters.len() / 2;
    let mut buffer = [0; MAX_BYTES];
    let one = &mut buffer[..len];
    let mut buffer = [0; MAX_BYTES];
    let other = &mut buffer[..len];
    if !read_digest(previous, one) || !read_digest(letters, other) {
        return false;
    }
    let order = digest_cmp(one, other);
    if repeats {
        order.is_le()
    } else {
        order.is_lt()
    }
}

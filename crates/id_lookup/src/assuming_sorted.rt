//! Look-ups in lists that were not checked to be sorted. They are safe for any list, and return for
//! a sorted one what [`SortedIds`](crate::SortedIds) returns.

ghost use Rattle.std.specs.Prelude.{◌≡◌, ◌<◌, ◌≤◌, ℕ, [], List, IfSome, IsNone, length, map, nat_lt, slice_index_or, take};
ghost use Rattle.gix_hash.specs.Words.{hex_len_of};
ghost use Rattle.id_lookup.specs.Runs.{IsRun, IsSortedIds, bound_of, least_hex_len};
ghost use Rattle.id_lookup.specs.Indexes.{IsShortestAbbreviation};

use crate::abbreviations::shortest_abbreviation;
use crate::ids::{Id, id_at};
use crate::search::{Bound, Run};
use gix_hash::Prefix;

/// The run of the members that begin with a prefix, by binary search of a list that is assumed to
/// be sorted: that of [`SortedIds::find`](crate::SortedIds::find). If the list is not sorted, the
/// run is unspecified, but in range.
///
/// The caller must ensure that the prefix has at most as many digits as each member.
///
/// ```
/// // The table was checked when it was made.
/// let run = find_assuming_sorted(table.as_chunks::<20>().0, &prefix);
/// ```
pub fn find_assuming_sorted<I: Id>(ids: &[I], prefix: &Prefix) -> Run
    requires { length prefix.now.digits ≤ least_hex_len (map I.digits ids.now) }
    ensures in_order { result.start ≤ result.end }
    ensures in_range { result.end ≤ length ids.now }
    ensures run { IsSortedIds (map I.digits ids.now)
        → IsRun prefix.now (map I.digits ids.now) result }
{
    let end = ids.len();
    find_assuming_sorted_near(ids, prefix, Run { start: 0, end })
}

/// Does the same as [`find_assuming_sorted`], but searches among the positions of a guess first. A
/// guess that contains the run saves comparisons. If the list is sorted, the guess changes only the
/// number of comparisons.
///
/// The caller must ensure that the prefix has at most as many digits as each member.
///
/// ```
/// // By the counts of the table, only these digests have the prefix's first byte.
/// let guess = Run { start: 270, end: 290 };
/// let run = find_assuming_sorted_near(table.as_chunks::<20>().0, &prefix, guess);
/// ```
pub fn find_assuming_sorted_near<I: Id>(ids: &[I], prefix: &Prefix, guess: Run) -> Run
    requires { length prefix.now.digits ≤ least_hex_len (map I.digits ids.now) }
    ensures in_order { result.start ≤ result.end }
    ensures in_range { result.end ≤ length ids.now }
    ensures run { IsSortedIds (map I.digits ids.now)
        → IsRun prefix.now (map I.digits ids.now) result }
{
    let near = part_near(ids, prefix, guess);
    let start = bound_assuming_sorted(ids, prefix, Bound::Start, near.start, near.end);
    let from = part_from(ids, prefix, Bound::End, start, start);
    let end = bound_assuming_sorted(ids, prefix, Bound::End, from.start, from.end);
    Run { start, end }
}

// A part with the start of the run, if the list is sorted: the guess, or one next to it, or the
// whole list if the guess is not a run of its positions.
fn part_near<I: Id>(ids: &[I], prefix: &Prefix, guess: Run) -> Run
    requires { length prefix.now.digits ≤ least_hex_len (map I.digits ids.now) }
    ensures in_order { result.start ≤ result.end }
    ensures in_range { result.end ≤ length ids.now }
    ensures above { IsSortedIds (map I.digits ids.now)
        → result.start ≤ bound_of Bound.Start prefix.now (map I.digits ids.now) }
    ensures below { IsSortedIds (map I.digits ids.now)
        → bound_of Bound.Start prefix.now (map I.digits ids.now) ≤ result.end }
{
    let end = ids.len();
    if guess.start > guess.end || guess.end > end {
        return Run { start: 0, end };
    }
    if guess.start > 0 && !is_after(ids, prefix, Bound::Start, guess.start - 1) {
        let high = guess.start - 1;
        let low = high.saturating_sub(guess.end - guess.start);
        return part_up_to(ids, prefix, low, high);
    }
    part_from(ids, prefix, Bound::Start, guess.start, guess.end)
}

// A part with a bound of the run, if the list is sorted and the bound is at least `first`: from
// there to `high`, or the first of the parts after it that has the bound. Each part is as long as
// all parts before it together.
#[inline(always)]
fn part_from<I: Id>(ids: &[I], prefix: &Prefix, bound: Bound, first: usize, mut high: usize) -> Run
    requires enough_digits { length prefix.now.digits ≤ least_hex_len (map I.digits ids.now) }
    requires in_order { first ≤ high }
    requires in_range { high ≤ length ids.now }
    ensures from { first ≤ result.start }
    ensures in_order { result.start ≤ result.end }
    ensures in_range { result.end ≤ length ids.now }
    ensures above { IsSortedIds (map I.digits ids.now)
        → first ≤ bound_of bound prefix.now (map I.digits ids.now)
        → result.start ≤ bound_of bound prefix.now (map I.digits ids.now) }
    ensures below { IsSortedIds (map I.digits ids.now)
        → bound_of bound prefix.now (map I.digits ids.now) ≤ result.end }
{
    let len = ids.len();
    let mut low = first;
    while high < len && is_after(ids, prefix, bound, high) {
        low = high + 1;
        high = low + (high - first).min(len - low);
    }
    Run {
        start: low,
        end: high,
    }
}

// A part with the start of the run, if the list is sorted and the start is at most `last`: from
// `low` to there, or the first of the parts before it that has the start. Each part is as long as
// all parts after it together.
fn part_up_to<I: Id>(ids: &[I], prefix: &Prefix, mut low: usize, last: usize) -> Run
    requires enough_digits { length prefix.now.digits ≤ least_hex_len (map I.digits ids.now) }
    requires in_order { low ≤ last }
    requires in_range { last ≤ length ids.now }
    ensures in_order { result.start ≤ result.end }
    ensures in_range { result.end ≤ length ids.now }
    ensures above { IsSortedIds (map I.digits ids.now)
        → result.start ≤ bound_of Bound.Start prefix.now (map I.digits ids.now) }
    ensures below { IsSortedIds (map I.digits ids.now)
        → bound_of Bound.Start prefix.now (map I.digits ids.now) ≤ last
        → bound_of Bound.Start prefix.now (map I.digits ids.now) ≤ result.end }
{
    let mut high = last;
    while low > 0 && !is_after(ids, prefix, Bound::Start, low - 1) {
        high = low - 1;
        low = high.saturating_sub(last - low);
    }
    Run {
        start: low,
        end: high,
    }
}

// Whether the bound of the run is after the member at a position, if the list is sorted.
fn is_after<I: Id>(ids: &[I], prefix: &Prefix, bound: Bound, at: usize) -> bool
    requires enough_digits { length prefix.now.digits ≤ least_hex_len (map I.digits ids.now) }
    requires in_range { at < length ids.now }
    ensures { IsSortedIds (map I.digits ids.now)
        → result ≡ nat_lt at (bound_of bound prefix.now (map I.digits ids.now)) }
{
    bound.comes_after(prefix.cmp_oid(id_at(ids, at)))
}

// The bound of the run, if the list is sorted and the bound is from `low` to `high`.
#[inline(always)]
fn bound_assuming_sorted<I: Id>(
    ids: &[I],
    prefix: &Prefix,
    bound: Bound,
    mut low: usize,
    mut high: usize,
) -> usize
    requires enough_digits { length prefix.now.digits ≤ least_hex_len (map I.digits ids.now) }
    requires in_order { low ≤ high }
    requires in_range { high ≤ length ids.now }
    ensures above { low ≤ result }
    ensures below { result ≤ high }
    ensures value { IsSortedIds (map I.digits ids.now)
        → low ≤ bound_of bound prefix.now (map I.digits ids.now)
        → bound_of bound prefix.now (map I.digits ids.now) ≤ high
        → result ≡ bound_of bound prefix.now (map I.digits ids.now) }
{
    while low < high {
        let middle = low + (high - low) / 2;
        if is_after(ids, prefix, bound, middle) {
            low = middle + 1;
        } else {
            high = middle;
        }
    }
    low
}

/// The abbreviation of the member at position `at`, which must be below the length, of a list that
/// is assumed to be sorted: that of
/// [`SortedIds::abbreviate_from`](crate::SortedIds::abbreviate_from), of at least 4 digits. If the
/// list is not sorted, it is some prefix of the member, of at least 4 digits.
///
/// ```
/// let abbreviation = abbreviate_assuming_sorted(list, 0);
/// ```
pub fn abbreviate_assuming_sorted<I: Id>(ids: &[I], at: usize) -> Option<Prefix>
    requires { at < length ids.now }
    ensures kind { IfSome result (λ prefix. hex_len_of prefix.kind
        ≡ length (slice_index_or (map I.digits ids.now) at [])) }
    ensures first { IfSome result (λ prefix. prefix.digits
        ≡ take (length prefix.digits) (slice_index_or (map I.digits ids.now) at [])) }
    ensures long { IfSome result (λ prefix. 4 ≤ length prefix.digits) }
    ensures abbreviation { IfSome result (λ prefix. IsSortedIds (map I.digits ids.now)
        → IsShortestAbbreviation (map I.digits ids.now) at prefix.digits) }
    ensures none { IsNone result → IsSortedIds (map I.digits ids.now) → (prefix : List ℕ)
        → ¬ IsShortestAbbreviation (map I.digits ids.now) at prefix }
{
    shortest_abbreviation(ids, at, Prefix::MIN_HEX_LEN)
}

//! The run of a prefix in a sorted list, by two binary searches.

ghost use Rattle.std.specs.Prelude.{◌≡◌, ◌↔◌, ℕ, ◌+◌, ◌-◌, ◌*◌, ◌^◌, ◌<◌, ◌≤◌, IsTrue, count_by, length};
ghost use Rattle.id_lookup.specs.Runs.{AreCandidates, CanProbe, IsFanOut, IsRun, begins_with, bits, bound_of, is_before_bound, shares_first_byte};
ghost use Rattle.gix_hash.specs.Words.{BeginsWith, hex_len_of, hex_letter, id_digits, id_kind, place, spelling};

use crate::fan_out::FanOut;
use crate::ids::Id;
use crate::probes::Probes;
use gix_hash::{ObjectId, Prefix};
use std::cmp::Ordering;

const DIGITS_OF_A_BYTE: usize = 2;

/// A run of positions of a list, from `start` up to but not including `end`. It is empty if the two
/// are equal.
///
/// ```
/// let run = lookup(&mut probes);
/// println!(rt; "{} ids begin with it", run.end - run.start)?;
/// ```
#[derive(Clone, Copy, PartialEq, Eq, Debug)]
pub struct Run {
    /// The first position.
    pub start: usize,
    /// The position after the last.
    pub end: usize,
}

// A bound of a run.
#[derive(Clone, Copy)]
pub(crate) enum Bound {
    // The position of its first member.
    Start,
    // The position after its last member.
    End,
}

impl Bound {
    // Whether the bound comes after a member, by how the prefix compares with that member.
    pub(crate) fn comes_after(self, place: Ordering) -> bool
        ensures { result ≡ is_before_bound self place }
    {
        match self {
            Bound::Start => place.is_gt(),
            Bound::End => place.is_ge(),
        }
    }
}

/// Finds the run of a prefix in a sorted list: exactly the members whose lowercase hex spelling
/// begins with the prefix's.
///
/// The list of the probes is sorted, may contain ids of both kinds and duplicates, and each of its
/// members has at least as many digits as the prefix. [`Prefix::cmp_oid`] returns `Greater` for
/// each member before the run, `Equal` for each in it, and `Less` for each after it. If no member
/// begins with the prefix, the run is empty, at the position where the prefix would be inserted.
///
/// It calls `ask` at most 2 · b times, where b is the bit length of the number of members
/// ([`bits_of`]). The probes must be new. Their list and prefix stay the same.
pub fn lookup<I: Id>(probes: &mut Probes<'_, I>) -> Run
    requires { probes.old.asked ≡ 0 }
    ensures list { CanProbe probes.old.prefix probes.old.ids }
    ensures run { IsRun probes.old.prefix probes.old.ids result }
    ensures asked { probes.new.asked ≤ 2 * bits (length probes.old.ids) }
    ensures same { probes.new ≡ record probes.old { asked = probes.new.asked } }
{
    let len = probes.len();
    find_run(probes, Run { start: 0, end: len })
}

/// Does the same as [`lookup`], by a search among only the members with the prefix's first byte.
///
/// It calls `ask` at most 2 · b times, where b is the bit length of the number of those, and not at
/// all for a prefix of fewer than two digits. The probes must be new, and the fan-out table that of
/// their list, as when both are from one [`IdIndex`](crate::IdIndex).
pub fn lookup_in<I: Id>(fan_out: &FanOut, probes: &mut Probes<'_, I>) -> Run
    requires fresh { probes.old.asked ≡ 0 }
    requires fan_out { IsFanOut fan_out.now probes.old.ids }
    ensures list { CanProbe probes.old.prefix probes.old.ids }
    ensures run { IsRun probes.old.prefix probes.old.ids result }
    ensures asked { probes.new.asked ≤ 2 * bits
        (count_by (shares_first_byte probes.old.prefix) probes.old.ids) }
    ensures never { length probes.old.prefix.digits < 2 → probes.new.asked ≡ 0 }
    ensures same { probes.new ≡ record probes.old { asked = probes.new.asked } }
{
    let part = candidates(fan_out, probes);
    if probes.prefix().hex_len() < DIGITS_OF_A_BYTE {
        return part;
    }
    find_run(probes, part)
}

// The members whose first byte begins with the first two digits of the prefix, or the fewer it has.
fn candidates<I: Id>(fan_out: &FanOut, probes: &Probes<'_, I>) -> Run
    requires { IsFanOut fan_out.now probes.now.ids }
    ensures part { AreCandidates probes.now.prefix probes.now.ids result }
    ensures can_probe { CanProbe probes.now.prefix probes.now.ids }
{
    let prefix = probes.prefix();
    let first = prefix.first_byte();
    let last = last_byte(first, prefix.hex_len());
    Run {
        start: fan_out.below(first),
        end: fan_out.up_to(last),
    }
}

// The last byte that begins with the first `hex_len` digits of a byte whose other digits are zero.
fn last_byte(first: u8, hex_len: usize) -> u8
    requires none { hex_len ≡ 0 → first ≡ 0 }
    requires one { hex_len ≡ 1 → first ≤ 240 }
    ensures none { hex_len ≡ 0 → result ≡ 255 }
    ensures one { hex_len ≡ 1 → result ≡ first + 15 }
    ensures more { 2 ≤ hex_len → result ≡ first }
{
    match hex_len {
        0 => 255,
        1 => first + 15,
        _ => first,
    }
}

// The run of the prefix, by a search for each of its bounds in a part of the list that contains
// both.
fn find_run<I: Id>(probes: &mut Probes<'_, I>, part: Run) -> Run
    requires can_probe { CanProbe probes.old.prefix probes.old.ids }
    requires fresh { probes.old.asked ≡ 0 }
    requires above { part.start ≤ bound_of Bound.Start probes.old.prefix probes.old.ids }
    requires below { bound_of Bound.End probes.old.prefix probes.old.ids ≤ part.end }
    requires in_range { part.end ≤ length probes.old.ids }
    ensures run { IsRun probes.old.prefix probes.old.ids result }
    ensures asked { probes.new.asked ≤ 2 * bits (part.end - part.start) }
    ensures same { probes.new ≡ record probes.old { asked = probes.new.asked } }
{
    let start = find_bound(probes, Bound::Start, part.start, part.end);
    let end = find_bound(probes, Bound::End, start, part.end);
    Run { start, end }
}

// The bound of the run, which must be from `low` to `high`.
fn find_bound<I: Id>(
    probes: &mut Probes<'_, I>,
    bound: Bound,
    mut low: usize,
    mut high: usize,
) -> usize
    requires can_probe { CanProbe probes.old.prefix probes.old.ids }
    requires above { low ≤ bound_of bound probes.old.prefix probes.old.ids }
    requires below { bound_of bound probes.old.prefix probes.old.ids ≤ high }
    requires in_range { high ≤ length probes.old.ids }
    requires room { probes.old.asked + bits (high - low) < 2 ^ 64 }
    ensures value { result ≡ bound_of bound probes.old.prefix probes.old.ids }
    ensures asked { probes.new.asked ≤ probes.old.asked + bits (high - low) }
    ensures same { probes.new ≡ record probes.old { asked = probes.new.asked } }
{
    while low < high {
        let middle = low + (high - low) / 2;
        if bound.comes_after(probes.ask(middle)) {
            low = middle + 1;
        } else {
            high = middle;
        }
    }
    low
}

/// Whether an id begins with a prefix, whatever their kinds.
///
/// The id must have at least as many digits as the prefix. Its lowercase hex spelling begins with
/// the prefix's if and only if its digits do, and if and only if [`Prefix::cmp_oid`] returns
/// `Equal`.
pub fn begins_with(id: &ObjectId, prefix: &Prefix) -> bool
    requires { length prefix.now.digits ≤ hex_len_of (id_kind id.now) }
    ensures value { result ≡ begins_with (id_digits id.now) prefix.now }
    ensures spelling { IsTrue result ↔ BeginsWith (spelling hex_letter (id_digits id.now))
        (spelling hex_letter prefix.now.digits) }
    ensures digits { IsTrue result ↔ BeginsWith (id_digits id.now) prefix.now.digits }
    ensures place { IsTrue result ↔ (place prefix.now.digits (id_digits id.now) ≡ Ordering.Equal) }
{
    prefix.cmp_oid(id.as_oid()).is_eq()
}

/// The bit length of `n`: the smallest b with n < 2^b. Halving a number other than 0 shortens it.
pub fn bits_of(n: usize) -> u32
    ensures value { result ≡ bits n }
    ensures above { n < 2 ^ bits n }
    ensures least { (b : ℕ) → n < 2 ^ b → bits n ≤ b }
    ensures half { (m : ℕ) → 0 < n → 2 * m ≤ n → bits m < bits n }
{
    usize::BITS - n.leading_zeros()
}

//! Sorted lists of ids.

ghost use Rattle.std.specs.Prelude.{◌≡◌, ◌≢◌, ◌↔◌, ℕ, ◌+◌, ◌-◌, ◌<◌, ◌≤◌, [], All, AllPairs, IfOk, IfErr, IfSome, IsNone, List, IsOk, IsTrue, length, map, slice_get, slice_index_or};
ghost use Rattle.std.specs.Cmp.Lexicographic.{slice_cmp};
ghost use Rattle.std.specs.Ordering.{nat_cmp};
ghost use Rattle.std.specs.declared.cmp.Ordering.{Ordering};
ghost use Rattle.gix_hash.specs.Words.{hex_len_of};
ghost use Rattle.id_lookup.specs.Runs.{IsFirstUnsorted, IsRun, IsSortedIds, least_hex_len, matches};
ghost use Rattle.id_lookup.specs.Indexes.{IsShortestAbbreviationFrom};

use crate::abbreviations::shortest_abbreviation;
use crate::ids::{Id, id_at};
use crate::probes::Probes;
use crate::search::{Run, lookup};
use gix_hash::{ObjectId, Prefix};
use std::error::Error;
use std::fmt;
use std::marker::Model;

/// A list of ids of which none is below the previous one, in dictionary order of their digits.
///
/// It may contain ids of both kinds, and duplicates.
///
/// ```
/// let ids = SortedIds::try_new(&list)?;
/// let run = ids.find(&prefix);
/// let found = &list[run.start..run.end];
/// ```
#[derive(Drop)]
pub struct SortedIds<'a, I: Id = ObjectId> {
    ids: &'a [I],
    min_hex_len: usize,
}

impl<'a, I: Id> Model for SortedIds<'a, I> {
    ghost use Rattle.std.specs.Prelude.{◌≡◌, ℕ, List, map};

    ghost Value = { List (List ℕ) };

    ghost use Rattle.id_lookup.specs.Runs.{IsSortedIds, least_hex_len};

    ghost view = { λ list. map I.digits list.ids.now };

    ghost invariant = { λ list. IsSortedIds (map I.digits list.ids.now)
        × (list.min_hex_len ≡ least_hex_len (map I.digits list.ids.now)) };
}

impl<'a, I: Id> SortedIds<'a, I> {
    /// Makes a sorted list, and looks at each id. The error has the first position whose id is
    /// below the previous one.
    pub fn try_new(ids: &'a [I]) -> Result<SortedIds<'a, I>, Unsorted>
        ensures ok { IfOk result (λ list. list ≡ map I.digits ids.now) }
        ensures sorted { IsOk result ↔ IsSortedIds (map I.digits ids.now) }
        ensures err { IfErr result (λ e. IsFirstUnsorted (map I.digits ids.now) e.at) }
    {
        let mut min_hex_len = 64;
        for at in 0..ids.len() {
            if is_below_previous(ids, at) {
                return Err(Unsorted { at });
            }
            min_hex_len = id_at(ids, at).kind().len_in_hex().min(min_hex_len);
        }
        Ok(SortedIds { ids, min_hex_len })
    }

    /// The number of ids. None is below any before it.
    pub fn len(&self) -> usize
        ensures value { result ≡ length self.now }
        ensures sorted { IsSortedIds self.now }
        ensures in_order { AllPairs (λ a b. slice_cmp nat_cmp b a ≢ Ordering.Less) self.now }
    {
        self.ids.len()
    }

    /// Whether there is no id.
    pub fn is_empty(&self) -> bool
        ensures { IsTrue result ↔ (length self.now ≡ 0) }
    {
        self.ids.is_empty()
    }

    /// The id at position `at`, which must be below `len()`.
    pub fn get(&self, at: usize) -> &I
        requires { at < length self.now }
        ensures { slice_get self.now at ≡ Some (I.digits result.now) }
    {
        let ids = self.ids;
        &ids[at]
    }

    /// The smallest number of digits of a member, or 64 if there is none.
    ///
    /// A prefix can be looked up if it has at most as many.
    pub fn min_hex_len(&self) -> usize
        ensures value { result ≡ least_hex_len self.now }
        ensures members { All (λ id. least_hex_len self.now ≤ length id) self.now }
    {
        self.min_hex_len
    }

    /// The run of exactly the members that begin with a prefix.
    ///
    /// The prefix must have at most as many digits as each member: at most `min_hex_len()`. If no
    /// member begins with it, the run is empty, at the position where the prefix would be inserted.
    pub fn find(&self, prefix: &Prefix) -> Run
        requires { length prefix.now.digits ≤ least_hex_len self.now }
        ensures { IsRun prefix.now self.now result }
    {
        lookup(&mut Probes::new(self, *prefix))
    }

    /// Exactly the members that begin with a prefix, in the list's order.
    ///
    /// The prefix must have at most as many digits as each member: at most `min_hex_len()`.
    pub fn matches(&self, prefix: &Prefix) -> &'a [I]
        requires { length prefix.now.digits ≤ least_hex_len self.now }
        ensures { map I.digits result.now ≡ matches prefix.now.digits self.now }
    {
        let run = self.find(prefix);
        let ids = self.members();
        &ids[run.start..run.end]
    }

    /// The abbreviation of the member at position `at`, which must be below `len()`: its shortest
    /// prefix of at least `least` digits that no other member begins with. `least` must be at least
    /// 4.
    ///
    /// There is none if another member begins with all digits of this one, as a duplicate does, or
    /// if this one has fewer than `least`. Only its two neighbours are compared with it.
    pub fn abbreviate_from(&self, at: usize, least: usize) -> Option<Prefix>
        requires in_range { at < length self.now }
        requires enough { 4 ≤ least }
        ensures kind { IfSome result (λ prefix. hex_len_of prefix.kind
            ≡ length (slice_index_or self.now at [])) }
        ensures abbreviation { IfSome result (λ prefix. IsShortestAbbreviationFrom least self.now at
            prefix.digits) }
        ensures run { IfSome result (λ prefix. IsRun prefix self.now
            (record { start = at; end = at + 1 })) }
        ensures none { IsNone result → (prefix : List ℕ)
            → ¬ IsShortestAbbreviationFrom least self.now at prefix }
    {
        shortest_abbreviation(self.ids, at, least)
    }

    /// The ids, in order.
    pub fn members(&self) -> &'a [I]
        ensures value { map I.digits result.now ≡ self.now }
        ensures sorted { IsSortedIds self.now }
    {
        self.ids
    }
}

// Whether the id at a position is below the previous one.
fn is_below_previous<I: Id>(ids: &[I], at: usize) -> bool
    requires { at < length ids.now }
    ensures { let digits = map I.digits ids.now in
        IsTrue result ↔ ((0 < at) × (slice_cmp nat_cmp (slice_index_or digits at [])
        (slice_index_or digits (at - 1) []) ≡ Ordering.Less)) }
{
    at > 0 && id_at(ids, at).cmp(&id_at(ids, at - 1)).is_lt()
}

/// The error of [`SortedIds::try_new`]: the list is not sorted.
///
/// ```
/// if let Err(Unsorted { at }) = SortedIds::try_new(&list) {
///     println!(rt; "{} is below {}", list[at], list[at - 1])?;
/// }
/// ```
#[derive(Debug, Drop)]
pub struct Unsorted {
    /// The first position whose id is below the previous one.
    pub at: usize,
}

impl fmt::Display for Unsorted {
    fn fmt<W: fmt::Write>(&self, f: &mut fmt::Formatter<W>) -> fmt::Result {
        write!(
            f,
            "the id at position {} is below the one before it",
            self.at
        )
    }
}

impl Error for Unsorted {}

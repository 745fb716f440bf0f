//! Ids of a pack index with one first byte.

ghost use Rattle.std.specs.Prelude.{◌≡◌, ◌≢◌, ◌*◌, ◌<◌, ◌≤◌, ◌↔◌, ◌++◌, ℕ, [], All, Contains, IsTrue, MatchOption, OnOk, length, map, nat_eq, slice_index_or, slice_range};
ghost use Rattle.std.specs.Cmp.Lexicographic.{slice_cmp};
ghost use Rattle.std.specs.List.{starts_with};
ghost use Rattle.std.specs.Ordering.{is_lt, nat_cmp};
ghost use Rattle.id_lookup.specs.Words.{IsSortedIds, byte_len_of, hex_len_of, id_digits, id_kind, least_hex_len, matches, oid_digits};
ghost use Rattle.pack_index.specs.Format.{IsFirstIndexOf, digests_in};

use crate::digests::{SortedDigests, all_digits};
use gix_hash::{Kind, ObjectId, Prefix, oid};
use id_lookup::{Id, Run, find_assuming_sorted_near, laws};
use std::alloc::{AllocError, Allocator};
use std::cell::Cell;
use std::marker::Model;

/// Ids of a pack index with one first byte, by its fan-out table, read once, in the order of the
/// index: all, or some that follow each other. [`LazyFile::lookup`](crate::LazyFile::lookup) finds
/// an id among them, and [`Bucket::push_matches`] those that begin with a prefix.
///
/// ```
/// let bucket = LazyFile::open(idx, Kind::Sha1)?.part(rt.alloc(), &prefix, 32)?;
/// println!(rt; "{} bytes of ids", bucket.ids().len())?;
/// ```
#[derive(Drop)]
pub struct Bucket<A: Allocator> {
    kind: Kind,
    // The position of the first of them in the pack index.
    start: usize,
    // The ids, one after the other.
    table: Vec<u8, A>,
    // Whether they are several, and sorted. If not, an id is compared with each of them.
    is_sorted: bool,
    // Where the last look-up ended, and the next one begins: ids are mostly looked up in order. No
    // result depends on it.
    near: Cell<usize>,
}

impl<A: Allocator> Model for Bucket<A> {
    ghost use Rattle.std.specs.Prelude.{◌≡◌, ◌*◌, IsTrue, length};
    ghost use Rattle.id_lookup.specs.Words.{IsSortedIds, byte_len_of};
    ghost use Rattle.pack_index.specs.Format.{digests_in};
    ghost use Rattle.pack_index.specs.Lazy.{BucketIds};

    ghost Value = { BucketIds };

    ghost view = { λ bucket. record {
      kind = bucket.kind;
      start = bucket.start;
      ids = digests_in bucket.kind bucket.table.items;
    } };

    ghost invariant = { λ bucket. (IsTrue bucket.is_sorted
        → IsSortedIds (digests_in bucket.kind bucket.table.items))
        × (length bucket.table.items ≡ byte_len_of bucket.kind
        * length (digests_in bucket.kind bucket.table.items)) };
}

impl<A: Allocator> Bucket<A> {
    // The ids of a table, of which the first is at a position, and nothing after them.
    pub(crate) fn new(table: Vec<u8, A>, kind: Kind, start: usize) -> Bucket<A>
        requires { length table.items ≡ byte_len_of kind * length (digests_in kind table.items) }
        ensures { result ≡ record {
          kind = kind;
          start = start;
          ids = digests_in kind table.items;
        } }
    {
        let are_several = table.len() > kind.len_in_bytes();
        let is_sorted = are_several && SortedDigests::try_new(&table, kind).is_ok();
        Bucket {
            kind,
            start,
            table,
            is_sorted,
            near: Cell::new(0),
        }
    }

    /// The kind of the ids.
    pub fn kind(&self) -> Kind
        ensures { result ≡ self.now.kind }
    {
        self.kind
    }

    /// The ids, one after the other: 20 or 32 bytes each, and no byte after them.
    pub fn ids(&self) -> &[u8]
        ensures ids { digests_in self.now.kind result.now ≡ self.now.ids }
        ensures len { length result.now ≡ byte_len_of self.now.kind * length self.now.ids }
    {
        &self.table
    }

    /// Adds those that begin with a prefix to a list of ids, in their order. The prefix has at most
    /// as many digits as the ids.
    ///
    /// If the ids are sorted, as in each pack index, they are found by binary search. If they are
    /// not, or if there is only one, each of them is compared. Under an error some of them may have
    /// been added.
    ///
    /// ```
    /// let mut index = LazyFile::open(idx, prefix.as_oid().kind())?;
    /// if prefix.hex_len() >= 2 {
    ///     let mut ids = Vec::new(rt.alloc());
    ///     index.part(rt.alloc(), &prefix, 32)?.push_matches(&prefix, &mut ids)?;
    /// }
    /// ```
    pub fn push_matches<B: Allocator>(
        &self,
        prefix: &Prefix,
        ids: &mut Vec<ObjectId, B>,
    ) -> Result<(), AllocError>
        requires { length prefix.now.digits ≤ hex_len_of self.now.kind }
        ensures digits { OnOk result (map id_digits ids.new.items
            ≡ map id_digits ids.old.items ++ matches prefix.now.digits self.now.ids) }
        ensures kinds { OnOk result (All (λ id. id_kind id ≡ self.now.kind) ids.old.items
            → All (λ id. id_kind id ≡ self.now.kind) ids.new.items) }
    {
        if self.table.is_empty() {
            return Ok(());
        }
        let (table, kind, near) = (&self.table, self.kind, &self.near);
        let is_sorted = self.is_sorted;
        match kind {
            Kind::Sha1 => {
                push_found::<[u8; 20], B>(table.as_chunks().0, kind, is_sorted, near, prefix, ids)
            }
            Kind::Sha256 => {
                push_found::<[u8; 32], B>(table.as_chunks().0, kind, is_sorted, near, prefix, ids)
            }
        }
    }

    // The position of the first of them in the pack index.
    pub(crate) fn start(&self) -> usize
        ensures { result ≡ self.now.start }
    {
        self.start
    }

    // Whether they are several, and sorted.
    pub(crate) fn is_sorted(&self) -> bool
        ensures { IsTrue result → IsSortedIds self.now.ids }
    {
        self.is_sorted
    }

    // The first position of an id among them.
    pub(crate) fn position(&self, id: oid<'_>) -> Option<usize>
        ensures { MatchOption result ((k : ℕ) → k < length self.now.ids
            → slice_index_or self.now.ids k [] ≢ oid_digits id.entry)
            (IsFirstIndexOf self.now.ids (oid_digits id.entry)) }
    {
        if id.kind() != self.kind {
            return None;
        }
        match self.kind {
            Kind::Sha1 => {
                position_in::<[u8; 20]>(self.table.as_chunks().0, id, self.is_sorted, &self.near)
            }
            Kind::Sha256 => {
                position_in::<[u8; 32]>(self.table.as_chunks().0, id, self.is_sorted, &self.near)
            }
        }
    }
}

// The first position of an id in a list whose members have as many digits as it has. A sorted list
// is searched first at a position, which is then that after the id, or where the id would be.
fn position_in<I: Id>(ids: &[I], id: oid<'_>, is_sorted: bool, near: &Cell<usize>) -> Option<usize>
    requires sorted { IsTrue is_sorted → IsSortedIds (map I.digits ids.now) }
    requires enough_digits { length (oid_digits id) ≤ least_hex_len (map I.digits ids.now) }
    requires long { (k : ℕ) → k < length (map I.digits ids.now)
        → length (slice_index_or (map I.digits ids.now) k []) ≡ length (oid_digits id) }
    ensures { let all = map I.digits ids.now in
        MatchOption result ((k : ℕ) → k < length all
        → slice_index_or all k [] ≢ oid_digits id.entry)
        (IsFirstIndexOf all (oid_digits id.entry)) }
{
    if !is_sorted {
        return first_index(ids, id);
    }
    let start = start_of(ids, id, near.get());
    if start == ids.len() || !is_at(ids, start, id) {
        near.set(start);
        return None;
    }
    near.set(start + 1);
    Some(start)
}

// The first position of an id in a sorted list whose members have as many digits as it has, if it
// is there. If the ids below it end at the position `near`, nothing is searched.
fn start_of<I: Id>(ids: &[I], id: oid<'_>, near: usize) -> usize
    requires sorted { IsSortedIds (map I.digits ids.now) }
    requires enough_digits { length (oid_digits id) ≤ least_hex_len (map I.digits ids.now) }
    requires long { (k : ℕ) → k < length (map I.digits ids.now)
        → length (slice_index_or (map I.digits ids.now) k []) ≡ length (oid_digits id) }
    ensures in_range { result ≤ length ids.now }
    ensures first { Contains (map I.digits ids.now) (oid_digits id.entry)
        → IsFirstIndexOf (map I.digits ids.now) (oid_digits id.entry) result }
{
    let start = near.min(ids.len());
    let is_after = start == 0 || is_below(ids, start - 1, id);
    let is_before = start == ids.len() || !is_below(ids, start, id);
    if is_after && is_before {
        return start;
    }
    let prefix = all_digits(id);
    laws::beginnings(&prefix);
    find_assuming_sorted_near(ids, &prefix, Run { start, end: start }).start
}

// Whether the id at a position of a list is below this one.
fn is_below<I: Id>(ids: &[I], at: usize, id: oid<'_>) -> bool
    requires { at < length ids.now }
    ensures { result ≡ is_lt (slice_cmp nat_cmp (slice_index_or (map I.digits ids.now) at [])
        (oid_digits id.entry)) }
{
    ids[at].as_oid().cmp(&id).is_lt()
}

// The first position of an id in a list.
fn first_index<I: Id>(ids: &[I], id: oid<'_>) -> Option<usize>
    ensures { let all = map I.digits ids.now in
        MatchOption result ((k : ℕ) → k < length all
        → slice_index_or all k [] ≢ oid_digits id.entry)
        (IsFirstIndexOf all (oid_digits id.entry)) }
{
    for at in 0..ids.len() {
        if is_at(ids, at, id) {
            return Some(at);
        }
    }
    None
}

// Whether the id at a position of a list is this one.
fn is_at<I: Id>(ids: &[I], at: usize, id: oid<'_>) -> bool
    requires { at < length ids.now }
    ensures { IsTrue result
        ↔ (slice_index_or (map I.digits ids.now) at [] ≡ oid_digits id.entry) }
{
    ids[at].as_oid() == id
}

// Adds the ids of a list of one kind that begin with a prefix, which are a run if it is sorted.
fn push_found<I: Id, A: Allocator>(
    list: &[I],
    kind: Kind,
    is_sorted: bool,
    near: &Cell<usize>,
    prefix: &Prefix,
    ids: &mut Vec<ObjectId, A>,
) -> Result<(), AllocError>
    requires sorted { IsTrue is_sorted → IsSortedIds (map I.digits list.now) }
    requires enough_digits { length prefix.now.digits ≤ least_hex_len (map I.digits list.now) }
    requires fits { length prefix.now.digits ≤ hex_len_of kind }
    requires kinds { All (λ id. I.kind id ≡ kind) list.now }
    ensures digits { OnOk result (map id_digits ids.new.items
        ≡ map id_digits ids.old.items ++ matches prefix.now.digits (map I.digits list.now)) }
    ensures kinds { OnOk result (All (λ id. id_kind id ≡ kind) ids.old.items
        → All (λ id. id_kind id ≡ kind) ids.new.items) }
{
    let run = run_of(list, is_sorted, near, prefix);
    if ids.is_empty() {
        // Most prefixes are of one id, for which a vector makes room for four.
        ids.reserve_exact(run.end - run.start)?;
    }
    push_each(&list[run.start..run.end], kind, prefix, ids)
}

// A run of a list in which are all ids that begin with a prefix: theirs if the list is sorted, or
// the whole list. A sorted list is searched first at a position, which is then where the search
// ended.
fn run_of<I: Id>(list: &[I], is_sorted: bool, near: &Cell<usize>, prefix: &Prefix) -> Run
    requires sorted { IsTrue is_sorted → IsSortedIds (map I.digits list.now) }
    requires enough_digits { length prefix.now.digits ≤ least_hex_len (map I.digits list.now) }
    ensures in_order { result.start ≤ result.end }
    ensures in_range { result.end ≤ length list.now }
    ensures all { matches prefix.now.digits (map I.digits
        (slice_range list.now result.start result.end))
        ≡ matches prefix.now.digits (map I.digits list.now) }
{
    if !is_sorted {
        return Run {
            start: 0,
            end: list.len(),
        };
    }
    let start = near.get();
    let run = find_assuming_sorted_near(list, prefix, Run { start, end: start });
    near.set(run.end);
    run
}

// Adds the ids of a list of one kind that begin with a prefix, each of which is compared.
fn push_each<I: Id, A: Allocator>(
    list: &[I],
    kind: Kind,
    prefix: &Prefix,
    ids: &mut Vec<ObjectId, A>,
) -> Result<(), AllocError>
    requires fits { length prefix.now.digits ≤ hex_len_of kind }
    requires kinds { All (λ id. I.kind id ≡ kind) list.now }
    ensures digits { OnOk result (map id_digits ids.new.items
        ≡ map id_digits ids.old.items ++ matches prefix.now.digits (map I.digits list.now)) }
    ensures kinds { OnOk result (All (λ id. id_kind id ≡ kind) ids.old.items
        → All (λ id. id_kind id ≡ kind) ids.new.items) }
{
    for id in list {
        if begins_with(id, prefix) {
            ids.push(id.as_oid().to_owned())?;
        }
    }
    Ok(())
}

// Whether an id begins with a prefix.
fn begins_with<I: Id>(id: &I, prefix: &Prefix) -> bool
    requires { length prefix.now.digits ≤ hex_len_of (I.kind id.now) }
    ensures { result ≡ starts_with nat_eq (I.digits id.now) prefix.now.digits }
{
    prefix.cmp_oid(id.as_oid()).is_eq()
}

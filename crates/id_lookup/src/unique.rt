//! Sorting ids, and keeping each of them once.

ghost use Rattle.std.specs.Prelude.{◌≡◌, ◌↔◌, All, Contains, map};
ghost use Rattle.std.specs.List.Sorted.{IsStrictlySortedBy};
ghost use Rattle.gix_hash.specs.Words.{AreIdDigits, id_cmp, id_digits, id_kind};
ghost use Rattle.gix_hash.specs.declared.ObjectId.{ObjectId as Id};
ghost use Rattle.gix_hash.specs.declared.kind.Kind as kinds;
ghost use Rattle.id_lookup.specs.Indexes.{IsIndexOf};

use gix_hash::ObjectId;
use std::alloc::Allocator;

/// Sorts ids of any kinds in the order of [`ObjectId`], and removes all but one of those that are
/// equal. It does not allocate.
///
/// If the ids are of one kind, then the result is an index of that kind, and
/// [`IdIndex::try_new`](crate::IdIndex::try_new) accepts it.
///
/// ```
/// let mut found = vec![in rt.alloc(); id, expected, id]?;
/// sort_unique(&mut found);
/// assert!(rt; found.len() <= 2);
/// ```
pub fn sort_unique<A: Allocator>(ids: &mut Vec<ObjectId, A>)
    ensures sorted { IsStrictlySortedBy id_cmp ids.new.items }
    ensures members { (id : Id) → Contains ids.new.items id ↔ Contains ids.old.items id }
    ensures index { (kind : kinds.Kind) → All (λ id. id_kind id ≡ kind) ids.old.items
        → IsIndexOf kind (map id_digits ids.old.items) (map id_digits ids.new.items) }
    ensures kinds { (kind : kinds.Kind) → All (λ id. id_kind id ≡ kind) ids.old.items
        → All (λ id. id_kind id ≡ kind) ids.new.items }
    ensures digits { All (λ id. AreIdDigits (id_kind id) (id_digits id)) ids.new.items }
{
    ids.sort_unstable();
    ids.dedup();
    note_digits(ids);
}

// Each id has as many digits as its kind, each below 16.
pub(crate) fn note_digits(ids: &[ObjectId])
    ensures { All (λ id. AreIdDigits (id_kind id) (id_digits id)) ids.now }
{
    for id in ids {
        // The contract of this call says so.
        let _kind = id.kind();
    }
}

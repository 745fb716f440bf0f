//! Sorting ids into the order in which they are looked up.

ghost use Rattle.std.specs.Prelude.{map};
ghost use Rattle.std.specs.List.Sorted.{IsPermutation};
ghost use Rattle.id_lookup.specs.Runs.{IsSortedIds};

use crate::ids::Id;

/// Sorts ids by their digits, whatever their kinds, as [`SortedIds::try_new`] takes them.
///
/// It sorts in place and does not allocate. Ids with the same digits may be reordered.
///
/// ```
/// let mut found = vec![in rt.alloc(); id, expected]?;
/// sort_ids(&mut found);
/// let found = SortedIds::try_new(&found)?;
/// ```
///
/// [`SortedIds::try_new`]: crate::SortedIds::try_new
pub fn sort_ids<I: Id>(ids: &mut [I])
    ensures sorted { IsSortedIds (map I.digits ids.new) }
    ensures permutation { IsPermutation ids.old ids.new }
{
    ids.sort_unstable_by(|a, b| a.as_oid().cmp(&b.as_oid()));
}

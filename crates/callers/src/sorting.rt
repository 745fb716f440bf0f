//! Ids in any order, sorted as look-ups take them.

ghost use Rattle.std.specs.Prelude.{◌≡◌, ◌↔◌, ℕ, List, All, Contains, IfOk, IsOk, map};
ghost use Rattle.std.specs.List.Sorted.{IsPermutation};
ghost use Rattle.gix_hash.specs.Words.{id_digits, id_kind};
ghost use Rattle.id_lookup.specs.Words.{IsIndex, IsSortedIds};

use gix_hash::{Kind, ObjectId};
use id_lookup::{IdIndex, IndexError, SortedIds, sort_ids, sort_unique};

/// Sorts ids of one kind, removes duplicates, and returns the index of them. It fails if and only
/// if some id is of the other kind.
pub fn sort_into_index(ids: &mut Vec<ObjectId>, kind: Kind) -> Result<IdIndex<'_>, IndexError>
    ensures accepted { IsOk result ↔ All (λ id. id_kind id ≡ kind) ids.old.items }
    ensures kind { IfOk result (λ index. index.kind ≡ kind) }
    ensures index { IfOk result (λ index. IsIndex kind index.ids) }
    ensures members { IfOk result (λ index. (digits : List ℕ) → Contains index.ids digits
        ↔ Contains (map id_digits ids.old.items) digits) }
{
    sort_unique(ids);
    id_lookup::laws::strictly_sorted(kind, ids);
    IdIndex::try_new(ids, kind)
}

/// Sorts ids of any kinds, and returns the list of them.
pub fn sort_into_list(ids: &mut [ObjectId]) -> SortedIds<'_>
    ensures sorted { IsSortedIds result }
    ensures permutation { IsPermutation (map id_digits ids.old) result }
{
    sort_ids(ids);
    SortedIds::try_new(ids).unwrap()
}

//! Laws of look-ups that belong to no single call. Each is the contract of a function.

ghost use Rattle.std.specs.Prelude.{◌≡◌, ◌↔◌, ◌<◌, ℕ, List, All, IsTrue, length, map};
ghost use Rattle.std.specs.List.Sorted.{IsStrictlySortedBy};
ghost use Rattle.std.specs.declared.cmp.Ordering.{Ordering};
ghost use Rattle.gix_hash.specs.Words.{BeginsWith, id_cmp, id_digits, id_kind, place};
ghost use Rattle.id_lookup.specs.Runs.{begins_with};
ghost use Rattle.id_lookup.specs.Indexes.{IsIndex};

use crate::ids::Id;
use crate::index::{Answer, IdIndex};
pub use crate::part_laws::{parts, parts_in_order};
use crate::unique::note_digits;
use gix_hash::{Kind, ObjectId, Prefix};

/// The lowercase hex spelling of an id begins with that of a prefix if and only if the id's digits
/// begin with the prefix's, and if and only if the prefix's `place` against them is Equal.
pub fn beginnings(prefix: &Prefix)
    ensures digits { (id : List ℕ) → IsTrue (begins_with id prefix.now)
        ↔ BeginsWith id prefix.now.digits }
    ensures place { (id : List ℕ) → IsTrue (begins_with id prefix.now)
        ↔ (place prefix.now.digits id ≡ Ordering.Equal) }
{}

/// An index finds only the member at a position by the abbreviation of that member.
pub fn find_own_abbreviation<I: Id>(index: &IdIndex<'_, I>, at: usize) -> Answer
    requires { at < length index.now.ids }
    ensures { result ≡ Answer.One at }
{
    index.find(&index.abbreviate(at))
}

/// Owned ids that are strictly increasing in their own order, as after a sort and a `dedup`, are an
/// index of a kind if and only if each of them is of that kind.
pub fn strictly_sorted(kind: Kind, ids: &[ObjectId])
    ensures { IsStrictlySortedBy id_cmp ids.now
        → IsIndex kind (map id_digits ids.now) ↔ All (λ id. id_kind id ≡ kind) ids.now }
{
    note_digits(ids);
}

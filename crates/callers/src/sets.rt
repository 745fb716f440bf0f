//! Sets and maps of ids.

ghost use Rattle.std.specs.Prelude.{◌≡◌, ◌≢◌, ◌||◌, ◌↔◌, not, Contains, IfOk, OnErr, OnOk, IsTrue, Some};
ghost use Rattle.std.specs.BTreeMap as tree;
ghost use Rattle.std.specs.HashSet as hash_set;
ghost use Rattle.std.specs.declared.cmp.Ordering.{Ordering};
ghost use Rattle.gix_hash.specs.Words.{id_cmp, id_eq};
ghost use Rattle.gix_hash.specs.declared.ObjectId.{ObjectId};

use gix_hash::{ObjectId, laws};
use std::alloc::AllocFailed;
use std::collections::{BTreeMap, HashSet};

/// Marks an id as seen, and returns whether it was new. If memory runs out, the set is unchanged.
pub fn mark_seen(seen: &mut HashSet<ObjectId>, id: ObjectId) -> Result<bool, AllocFailed<ObjectId>>
    ensures added { IfOk result (λ added. added ≡ not (hash_set.contains id_eq seen.old id)) }
    ensures marked { OnOk result ((other : ObjectId) → hash_set.contains id_eq seen.new other
        ≡ (id_eq id other || hash_set.contains id_eq seen.old other)) }
    ensures unchanged { OnErr result (hash_set.IsUnchanged seen.old seen.new) }
{
    seen.insert(id)
}

/// Whether an id was seen.
pub fn was_seen(seen: &HashSet<ObjectId>, id: &ObjectId) -> bool
    ensures value { result ≡ hash_set.contains id_eq seen.now id.now }
    ensures member { IsTrue result ↔ Contains seen.now.keys id.now }
{
    laws::contains_equal(id);
    seen.contains(id)
}

/// Sets the offset of an id's object, and returns the previous one. If memory runs out, the map is
/// unchanged.
pub fn set_offset(
    offsets: &mut BTreeMap<ObjectId, u64>,
    id: ObjectId,
    offset: u64,
) -> Result<Option<u64>, AllocFailed<(ObjectId, u64)>>
    ensures before { IfOk result (λ before. before ≡ tree.get id_cmp offsets.old id) }
    ensures set { OnOk result (tree.get id_cmp offsets.new id ≡ Some offset) }
    ensures others { OnOk result ((other : ObjectId) → id_cmp id other ≢ Ordering.Equal
        → tree.get id_cmp offsets.new other ≡ tree.get id_cmp offsets.old other) }
    ensures unchanged { OnErr result (tree.IsUnchanged offsets.old offsets.new) }
{
    offsets.insert(id, offset)
}

/// The offset of an id's object.
pub fn offset_of(offsets: &BTreeMap<ObjectId, u64>, id: &ObjectId) -> Option<u64>
    ensures { result ≡ tree.get id_cmp offsets.now id.now }
{
    offsets.get(id).copied()
}

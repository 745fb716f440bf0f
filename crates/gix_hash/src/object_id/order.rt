//! How ids compare, and what they feed to a hash.

ghost use Rattle.std.proofs.Common.{rules};
ghost use Rattle.gix_hash.specs.Ids.{id_eq, id_cmp, id_hash_input, same_id_input};
ghost use Rattle.std.specs.Cmp.Rules.{comparing};

use super::ObjectId;
use std::cmp::Ordering;
use std::hash::{Hash, Hasher};

impl PartialEq for ObjectId {
    ghost eq = { id_eq };

    ghost laws = { Prim.search (comparing, rules) };

    fn eq(&self, other: &Self) -> bool {
        self.kind() == other.kind() && self.as_oid() == other.as_oid()
    }
}

impl Eq for ObjectId {
    ghost laws = { Prim.search (comparing, rules) };
}

impl PartialOrd for ObjectId {
    ghost use Rattle.std.specs.Cmp.{partial_order_from_own_ties};
    ghost use Rattle.std.specs.Ordering.{as_partial_cmp};

    ghost partial_cmp = { as_partial_cmp id_cmp };

    ghost laws = { partial_order_from_own_ties (Prim.search (comparing, rules))
        (Prim.search (comparing, rules)) };

    fn partial_cmp(&self, other: &Self) -> Option<Ordering> {
        Some(self.cmp(other))
    }
}

/// By kind, and then by digits.
impl Ord for ObjectId {
    ghost cmp = { id_cmp };

    ghost total = { Prim.search (comparing, rules) };

    ghost matches_partial_cmp = { Prim.search (comparing, rules) };

    ghost matches_eq = { Prim.search (comparing, rules) };

    fn cmp(&self, other: &Self) -> Ordering {
        self.kind()
            .cmp(&other.kind())
            .then(self.as_oid().cmp(&other.as_oid()))
    }
}

/// Feeds the bytes of the digest in one write, without a length.
impl Hash for ObjectId {
    ghost hash_input = { id_hash_input };

    ghost respects_eq = { same_id_input };

    fn hash<H: Hasher>(&self, state: &mut H) {
        state.write(self.as_slice());
    }
}

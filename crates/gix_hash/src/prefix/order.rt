//! How prefixes compare, and what they feed to a hash.

ghost use Rattle.std.proofs.Common.{rules};
ghost use Rattle.gix_hash.specs.Prefixes.{prefix_eq, prefix_cmp};
ghost use Rattle.std.specs.Cmp.Rules.{comparing};

use super::Prefix;
use std::cmp::Ordering;
use std::hash::{Hash, Hasher};

impl PartialEq for Prefix {
    ghost eq = { prefix_eq };

    ghost laws = { Prim.search (comparing, rules) };

    fn eq(&self, other: &Self) -> bool {
        self.cmp(other).is_eq()
    }
}

impl Eq for Prefix {
    ghost laws = { Prim.search (comparing, rules) };
}

impl PartialOrd for Prefix {
    ghost use Rattle.std.specs.Cmp.{partial_order_from_own_ties};
    ghost use Rattle.std.specs.Ordering.{as_partial_cmp};

    ghost partial_cmp = { as_partial_cmp prefix_cmp };

    ghost laws = { partial_order_from_own_ties (Prim.search (comparing, rules))
        (Prim.search (comparing, rules)) };

    fn partial_cmp(&self, other: &Self) -> Option<Ordering> {
        Some(self.cmp(other))
    }
}

/// By kind, and then in the dictionary order of the digits, a prefix before what it begins.
impl Ord for Prefix {
    ghost cmp = { prefix_cmp };

    ghost total = { Prim.search (comparing, rules) };

    ghost matches_partial_cmp = { Prim.search (comparing, rules) };

    ghost matches_eq = { Prim.search (comparing, rules) };

    fn cmp(&self, other: &Self) -> Ordering {
        let digits = self.words.cmp(&other.words);
        let kind = self.bytes.kind().cmp(&other.bytes.kind());
        kind.then(digits).then(self.hex_len.cmp(&other.hex_len))
    }
}

/// Feeds the bytes that hold the digits, with zeros after them, in one write, and then the number
/// of digits.
impl Hash for Prefix {
    ghost use Rattle.gix_hash.specs.PrefixBytes.{prefix_hash_input, same_hash_input};

    ghost hash_input = { prefix_hash_input };

    ghost respects_eq = { same_hash_input };

    fn hash<H: Hasher>(&self, state: &mut H) {
        state.write(self.bytes.as_slice());
        self.hex_len.hash(state);
    }
}

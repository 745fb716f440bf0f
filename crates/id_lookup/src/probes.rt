//! Counted comparisons of a prefix with the members of a sorted list.

ghost use Rattle.std.specs.Prelude.{◌≡◌, ◌↔◌, ◌+◌, ◌<◌, ◌≤◌, ◌^◌, IsTrue, length, map, HoldsAt};
ghost use Rattle.gix_hash.specs.Words.{place};
ghost use Rattle.id_lookup.specs.Runs.{CanProbe, least_hex_len};

use crate::ids::{Id, id_at};
use crate::sorted::SortedIds;
use gix_hash::{ObjectId, Prefix};
use std::cmp::Ordering;
use std::marker::Model;

/// A sorted list that can be examined only by comparing one prefix with one member at a time
/// ([`Probes::ask`]). Each comparison is counted.
///
/// Probes lend no id, cannot be copied, and never count down. So a function that gets a list only
/// by its probes has compared as many ids as [`Probes::asked`] says.
///
/// ```
/// let mut probes = Probes::new(&ids, prefix);
/// let run = lookup(&mut probes);
/// println!(rt; "found by {} comparisons", probes.asked())?;
/// ```
#[derive(Drop)]
pub struct Probes<'a, I: Id = ObjectId> {
    ids: &'a [I],
    prefix: Prefix,
    asked: u64,
}

impl<'a, I: Id> Model for Probes<'a, I> {
    ghost use Rattle.std.specs.Prelude.{map};
    ghost use Rattle.id_lookup.specs.Runs.{Probing, CanProbe};

    ghost Value = { Probing };

    ghost view = { λ p. record {
      ids = map I.digits p.ids.now;
      prefix = p.prefix;
      asked = p.asked;
    } };

    ghost invariant = { λ p. CanProbe p.prefix (map I.digits p.ids.now) };
}

impl<'a, I: Id> Probes<'a, I> {
    /// New probes of a list by a prefix, which must have at most as many digits as each member: at
    /// most `ids.min_hex_len()`.
    pub fn new(ids: &SortedIds<'a, I>, prefix: Prefix) -> Self
        requires { length prefix.digits ≤ least_hex_len ids.now }
        ensures { result ≡ record { ids = ids.now; prefix = prefix; asked = 0 } }
    {
        Probes::over(ids.members(), prefix)
    }

    // Probes of a list that is known to be sorted, and to have no member with fewer digits than the
    // prefix.
    pub(crate) fn over(ids: &'a [I], prefix: Prefix) -> Self
        requires { CanProbe prefix (map I.digits ids.now) }
        ensures { result ≡ record { ids = map I.digits ids.now; prefix = prefix; asked = 0 } }
    {
        Probes {
            ids,
            prefix,
            asked: 0,
        }
    }

    /// The number of members. They are sorted, and each has at least as many digits as the prefix.
    pub fn len(&self) -> usize
        ensures value { result ≡ length self.now.ids }
        ensures can_probe { CanProbe self.now.prefix self.now.ids }
    {
        self.ids.len()
    }

    /// Whether there is no member.
    pub fn is_empty(&self) -> bool
        ensures { IsTrue result ↔ (length self.now.ids ≡ 0) }
    {
        self.ids.is_empty()
    }

    /// The prefix. It has at most as many digits as each member.
    pub fn prefix(&self) -> Prefix
        ensures value { result ≡ self.now.prefix }
        ensures can_probe { CanProbe self.now.prefix self.now.ids }
    {
        self.prefix
    }

    /// The number of comparisons so far.
    pub fn asked(&self) -> u64
        ensures { result ≡ self.now.asked }
    {
        self.asked
    }

    /// Compares the prefix with the member at position `at`, as [`Prefix::cmp_oid`] does: by the
    /// dictionary order of the prefix's digits and as many first digits of the member. `Greater`
    /// means that the prefix comes after the member.
    ///
    /// The count grows by 1. The list and the prefix stay the same. `at` must be below `len()`, and
    /// the count below 2^64 - 1.
    pub fn ask(&mut self, at: usize) -> Ordering
        requires in_range { at < length self.old.ids }
        requires room { self.old.asked + 1 < 2 ^ 64 }
        ensures answer { HoldsAt (λ id. result ≡ place self.old.prefix.digits id) self.old.ids at }
        ensures counted { self.new ≡ record self.old { asked = self.old.asked + 1 } }
    {
        self.asked += 1;
        let ids = self.ids;
        self.prefix.cmp_oid(id_at(ids, at))
    }
}

//! Branches, which are found by the first digits of the ids that they point to: a struct of one's
//! own as `Id`.

ghost use Rattle.std.specs.Prelude.{◌≡◌, ◌↔◌, ◌≤◌, ℕ, IfSome, IsSome, length, map, slice_range};
ghost use Rattle.std.specs.List.Sorted.{IsPermutation};
ghost use Rattle.gix_hash.specs.Words.{id_digits, id_kind};
ghost use Rattle.id_lookup.specs.Words.{IsRun, IsSortedIds, least_hex_len};
ghost use Rattle.callers.specs.declared.branches.Branch.{Branch};

use gix_hash::{ObjectId, Prefix, oid};
use id_lookup::{Id, SortedIds, sort_ids};

/// A branch: the id that it points to, and its name.
#[derive(Clone, Copy)]
pub struct Branch<'a> {
    /// The id.
    pub id: ObjectId,
    /// The name.
    pub name: &'a str,
}

impl Id for Branch<'_> {
    ghost kind = { λ b. id_kind b.id };

    ghost digits = { λ b. id_digits b.id };

    fn as_oid(&self) -> oid<'_> {
        self.id.as_oid()
    }
}

/// Sorts branches by their ids.
pub fn sort_branches(branches: &mut [Branch<'_>])
    ensures sorted { IsSortedIds (map (λ (b : Branch). id_digits b.id) branches.new) }
    ensures permutation { IsPermutation branches.old branches.new }
{
    sort_ids(branches);
}

/// The branches of a sorted list whose ids begin with the prefix, or `None` if the list is not
/// sorted, or the prefix has more digits than some id.
pub fn find_branches<'a, 'b>(
    branches: &'b [Branch<'a>],
    prefix: &Prefix,
) -> Option<&'b [Branch<'a>]>
    ensures found { IfSome result (λ found. (from : ℕ) × (to : ℕ)
        × IsRun prefix.now (map (λ (b : Branch). id_digits b.id) branches.now)
        (record { start = from; end = to })
        × (found.now ≡ slice_range branches.now from to)) }
    ensures some { IsSome result ↔ (IsSortedIds (map (λ (b : Branch). id_digits b.id) branches.now)
        × (length prefix.now.digits
        ≤ least_hex_len (map (λ (b : Branch). id_digits b.id) branches.now))) }
{
    let Ok(list) = SortedIds::try_new(branches) else {
        return None;
    };
    if prefix.hex_len() > list.min_hex_len() {
        return None;
    }
    let run = list.find(prefix);
    Some(&branches[run.start..run.end])
}

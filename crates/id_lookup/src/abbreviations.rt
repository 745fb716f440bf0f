//! The abbreviations of the ids of a sorted list, their shortest unique prefixes: the two
//! neighbours of an id decide.

ghost use Rattle.std.specs.Prelude.{◌≡◌, ◌+◌, ◌-◌, ◌<◌, ◌≤◌, ℕ, [], IfSome, IsNone, List, length, map, slice_index_or, max, take};
ghost use Rattle.gix_hash.specs.Words.{hex_len_of};
ghost use Rattle.id_lookup.specs.Indexes.{IsShortestAbbreviationFrom, IsUniqueLen, common_at};
ghost use Rattle.id_lookup.specs.Runs.{IsSortedIds};

use crate::ids::{Id, id_at};
use gix_hash::Prefix;

// The abbreviation of the member at a position, if the list is sorted: its shortest prefix of at
// least `least` digits that no other member begins with. There is none if the member has fewer.
#[inline(always)]
pub(crate) fn shortest_abbreviation<I: Id>(ids: &[I], at: usize, least: usize) -> Option<Prefix>
    requires in_range { at < length ids.now }
    requires enough { 4 ≤ least }
    ensures kind { IfSome result (λ prefix. hex_len_of prefix.kind
        ≡ length (slice_index_or (map I.digits ids.now) at [])) }
    ensures first { IfSome result (λ prefix. prefix.digits
        ≡ take (length prefix.digits) (slice_index_or (map I.digits ids.now) at [])) }
    ensures long { IfSome result (λ prefix. least ≤ length prefix.digits) }
    ensures abbreviation { IfSome result (λ prefix. IsSortedIds (map I.digits ids.now)
        → IsShortestAbbreviationFrom least (map I.digits ids.now) at prefix.digits) }
    ensures none { IsNone result → IsSortedIds (map I.digits ids.now) → (prefix : List ℕ)
        → ¬ IsShortestAbbreviationFrom least (map I.digits ids.now) at prefix }
    ensures lacks { IsNone result → IsSortedIds (map I.digits ids.now)
        → (len : ℕ) × IsUniqueLen (map I.digits ids.now) at len
        × (length (slice_index_or (map I.digits ids.now) at []) < max len least) }
{
    let hex_len = unique_len(ids, at).max(least);
    let id = id_at(ids, at);
    if hex_len > id.kind().len_in_hex() {
        return None;
    }
    Some(Prefix::new(id, hex_len).unwrap())
}

// How many first digits distinguish the id at a position from all others, if the list is sorted.
fn unique_len<I: Id>(ids: &[I], at: usize) -> usize
    requires { at < length ids.now }
    ensures { IsSortedIds (map I.digits ids.now) → IsUniqueLen (map I.digits ids.now) at result }
{
    digits_before(ids, at).max(digits_after(ids, at))
}

// How many first digits distinguish the id at a position from the previous one, if there is one.
fn digits_before<I: Id>(ids: &[I], at: usize) -> usize
    requires { at < length ids.now }
    ensures none { at ≡ 0 → result ≡ 0 }
    ensures some { 0 < at → result ≡ common_at (map I.digits ids.now) at (at - 1) + 1 }
{
    if at == 0 {
        return 0;
    }
    id_at(ids, at).common_hex_len(id_at(ids, at - 1)) + 1
}

// How many first digits distinguish the id at a position from the next one, if there is one.
fn digits_after<I: Id>(ids: &[I], at: usize) -> usize
    requires { at < length ids.now }
    ensures none { at + 1 ≡ length ids.now → result ≡ 0 }
    ensures some { at + 1 < length ids.now
        → result ≡ common_at (map I.digits ids.now) at (at + 1) + 1 }
{
    let len = ids.len();
    if at + 1 == len {
        return 0;
    }
    id_at(ids, at).common_hex_len(id_at(ids, at + 1)) + 1
}

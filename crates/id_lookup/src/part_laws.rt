//! Laws of the parts of an index, by the first bytes of its ids or by another test.

ghost use Rattle.std.specs.Prelude.{◌≡◌, ◌≤◌, ◌<◌, ◌/◌, ◌%◌, ◌∷◌, ℕ, Bool, true, All, List, [], count_by, filter, flat_map, length, nat_eq, slice_index_or, slice_range, take};
ghost use Rattle.std.specs.List.{range_with_len, starts_with};
ghost use Rattle.gix_hash.specs.Words.{AreIdDigits, first_byte_of};
ghost use Rattle.gix_hash.specs.declared.kind.Kind as kinds;
ghost use Rattle.id_lookup.specs.Runs.{IsSortedIds, is_below, is_up_to, matches};
ghost use Rattle.id_lookup.specs.Indexes.{IsIndex, IsIndexOf, IsShortestAbbreviationFrom, part_of};

/// Filtering ids and then sorting them gives the same as sorting and then filtering. The ids that
/// begin with a prefix of 2 digits or more are found in the part of its first byte, and this part
/// is what begins with the two digits of the byte. An id's abbreviation does not depend on ids
/// whose first `least` digits differ from its own.
pub fn parts()
    ensures part { (kind : kinds.Kind) (p : List ℕ → Bool) (all whole part : List (List ℕ))
        → IsIndexOf kind all whole → IsIndexOf kind (filter p all) part
        → part ≡ filter p whole }
    ensures lists { (p : List ℕ → Bool) (lists : List (List (List ℕ)))
        → filter p (flat_map (λ list. list) lists) ≡ flat_map (filter p) lists }
    ensures found { (digits : List ℕ) (ids : List (List ℕ)) → 2 ≤ length digits
        → matches digits (part_of (first_byte_of digits) ids) ≡ matches digits ids }
    ensures two { (kind : kinds.Kind) (byte : ℕ) (ids : List (List ℕ)) → All (AreIdDigits kind) ids
        → part_of byte ids ≡ matches (byte / 16 ∷ byte % 16 ∷ []) ids }
    ensures abbreviations { (kind : kinds.Kind) (p : List ℕ → Bool) (least : ℕ)
        (whole : List (List ℕ)) (at position : ℕ) (prefix : List ℕ) → IsIndex kind whole
        → ((id : List ℕ)
        → starts_with nat_eq id (take least (slice_index_or whole position [])) ≡ true
        → p id ≡ true)
        → at < length (filter p whole) → position < length whole
        → slice_index_or whole position [] ≡ slice_index_or (filter p whole) at []
        → IsShortestAbbreviationFrom least (filter p whole) at prefix
        → IsShortestAbbreviationFrom least whole position prefix }
{}

/// In a sorted list the ids with a first byte are a run, and the parts one after the other are the
/// list.
pub fn parts_in_order()
    ensures run { (ids : List (List ℕ)) (byte : ℕ) → IsSortedIds ids
        → All (λ id. All (λ d. d < 16) id) ids
        → slice_range ids (count_by (is_below byte) ids) (count_by (is_up_to byte) ids)
        ≡ part_of byte ids }
    ensures all { (ids : List (List ℕ)) (n : ℕ) → IsSortedIds ids
        → All (λ id. All (λ d. d < 16) id) ids → All (λ id. first_byte_of id < n) ids
        → flat_map (λ byte. part_of byte ids) (range_with_len 0 n) ≡ ids }
{}

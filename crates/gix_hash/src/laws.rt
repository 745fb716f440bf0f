//! Laws of digits, ids and prefixes that hold across calls. Each is the contract of a function
//! that computes nothing: a call of it brings the law into a caller's proof. A body that calls
//! `kind` or `hex_len` takes from its contract how many digits there are, each below 16.

ghost use Rattle.std.specs.Prelude.{◌≡◌, ◌≤◌, ◌<◌, ◌↔◌, ◌⊎◌, ◌+◌, ◌-◌, ◌/◌, ◌%◌, ◌^◌, ℕ, All, List, IsTrue, IsOk, IfOk, Some, None, [], codes, length, slice_index, MatchResult, Contains};
ghost use Rattle.std.specs.declared.cmp.Ordering.{Ordering};
ghost use Rattle.std.specs.Cmp.{IsEquivalence, IsTotalOrder};
ghost use Rattle.std.specs.Cmp.Lexicographic.{slice_cmp};
ghost use Rattle.std.specs.List.{list_any};
ghost use Rattle.std.specs.Ordering.{eq_by_cmp, nat_cmp, ordering_reverse};
ghost use Rattle.std.specs.Str.{str_to_ascii_lowercase};
ghost use Rattle.gix_hash.specs.Ids.{AreIdDigits, HasDigits, cut_cmp, cut_eq, cut_hash_input, hex_values, id_cmp, id_digits, id_eq, id_hash_input, id_kind, oid_cmp, oid_digits, oid_eq, oid_kind};
ghost use Rattle.gix_hash.specs.Reading.{IsFullReading, IsFullRefusal, IsPrefixReading, IsPrefixRefusal, IsReadingIn, IsRefusalIn, full_read, letter_of, prefix_read, prefix_read_in, whole_of};
ghost use Rattle.id_digits.specs.Digits.{IsUnreadable, ReadsAs, digits_read, hex_letter, place, reverse_letter, spelling, words_of};
ghost use Rattle.gix_hash.specs.Kinds.{kind_of_hex_len};
ghost use Rattle.gix_hash.specs.Prefixes.{KindDigits, kind_digits, BeginsWith, prefix_eq};
ghost use Rattle.gix_hash.specs.declared.borrowed.oid as borrowed;
ghost use Rattle.gix_hash.specs.declared.decode.Error as decode;
ghost use Rattle.gix_hash.specs.declared.kind.Kind as kinds;
ghost use Rattle.gix_hash.specs.declared.object_id.ObjectId as ids;
ghost use Rattle.gix_hash.specs.declared.prefix.from_hex.Error as from_hex;

use crate::alphabet::Alphabet;
use crate::borrowed::oid;
use crate::change_id::ChangeId;
use crate::display::{HexDisplay, ReverseHexDisplay};
use crate::kind::Kind;
use crate::object_id::ObjectId;
use crate::prefix::Prefix;
use std::hash::Hash;

/// The letters of the digits 0 to 15 are those of the two alphabets, in order.
pub fn letters()
    ensures hex { (d : ℕ) → d < 16 → hex_letter d ≡ slice_index (codes "0123456789abcdef") d }
    ensures reverse { (d : ℕ) → d < 16
        → reverse_letter d ≡ slice_index (codes "zyxwvutsrqponmlk") d }
{}

/// `digits_read` returns the only digits that the text spells, or `None` if it spells none.
pub fn readings(alphabet: Alphabet, text: &[u8])
    ensures some { (digits : List ℕ) → (digits_read (letter_of alphabet) text.now ≡ Some digits)
        ↔ ReadsAs (letter_of alphabet) text.now digits }
    ensures none { (digits_read (letter_of alphabet) text.now ≡ None)
        ↔ IsUnreadable (letter_of alphabet) text.now }
{}

/// A text reads as digits if and only if each of them is below 16 and the text, in lowercase, is
/// their spelling.
pub fn spelled(alphabet: Alphabet, text: &[u8])
    ensures { (digits : List ℕ) → ReadsAs (letter_of alphabet) text.now digits
        ↔ (All (λ d. d < 16) digits
        × (str_to_ascii_lowercase text.now ≡ spelling (letter_of alphabet) digits)) }
{}

/// A list of digits is that of some [`ObjectId`] of the kind if and only if it has the kind's
/// length and each digit is below 16.
pub fn digits_of_ids(kind: Kind)
    ensures { (digits : List ℕ) → AreIdDigits kind digits
        ↔ ((id : ids.ObjectId) × HasDigits kind digits id) }
{}

/// What is printed of any id is in lowercase, and reads as the id. So no id is printed as a text
/// that is rejected or that reads as another id.
pub fn printed(alphabet: Alphabet)
    ensures lowercase { (digits : List ℕ) → All (λ d. d < 16) digits
        → str_to_ascii_lowercase (spelling (letter_of alphabet) digits)
        ≡ spelling (letter_of alphabet) digits }
    ensures reads { (kind : kinds.Kind) → (digits : List ℕ) → AreIdDigits kind digits
        → full_read (letter_of alphabet) (spelling (letter_of alphabet) digits)
        ≡ Ok (kind_digits kind digits) }
{}

/// The texts that read as a full id, which are those of as many bytes as its kind has digits that
/// read as its digits; and why any other is rejected.
pub fn full_readings(alphabet: Alphabet, text: &[u8])
    ensures ok { (id : KindDigits) → (full_read (letter_of alphabet) text.now ≡ Ok id)
        ↔ IsFullReading (letter_of alphabet) text.now id }
    ensures err { (error : decode.Error)
        → (full_read (letter_of alphabet) text.now ≡ Err error)
        ↔ IsFullRefusal (letter_of alphabet) text.now error }
    ensures cases { MatchResult (full_read (letter_of alphabet) text.now)
        (IsFullReading (letter_of alphabet) text.now)
        (IsFullRefusal (letter_of alphabet) text.now) }
{}

/// The texts that read as a prefix of at least `least` digits, and why any other is rejected.
pub fn prefix_readings(alphabet: Alphabet, least: usize, text: &str)
    ensures ok { (prefix : KindDigits)
        → (prefix_read (letter_of alphabet) least text.now ≡ Ok prefix)
        ↔ IsPrefixReading (letter_of alphabet) least text.now prefix }
    ensures err { (error : from_hex.Error)
        → (prefix_read (letter_of alphabet) least text.now ≡ Err error)
        ↔ IsPrefixRefusal (letter_of alphabet) least text.now error }
    ensures cases { MatchResult (prefix_read (letter_of alphabet) least text.now)
        (IsPrefixReading (letter_of alphabet) least text.now)
        (IsPrefixRefusal (letter_of alphabet) least text.now) }
{}

/// The texts that read as a prefix in a given kind, and why any other is rejected.
pub fn prefix_readings_in(kind: Kind, alphabet: Alphabet, text: &str)
    ensures ok { (prefix : KindDigits)
        → (prefix_read_in kind (letter_of alphabet) text.now ≡ Ok prefix)
        ↔ IsReadingIn kind (letter_of alphabet) text.now prefix }
    ensures err { (error : from_hex.Error)
        → (prefix_read_in kind (letter_of alphabet) text.now ≡ Err error)
        ↔ IsRefusalIn kind (letter_of alphabet) text.now error }
{}

/// An id that is printed in full, and read in any letter case, is the same id.
pub fn read_back(id: &ObjectId, text: &[u8])
    requires { str_to_ascii_lowercase text.now ≡ spelling hex_letter (id_digits id.now) }
    ensures { full_read hex_letter text.now ≡ Ok (whole_of id.now) }
{
    let _kind = id.kind();
}

/// A change id that is printed in full, and read in any letter case, is the same change id.
pub fn read_change_back(change: &ChangeId, text: &[u8])
    requires { str_to_ascii_lowercase text.now ≡ spelling reverse_letter (id_digits change.now) }
    ensures { full_read reverse_letter text.now ≡ Ok (whole_of change.now) }
{
    let _kind = change.kind();
}

/// A prefix of at least one digit that is printed, and read in any letter case, has the same
/// digits; it is the same prefix if and only if its kind is the one with the shortest ids that have
/// room for them.
pub fn read_prefix_back(alphabet: Alphabet, prefix: &Prefix, text: &str)
    requires nonempty { 1 ≤ length prefix.now.digits }
    requires printed { str_to_ascii_lowercase text.now
        ≡ spelling (letter_of alphabet) prefix.now.digits }
    ensures reads { IsOk (prefix_read (letter_of alphabet) 1 text.now) }
    ensures digits { IfOk (prefix_read (letter_of alphabet) 1 text.now)
        (λ read. read.digits ≡ prefix.now.digits) }
    ensures same { (prefix_read (letter_of alphabet) 1 text.now ≡ Ok prefix.now)
        ↔ (kind_of_hex_len (length prefix.now.digits) ≡ Some prefix.now.kind) }
{
    let _len = prefix.hex_len();
}

/// A prefix of at least one digit that is printed, and read in its kind and in any letter case, is
/// the same prefix.
pub fn read_prefix_back_in_kind(alphabet: Alphabet, prefix: &Prefix, text: &str)
    requires nonempty { 1 ≤ length prefix.now.digits }
    requires printed { str_to_ascii_lowercase text.now
        ≡ spelling (letter_of alphabet) prefix.now.digits }
    ensures { prefix_read_in prefix.now.kind (letter_of alphabet) text.now ≡ Ok prefix.now }
{
    let _len = prefix.hex_len();
}

/// Two ids are the same if and only if their kinds and their digits are.
pub fn same_id(first: &ObjectId, second: &ObjectId)
    ensures { (first.now ≡ second.now) ↔ (whole_of first.now ≡ whole_of second.now) }
{}

/// Ids are equal if and only if they are the same, that is, if their kinds and their digits are, or
/// their full spellings.
pub fn equal_ids(first: &ObjectId, second: &ObjectId)
    ensures same { IsTrue (id_eq first.now second.now) ↔ (first.now ≡ second.now) }
    ensures parts { IsTrue (id_eq first.now second.now)
        ↔ ((id_kind first.now ≡ id_kind second.now)
        × (id_digits first.now ≡ id_digits second.now)) }
    ensures spelling { IsTrue (id_eq first.now second.now)
        ↔ (spelling hex_letter (id_digits first.now) ≡ spelling hex_letter (id_digits second.now)) }
{
    let _kinds = (first.kind(), second.kind());
}

/// A list of ids contains one that is equal to an id if and only if it contains the id itself. So a
/// set contains the ids that are its keys.
pub fn contains_equal(id: &ObjectId)
    ensures { (ids : List ids.ObjectId)
        → IsTrue (list_any (id_eq id.now) ids) ↔ Contains ids id.now }
{}

/// Views are equal if and only if their digits are, or their full spellings, and then their kinds
/// are the same.
pub fn equal_views(first: oid<'_>, second: oid<'_>)
    ensures digits { IsTrue (oid_eq first.entry second.entry)
        ↔ (oid_digits first.entry ≡ oid_digits second.entry) }
    ensures spelling { IsTrue (oid_eq first.entry second.entry)
        ↔ (spelling hex_letter (oid_digits first.entry)
        ≡ spelling hex_letter (oid_digits second.entry)) }
    ensures kind { IsTrue (oid_eq first.entry second.entry)
        → oid_kind first.entry ≡ oid_kind second.entry }
{}

/// Prefixes are equal if and only if they are the same, that is, if their kinds and their spellings
/// are.
pub fn equal_prefixes(first: &Prefix, second: &Prefix)
    ensures same { IsTrue (prefix_eq first.now second.now) ↔ (first.now ≡ second.now) }
    ensures spelling { IsTrue (prefix_eq first.now second.now)
        ↔ ((first.now.kind ≡ second.now.kind)
        × (spelling hex_letter first.now.digits ≡ spelling hex_letter second.now.digits)) }
{}

/// Change ids are equal and ordered as their ids are, and feed the same to a hash.
pub fn compare_as_ids(first: &ChangeId, second: &ChangeId)
    ensures eq { ⟦<ChangeId as PartialEq>⟧.eq first.now second.now ≡ id_eq first.now second.now }
    ensures cmp { ⟦<ChangeId as Ord>⟧.cmp first.now second.now ≡ id_cmp first.now second.now }
    ensures hash_input { ⟦<ChangeId as Hash>⟧.hash_input first.now ≡ id_hash_input first.now }
{}

/// Displays in hex are equal if and only if their ids and the numbers of digits asked for are, are
/// ordered by id and then by that number, and feed both to a hash.
pub fn compare_hex_displays<'a>(first: &HexDisplay<'a>, second: &HexDisplay<'a>)
    ensures eq { ⟦<HexDisplay<'a> as PartialEq>⟧.eq first.now second.now
        ≡ cut_eq first.now second.now }
    ensures cmp { ⟦<HexDisplay<'a> as Ord>⟧.cmp first.now second.now
        ≡ cut_cmp first.now second.now }
    ensures hash_input { ⟦<HexDisplay<'a> as Hash>⟧.hash_input first.now
        ≡ cut_hash_input first.now }
{}

/// Displays in the letters `z` to `k` are equal and ordered as those in hex, and feed the same to a
/// hash.
pub fn compare_reverse_hex_displays<'a>(
    first: &ReverseHexDisplay<'a>,
    second: &ReverseHexDisplay<'a>,
)
    ensures eq { ⟦<ReverseHexDisplay<'a> as PartialEq>⟧.eq first.now second.now
        ≡ cut_eq first.now second.now }
    ensures cmp { ⟦<ReverseHexDisplay<'a> as Ord>⟧.cmp first.now second.now
        ≡ cut_cmp first.now second.now }
    ensures hash_input { ⟦<ReverseHexDisplay<'a> as Hash>⟧.hash_input first.now
        ≡ cut_hash_input first.now }
{}

/// The order of owned ids is total. Two ids are equal if and only if it ties them, and then they
/// are the same. So after a sort and a `dedup` each id of a list is below the next one, and the
/// list contains the same ids as before.
pub fn order_of_ids()
    ensures total { IsTotalOrder id_cmp }
    ensures equivalence { IsEquivalence id_eq }
    ensures ties { (a b : ids.ObjectId) → id_eq a b ≡ eq_by_cmp id_cmp a b }
    ensures same { (a b : ids.ObjectId) → IsTrue (id_eq a b) → a ≡ b }
{}

/// The order of views, of any kinds, is total, and two views are equal if and only if it ties them.
pub fn order_of_views()
    ensures total { IsTotalOrder oid_cmp }
    ensures equivalence { IsEquivalence oid_eq }
    ensures ties { (a b : borrowed.oid) → oid_eq a b ≡ eq_by_cmp oid_cmp a b }
{}

/// Within one kind owned ids have the order of their views.
pub fn orders_agree(first: &ObjectId, second: &ObjectId)
    requires { id_kind first.now ≡ id_kind second.now }
    ensures { (a b : borrowed.oid) → oid_digits a ≡ id_digits first.now
        → oid_digits b ≡ id_digits second.now
        → id_cmp first.now second.now ≡ oid_cmp a b }
{}

/// For change ids of one kind the order of the full spellings is opposite to that of the ids.
pub fn opposite_order(first: &ChangeId, second: &ChangeId)
    requires { id_kind first.now ≡ id_kind second.now }
    ensures { slice_cmp nat_cmp (spelling reverse_letter (id_digits first.now))
        (spelling reverse_letter (id_digits second.now))
        ≡ ordering_reverse (id_cmp first.now second.now) }
{
    let _kinds = (first.kind(), second.kind());
}

/// The place of a prefix against an id is Equal, which [`Prefix::cmp_oid`] returns, if and only if
/// the id's digits begin with the prefix's.
pub fn equal_iff_it_begins(prefix: &Prefix, candidate: oid<'_>)
    ensures { (place prefix.now.digits (oid_digits candidate.entry) ≡ Ordering.Equal)
        ↔ BeginsWith (oid_digits candidate.entry) prefix.now.digits }
{}

/// What two prefixes match is nested or disjoint: every id that begins with one begins with the
/// other, or none begins with both.
pub fn nested_or_disjoint(first: &Prefix, second: &Prefix)
    ensures { ((id : List ℕ) → BeginsWith id first.now.digits → BeginsWith id second.now.digits)
        ⊎ ((id : List ℕ) → BeginsWith id second.now.digits → BeginsWith id first.now.digits)
        ⊎ ((id : List ℕ) → ¬ (BeginsWith id first.now.digits × BeginsWith id second.now.digits)) }
{}

/// The two words by which a prefix compares hold its digits from the highest four bits on, the
/// first 32 in the first word and the others in the second. After the digits are zeros, as
/// `slice_index` is 0 past the end of a list.
pub fn digits_in_words(prefix: &Prefix)
    ensures first { (at : ℕ) → at < 32
        → (words_of prefix.now.digits).first / 16 ^ (31 - at) % 16
        ≡ slice_index prefix.now.digits at }
    ensures second { (at : ℕ) → at < 32
        → (words_of prefix.now.digits).second / 16 ^ (31 - at) % 16
        ≡ slice_index prefix.now.digits (32 + at) }
{
    let _len = prefix.hex_len();
}

/// The words of 7 digits, of 33 and of none, written out.
pub fn words_written_out()
    ensures seven { words_of (hex_values (codes "e69de29"))
        ≡ record { first = 0xe69de290000000000000000000000000; second = 0 } }
    ensures over_a_word { words_of (hex_values (codes "e69de29bb2d1d6434b8b29ae775ad8c2e"))
        ≡ record {
          first = 0xe69de29bb2d1d6434b8b29ae775ad8c2;
          second = 0xe0000000000000000000000000000000;
        } }
    ensures none { words_of [] ≡ record { first = 0; second = 0 } }
{}

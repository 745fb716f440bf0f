//! The abbreviations of ids, by those that begin like them.

ghost use Rattle.std.specs.Prelude.{◌≡◌, ◌≤◌, ◌<◌, All, IfOk, Some, length, map, slice_get, ℕ, slice_index_or};
ghost use Rattle.id_lookup.specs.Words.{IsIndex, IsShortestAbbreviationFrom, hex_len_of, id_digits, id_kind, matches};
ghost use Rattle.object_store.specs.Several.{IsAbbreviatedAs};
ghost use Rattle.object_store.specs.Stores.{IsOfKind};

use gix_hash::{Kind, ObjectId, Prefix};
use id_lookup::{abbreviate_in, find_assuming_sorted};
use std::alloc::{AllocError, Allocator};

/// An id with its abbreviation.
///
/// ```
/// for abbreviated in abbreviate_part(rt.alloc(), &mut store, 0x4b, 4)?.iter() {
///     println!(rt; "{} {}", abbreviated.abbreviation, abbreviated.id)?;
/// }
/// ```
#[derive(Clone, Copy, Debug)]
pub struct AbbreviatedId {
    /// The id.
    pub id: ObjectId,
    /// Its abbreviation: its first digits, with which no other id of the store begins.
    pub abbreviation: Prefix,
}

/// The only id of a store that begins with a prefix, with its abbreviation, or whether no id or
/// more than one begins with it.
///
/// ```
/// match Parts::new(rt.alloc(), &mut store).abbreviate_prefix(&prefix, 4)? {
///     Abbreviation::Missing => println!(rt; "missing")?,
///     Abbreviation::Ambiguous => println!(rt; "ambiguous")?,
///     Abbreviation::Unique(only) => println!(rt; "{} {}", only.abbreviation, only.id)?,
/// }
/// ```
#[derive(Clone, Copy, Debug)]
pub enum Abbreviation {
    /// No id begins with the prefix.
    Missing,
    /// More than one id begins with it.
    Ambiguous,
    /// Exactly one id begins with it.
    Unique(AbbreviatedId),
}

// The id at a position of an index, with its abbreviation in the index.
#[inline(always)]
fn abbreviated_at(ids: &[ObjectId], kind: Kind, at: usize, least: usize) -> AbbreviatedId
    requires in_range { at < length ids.now }
    requires index { IsIndex kind (map id_digits ids.now) }
    requires kinds { All (λ id. id_kind id ≡ kind) ids.now }
    requires enough { 4 ≤ least }
    requires fits { least ≤ hex_len_of kind }
    ensures id { slice_get ids.now at ≡ Some result.id }
    ensures abbreviation { IsShortestAbbreviationFrom least (map id_digits ids.now) at
        result.abbreviation.digits }
    ensures kind { IsOfKind kind result }
{
    AbbreviatedId {
        id: ids[at],
        abbreviation: abbreviate_in(ids, kind, at, least),
    }
}

// The abbreviation of the only id of an index that begins with a prefix. The index is of the
// prefix's kind. The id is found by binary search, and compared with its two neighbours.
pub(crate) fn abbreviation_in(ids: &[ObjectId], prefix: &Prefix, least: usize) -> Abbreviation
    requires index { IsIndex prefix.now.kind (map id_digits ids.now) }
    requires kinds { All (λ id. id_kind id ≡ prefix.now.kind) ids.now }
    requires enough { 4 ≤ least }
    requires fits { least ≤ hex_len_of prefix.now.kind }
    ensures { IsAbbreviatedAs least prefix.now.kind (map id_digits ids.now)
        (matches prefix.now.digits (map id_digits ids.now)) result }
{
    // The contract of this call says how many digits the prefix has at most.
    let _hex_len = prefix.hex_len();
    let run = find_assuming_sorted(ids, prefix);
    match run.end - run.start {
        0 => Abbreviation::Missing,
        1 => Abbreviation::Unique(abbreviated_at(ids, prefix.as_oid().kind(), run.start, least)),
        _ => Abbreviation::Ambiguous,
    }
}

// The ids of an index, each with its abbreviation in the index.
pub(crate) fn with_abbreviations<A: Allocator>(
    alloc: A,
    ids: &[ObjectId],
    kind: Kind,
    least: usize,
) -> Result<Vec<AbbreviatedId, A>, AllocError>
    requires index { IsIndex kind (map id_digits ids.now) }
    requires kinds { All (λ id. id_kind id ≡ kind) ids.now }
    requires enough { 4 ≤ least }
    requires fits { least ≤ hex_len_of kind }
    ensures kinds { IfOk result (λ abbreviated. All (IsOfKind kind) abbreviated.items) }
    ensures ids { IfOk result (λ abbreviated. map (λ (n : AbbreviatedId). n.id)
        abbreviated.items ≡ ids.now) }
    ensures abbreviations { IfOk result (λ abbreviated. (k : ℕ) (d : AbbreviatedId)
        → k < length abbreviated.items → IsShortestAbbreviationFrom least (map id_digits ids.now) k
        (slice_index_or abbreviated.items k d).abbreviation.digits) }
{
    let mut abbreviated = Vec::with_capacity(alloc, ids.len())?;
    for at in 0..ids.len() {
        abbreviated.push(abbreviated_at(ids, kind, at, least))?;
    }
    Ok(abbreviated)
}

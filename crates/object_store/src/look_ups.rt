//! Look-ups of a prefix, of several prefixes, and of all ids with a first byte.

ghost use Rattle.std.specs.Prelude.{◌≡◌, ◌-◌, ◌<◌, ◌≤◌, ℕ, All, IfErr, IfNone, IfOk, IfSome, List, SomeIff, length};
ghost use Rattle.std.specs.List.{AllZip, sum_by};
ghost use Rattle.id_lookup.specs.Words.{KindDigits, first_byte_of, hex_len_of};
ghost use Rattle.object_store.specs.Several.{AreLocated, AreAbbreviated, IsAbbreviated, IsLocationsFault, id_count, location_count};
ghost use Rattle.object_store.specs.Stores.{AreMatches, ArePlaces, CanLookUp, HaveMore, IsListed, IsOfOne, IsStoreFault, StoreView};
ghost use Rattle.object_store.specs.declared.error.Error.{Error as StoreError};

use crate::abbreviations::{AbbreviatedId, Abbreviation, with_abbreviations};
use crate::error::Error;
use crate::locations::LocatedId;
use crate::parts::{Parts, two_digits};
use crate::store::{Store, StorePaths};
use gix_hash::{Kind, ObjectId, Prefix};
use std::alloc::{AllocError, Allocator};

/// The ids of a store that begin with a prefix, each once, in order.
///
/// The prefix must have 2 digits or more, and the store's kind. The loose objects with its first
/// byte must be listed. The call reads only ids with this byte from each pack index: all of them,
/// or, once they were found in order, some of them. It allocates memory for these ids, and for the
/// ids that are found. The error is that of reading the ids with the prefix's first byte, or that
/// memory ran out. Clauses see no change of the store.
///
/// ```
/// for id in lookup_prefix(rt.alloc(), &mut store, &prefix)?.iter() {
///     println!(rt; "{id}")?;
/// }
/// ```
pub fn lookup_prefix<S: Store, A: Allocator + Copy>(
    alloc: A,
    store: &mut S,
    prefix: &Prefix,
) -> Result<Vec<ObjectId, A>, Error>
    requires enough { 2 ≤ length prefix.now.digits }
    requires kind { prefix.now.kind ≡ (S.view store.old).kind }
    requires listed { IsListed (S.view store.old) (first_byte_of prefix.now.digits) }
    ensures same { store.new ≡ store.old }
    ensures matches { IfOk result (λ ids. AreMatches (S.view store.old) prefix.now.digits
        ids.items) }
    ensures err { IfErr result (IsStoreFault (S.view store.old)
        (first_byte_of prefix.now.digits)) }
{
    let mut parts = Parts::new(alloc, store);
    let ids = parts.lookup_prefix(prefix);
    // The contract of this call says that the store is as it was.
    let _store = parts.into_store();
    ids
}

/// Looks up several prefixes in a store, and returns what is found for each, in the order in which
/// they are given: the ids that begin with it ([`Matching`]), these ids with their locations
/// ([`Locating`]), or the abbreviation of the only one ([`Abbreviating`]).
///
/// Each prefix must have 2 digits or more, and the store's kind. The loose objects with its first
/// byte must be listed. The call reads the ids with each of these bytes once from each pack index,
/// or, if they were found in order before, some of them for each prefix. It allocates memory for
/// the ids with one first byte at a time, and for what is found. The error is that of looking up
/// one of the prefixes, or that memory ran out. Clauses see no change of the store.
///
/// A call without an error returns `None` if and only if there are several prefixes, and more than
/// `most` is found for them. What is found for two of them counts twice. Each kind of look-up says
/// what it counts.
///
/// ```
/// let matching = Matching { limit: None };
/// if let Some(found) = look_up_each(rt.alloc(), &mut store, &prefixes, 65_536, &matching)? {
///     for ids in found.iter() {
///         println!(rt; "{} ids", ids.len())?;
///     }
/// }
/// ```
pub fn look_up_each<S: Store, A: Allocator + Copy, L: LookUp<S, A>>(
    alloc: A,
    store: &mut S,
    prefixes: &[Prefix],
    most: usize,
    look_up: &L,
) -> Result<Option<Vec<L::Found, A>>, Error>
    requires can { All (CanLookUp (S.view store.old)) prefixes.now }
    requires fits { L.fits look_up.now (S.view store.old) }
    ensures same { store.new ≡ store.old }
    ensures found { IfOk result (λ found. IfSome found (λ found. AllZip
        (λ (prefix : KindDigits) one. L.finds look_up.now store.old prefix.digits one)
        prefixes.now found.items)) }
    ensures several { IfOk result (λ found. IfNone found (1 < length prefixes.now)) }
    ensures more { IfOk result (λ found. IfNone found (HaveMore
        (L.finds look_up.now store.old) L.size most prefixes.now)) }
    ensures few { IfOk result (λ found. IfSome found (λ found. 1 < length prefixes.now
        → sum_by L.size found.items ≤ most)) }
    ensures err { IfErr result (IsOfOne (L.fails look_up.now (S.view store.old))
        prefixes.now) }
{
    let places = in_order(alloc, prefixes)?;
    let mut found = placeholders(alloc, prefixes, look_up)?;
    let mut room = most;
    // Each return gives the store back: the contract of that call says that it is as it was.
    let mut parts = Parts::for_many(alloc, store, prefixes.len());
    for place in 0..places.len() {
        let at = places[place].1;
        let one = match look_up.look_up(&mut parts, &prefixes[at]) {
            Ok(one) => one,
            Err(error) => {
                let _store = parts.into_store();
                return Err(error);
            }
        };
        match look_up.left(&one, room) {
            Some(left) => room = left,
            None if prefixes.len() > 1 => {
                let _store = parts.into_store();
                return Ok(None);
            }
            None => {}
        }
        found[at] = one;
    }
    let _store = parts.into_store();
    Ok(Some(found))
}

// Makes a placeholder for each prefix, in the place of what is not found yet.
fn placeholders<S: Store, A: Allocator + Copy, L: LookUp<S, A>>(
    alloc: A,
    prefixes: &[Prefix],
    look_up: &L,
) -> Result<Vec<L::Found, A>, AllocError>
    ensures len { IfOk result (λ found. length found.items ≡ length prefixes.now) }
    ensures empty { IfOk result (λ found. sum_by L.size found.items ≡ 0) }
{
    let mut found = Vec::with_capacity(alloc, prefixes.len())?;
    for _at in 0..prefixes.len() {
        found.push(look_up.placeholder(alloc))?;
    }
    Ok(found)
}

// The positions of prefixes, each after a key, sorted by the keys. So prefixes with one first byte
// follow each other, and the search for each begins near where it ends.
fn in_order<A: Allocator>(alloc: A, prefixes: &[Prefix]) -> Result<Vec<(u64, usize), A>, AllocError>
    ensures { IfOk result (λ places. ArePlaces (length prefixes.now) places.items) }
{
    let mut places = Vec::with_capacity(alloc, prefixes.len())?;
    for at in 0..prefixes.len() {
        places.push((key_of(&prefixes[at]), at))?;
    }
    places.sort_unstable();
    Ok(places)
}

// The first 14 digits of a prefix as a number, with zeros after the prefix's digits, and then how
// many digits the prefix has. So prefixes with the same first digits follow each other.
fn key_of(prefix: &Prefix) -> u64 {
    match prefix.as_oid().as_bytes().first_chunk() {
        Some(bytes) => u64::from_be_bytes(*bytes) & !0xff | prefix.hex_len() as u64,
        None => 0,
    }
}

/// The kind of look-up that [`look_up_each`] makes for each prefix.
///
/// ```
/// let matching = Matching { limit: None };
/// let found = look_up_each(rt.alloc(), &mut store, &prefixes, 65_536, &matching)?;
/// let located = Locating { limit: Some(2) };
/// let located = look_up_each(rt.alloc(), &mut store, &prefixes, 65_536, &located)?;
/// let abbreviated = Abbreviating { least: 7 };
/// let abbreviated = look_up_each(rt.alloc(), &mut store, &prefixes, 65_536, &abbreviated)?;
/// ```
pub trait LookUp<S: Store, A: Allocator + Copy> {
    /// What is found for a prefix.
    type Found: Drop;

    /// What the look-up requires of a store.
    ghost fits: { Self → StoreView → Type 0 };

    /// What is found in a store for a prefix of these digits.
    ghost finds: { Self → S → List ℕ → Self.Found → Type 0 };

    /// Why the look-up of a prefix of these digits fails.
    ghost fails: { Self → StoreView → List ℕ → StoreError → Type 0 };

    /// How much was found, as it counts against the most that [`look_up_each`] returns.
    ghost size: { Self.Found → ℕ };

    /// Makes what stands in the place of a result that is not found yet, and counts as 0.
    fn placeholder(&self, alloc: A) -> Self::Found
        ensures { size result ≡ 0 };

    /// Looks up a prefix, which must have 2 digits or more and the store's kind, with a cursor. The
    /// loose objects with the prefix's first byte must be listed. Each kind of look-up says what
    /// its errors are. Clauses see no change of the store.
    fn look_up(&self, parts: &mut Parts<'_, S, A>, prefix: &Prefix) -> Result<Self::Found, Error>
        requires fits { fits self.now (S.view parts.old.now) }
        requires can { CanLookUp (S.view parts.old.now) prefix.now }
        ensures store { parts.new ≡ parts.old }
        ensures found { IfOk result (finds self.now parts.old.now prefix.now.digits) }
        ensures err { IfErr result (fails self.now (S.view parts.old.now)
            prefix.now.digits) };

    /// Returns how much of `room` is left after what was found, or `None` if more was found than
    /// `room`.
    fn left(&self, found: &Self::Found, room: usize) -> Option<usize>
        ensures { SomeIff result (size found.now ≤ room) (room - size found.now) };
}

/// Looks up the ids that begin with a prefix, each once, in order, as [`lookup_prefix`] does. Each
/// id counts as 1.
#[derive(Drop)]
pub struct Matching {
    /// How many ids of a prefix are returned at most, from the first on, or `None` for all of them.
    pub limit: Option<usize>,
}

/// Looks up the ids that begin with a prefix, with their locations, as [`Parts::locate_prefix`]
/// does. Each location counts as 1.
#[derive(Drop)]
pub struct Locating {
    /// How many ids of a prefix are located at most, from the first on, or `None` for all of them.
    pub limit: Option<usize>,
}

impl<S: StorePaths, A: Allocator + Copy> LookUp<S, A> for Locating {
    type Found = Vec<LocatedId<A>, A>;

    ghost fits = { λ _ _. Unit {0} };

    ghost finds = { λ it store digits located.
        AreLocated it.limit (S.view store) (S.loose_paths store) digits located.items };

    ghost fails = { λ it view digits error. IsLocationsFault it.limit view digits error };

    ghost size = { λ ids. location_count ids };

    fn placeholder(&self, alloc: A) -> Vec<LocatedId<A>, A> {
        Vec::new(alloc)
    }

    fn look_up(
        &self,
        parts: &mut Parts<'_, S, A>,
        prefix: &Prefix,
    ) -> Result<Vec<LocatedId<A>, A>, Error> {
        parts.locate_prefix(prefix, self.limit)
    }

    fn left(&self, ids: &Vec<LocatedId<A>, A>, room: usize) -> Option<usize> {
        let mut left = room;
        for located in ids {
            left = left.checked_sub(located.locations.len())?;
        }
        Some(left)
    }
}

/// Looks up the abbreviation of the only id that begins with a prefix, as
/// [`Parts::abbreviate_prefix`] does. A prefix counts as 1 if an id begins with it, and else as 0.
#[derive(Drop)]
pub struct Abbreviating {
    /// The smallest number of digits of an abbreviation, from 4 up to the number of digits of an
    /// id, which is 40 or 64 by the kind.
    pub least: usize,
}

impl<S: Store, A: Allocator + Copy> LookUp<S, A> for Abbreviating {
    type Found = Abbreviation;

    ghost fits = { λ it view. (4 ≤ it.least) × (it.least ≤ hex_len_of view.kind) };

    ghost finds = { λ it store digits found. IsAbbreviated it.least (S.view store) digits found };

    ghost fails = { λ _ view digits error. IsStoreFault view (first_byte_of digits) error };

    ghost size = { λ found. id_count found };

    fn placeholder(&self, _alloc: A) -> Abbreviation {
        Abbreviation::Missing
    }

    fn look_up(&self, parts: &mut Parts<'_, S, A>, prefix: &Prefix) -> Result<Abbreviation, Error> {
        parts.abbreviate_prefix(prefix, self.least)
    }

    fn left(&self, found: &Abbreviation, room: usize) -> Option<usize> {
        match found {
            Abbreviation::Missing => Some(room),
            Abbreviation::Ambiguous | Abbreviation::Unique(_) => room.checked_sub(1),
        }
    }
}

/// The ids of a store with a first byte, each once, in order, with their abbreviations in the whole
/// store, of at least `least` digits. `least` must be from 4 up to the number of digits of an id,
/// which is 40 or 64 by the kind. The loose objects with this byte must be listed.
///
/// No other id of the store begins with an abbreviation, and each abbreviation is as short as that
/// and `least` allow. The calls for all 256 bytes, one after the other, return all ids of the store
/// in order. The error is that of reading the ids with this first byte, or that memory ran out.
/// Clauses see no change of the store.
///
/// ```
/// for byte in 0..=255 {
///     let abbreviated = abbreviate_part(rt.alloc(), &mut store, byte, 4)?;
///     println!(rt; "{} ids", abbreviated.len())?;
/// }
/// ```
pub fn abbreviate_part<S: Store, A: Allocator + Copy>(
    alloc: A,
    store: &mut S,
    byte: u8,
    least: usize,
) -> Result<Vec<AbbreviatedId, A>, Error>
    requires listed { IsListed (S.view store.old) byte }
    requires enough { 4 ≤ least }
    requires fits { least ≤ hex_len_of (S.view store.old).kind }
    ensures same { store.new ≡ store.old }
    ensures abbreviated { IfOk result (λ abbreviated. AreAbbreviated least (S.view store.old) byte
        abbreviated.items) }
    ensures err { IfErr result (IsStoreFault (S.view store.old) byte) }
{
    let kind = store.object_hash();
    let ids = lookup_prefix(alloc, store, &two_digits(kind, byte))?;
    Ok(with_abbreviations(alloc, &ids, kind, least)?)
}

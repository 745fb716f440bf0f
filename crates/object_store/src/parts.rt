//! A cursor over the parts of a store, and what it finds in a part.

ghost use Rattle.std.specs.Prelude.{◌≡◌, ◌⊎◌, ◌≤◌, ◌/◌, ◌%◌, ◌++◌, [], ◌∷◌, All, IfErr, IfOk, IsTrue, OnOk, flat_map, length, map, nat_eq, take, true};
ghost use Rattle.std.specs.List.{starts_with};
ghost use Rattle.id_lookup.specs.Words.{first_byte_of, hex_len_of, id_digits, id_kind, matches};
ghost use Rattle.object_store.specs.Several.{AreFirstMatches, AreLocated, IsAbbreviated, IsLocationsFault, limited_to};
ghost use Rattle.object_store.specs.Stores.{AreLocations, AreMatches, AreParts, CanLookUp, HaveBuckets, IsAbbreviationOf, IsListed, IsLocateFault, IsStoreFault};
ghost use Rattle.pack_index.specs.Lazy.{BucketIds};

use crate::abbreviations::{Abbreviation, abbreviation_in};
use crate::error::Error;
use crate::locations::{LocatedId, Location, locate_in};
use crate::look_ups::{LookUp, Matching};
use crate::store::{Store, StorePaths, beginning_with};
use gix_hash::{Kind, ObjectId, Prefix};
use id_lookup::sort_unique;
use pack_index::Bucket;
use std::alloc::{AllocError, Allocator};
use std::marker::Model;

// Several look-ups read all ids of a pack index with a first byte if they are at most this many,
// and do not search them. A single one always searches ids that were found in order before.
const FEW_IDS: usize = 32;

// Ids that are kept to look up the first ids of prefixes have this many first digits in common, or
// as many as the prefix has. Several prefixes are looked up in the order of these digits.
const FRONT_DIGITS: usize = 14;

/// A cursor over a store. It holds a part of the store's ids: all with one first byte, or some of
/// them, among which are all that begin with a prefix. It reads another part when something that is
/// not in this one is looked up. So look-ups in sorted order read each part once, and the cursor
/// holds memory for one part at a time. It also keeps the ids among which it has looked for an
/// abbreviation, or for the first ids of a prefix, until it looks among others.
///
/// ```
/// let mut parts = Parts::new(rt.alloc(), &mut store);
/// for id in parts.lookup_prefix(&prefix)?.iter() {
///     println!(rt; "{id}: {} locations", parts.locate(id)?.len())?;
/// }
/// ```
#[derive(Drop)]
pub struct Parts<'s, S: Store, A: Allocator> {
    alloc: A,
    store: &'s mut S,
    // All ids of a pack index with a first byte are read if they are at most this many.
    few: usize,
    // The part that was read last.
    part: Option<Part<A>>,
    // The ids among which an abbreviation, or the first ids of a prefix, were looked up last.
    front: Option<Front<A>>,
}

// Ids of pack indexes, among which are all that begin with a prefix.
#[derive(Drop)]
struct Part<A: Allocator> {
    prefix: Prefix,
    // The ids of each pack index.
    buckets: Vec<Bucket<A>, A>,
}

// The ids that begin with a prefix.
#[derive(Drop)]
struct Front<A: Allocator> {
    prefix: Prefix,
    ids: Vec<ObjectId, A>,
}

impl<'s, S: Store, A: Allocator> Model for Parts<'s, S, A> {
    ghost use Rattle.std.specs.Borrow.{MutBor};
    ghost use Rattle.std.specs.Option.{ForSome};
    ghost use Rattle.object_store.specs.Stores.{AreMatches, AreParts};

    ghost Value = { MutBor S };

    ghost view = { λ parts. parts.store };

    ghost invariant = { λ parts. ForSome parts.part (λ part.
        AreParts (S.view parts.store.now) part.prefix.digits part.buckets.items)
        × ForSome parts.front (λ front.
        AreMatches (S.view parts.store.now) front.prefix.digits front.ids.items) };
}

impl<'s, S: Store, A: Allocator + Copy> Parts<'s, S, A> {
    /// Makes a cursor over a store. It has read nothing yet.
    pub fn new(alloc: A, store: &'s mut S) -> Parts<'s, S, A>
        ensures { result ≡ store.entry }
    {
        Parts::for_many(alloc, store, 1)
    }

    // Makes a cursor for about `count` look-ups. The more look-ups there are, the more ids are read
    // at once for those that follow.
    pub(crate) fn for_many(alloc: A, store: &'s mut S, count: usize) -> Parts<'s, S, A>
        ensures { result ≡ store.entry }
    {
        Parts {
            alloc,
            store,
            few: if count > 1 {
                FEW_IDS * (1 + count / 256)
            } else {
                0
            },
            part: None,
            front: None,
        }
    }

    /// Returns the store, as it was.
    pub fn into_store(self) -> &'s mut S
        ensures { result ≡ self.entry }
    {
        let Parts { store, .. } = self;
        store
    }

    // The store.
    fn store(&self) -> &S
        ensures { result.now ≡ self.now.now }
    {
        &*self.store
    }

    /// The ids of the store that begin with a prefix, each once, in order.
    ///
    /// The prefix must have 2 digits or more, and the store's kind. The loose objects with its
    /// first byte must be listed. The error is that of reading the ids with the prefix's first
    /// byte, or that memory ran out. Clauses see no change of the store.
    pub fn lookup_prefix(&mut self, prefix: &Prefix) -> Result<Vec<ObjectId, A>, Error>
        requires { CanLookUp (S.view self.old.now) prefix.now }
        ensures store { self.new ≡ self.old }
        ensures matches { IfOk result (λ ids. AreMatches (S.view self.old.now)
            prefix.now.digits ids.items) }
        ensures err { IfErr result (IsStoreFault (S.view self.old.now)
            (first_byte_of prefix.now.digits)) }
    {
        let part = self.take_part(prefix)?;
        let ids = matches_in(self.alloc, &*self.store, &part.buckets, prefix);
        self.part = Some(part);
        Ok(ids?)
    }

    /// The abbreviation of an id in the store, of at least `least` digits, or `None` if the store
    /// does not have the id.
    ///
    /// `least` must be from 4 up to the number of digits of an id, which is 40 or 64 by the kind.
    /// The id must have the store's kind, and the loose objects with its first byte must be listed.
    /// The error is that of reading the ids with the id's first byte, or that memory ran out.
    /// Clauses see no change of the store.
    pub fn abbreviate(&mut self, id: &ObjectId, least: usize) -> Result<Option<Prefix>, Error>
        requires kind { id_kind id.now ≡ (S.view self.old.now).kind }
        requires listed { IsListed (S.view self.old.now) (first_byte_of (id_digits id.now)) }
        requires enough { 4 ≤ least }
        requires fits { least ≤ hex_len_of (S.view self.old.now).kind }
        ensures store { self.new ≡ self.old }
        ensures abbreviation { IfOk result (IsAbbreviationOf least (S.view self.old.now)
            (id_digits id.now)) }
        ensures err { IfErr result (IsStoreFault (S.view self.old.now)
            (first_byte_of (id_digits id.now))) }
    {
        // The contract of this call says how many digits the id has.
        let _kind = id.kind();
        match self.abbreviate_prefix(&Prefix::from(*id), least)? {
            Abbreviation::Unique(abbreviated) => Ok(Some(abbreviated.abbreviation)),
            Abbreviation::Missing | Abbreviation::Ambiguous => Ok(None),
        }
    }

    /// The abbreviation of the only id in the store that begins with a prefix, of at least `least`
    /// digits, or whether no id or more than one begins with it.
    ///
    /// `least` must be from 4 up to the number of digits of an id, which is 40 or 64 by the kind.
    /// The prefix must have 2 digits or more, and the store's kind. The loose objects with its
    /// first byte must be listed. The error is that of reading the ids with the prefix's first
    /// byte, or that memory ran out. Clauses see no change of the store.
    pub fn abbreviate_prefix(
        &mut self,
        prefix: &Prefix,
        least: usize,
    ) -> Result<Abbreviation, Error>
        requires can { CanLookUp (S.view self.old.now) prefix.now }
        requires enough { 4 ≤ least }
        requires fits { least ≤ hex_len_of (S.view self.old.now).kind }
        ensures store { self.new ≡ self.old }
        ensures abbreviation { IfOk result (IsAbbreviated least (S.view self.old.now)
            prefix.now.digits) }
        ensures err { IfErr result (IsStoreFault (S.view self.old.now)
            (first_byte_of prefix.now.digits)) }
    {
        let front = self.take_front(front_of(prefix, least))?;
        let found = abbreviation_in(&front.ids, prefix, least);
        self.front = Some(front);
        Ok(found)
    }

    // Takes the ids that begin with a prefix out of the cursor if it keeps them, and else looks
    // them up.
    fn take_front(&mut self, prefix: Prefix) -> Result<Front<A>, Error>
        requires { CanLookUp (S.view self.old.now) prefix }
        ensures store { self.new ≡ self.old }
        ensures prefix { IfOk result (λ front. front.prefix.digits ≡ prefix.digits) }
        ensures matches { IfOk result (λ front. AreMatches (S.view self.old.now)
            prefix.digits front.ids.items) }
        ensures err { IfErr result (IsStoreFault (S.view self.old.now)
            (first_byte_of prefix.digits)) }
    {
        if let Some(last) = self.front.take() {
            if last.prefix == prefix {
                return Ok(last);
            }
        }
        let ids = self.lookup_prefix(&prefix)?;
        Ok(Front { prefix, ids })
    }

    /// All locations of an object: one in each pack whose index has its id, in the order of
    /// [`Store::indexes`], and last [`Location::Loose`] if it is a loose object.
    ///
    /// The id must have the store's kind, and the loose objects with its first byte must be listed.
    /// If a pack index has the id more than once, the offset is that of its first entry. Offsets
    /// are read after the ids with this first byte were read from all pack indexes. The error is
    /// that of reading these ids or an offset, or that memory ran out. Clauses see no change of the
    /// store.
    pub fn locate(&mut self, id: &ObjectId) -> Result<Vec<Location, A>, Error>
        requires kind { id_kind id.now ≡ (S.view self.old.now).kind }
        requires listed { IsListed (S.view self.old.now) (first_byte_of (id_digits id.now)) }
        ensures store { self.new ≡ self.old }
        ensures locations { IfOk result (λ locations. AreLocations (S.view self.old.now)
            (id_digits id.now) locations.items) }
        ensures err { IfErr result (λ e.
            IsStoreFault (S.view self.old.now) (first_byte_of (id_digits id.now)) e
            ⊎ (HaveBuckets (S.view self.old.now) (first_byte_of (id_digits id.now))
            × IsLocateFault (S.view self.old.now) (id_digits id.now) e)) }
    {
        // The contract of this call says how many digits the id has.
        let _kind = id.kind();
        let part = self.take_part(&Prefix::from(*id))?;
        let locations = locate_in(self.alloc, &*self.store, &part.buckets, id);
        self.part = Some(part);
        locations
    }

    // Takes ids of the pack indexes, among which are all that begin with a prefix, out of the
    // cursor if it holds such ids, and else reads them.
    #[inline(always)]
    fn take_part(&mut self, prefix: &Prefix) -> Result<Part<A>, Error>
        requires enough { 2 ≤ length prefix.now.digits }
        requires kind { prefix.now.kind ≡ (S.view self.old.now).kind }
        ensures store { self.new ≡ self.old }
        ensures kept { IfOk result (λ part. AreParts (S.view self.old.now)
            part.prefix.digits part.buckets.items) }
        ensures read { IfOk result (λ part. AreParts (S.view self.old.now)
            prefix.now.digits part.buckets.items) }
        ensures err { IfErr result (IsStoreFault (S.view self.old.now)
            (first_byte_of prefix.now.digits)) }
    {
        if let Some(last) = self.part.take() {
            if begins_with(prefix, &last.prefix) {
                return Ok(last);
            }
        }
        let read = prefix_to_read(&*self.store, prefix, self.few);
        Ok(Part {
            prefix: read,
            buckets: read_parts(self.alloc, self.store, &read, self.few)?,
        })
    }
}

impl<'s, S: StorePaths, A: Allocator + Copy> Parts<'s, S, A> {
    /// The ids of the store that begin with a prefix, each once, in order, with their locations:
    /// the first `limit` ids, or all of them if `limit` is `None`. A limit of 2 ids is enough to
    /// see whether there is exactly one.
    ///
    /// The prefix must have 2 digits or more, and the store's kind. The loose objects with its
    /// first byte must be listed. The error is that of reading the ids with the prefix's first
    /// byte, or the offset of an id that is located, or that memory ran out. Clauses see no change
    /// of the store.
    pub fn locate_prefix(
        &mut self,
        prefix: &Prefix,
        limit: Option<usize>,
    ) -> Result<Vec<LocatedId<A>, A>, Error>
        requires { CanLookUp (S.view self.old.now) prefix.now }
        ensures store { self.new ≡ self.old }
        ensures located { IfOk result (λ located. AreLocated limit (S.view self.old.now)
            (S.loose_paths self.old.now) prefix.now.digits located.items) }
        ensures err { IfErr result (IsLocationsFault limit (S.view self.old.now)
            prefix.now.digits) }
    {
        let first = Matching { limit }.look_up(self, prefix)?;
        let mut located = Vec::with_capacity(self.alloc, first.len())?;
        for id in &first {
            let locations = self.locate(id)?;
            let loose_paths = self.store().loose_paths(id)?;
            let one = LocatedId {
                id: *id,
                locations,
                loose_paths,
            };
            push(&mut located, one)?;
        }
        Ok(located)
    }
}

impl<S: Store, A: Allocator + Copy> LookUp<S, A> for Matching {
    type Found = Vec<ObjectId, A>;

    ghost fits = { λ _ _. Unit {0} };

    ghost finds = { λ it store digits ids. AreFirstMatches it.limit (S.view store) digits ids };

    ghost fails = { λ _ view digits error. IsStoreFault view (first_byte_of digits) error };

    ghost size = { λ ids. length ids.items };

    fn placeholder(&self, alloc: A) -> Vec<ObjectId, A> {
        Vec::new(alloc)
    }

    fn look_up(
        &self,
        parts: &mut Parts<'_, S, A>,
        prefix: &Prefix,
    ) -> Result<Vec<ObjectId, A>, Error> {
        let Some(_) = self.limit else {
            return parts.lookup_prefix(prefix);
        };
        // The contract of this call says how many digits the prefix has at most.
        let _hex_len = prefix.hex_len();
        // Up to a limit they are found by binary search among all with the same first digits.
        let front = parts.take_front(front_of(prefix, FRONT_DIGITS))?;
        let first = limited_to(beginning_with(&front.ids, prefix), self.limit).to_vec(parts.alloc);
        parts.front = Some(front);
        Ok(first?)
    }

    fn left(&self, ids: &Vec<ObjectId, A>, room: usize) -> Option<usize> {
        room.checked_sub(ids.len())
    }
}

// Whether a prefix begins with all digits of another.
#[inline(always)]
fn begins_with(prefix: &Prefix, front: &Prefix) -> bool
    ensures { IsTrue result → starts_with nat_eq prefix.now.digits front.now.digits ≡ true }
{
    front.hex_len() <= prefix.hex_len() && front.cmp_oid(prefix.as_oid()).is_eq()
}

// The prefix for which ids are read to look a prefix up. It is the same prefix if a pack index
// reads only some of its ids with the first byte. Otherwise it is the two digits of this byte,
// since all ids with this byte serve the next look-up too.
fn prefix_to_read<S: Store>(store: &S, prefix: &Prefix, few: usize) -> Prefix
    requires { 2 ≤ length prefix.now.digits }
    ensures kind { result.kind ≡ prefix.now.kind }
    ensures enough { 2 ≤ length result.digits }
    ensures begins { starts_with nat_eq prefix.now.digits result.digits ≡ true }
{
    if prefix.hex_len() == 2 {
        return *prefix;
    }
    let byte = prefix.first_byte();
    // All are asked, even after one that reads a part: what the search needs of each of them is
    // then in the processor's cache, which loads it for several at once here.
    let mut reads_part = false;
    for index in store.indexes() {
        reads_part |= index.reads_part(byte, few);
    }
    if reads_part {
        return *prefix;
    }
    two_digits(prefix.as_oid().kind(), byte)
}

// Reads ids of the pack indexes, among which are all that begin with a prefix. The error is that of
// the first pack index that cannot be read, is damaged where it is read, or for whose ids there is
// no memory.
fn read_parts<S: Store, A: Allocator + Copy>(
    alloc: A,
    store: &mut S,
    prefix: &Prefix,
    few: usize,
) -> Result<Vec<Bucket<A>, A>, Error>
    requires enough { 2 ≤ length prefix.now.digits }
    requires kind { prefix.now.kind ≡ (S.view store.old).kind }
    ensures same { store.new ≡ store.old }
    ensures read { IfOk result (λ buckets. AreParts (S.view store.old) prefix.now.digits
        buckets.items) }
    ensures err { IfErr result (IsStoreFault (S.view store.old)
        (first_byte_of prefix.now.digits)) }
{
    // The contract of this call says how many digits the prefix has at most.
    let _hex_len = prefix.hex_len();
    let packs = store.indexes().len();
    let mut buckets = Vec::with_capacity(alloc, packs)?;
    for at in 0..packs {
        match store.part(alloc, at, prefix, few) {
            Ok(bucket) => push(&mut buckets, bucket)?,
            Err(error) => return Err(Error::of_index(store.index_path(at)?, error)),
        }
    }
    Ok(buckets)
}

// The ids of a store that begin with a prefix. Those in packs are all among the ids in the buckets.
fn matches_in<S: Store, A: Allocator + Copy>(
    alloc: A,
    store: &S,
    buckets: &[Bucket<A>],
    prefix: &Prefix,
) -> Result<Vec<ObjectId, A>, AllocError>
    requires buckets { AreParts (S.view store.now) prefix.now.digits buckets.now }
    requires kind { prefix.now.kind ≡ (S.view store.now).kind }
    ensures { IfOk result (λ ids. AreMatches (S.view store.now) prefix.now.digits ids.items) }
{
    // The contracts of these calls say how many digits the prefix has at most, and that the pack
    // indexes have the store's kind.
    let _hex_len = prefix.hex_len();
    let _packs = store.indexes();
    let kind = store.object_hash();
    let mut ids = Vec::new(alloc);
    push_packed(&mut ids, buckets, kind, prefix)?;
    push_all(&mut ids, store.loose().beginning_with(prefix), kind)?;
    sort_unique(&mut ids);
    Ok(ids)
}

// Adds the ids in buckets that begin with a prefix. The buckets are of the kind.
fn push_packed<A: Allocator>(
    ids: &mut Vec<ObjectId, A>,
    buckets: &[Bucket<A>],
    kind: Kind,
    prefix: &Prefix,
) -> Result<(), AllocError>
    requires fits { length prefix.now.digits ≤ hex_len_of kind }
    requires kinds { All (λ (bucket : BucketIds). bucket.kind ≡ kind) buckets.now }
    ensures digits { OnOk result (map id_digits ids.new.items ≡ map id_digits ids.old.items
        ++ flat_map (λ (bucket : BucketIds). matches prefix.now.digits bucket.ids)
        buckets.now) }
    ensures kinds { OnOk result (All (λ id. id_kind id ≡ kind) ids.old.items
        → All (λ id. id_kind id ≡ kind) ids.new.items) }
{
    for bucket in buckets {
        bucket.push_matches(prefix, ids)?;
    }
    Ok(())
}

// Adds more ids, which are of the kind.
fn push_all<A: Allocator>(
    ids: &mut Vec<ObjectId, A>,
    more: &[ObjectId],
    kind: Kind,
) -> Result<(), AllocError>
    requires { All (λ id. id_kind id ≡ kind) more.now }
    ensures digits { OnOk result (map id_digits ids.new.items
        ≡ map id_digits ids.old.items ++ map id_digits more.now) }
    ensures kinds { OnOk result (All (λ id. id_kind id ≡ kind) ids.old.items
        → All (λ id. id_kind id ≡ kind) ids.new.items) }
{
    Ok(ids.extend_from_slice(more)?)
}

// The first ids of a list, at most as many as the limit, or all if there is no limit.
fn limited_to(ids: &[ObjectId], limit: Option<usize>) -> &[ObjectId]
    ensures { result.now ≡ limited_to limit ids.now }
{
    match limit {
        Some(limit) => &ids[..limit.min(ids.len())],
        None => ids,
    }
}

// Adds an item to a list.
pub(crate) fn push<T: Drop, A: Allocator>(items: &mut Vec<T, A>, item: T) -> Result<(), AllocError>
    ensures { OnOk result (items.new.items ≡ items.old.items ++ item ∷ []) }
{
    Ok(items.push(item)?)
}

// The two digits of a first byte as a prefix of the kind. All ids with this byte begin with it.
pub(crate) fn two_digits(kind: Kind, byte: u8) -> Prefix
    ensures kind { result.kind ≡ kind }
    ensures digits { result.digits ≡ byte / 16 ∷ byte % 16 ∷ [] }
    ensures byte { first_byte_of result.digits ≡ byte }
{
    Prefix::from_packed_digits(kind, &[byte], 2).unwrap()
}

// The first `least` digits of a prefix, or all if it has fewer.
fn front_of(prefix: &Prefix, least: usize) -> Prefix
    requires { 4 ≤ least }
    ensures kind { result.kind ≡ prefix.now.kind }
    ensures digits { result.digits ≡ take least prefix.now.digits }
{
    if prefix.hex_len() <= least {
        return *prefix;
    }
    Prefix::new(prefix.as_oid(), least).unwrap()
}

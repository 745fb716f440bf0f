//! The object store that a look-up reads, and the table of its loose ids.

ghost use Rattle.std.specs.Prelude.{◌≡◌, ◌<◌, ◌≤◌, ◌↔◌, All, Contains, IsTrue, length, map};
ghost use Rattle.id_lookup.specs.Words.{IsIndex, IsIndexOf, Kind, hex_len_of, id_digits, id_kind, matches};

use gix_hash::{Kind, ObjectId, Prefix};
use id_lookup::{find_assuming_sorted, sort_unique};
use pack_index::{Bucket, LazyError, LazyFile};
use std::alloc::{AllocError, Allocator};
use std::marker::Model;
use streams::ReadAt;

/// A snapshot of an object store: pack indexes and loose objects, whose ids are of one kind. What
/// it has was listed when it was opened, so a look-up lists nothing.
///
/// ```
/// for (at, pack) in store.indexes().iter().enumerate() {
///     println!(rt; "{}: {} ids", store.index_path(at)?, pack.num_objects())?;
/// }
/// println!(rt; "{} loose ids", store.loose().ids().len())?;
/// ```
pub trait Store {
    ghost use Rattle.std.specs.Prelude.{◌≡◌, ◌<◌, ◌≤◌, [], All, IfErr, IfOk, length, map, slice_index_or, string_bytes};
    ghost use Rattle.id_lookup.specs.Words.{first_byte_of, hex_len_of};
    ghost use Rattle.object_store.specs.Stores.{StoreView};
    ghost use Rattle.std.specs.Option.{ForSome};
    ghost use Rattle.pack_index.specs.Lazy.{IndexView, IsBucketFault, IsPartOf, seen};

    /// The source from which the bytes of a pack index are read.
    type Source: ReadAt + Drop;

    /// What the store has: the kind of all ids, the pack indexes, their paths, and the ids of the
    /// loose objects, of all or of those with one first byte.
    ghost view: { Self → StoreView };

    /// The kind of all ids.
    fn object_hash(&self) -> Kind
        ensures { result ≡ (view self.now).kind };

    /// The pack indexes, which are all of the store's kind.
    fn indexes(&self) -> &[LazyFile<Self::Source>]
        ensures value { map seen result.now ≡ (view self.now).packs }
        ensures kinds { All (λ pack. pack.kind ≡ (view self.now).kind) (view self.now).packs };

    /// Calls [`LazyFile::part`] of the pack index at a position among [`Store::indexes`], from 0.
    /// The prefix must have 2 digits or more, and at most as many as an id of the store's kind. The
    /// errors are those of that call, and clauses see no change of the store.
    fn part<A: Allocator>(
        &mut self,
        alloc: A,
        at: usize,
        prefix: &Prefix,
        few: usize,
    ) -> Result<Bucket<A>, LazyError>
        requires at { at < length (view self.old).packs }
        requires fits { length prefix.now.digits ≤ hex_len_of (view self.old).kind }
        requires enough { 2 ≤ length prefix.now.digits }
        ensures same { self.new ≡ self.old }
        ensures part { IfOk result (λ part. (default : IndexView)
            → IsPartOf (slice_index_or (view self.old).packs at default) prefix.now.digits part) }
        ensures err { IfErr result (λ e. (default : IndexView)
            → let pack = slice_index_or (view self.old).packs at default in
            ForSome pack.tables (λ tables. IsBucketFault pack.can_fail tables
            (first_byte_of prefix.now.digits) e)) };

    /// The path of the pack index at a position among [`Store::indexes`], from 0, as errors give
    /// it. The only error is that memory ran out.
    fn index_path(&self, at: usize) -> Result<String, AllocError>
        ensures { IfOk result (λ path. string_bytes path
            ≡ slice_index_or (view self.now).paths at []) };

    /// The ids of the loose objects that were listed.
    fn loose(&self) -> &LooseTable
        ensures { result.now
            ≡ record { kind = (view self.now).kind; ids = (view self.now).loose } };
}

/// A store whose packs and loose objects have paths.
///
/// ```
/// println!(rt; "{}", store.pack_path(0))?;
/// for path in &store.loose_paths(&id)? {
///     println!(rt; "{path}")?;
/// }
/// ```
pub trait StorePaths: Store {
    ghost use Rattle.std.specs.Prelude.{◌≡◌, ℕ, IfOk, List, map, string_bytes};
    ghost use Rattle.id_lookup.specs.Words.{id_digits};

    /// The path of each pack, by the position of its pack index.
    ghost pack_path: { Self → ℕ → List ℕ };

    /// The paths of the files of each loose object, by the digits of its id.
    ghost loose_paths: { Self → List ℕ → List (List ℕ) };

    /// The path of the pack whose pack index is at a position among [`Store::indexes`], from 0.
    fn pack_path(&self, pack: usize) -> &str
        ensures { result.now ≡ pack_path self.now pack };

    /// The paths of the files of a loose object, of which there are none if the object is not
    /// loose. The only error is that memory ran out.
    fn loose_paths(&self, id: &ObjectId) -> Result<Vec<String>, AllocError>
        ensures { IfOk result (λ paths. map string_bytes paths.items
            ≡ loose_paths self.now (id_digits id.now)) };
}

/// A store that can be opened again, with what is there at that time, after a pack index that it
/// has listed is gone.
///
/// ```
/// let found = lookup_prefix(rt.alloc(), &mut store, &prefix);
/// if matches!(&found, Err(Error::Gone { .. })) && store.reopen() {
///     println!(rt; "{} pack indexes", store.indexes().len())?;
/// }
/// ```
pub trait Reopen: Store {
    ghost use Rattle.std.specs.Prelude.{◌≡◌, false};
    ghost use Rattle.object_store.specs.Stores.{IsReopened, StoreView};

    /// What a store has, or had since it was the first of the two, before it was opened again.
    ghost had: { Self → Self → StoreView → Type 0 };

    /// Opens the store again, and returns whether that was possible; if it was not, the store has
    /// what it had. The kind stays the same. Loose objects are listed for all first bytes, or for
    /// the same one, as before.
    fn reopen(&mut self) -> bool
        ensures reopened { IsReopened had Self.view self.old self.new }
        ensures failed { result ≡ false → Self.view self.new ≡ Self.view self.old };
}

/// A table of the ids of loose objects, each once, in order. It finds the ids that begin with a
/// prefix, and a single id, by binary search.
///
/// ```
/// let loose = LooseTable::new(vec![in rt.alloc(); id]?, id.kind());
/// if loose.contains(&expected) {
///     println!(rt; "{expected} is a loose object")?;
/// }
/// ```
#[derive(Drop)]
pub struct LooseTable {
    kind: Kind,
    ids: Vec<ObjectId>,
}

impl Model for LooseTable {
    ghost use Rattle.std.specs.Prelude.{◌≡◌, All, map};
    ghost use Rattle.id_lookup.specs.Words.{AreIdDigits, Index, IsIndex, id_digits, id_kind};

    ghost Value = { Index };

    ghost view = { λ table. record { kind = table.kind; ids = map id_digits table.ids.items } };

    ghost invariant = { λ table. IsIndex table.kind (map id_digits table.ids.items)
        × All (AreIdDigits table.kind) (map id_digits table.ids.items)
        × All (λ id. id_kind id ≡ table.kind) table.ids.items };
}

impl LooseTable {
    /// Makes a table of the ids of a list, which may be in any order, and each more than once. All
    /// of them must be of the kind.
    pub fn new(mut ids: Vec<ObjectId>, kind: Kind) -> LooseTable
        requires { All (λ id. id_kind id ≡ kind) ids.items }
        ensures kind { result.kind ≡ kind }
        ensures index { IsIndexOf kind (map id_digits ids.items) result.ids }
    {
        sort_unique(&mut ids);
        LooseTable { kind, ids }
    }

    /// All ids, in order.
    pub fn ids(&self) -> &[ObjectId]
        ensures ids { map id_digits result.now ≡ self.now.ids }
        ensures kinds { All (λ id. id_kind id ≡ self.now.kind) result.now }
        ensures digits { All (λ id. All (λ d. d < 16) id) self.now.ids }
    {
        &self.ids
    }

    /// The ids that begin with a prefix, in order. The prefix must have at most as many digits as
    /// an id of the table's kind.
    pub fn beginning_with(&self, prefix: &Prefix) -> &[ObjectId]
        requires { length prefix.now.digits ≤ hex_len_of self.now.kind }
        ensures ids { map id_digits result.now ≡ matches prefix.now.digits self.now.ids }
        ensures kinds { All (λ id. id_kind id ≡ self.now.kind) result.now }
    {
        beginning_with(&self.ids, prefix)
    }

    /// Whether an id is in the table. An id of another kind is not.
    pub fn contains(&self, id: &ObjectId) -> bool
        ensures { IsTrue result ↔ Contains self.now.ids (id_digits id.now) }
    {
        id.kind() == self.kind && !self.beginning_with(&Prefix::from(*id)).is_empty()
    }
}

// The ids of an index that begin with a prefix, in order, by binary search. The prefix has at most
// as many digits as an id of the index's kind.
pub(crate) fn beginning_with<'i>(ids: &'i [ObjectId], prefix: &Prefix) -> &'i [ObjectId]
    requires { (kind : Kind) × IsIndex kind (map id_digits ids.now)
        × (length prefix.now.digits ≤ hex_len_of kind) }
    ensures ids { map id_digits result.now
        ≡ matches prefix.now.digits (map id_digits ids.now) }
    ensures kinds { (kind : Kind) → All (λ id. id_kind id ≡ kind) ids.now
        → All (λ id. id_kind id ≡ kind) result.now }
{
    let run = find_assuming_sorted(ids, prefix);
    &ids[run.start..run.end]
}

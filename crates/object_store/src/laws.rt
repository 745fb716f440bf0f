//! Laws of stores that belong to no single call. Each is the contract of a function that computes
//! nothing: a call of it brings the law into a caller's proof.

ghost use Rattle.std.specs.Prelude.{◌↔◌, ◌≡◌, ℕ, ◌<◌, ◌≤◌, All, Contains, List, Some, length, slice_index_or};
ghost use Rattle.id_lookup.specs.Words.{IsIndexOf, first_byte_of, matches};
ghost use Rattle.pack_index.specs.Format.{IsFirstIndexOf};
ghost use Rattle.pack_index.specs.Lazy.{Tables};
ghost use Rattle.object_store.specs.Stores.{AreIdsRead, AreLocations, AreOfIndex, Holds, IsIndexReadOrMemory, IsLocateFault, IsAbbreviationIn, IsStoreFault, StoreView, locations_of};
ghost use Rattle.object_store.specs.declared.error.Error.{Error as StoreError};
ghost use Rattle.object_store.specs.declared.locations.Location.{Location};
ghost use Rattle.object_store.specs.declared.locations.Location.TheVariants.{Packed, Loose};

/// If the bytes of a store's pack indexes are known, and each pack index is sound, then a look-up
/// fails only because memory runs out, or because a read of a pack index fails. The latter happens
/// only if reads from the source of that pack index may fail.
pub fn failures()
    ensures buckets { (view : StoreView) (whole : List (List ℕ)) (byte : ℕ) (error : StoreError)
        → (h : Holds view whole) → All (AreOfIndex view.kind) h.are_known.tables
        → IsStoreFault view byte error → IsIndexReadOrMemory view error }
    ensures locations { (view : StoreView) (whole : List (List ℕ)) (digits : List ℕ)
        (error : StoreError) → (h : Holds view whole)
        → All (AreOfIndex view.kind) h.are_known.tables
        → IsLocateFault view digits error → IsIndexReadOrMemory view error }
{}

/// If the fan-out tables of a store's pack indexes are right, then
/// [`Parts::locate`](crate::Parts::locate) adds no location and leaves none out: [`whole`] says
/// that it returns the locations of this law. An object is at an offset in a pack if and only if
/// the pack index has its id, and the first entry with this id has the offset. It is a loose object
/// if and only if its id is one of the loose ids.
pub fn locations()
    ensures packed { (id : List ℕ) (indexes : List Tables) (loose_ids : List (List ℕ))
        (pack offset : ℕ) (default : Tables) → let tables = slice_index_or indexes pack default in
        Contains (locations_of id indexes loose_ids) (Packed pack offset)
        ↔ ((pack < length indexes) × (at : ℕ) × IsFirstIndexOf tables.ids id at
        × (tables.offset at ≡ Some offset)) }
    ensures loose { (id : List ℕ) (indexes : List Tables) (loose_ids : List (List ℕ))
        → Contains (locations_of id indexes loose_ids) Loose ↔ Contains loose_ids id }
{}

/// If the fan-out tables of a store's pack indexes are right, then the ids with a first byte that
/// it reads are all of its ids with this byte. So a look-up of a prefix finds what the whole store
/// has, an abbreviation is one in the whole store, and the locations of an object are all that it
/// has.
pub fn whole()
    ensures read { (view : StoreView) (whole : List (List ℕ)) (byte : ℕ) (read : List (List ℕ))
        (id : List ℕ) → Holds view whole → AreIdsRead view byte read → first_byte_of id ≡ byte
        → Contains read id ↔ Contains whole id }
    ensures ids { (view : StoreView) (whole : List (List ℕ)) (byte : ℕ) (read : List (List ℕ))
        (digits : List ℕ) (found : List (List ℕ)) → Holds view whole → AreIdsRead view byte read
        → 2 ≤ length digits → first_byte_of digits ≡ byte
        → IsIndexOf view.kind (matches digits read) found → found ≡ matches digits whole }
    ensures abbreviations { (view : StoreView) (whole : List (List ℕ)) (read : List (List ℕ))
        (fewest : ℕ) (id short : List ℕ) → Holds view whole
        → AreIdsRead view (first_byte_of id) read → 2 ≤ fewest
        → IsAbbreviationIn fewest read id short → IsAbbreviationIn fewest whole id short }
    ensures locations { (view : StoreView) (whole : List (List ℕ)) (id : List ℕ)
        (locations : List Location) → (h : Holds view whole)
        → AreLocations view id locations
        → locations ≡ locations_of id h.are_known.tables view.loose }
{}

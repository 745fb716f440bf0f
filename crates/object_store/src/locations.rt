//! Where a store has an object.

ghost use Rattle.std.specs.Prelude.{◌≡◌, IfErr, IfOk};
ghost use Rattle.id_lookup.specs.Words.{id_digits, id_kind};
ghost use Rattle.object_store.specs.Stores.{AreLocations, AreParts, IsLocateFault};

use crate::error::Error;
use crate::parts::push;
use crate::store::Store;
use gix_hash::ObjectId;
use pack_index::Bucket;
use std::alloc::Allocator;

/// A location of an object in a store.
///
/// ```
/// for location in Parts::new(rt.alloc(), &mut store).locate(&id)?.iter() {
///     match location {
///         Location::Packed { pack, offset } => println!(rt; "pack {pack}, at byte {offset}")?,
///         Location::Loose => println!(rt; "loose")?,
///     }
/// }
/// ```
#[derive(Clone, Copy, PartialEq, Eq, Debug)]
pub enum Location {
    /// The object is in a pack.
    Packed {
        /// The position of the pack's index among [`Store::indexes`], from 0.
        pack: usize,
        /// The offset of the object in the pack, in bytes.
        offset: u64,
    },
    /// The object is a loose object.
    Loose,
}

/// An id with all locations of its object.
///
/// ```
/// for located in Parts::new(rt.alloc(), &mut store).locate_prefix(&prefix, None)?.iter() {
///     println!(rt; "{}: {} copies", located.id, located.locations.len())?;
/// }
/// ```
#[derive(Drop)]
pub struct LocatedId<A: Allocator> {
    /// The id.
    pub id: ObjectId,
    /// All locations, as [`Parts::locate`] gives them.
    pub locations: Vec<Location, A>,
    /// The paths of the files of the loose object, as [`StorePaths::loose_paths`] gives them.
    pub loose_paths: Vec<String>,
}

// All locations of an object. Its id is in the bucket of each pack index that has it.
pub(crate) fn locate_in<S: Store, A: Allocator + Copy>(
    alloc: A,
    store: &S,
    buckets: &[Bucket<A>],
    id: &ObjectId,
) -> Result<Vec<Location, A>, Error>
    requires buckets { AreParts (S.view store.now) (id_digits id.now) buckets.now }
    requires kind { id_kind id.now ≡ (S.view store.now).kind }
    ensures locations { IfOk result (λ locations. AreLocations (S.view store.now)
        (id_digits id.now) locations.items) }
    ensures err { IfErr result (IsLocateFault (S.view store.now) (id_digits id.now)) }
{
    let mut locations = Vec::new(alloc);
    let packs = store.indexes();
    for pack in 0..packs.len() {
        let index = &packs[pack];
        if let Some(at) = index.lookup(&buckets[pack], id.as_oid()) {
            match index.pack_offset_at_index(at) {
                Ok(offset) => push(&mut locations, Location::Packed { pack, offset })?,
                Err(error) => return Err(Error::of_index(store.index_path(pack)?, error)),
            }
        }
    }
    if store.loose().contains(id) {
        push(&mut locations, Location::Loose)?;
    }
    Ok(locations)
}

//! What a prefix finds in a store, by what directories and files answer.

ghost use Rattle.std.specs.Prelude.{◌≡◌, ◌≤◌, ℕ, IfOk, IfSome, List, length, map};
ghost use Rattle.directory_store.specs.Opened.{AreObjects, AreRight, AreWithAlternates};
ghost use Rattle.directory_store.specs.declared.loose.LooseIds.{LooseIds};
ghost use Rattle.directory_store.specs.declared.multi.Purpose.TheVariants.{Locations};
ghost use Rattle.id_lookup.specs.Words.{id_digits, matches};
ghost use Rattle.repositories.specs.Answers.{IfKnown};

use directory_store::{DirectoryStore, Error, LooseIds, StoreFiles, laws};
use gix_hash::{ObjectId, Prefix};
use object_store::lookup_prefix;
use repositories::ObjectDirectory;

/// The ids in a store that begin with a prefix, or `None` if something of the store was skipped.
pub fn matches_of<R: StoreFiles>(
    rt: &R,
    directory: &ObjectDirectory,
    prefix: &Prefix,
) -> Result<Option<Vec<ObjectId>>, Error>
    requires enough { 2 ≤ length prefix.now.digits }
    requires kind { prefix.now.kind ≡ directory.now.kind }
    ensures { IfOk result (λ found. IfSome found (λ ids. IfKnown (λ at.
        (directories : List (List ℕ)) × AreWithAlternates at directory.now directories
        × ((objects : List (List ℕ)) → AreRight at Locations directory.now.kind directories
        → AreObjects at directory.now.kind LooseIds.All directories objects
        → map id_digits ids.items ≡ matches prefix.now.digits objects)) (R.answers rt.now))) }
{
    laws::opened();
    let loose = LooseIds::WithFirstByte(prefix.first_byte());
    let mut store = DirectoryStore::open(rt, directory, loose)?;
    if !store.skipped().is_empty() {
        return Ok(None);
    }
    let ids = lookup_prefix(rt.alloc(), &mut store, prefix)?;
    Ok(Some(ids))
}

//! Making hashers, and digests of one slice. They have a module apart from the type's, since its
//! name differs from the function's only in case.

ghost use Rattle.std.specs.Prelude.{◌≡◌, []};
ghost use Rattle.gix_hash.specs.Hashing.{digest, hasher_kind, WasFed};

use super::state::Hasher;
use crate::kind::Kind;
use crate::object_id::ObjectId;

/// A hasher for digests of the given kind, which was fed nothing.
pub fn hasher(kind: Kind) -> Hasher
    ensures kind { hasher_kind result ≡ kind }
    ensures empty { WasFed result [] }
{
    Hasher::of_kind(kind)
}

/// The digest of `bytes`, of 20 or 32 bytes by the kind: for a message that is in one slice.
pub fn digest_of(kind: Kind, bytes: &[u8]) -> ObjectId
    ensures { result ≡ digest kind bytes.now }
{
    let mut hasher = hasher(kind);
    hasher.update(bytes);
    hasher.try_finalize().unwrap()
}

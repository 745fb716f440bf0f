//! Bytes that end in the digest of all before it, as Git's packs and their indexes do.

ghost use Rattle.std.specs.Prelude.{◌≡◌, ◌↔◌, IsTrue};
ghost use Rattle.gix_hash.specs.Hashing.{EndsInDigest};

use super::start::digest_of;
use crate::hashing_laws::digests;
use crate::kind::Kind;

/// Whether the bytes are a message followed by its digest, of 20 or 32 bytes by the kind. Git's
/// packs are, and so are pack indexes, commit-graphs and multi-pack-indexes. The message may be
/// empty.
pub fn ends_in_digest(kind: Kind, bytes: &[u8]) -> bool
    ensures { IsTrue result ↔ EndsInDigest kind bytes.now }
{
    digests(kind);
    if bytes.len() < kind.len_in_bytes() {
        return false;
    }
    let (message, last) = bytes.split_at(bytes.len() - kind.len_in_bytes());
    are_same(digest_of(kind, message).as_slice(), last)
}

// Whether two slices have the same bytes.
fn are_same(first: &[u8], second: &[u8]) -> bool
    ensures { IsTrue result ↔ (first.now ≡ second.now) }
{
    first == second
}

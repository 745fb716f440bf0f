//! What the ids of a list may be.

ghost use Rattle.std.specs.Prelude.{◌≡◌, ◌<◌, ℕ, All, List, length, map, HoldsAt};
ghost use Rattle.gix_hash.specs.Words.{digits_of, hex_len_of, id_digits, id_kind, oid_digits, oid_kind};
ghost use Rattle.gix_hash.specs.declared.Kind.{Kind};

use gix_hash::{ObjectId, oid};

/// An id of a list: an [`ObjectId`], or the bytes of a digest, 20 of SHA-1 or 32 of SHA-256.
///
/// So `as_chunks` of its bytes makes a list of ids of a table of digests that are stored one after
/// the other, as in Git's pack indexes.
///
/// ```
/// // Nothing is copied.
/// let ids = SortedIds::try_new(table.as_chunks::<20>().0)?;
/// ```
pub trait Id {
    /// The id's kind.
    ghost kind: { Self → Kind };

    /// The id's digits.
    ghost digits: { Self → List ℕ };

    /// The id as a view of its bytes.
    fn as_oid(&self) -> oid<'_>
        ensures kind { oid_kind result ≡ kind self.now }
        ensures digits { oid_digits result ≡ digits self.now }
        ensures len { length (digits self.now) ≡ hex_len_of (kind self.now) }
        ensures digits_in_range { All (λ d. d < 16) (digits self.now) };
}

impl Id for ObjectId {
    ghost kind = { id_kind };

    ghost digits = { id_digits };

    fn as_oid(&self) -> oid<'_> {
        ObjectId::as_oid(self)
    }
}

impl Id for [u8; 20] {
    ghost use Rattle.gix_hash.specs.declared.Kind.TheVariants.{Sha1};

    ghost kind = { λ _. Sha1 };

    ghost digits = { digits_of };

    fn as_oid(&self) -> oid<'_> {
        let id = oid::from_bytes_unchecked(self);
        // Its contract gives the number and the range of the digits.
        let _kind = id.kind();
        id
    }
}

impl Id for [u8; 32] {
    ghost use Rattle.gix_hash.specs.declared.Kind.TheVariants.{Sha256};

    ghost kind = { λ _. Sha256 };

    ghost digits = { digits_of };

    fn as_oid(&self) -> oid<'_> {
        let id = oid::from_bytes_unchecked(self);
        // Its contract gives the number and the range of the digits.
        let _kind = id.kind();
        id
    }
}

// The id at a position of a list.
pub(crate) fn id_at<I: Id>(ids: &[I], at: usize) -> oid<'_>
    requires { at < length ids.now }
    ensures kind { HoldsAt (λ id. oid_kind result ≡ I.kind id) ids.now at }
    ensures digits { HoldsAt (λ id. oid_digits result ≡ id) (map I.digits ids.now) at }
    ensures len { length (oid_digits result) ≡ hex_len_of (oid_kind result) }
    ensures digits_in_range { All (λ d. d < 16) (oid_digits result) }
{
    ids[at].as_oid()
}

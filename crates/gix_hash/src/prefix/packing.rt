//! Prefixes made of digits.

ghost use Rattle.std.specs.Prelude.{◌≡◌, ◌≤◌, ◌<◌, ◌*◌, length, take};
ghost use Rattle.id_digits.specs.Digits.{digits_of, padded};
ghost use Rattle.gix_hash.specs.Kinds.{hex_len_of, byte_len_of};
ghost use Rattle.gix_hash.specs.Ids.{id_kind, id_digits};
ghost use Rattle.gix_hash.specs.Prefixes.{kind_digits};

use super::Prefix;
use crate::kind::Kind;
use crate::object_id::ObjectId;
use id_digits::{Words, copy_digits};

impl Prefix {
    /// The prefix of a kind with the first `hex_len` digits of some bytes, two digits a byte, the
    /// high half first. It may have any number of digits, also 0, and digits after them are
    /// ignored.
    ///
    /// Returns `None` if ids of the kind have fewer than `hex_len` digits, or if the bytes do.
    ///
    /// ```
    /// // The first three digits of a digest.
    /// let prefix = Prefix::from_packed_digits(Kind::Sha1, digest, 3);
    /// ```
    pub fn from_packed_digits(kind: Kind, bytes: &[u8], hex_len: usize) -> Option<Prefix>
        ensures some { hex_len ≤ hex_len_of kind → hex_len ≤ 2 * length bytes.now
            → result ≡ Some (kind_digits kind (take hex_len (digits_of bytes.now))) }
        ensures too_long { hex_len_of kind < hex_len → result ≡ None }
        ensures too_few_bytes { 2 * length bytes.now < hex_len → result ≡ None }
    {
        if hex_len > kind.len_in_hex() {
            return None;
        }
        let front = bytes.get(..hex_len.div_ceil(2))?;
        Some(Prefix::packed(kind, front, hex_len))
    }

    // The same for bytes that are known to have these digits, and not to be more than a digest of
    // the kind has.
    pub(crate) fn packed(kind: Kind, front: &[u8], hex_len: usize) -> Prefix
        requires room { length front.now ≤ byte_len_of kind }
        requires digits { hex_len ≤ 2 * length front.now }
        ensures { result ≡ record { kind = kind; digits = take hex_len (digits_of front.now) } }
    {
        Prefix::padded(padded_bytes(kind, front, hex_len), hex_len)
    }

    // The prefix of the first digits of an id that has zeros after them.
    pub(crate) fn padded(bytes: ObjectId, hex_len: usize) -> Prefix
        requires within { hex_len ≤ hex_len_of (id_kind bytes) }
        requires zeros { id_digits bytes ≡ padded (hex_len_of (id_kind bytes))
            (take hex_len (id_digits bytes)) }
        ensures { result ≡ record {
          kind = id_kind bytes;
          digits = take hex_len
              (id_digits bytes);
        } }
    {
        Prefix {
            words: Words::of(bytes.as_slice()),
            bytes,
            hex_len,
        }
    }
}

// The id of a kind with the first `hex_len` digits of `front`, and zeros after them.
fn padded_bytes(kind: Kind, front: &[u8], hex_len: usize) -> ObjectId
    requires room { length front.now ≤ byte_len_of kind }
    requires digits { hex_len ≤ 2 * length front.now }
    ensures kind { id_kind result ≡ kind }
    ensures digits { id_digits result ≡ padded (hex_len_of kind)
        (take hex_len (digits_of front.now)) }
{
    match kind {
        Kind::Sha1 => {
            let mut bytes = [0; 20];
            copy_digits(front, hex_len, &mut bytes);
            ObjectId::Sha1(bytes)
        }
        Kind::Sha256 => {
            let mut bytes = [0; 32];
            copy_digits(front, hex_len, &mut bytes);
            ObjectId::Sha256(bytes)
        }
    }
}

//! Ids in the letters by which Jujutsu spells change ids.

ghost use Rattle.std.specs.Prelude.{◌≡◌, ◌<◌, ◌↔◌, All, IsTrue, length, Some};
ghost use Rattle.gix_hash.specs.Ids.{asked_len, cut_kind, id_bytes, id_digits, id_kind, shown_digits, whole_digits};
ghost use Rattle.id_digits.specs.Digits.{reverse_letter, spelling};
ghost use Rattle.gix_hash.specs.Kinds.{hex_len_of, byte_len_of};

use crate::alphabet::Alphabet;
use crate::borrowed::oid;
use crate::decode;
use crate::display::HexDisplay;
pub use crate::display::ReverseHexDisplay;
use crate::kind::Kind;
use crate::object_id::ObjectId;
use crate::prefix::Prefix;
use std::fmt;
use std::marker::Model;
use std::str::FromStr;

/// An id in another spelling: the letters `z` to `k` for the digits 0 to 15, which Jujutsu uses for
/// its change ids. It has 40 or 64 letters; Jujutsu's own change ids, of 32, are not read. It is
/// ordered as the id is, in the opposite order of its letters. Contracts see only the id.
///
/// ```
/// let change = ChangeId::from_reverse_hex(text)?;
/// println!(rt; "{} is {} in hex", change, change.to_hex())?;
/// ```
#[derive(Clone, Copy, PartialEq, Eq, PartialOrd, Ord, Hash, Debug)]
pub struct ChangeId(ObjectId);

impl Model for ChangeId {
    ghost use Rattle.gix_hash.specs.declared.object_id.ObjectId.{ObjectId};

    ghost Value = { ObjectId };

    ghost view = { λ change. change.0 };

    ghost inverse = { λ id. record { 0 = id } };
}

impl ChangeId {
    ghost use Rattle.gix_hash.specs.Reading.{full_read, result_digits};
    ghost use Rattle.gix_hash.specs.Ids.{oid_kind, oid_digits};

    /// Reads 40 or 64 of the letters `z` to `k`, in any letter case, as an id of SHA-1 or SHA-256.
    ///
    /// Returns [`decode::Error::InvalidHexEncodingLength`], with the length in bytes, for a text of
    /// another length, and otherwise [`decode::Error::Invalid`] if some byte is not one of the
    /// letters.
    pub fn from_reverse_hex(text: &[u8]) -> Result<ChangeId, decode::Error>
        ensures { result_digits result ≡ full_read reverse_letter text.now }
    {
        match Alphabet::Reverse.read_id(text) {
            Ok(id) => Ok(ChangeId(id)),
            Err(error) => Err(error),
        }
    }

    /// The kind of the digest.
    pub fn kind(&self) -> Kind
        ensures value { result ≡ id_kind self.now }
        ensures len { length (id_digits self.now) ≡ hex_len_of (id_kind self.now) }
        ensures digits_in_range { All (λ d. d < 16) (id_digits self.now) }
    {
        self.0.kind()
    }

    /// The bytes of the digest, as many as the kind's length in bytes.
    pub fn as_bytes(&self) -> &[u8]
        ensures value { result.now ≡ id_bytes self.now }
        ensures len { length result.now ≡ byte_len_of (id_kind self.now) }
        ensures bytes_in_range { All (λ b. b < 256) result.now }
    {
        self.0.as_slice()
    }

    /// The id as a view of its bytes.
    pub fn as_oid(&self) -> oid<'_>
        ensures kind { oid_kind result ≡ id_kind self.now }
        ensures digits { oid_digits result ≡ id_digits self.now }
        ensures len { length (id_digits self.now) ≡ hex_len_of (id_kind self.now) }
        ensures digits_in_range { All (λ d. d < 16) (id_digits self.now) }
    {
        self.0.as_oid()
    }

    /// The id for printing in full in hex.
    pub fn to_hex(&self) -> HexDisplay<'_>
        ensures id { whole_digits result ≡ id_digits self.now }
        ensures kind { cut_kind result ≡ id_kind self.now }
        ensures hex_len { asked_len result ≡ hex_len_of (id_kind self.now) }
        ensures shown { shown_digits result ≡ id_digits self.now }
    {
        self.0.to_hex()
    }

    /// The id for printing in full in the letters `z` to `k`.
    pub fn to_reverse_hex(&self) -> ReverseHexDisplay<'_>
        ensures id { whole_digits result ≡ id_digits self.now }
        ensures kind { cut_kind result ≡ id_kind self.now }
        ensures hex_len { asked_len result ≡ hex_len_of (id_kind self.now) }
        ensures shown { shown_digits result ≡ id_digits self.now }
    {
        self.to_reverse_hex_with_len(self.kind().len_in_hex())
    }

    /// The id for printing its first `hex_len` digits in the letters `z` to `k`, or all if it has
    /// fewer.
    pub fn to_reverse_hex_with_len(&self, hex_len: usize) -> ReverseHexDisplay<'_>
        ensures id { whole_digits result ≡ id_digits self.now }
        ensures kind { cut_kind result ≡ id_kind self.now }
        ensures hex_len { asked_len result ≡ hex_len }
    {
        ReverseHexDisplay::new(self.as_oid(), hex_len)
    }

    /// Whether `text` is exactly all digits in the letters `z` to `k`, in lowercase.
    pub fn eq_str(&self, text: &str) -> bool
        ensures { IsTrue result ↔ (text.now ≡ spelling reverse_letter (id_digits self.now)) }
    {
        self.to_reverse_hex().eq_str(text)
    }
}

/// Prints the digits in the letters `z` to `k`, whatever width, fill and precision are asked for.
impl fmt::Display for ChangeId {
    ghost output = { λ change. Some (spelling reverse_letter (id_digits change)) };

    ghost styled_output = { λ change _. Some (spelling reverse_letter (id_digits change)) };

    fn fmt<W: fmt::Write>(&self, f: &mut fmt::Formatter<W>) -> fmt::Result {
        self.to_reverse_hex().fmt(f)
    }
}

/// Does the same as [`ChangeId::from_reverse_hex`].
impl FromStr for ChangeId {
    ghost use Rattle.gix_hash.specs.Reading.{full_read, result_digits};

    type Err = decode::Error;

    ghost from_str_gives = { λ text answer. result_digits answer ≡ full_read reverse_letter text };

    fn from_str(text: &str) -> Result<ChangeId, decode::Error> {
        ChangeId::from_reverse_hex(text.as_bytes())
    }
}

impl From<ObjectId> for ChangeId {
    ghost from_gives = { λ id change. change ≡ id };

    fn from(id: ObjectId) -> ChangeId {
        ChangeId(id)
    }
}

impl<'a> From<oid<'a>> for ChangeId {
    ghost use Rattle.gix_hash.specs.Ids.{oid_digits, oid_kind};

    ghost from_gives = { λ id change. (id_kind change ≡ oid_kind id)
        × (id_digits change ≡ oid_digits id) };

    fn from(id: oid<'a>) -> ChangeId {
        ChangeId(id.to_owned())
    }
}

impl From<ChangeId> for ObjectId {
    ghost from_gives = { λ change id. id ≡ change };

    fn from(change: ChangeId) -> ObjectId {
        change.0
    }
}

/// All digits of the id.
impl From<ChangeId> for Prefix {
    ghost from_gives = { λ change prefix. prefix
        ≡ record { kind = id_kind change; digits = id_digits change } };

    fn from(change: ChangeId) -> Prefix {
        Prefix::from(change.0)
    }
}

//! Ids and prefixes of texts and of digests.

ghost use Rattle.std.specs.Prelude.{◌≡◌, ◌≤◌, ◌<◌, ◌↔◌, IsTrue, MatchOption, MatchResult, length, take, IsOkAnd};
ghost use Rattle.std.specs.Str.{str_to_ascii_lowercase};
ghost use Rattle.std.specs.declared.cmp.Ordering.{Ordering};
ghost use Rattle.gix_hash.specs.Words.{IsFullReading, IsFullRefusal, digits_of, hex_len_of, hex_letter, id_digits, id_kind, is_digest_len, kind_of_byte_len, oid_digits, oid_kind, place, prefix_read, spelling, whole_of};

use gix_hash::{Alphabet, ObjectId, Prefix, decode, laws, oid};

/// Whether `text` is a prefix of at least 4 digits that the id begins with.
pub fn is_named(text: &str, id: oid<'_>) -> bool
    ensures { IsTrue result ↔ IsOkAnd (prefix_read hex_letter 4 text.now) (λ prefix.
        (length prefix.digits ≤ hex_len_of (oid_kind id.entry))
        × (place prefix.digits (oid_digits id.entry) ≡ Ordering.Equal)) }
{
    match Prefix::from_hex(text) {
        Ok(prefix) => prefix.hex_len() <= id.kind().len_in_hex() && prefix.cmp_oid(id).is_eq(),
        Err(_) => false,
    }
}

/// The id that `text` spells, or why it spells none.
pub fn read_id(text: &[u8]) -> Result<ObjectId, decode::Error>
    ensures { MatchResult result (λ id. IsFullReading hex_letter text.now (whole_of id))
        (IsFullRefusal hex_letter text.now) }
{
    laws::full_readings(Alphabet::Hex, text);
    ObjectId::from_hex(text)
}

/// The id that was printed as `text`, whose letters may have changed case since.
pub fn read_again(id: &ObjectId, text: &[u8]) -> Result<ObjectId, decode::Error>
    requires { str_to_ascii_lowercase text.now ≡ spelling hex_letter (id_digits id.now) }
    ensures { result ≡ Ok id.now }
{
    laws::read_back(id, text);
    match ObjectId::from_hex(text) {
        Ok(other) => {
            laws::same_id(&other, id);
            Ok(other)
        }
        Err(error) => Err(error),
    }
}

/// The id of a digest, or `None` if no kind has digests of that length.
pub fn id_of_digest(bytes: &[u8]) -> Option<ObjectId>
    ensures { MatchOption result (¬ IsTrue (is_digest_len (length bytes.now)))
        (λ id. (id_digits id ≡ digits_of bytes.now)
        × (id_kind id ≡ kind_of_byte_len (length bytes.now))) }
{
    match oid::try_from_bytes(bytes) {
        Ok(id) => Some(id.to_owned()),
        Err(_) => None,
    }
}

/// The first `hex_len` digits of an id, or all of them if fewer than 4 were asked for, or more than
/// it has.
pub fn short_name(id: &ObjectId, hex_len: usize) -> Prefix
    ensures kind { result.kind ≡ id_kind id.now }
    ensures long { 4 ≤ hex_len → result.digits ≡ take hex_len (id_digits id.now) }
    ensures short { hex_len < 4 → result.digits ≡ id_digits id.now }
{
    match Prefix::new(id.as_oid(), hex_len) {
        Ok(prefix) => prefix,
        Err(_) => Prefix::from(*id),
    }
}

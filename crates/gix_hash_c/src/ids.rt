//! Ids for C.

ghost use Rattle.std.specs.Prelude.{◌≡◌, MatchOption, Some, None, option_map};
ghost use Rattle.id_lookup.specs.Words.{empty_blob_digits, empty_tree_digits, full_read, hex_letter, kind_digits, null_digits, oid_digits, oid_kind, whole_of};
ghost use Rattle.gix_hash_c.specs.Face.{BytesAnswer, HexAnswer, HoldsId, IdAnswer, KindIdAnswer, TextAnswer, id_in, ids_order, kind_of_number};

use crate::codes::{BAD_DIGIT, BAD_KIND, BAD_LENGTH, NO_ORDER, NO_ROOM, OK, kind_of, order_of};
use gix_hash::{ObjectId, decode, oid};

/// An id.
#[repr(C)]
#[derive(Clone, Copy)]
pub struct Id {
    /// 1 for SHA-1, and 2 for SHA-256.
    pub kind: u32,
    /// The digest, 20 or 32 bytes. The bytes after the 20 of SHA-1 are not read, and are written as
    /// zeros.
    pub bytes: [u8; 32],
}

/// Reads 40 or 64 hex digits, in any letter case. An error leaves `id` as it was: `BAD_LENGTH`, or
/// else `BAD_DIGIT`.
#[unsafe(no_mangle)]
pub extern "C" fn gix_hash_id_from_hex(text: &[u8], id: &mut Id) -> u32
    ensures { IdAnswer (full_read hex_letter text.now) result id.old id.new }
{
    match ObjectId::from_hex(text) {
        Ok(read) => {
            *id = to_c(&read);
            OK
        }
        Err(decode::Error::InvalidHexEncodingLength(_)) => BAD_LENGTH,
        Err(decode::Error::Invalid) => BAD_DIGIT,
    }
}

/// Writes the 40 or 64 lowercase hex digits of an id into the front of a buffer, whose rest stays.
/// An error leaves the buffer as it was: `BAD_KIND`, or else `NO_ROOM`.
#[unsafe(no_mangle)]
pub extern "C" fn gix_hash_id_to_hex(id: &Id, buffer: &mut [u8]) -> u32
    ensures { HexAnswer (id_in id.now) result buffer.old buffer.new }
{
    let Some(id) = of_c(id) else {
        return BAD_KIND;
    };
    if buffer.len() < id.kind().len_in_hex() {
        return NO_ROOM;
    }
    id.put_hex(buffer);
    OK
}

/// Writes the 40 or 64 lowercase hex digits of an id into the front of a buffer, and a zero after
/// them. The bytes after it stay. An error leaves the buffer as it was: `BAD_KIND`, or else
/// `NO_ROOM`.
#[unsafe(no_mangle)]
pub extern "C" fn gix_hash_id_to_text(id: &Id, text: &mut [u8]) -> u32
    ensures { TextAnswer (id_in id.now) result text.old text.new }
{
    let Some(id) = of_c(id) else {
        return BAD_KIND;
    };
    let len = id.kind().len_in_hex();
    if text.len() <= len {
        return NO_ROOM;
    }
    id.put_hex(text);
    text[len] = 0;
    OK
}

/// Takes an id from the bytes of a digest. An error leaves `id` as it was: `BAD_KIND`, or else
/// `BAD_LENGTH`.
#[unsafe(no_mangle)]
pub extern "C" fn gix_hash_id_from_bytes(kind: u32, bytes: &[u8], id: &mut Id) -> u32
    ensures { BytesAnswer (kind_of_number kind) bytes.now result id.old id.new }
{
    let Some(kind) = kind_of(kind) else {
        return BAD_KIND;
    };
    if bytes.len() != kind.len_in_bytes() {
        return BAD_LENGTH;
    }
    *id = to_c(&ObjectId::from_bytes_or_panic(bytes));
    OK
}

/// The id whose digits are all zero. `BAD_KIND` leaves `id` as it was.
#[unsafe(no_mangle)]
pub extern "C" fn gix_hash_id_null(kind: u32, id: &mut Id) -> u32
    ensures { KindIdAnswer (option_map (λ kind. kind_digits kind (null_digits kind))
        (kind_of_number kind)) result id.old id.new }
{
    let Some(kind) = kind_of(kind) else {
        return BAD_KIND;
    };
    *id = to_c(&kind.null());
    OK
}

/// The id of the empty blob. `BAD_KIND` leaves `id` as it was.
#[unsafe(no_mangle)]
pub extern "C" fn gix_hash_id_empty_blob(kind: u32, id: &mut Id) -> u32
    ensures { KindIdAnswer (option_map (λ kind. kind_digits kind (empty_blob_digits kind))
        (kind_of_number kind)) result id.old id.new }
{
    let Some(kind) = kind_of(kind) else {
        return BAD_KIND;
    };
    *id = to_c(&kind.empty_blob());
    OK
}

/// The id of the empty tree. `BAD_KIND` leaves `id` as it was.
#[unsafe(no_mangle)]
pub extern "C" fn gix_hash_id_empty_tree(kind: u32, id: &mut Id) -> u32
    ensures { KindIdAnswer (option_map (λ kind. kind_digits kind (empty_tree_digits kind))
        (kind_of_number kind)) result id.old id.new }
{
    let Some(kind) = kind_of(kind) else {
        return BAD_KIND;
    };
    *id = to_c(&kind.empty_tree());
    OK
}

/// The order of two ids, by kind and then by digits: -1, 0 or 1, and 2 if a kind is bad.
#[unsafe(no_mangle)]
pub extern "C" fn gix_hash_id_cmp(one: &Id, other: &Id) -> i32
    ensures { result ≡ ids_order (id_in one.now) (id_in other.now) }
{
    match (of_c(one), of_c(other)) {
        (Some(one), Some(other)) => order_of(one.kind().cmp(&other.kind()).then(one.cmp(&other))),
        _ => NO_ORDER,
    }
}

// The struct for an id.
#[inline(always)]
pub(crate) fn to_c(id: &ObjectId) -> Id
    ensures { HoldsId (whole_of id.now) result }
{
    // The contract of this call says how long the digest is.
    let _bytes = id.as_slice();
    match id {
        ObjectId::Sha1(digest) => {
            let mut bytes = [0; 32];
            bytes[..20].copy_from_slice(digest);
            Id { kind: 1, bytes }
        }
        ObjectId::Sha256(bytes) => Id {
            kind: 2,
            bytes: *bytes,
        },
    }
}

// The id in a struct.
#[inline(always)]
pub(crate) fn of_c(id: &Id) -> Option<oid<'_>>
    ensures { MatchOption result (id_in id.now ≡ None)
        (λ view. id_in id.now ≡ Some (record { kind = oid_kind view; digits = oid_digits view })) }
{
    let kind = kind_of(id.kind)?;
    Some(oid::from_bytes_unchecked(&id.bytes[..kind.len_in_bytes()]))
}

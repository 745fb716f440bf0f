//! Prefixes for C.

ghost use Rattle.std.specs.Prelude.{◌≡◌, ◌≤◌, MatchOption, Some, None, take};
ghost use Rattle.id_lookup.specs.Words.{digits_of, hex_len_of, hex_letter, oid_digits, oid_kind, place, prefix_read};
ghost use Rattle.gix_hash_c.specs.Face.{PrefixAnswer, id_in, place_number, prefix_in};

use crate::codes::{BAD_DIGIT, BAD_LENGTH, NO_ORDER, OK, order_of};
use crate::ids::{Id, of_c};
use gix_hash::{Alphabet, Kind, oid};
use std::cmp::Ordering;

/// A prefix of 1 to 64 digits.
#[repr(C)]
#[derive(Clone, Copy)]
pub struct Prefix {
    /// The number of digits.
    pub hex_len: u32,
    /// The digits, two a byte, the high half first. The bits after them are not read, and are
    /// written as zeros.
    pub bytes: [u8; 32],
}

/// Reads 1 to 64 hex digits, in any letter case. An error leaves `prefix` as it was: `BAD_LENGTH`,
/// or else `BAD_DIGIT`.
#[unsafe(no_mangle)]
pub extern "C" fn gix_hash_prefix_from_hex(text: &[u8], prefix: &mut Prefix) -> u32
    ensures { PrefixAnswer (prefix_read hex_letter 1 text.now) result prefix.old prefix.new }
{
    let len = text.len();
    if len == 0 || len > 64 {
        return BAD_LENGTH;
    }
    match Alphabet::Hex.read_prefix_in(Kind::Sha256, text) {
        Ok(read) => {
            let mut bytes = [0; 32];
            bytes.copy_from_slice(read.as_oid().as_bytes());
            *prefix = Prefix {
                hex_len: len as u32,
                bytes,
            };
            OK
        }
        Err(_) => BAD_DIGIT,
    }
}

/// The order of a prefix and as many first digits of an id: 0 if and only if the id begins with the
/// prefix. 2 if the kind or the length is bad, or the id has fewer digits.
#[unsafe(no_mangle)]
pub extern "C" fn gix_hash_prefix_cmp_id(prefix: &Prefix, id: &Id) -> i32
    ensures { result ≡ place_number (prefix_in prefix.now) (id_in id.now) }
{
    match of_c(id) {
        Some(id) => first_digits_order(&prefix.bytes, prefix.hex_len as usize, id),
        None => NO_ORDER,
    }
}

// The order of the first `hex_len` digits of some bytes and of an id, if the id has as many.
#[inline(always)]
fn first_digits_order(bytes: &[u8; 32], hex_len: usize, id: oid<'_>) -> i32
    ensures { result ≡ place_number
        (prefix_in (record { hex_len = hex_len; bytes = bytes.now }))
        (Some (record { kind = oid_kind id.entry; digits = oid_digits id.entry })) }
{
    if hex_len == 0 {
        return NO_ORDER;
    }
    if hex_len > id.kind().len_in_hex() {
        return NO_ORDER;
    }
    order_of(first_digits_cmp(bytes, hex_len, id))
}

// The order of the first `hex_len` digits of some bytes and of an id. Making a prefix of the bytes
// would take longer than comparing them once.
#[inline(always)]
fn first_digits_cmp(bytes: &[u8; 32], hex_len: usize, id: oid<'_>) -> Ordering
    requires { hex_len ≤ hex_len_of (oid_kind id) }
    ensures { result ≡ place (take hex_len (digits_of bytes.now)) (oid_digits id.entry) }
{
    let own = oid::from_bytes_unchecked(&bytes[..id.kind().len_in_bytes()]);
    if own.common_hex_len(id) < hex_len {
        own.cmp(&id)
    } else {
        Ordering::Equal
    }
}

// The prefix in a struct.
#[inline(always)]
pub(crate) fn prefix_of(prefix: &Prefix) -> Option<gix_hash::Prefix>
    ensures { MatchOption result (prefix_in prefix.now ≡ None)
        (λ made. prefix_in prefix.now ≡ Some made.digits) }
{
    if prefix.hex_len == 0 {
        return None;
    }
    gix_hash::Prefix::from_packed_digits(Kind::Sha256, &prefix.bytes, prefix.hex_len as usize)
}

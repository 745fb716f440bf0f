//! Pack indexes over their bytes. C keeps only the bytes, so each call tests the header and the
//! lengths of the tables again, and reads nothing outside of the bytes, whatever they are.

ghost use Rattle.std.specs.Prelude.{◌≡◌, ◌<◌, ◌≤◌, [], IfErr, IfSome, IsNone, OnOk, ℕ, List, length, slice_index_or, slice_range, take};
ghost use Rattle.id_lookup.specs.Words.{IsShortestAbbreviation, IsSortedIds, hex_len_of, kind_digits};
ghost use Rattle.pack_index.specs.Format.{HasHead, HasTables, crc_table_start, digests_in, ids_start};
ghost use Rattle.gix_hash_c.specs.Face.{HoldsId, kind_of_number, prefix_in};
ghost use Rattle.gix_hash_c.specs.LookUps.{CheckAnswer, EntryAnswer, IsTablesFault, LenAnswer, IdAtAnswer, PackFindAnswer, PackKindAnswer, ShortestAnswer, cause_number, detail_of};

use crate::codes::{
    BAD_KIND, BAD_LENGTH, BAD_MAGIC, BAD_VERSION, INDEX_TOO_SHORT, LONG_OUT_OF_ORDER, NAMES_FALL,
    NO_OFFSET, NOT_UNIQUE, OFFSET_IN_HEADER, OFFSET_TOO_HIGH, OK, OTHER_KIND, OUT_OF_RANGE,
    PREFIX_TOO_LONG, SPARE_LONG, VERSION_1, WRONG_CHECKSUM, WRONG_COUNT, WRONG_LENGTH, kind_of,
};
use crate::ids::{Id, to_c};
use crate::look_up::{Run, find_in};
use crate::prefixes::{Prefix, prefix_of};
use gix_hash::{Kind, ObjectId};
use id_lookup::abbreviate_assuming_sorted;
use pack_index::tables::{
    IDS_START, bucket_range, check_tables, crc_in, crc_table_start, has_offset, num_objects,
    offset_in,
};
use pack_index::{Error, File};

// How many ids before and after a position are searched first.
const NEAR: usize = 8;

/// What an index contains about an object.
#[repr(C)]
#[derive(Clone, Copy)]
pub struct Entry {
    /// Where it begins in the pack.
    pub offset: u64,
    /// The CRC-32 of the packed object.
    pub crc: u32,
    /// Its id.
    pub id: Id,
}

/// Checks a whole pack index: lengths, order, fan-out table, offsets and checksum. An error is
/// `BAD_KIND`, or the number of the cause, with its detail if it has one. Otherwise `detail` stays
/// as it was.
#[unsafe(no_mangle)]
pub extern "C" fn gix_hash_pack_check(kind: u32, bytes: &[u8], detail: &mut u64) -> u32
    ensures { CheckAnswer (kind_of_number kind) bytes.now result detail.old detail.new }
{
    let Some(kind) = kind_of(kind) else {
        return BAD_KIND;
    };
    if let Err(error) = File::try_new(bytes, kind) {
        *detail = detail_of(error, *detail);
        return cause_of(error);
    }
    OK
}

/// The number of the kind whose ids the index holds. An error is the number of the cause for which
/// the bytes are not an index of SHA-256, if the tables of such an index fill them, and otherwise
/// of SHA-1. It leaves `kind` as it was.
#[unsafe(no_mangle)]
pub extern "C" fn gix_hash_pack_kind(bytes: &[u8], kind: &mut u32) -> u32
    ensures { PackKindAnswer bytes.now result kind.old kind.new }
{
    let (by_tables, number) = match tables(Kind::Sha256, bytes) {
        Ok(()) => (Kind::Sha256, 2),
        Err(_) => (Kind::Sha1, 1),
    };
    match File::try_new(bytes, by_tables) {
        Ok(_) => {
            *kind = number;
            OK
        }
        Err(error) => cause_of(error),
    }
}

/// The number of objects. An error leaves `count` as it was.
#[unsafe(no_mangle)]
pub extern "C" fn gix_hash_pack_count(kind: u32, bytes: &[u8], count: &mut usize) -> u32
    ensures { LenAnswer (kind_of_number kind) bytes.now result count.old count.new }
{
    match kind_of(kind) {
        Some(kind) => match tables(kind, bytes) {
            Ok(()) => {
                *count = num_objects(bytes) as usize;
                OK
            }
            Err(cause) => cause,
        },
        None => BAD_KIND,
    }
}

/// What an index contains about the object at a position. An error leaves `entry` as it was.
#[unsafe(no_mangle)]
pub extern "C" fn gix_hash_pack_entry(kind: u32, bytes: &[u8], at: usize, entry: &mut Entry) -> u32
    ensures { EntryAnswer (kind_of_number kind) bytes.now at result entry.old entry.new }
{
    let Some(kind) = kind_of(kind) else {
        return BAD_KIND;
    };
    if let Err(cause) = tables(kind, bytes) {
        return cause;
    }
    if at >= num_objects(bytes) as usize {
        return OUT_OF_RANGE;
    }
    if !has_offset(bytes, kind, at) {
        return NO_OFFSET;
    }
    *entry = Entry {
        offset: offset_in(bytes, kind, at),
        crc: crc_in(bytes, kind, at),
        id: id_at(kind, id_table(kind, bytes), at),
    };
    OK
}

/// The id of the object at a position. An error leaves `id` as it was.
#[unsafe(no_mangle)]
pub extern "C" fn gix_hash_pack_id(kind: u32, bytes: &[u8], at: usize, id: &mut Id) -> u32
    ensures { IdAtAnswer (kind_of_number kind) bytes.now at result id.old id.new }
{
    let Some(kind) = kind_of(kind) else {
        return BAD_KIND;
    };
    if let Err(cause) = tables(kind, bytes) {
        return cause;
    }
    if at >= num_objects(bytes) as usize {
        return OUT_OF_RANGE;
    }
    *id = id_at(kind, id_table(kind, bytes), at);
    OK
}

/// The run of a prefix among the ids. An error leaves `run` as it was.
#[unsafe(no_mangle)]
pub extern "C" fn gix_hash_pack_find(kind: u32, bytes: &[u8], prefix: &Prefix, run: &mut Run) -> u32
    ensures { PackFindAnswer (kind_of_number kind) bytes.now (prefix_in prefix.now) result
        run.old run.new }
{
    let Some(kind) = kind_of(kind) else {
        return BAD_KIND;
    };
    let Some(prefix) = prefix_of(prefix) else {
        return BAD_LENGTH;
    };
    if prefix.hex_len() > kind.len_in_hex() {
        return PREFIX_TOO_LONG;
    }
    if let Err(cause) = tables(kind, bytes) {
        return cause;
    }
    *run = find_in(kind, id_table(kind, bytes), &prefix, guess(bytes, &prefix));
    OK
}

/// The length of the abbreviation, the shortest prefix of 4 digits or more with which no other id
/// begins. An error leaves `hex_len` as it was.
#[unsafe(no_mangle)]
pub extern "C" fn gix_hash_pack_abbreviate(
    kind: u32,
    bytes: &[u8],
    at: usize,
    hex_len: &mut usize,
) -> u32
    ensures { ShortestAnswer (kind_of_number kind) bytes.now at result hex_len.old hex_len.new }
{
    let Some(kind) = kind_of(kind) else {
        return BAD_KIND;
    };
    if let Err(cause) = tables(kind, bytes) {
        return cause;
    }
    if at >= num_objects(bytes) as usize {
        return OUT_OF_RANGE;
    }
    match shortest_at(kind, id_table(kind, bytes), at) {
        Some(len) => {
            *hex_len = len;
            OK
        }
        None => NOT_UNIQUE,
    }
}

// The number of a cause.
fn cause_of(error: Error) -> u32
    ensures { result ≡ cause_number error }
{
    match error {
        Error::TooShort => INDEX_TOO_SHORT,
        Error::Version1 => VERSION_1,
        Error::BadMagic => BAD_MAGIC,
        Error::BadVersion(_) => BAD_VERSION,
        Error::WrongLength => WRONG_LENGTH,
        Error::IdsFall(_) => NAMES_FALL,
        Error::WrongCount(_) => WRONG_COUNT,
        Error::NoOffset(_) => NO_OFFSET,
        Error::LongOutOfOrder(_) => LONG_OUT_OF_ORDER,
        Error::SpareLong(_) => SPARE_LONG,
        Error::OffsetInHeader(_) => OFFSET_IN_HEADER,
        Error::OffsetTooHigh(_) => OFFSET_TOO_HIGH,
        Error::WrongChecksum => WRONG_CHECKSUM,
        Error::OtherKind(_) => OTHER_KIND,
    }
}

// The detail of a cause, or what was there if it has none.
fn detail_of(error: Error, old: u64) -> u64
    ensures { result ≡ detail_of error old }
{
    match error {
        Error::BadVersion(version) => u64::from(version),
        Error::WrongCount(byte) => u64::from(byte),
        Error::IdsFall(at)
        | Error::NoOffset(at)
        | Error::LongOutOfOrder(at)
        | Error::SpareLong(at)
        | Error::OffsetInHeader(at)
        | Error::OffsetTooHigh(at) => at as u64,
        Error::OtherKind(Kind::Sha1) => 1,
        Error::OtherKind(Kind::Sha256) => 2,
        _ => old,
    }
}

// Whether the bytes have the header and the tables of an index.
fn tables(kind: Kind, bytes: &[u8]) -> Result<(), u32>
    ensures head { OnOk result (HasHead kind bytes.now) }
    ensures tables { OnOk result (HasTables kind bytes.now) }
    ensures err { IfErr result (IsTablesFault kind bytes.now) }
{
    match check_tables(bytes, kind) {
        Ok(()) => Ok(()),
        Err(error) => Err(cause_of(error)),
    }
}

// The bytes of the ids.
fn id_table(kind: Kind, bytes: &[u8]) -> &[u8]
    requires { HasTables kind bytes.now }
    ensures { result.now ≡ slice_range bytes.now ids_start (crc_table_start kind bytes.now) }
{
    &bytes[IDS_START..crc_table_start(bytes, kind)]
}

// A guess where the ids with the prefix are. The counts say which ids have its first byte, and
// among these its next digits are taken as if the ids were spread evenly. The guess changes no
// result.
fn guess(bytes: &[u8], prefix: &gix_hash::Prefix) -> id_lookup::Run
    requires { ids_start ≤ length bytes.now }
{
    let first = prefix.first_byte();
    let other_digits = if prefix.hex_len() == 1 { 15 } else { 0 };
    let counted = bucket_range(bytes, first, first | other_digits);
    let bytes = prefix.as_oid().as_bytes();
    let next = u32::from_be_bytes([bytes[1], bytes[2], bytes[3], bytes[4]]);
    let size = counted.end.saturating_sub(counted.start);
    let place = counted
        .start
        .saturating_add(size.saturating_mul(next as usize) >> 32);
    id_lookup::Run {
        start: place.saturating_sub(NEAR).max(counted.start),
        end: place.saturating_add(NEAR).min(counted.end),
    }
}

// The id at a position of a table.
fn id_at(kind: Kind, table: &[u8], at: usize) -> Id
    requires { at < length (digests_in kind table.now) }
    ensures { HoldsId (kind_digits kind (slice_index_or (digests_in kind table.now) at [])) result }
{
    match kind {
        Kind::Sha1 => to_c(&ObjectId::Sha1(table.as_chunks().0[at])),
        Kind::Sha256 => to_c(&ObjectId::Sha256(table.as_chunks().0[at])),
    }
}

// The length of the abbreviation at a position of a table.
fn shortest_at(kind: Kind, table: &[u8], at: usize) -> Option<usize>
    requires { at < length (digests_in kind table.now) }
    ensures long { IfSome result (λ hex_len. 4 ≤ hex_len) }
    ensures in_range { IfSome result (λ hex_len. hex_len ≤ hex_len_of kind) }
    ensures abbreviation { IfSome result (λ hex_len. IsSortedIds (digests_in kind table.now)
        → IsShortestAbbreviation (digests_in kind table.now) at
        (take hex_len (slice_index_or (digests_in kind table.now) at []))) }
    ensures none { IsNone result → IsSortedIds (digests_in kind table.now)
        → (prefix : List ℕ) → ¬ IsShortestAbbreviation (digests_in kind table.now) at prefix }
{
    let abbreviation = match kind {
        Kind::Sha1 => abbreviate_assuming_sorted::<[u8; 20]>(table.as_chunks().0, at),
        Kind::Sha256 => abbreviate_assuming_sorted::<[u8; 32]>(table.as_chunks().0, at),
    };
    match abbreviation {
        Some(abbreviation) => Some(abbreviation.hex_len()),
        None => None,
    }
}

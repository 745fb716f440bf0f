//! What is checked of the bytes of a pack index.

ghost use Rattle.std.specs.Prelude.{◌≡◌, ◌↔◌, ◌<◌, ◌≤◌, IfErr, IsTrue, MatchOption, OnOk, length};
ghost use Rattle.id_lookup.specs.Words.{IsFanOut};
ghost use Rattle.pack_index.specs.Format.{BeginsIndex, Each, FillsBytes, HasCount, HasCounts, HasHead, HasOffset, HasTables, IsFault, IsFirstNot, IsHeadFault, min_len, ids_in, ids_start, num_objects, other_than, version_1_len};
ghost use Rattle.pack_index.specs.Lazy.{Rises, fan_out};

use crate::error::Error;
use crate::words::{
    IDS_START, LONG, fan_out_entry, long_table_start, num_objects, offset_word, tables_end, word_at,
};
use gix_hash::Kind;
use id_lookup::FanOut;

const MAGIC: u32 = 0xff74_4f63;

const VERSION: u32 = 2;

// The length of the fan-out table, with which an index of version 1 begins.
pub(crate) const COUNTS_LEN: usize = 1024;

/// Checks that the bytes begin as a pack index of version 2, and that its tables fill them: not its
/// ids, offsets and checksum. Otherwise the error is the first one that holds of those from
/// [`Error::TooShort`] to [`Error::WrongLength`].
pub fn check_tables(bytes: &[u8], kind: Kind) -> Result<(), Error>
    ensures head { OnOk result (HasHead kind bytes.now) }
    ensures tables { OnOk result (HasTables kind bytes.now) }
    ensures err { IfErr result (IsFault kind bytes.now) }
    ensures early { IfErr result (λ _. ¬ (HasHead kind bytes.now × HasTables kind bytes.now)) }
{
    if bytes.len() < COUNTS_LEN + 2 * kind.len_in_bytes() {
        return Err(Error::TooShort);
    }
    match check_head(bytes, kind, bytes.len() as u64) {
        Err(Error::OtherKind(_)) => Err(Error::WrongLength),
        result => result,
    }
}

// Checks the first of `len` bytes, at least the head of an index, and that its tables fill them.
// The error is the first one that holds of those from `OtherKind` to `WrongLength`.
pub(crate) fn check_head(first: &[u8], kind: Kind, len: u64) -> Result<(), Error>
    requires head { ids_start ≤ length first.now }
    requires enough { min_len kind ≤ len }
    ensures head { OnOk result (BeginsIndex kind first.now len) }
    ensures tables { OnOk result (FillsBytes kind (num_objects first.now) len) }
    ensures err { IfErr result (IsHeadFault kind first.now len) }
{
    if word_at(first, 0) != MAGIC {
        return Err(if len == version_1_len(first, kind) as u64 {
            Error::Version1
        } else {
            Error::BadMagic
        });
    }
    let version = word_at(first, 4);
    if version != VERSION {
        return Err(Error::BadVersion(version));
    }
    if fills_bytes(first, kind, len) {
        return Ok(());
    }
    let other = other_than(kind);
    Err(if fills_bytes(first, other, len) {
        Error::OtherKind(other)
    } else {
        Error::WrongLength
    })
}

// How many bytes an index of version 1 has, by its last fan-out entry.
fn version_1_len(bytes: &[u8], kind: Kind) -> usize
    requires { ids_start ≤ length bytes.now }
    ensures { result ≡ version_1_len kind bytes.now }
{
    let count = word_at(bytes, IDS_START - 12) as usize;
    let ids = match kind {
        Kind::Sha1 => 20 * count,
        Kind::Sha256 => 32 * count,
    };
    COUNTS_LEN + ids + 4 * count + 2 * kind.len_in_bytes()
}

// The other kind.
pub(crate) fn other_than(kind: Kind) -> Kind
    ensures { result ≡ other_than kind }
{
    match kind {
        Kind::Sha1 => Kind::Sha256,
        Kind::Sha256 => Kind::Sha1,
    }
}

// Whether the tables of as many objects as the last fan-out entry says, and the digests, fill `len`
// bytes.
fn fills_bytes(first: &[u8], kind: Kind, len: u64) -> bool
    requires { ids_start ≤ length first.now }
    ensures { IsTrue result ↔ FillsBytes kind (num_objects first.now) len }
{
    let least = long_table_start(first, kind) as u64 + 2 * kind.len_in_bytes() as u64;
    let most = u64::from(num_objects(first)).saturating_sub(1);
    least <= len && (len - least) % 8 == 0 && len <= least + 8 * most
}

// The first byte whose fan-out entry is wrong.
pub(crate) fn first_wrong_count(bytes: &[u8], fan_out: &FanOut, kind: Kind) -> Option<u8>
    requires tables { HasTables kind bytes.now }
    requires fan_out { IsFanOut fan_out.now (ids_in kind bytes.now) }
    ensures { MatchOption result (HasCounts kind bytes.now)
        (IsFirstNot (HasCount kind bytes.now) 256) }
{
    for byte in 0..=255 {
        if fan_out_entry(bytes, byte) as usize != fan_out.up_to(byte) {
            return Some(byte);
        }
    }
    None
}

// The first byte whose fan-out entry is below the one before it.
pub(crate) fn first_fall(head: &[u8]) -> Option<u8>
    requires { ids_start ≤ length head.now }
    ensures { MatchOption result (Each (Rises (fan_out head.now)) 256)
        (IsFirstNot (Rises (fan_out head.now)) 256) }
{
    let mut before = 0;
    for byte in 0..=255 {
        let count = fan_out_entry(head, byte);
        if count < before {
            return Some(byte);
        }
        before = count;
    }
    None
}

// The first object whose offset is in no table.
pub(crate) fn first_without_offset(bytes: &[u8], kind: Kind) -> Option<usize>
    requires { HasTables kind bytes.now }
    ensures { MatchOption result (Each (HasOffset kind bytes.now) (num_objects bytes.now))
        (IsFirstNot (HasOffset kind bytes.now) (num_objects bytes.now)) }
{
    for at in 0..num_objects(bytes) as usize {
        if !has_offset(bytes, kind, at) {
            return Some(at);
        }
    }
    None
}

/// Whether the offset of object `at`, which must be below the number of objects, is in a table.
pub fn has_offset(bytes: &[u8], kind: Kind, at: usize) -> bool
    requires tables { HasTables kind bytes.now }
    requires in_range { at < num_objects bytes.now }
    ensures { IsTrue result ↔ HasOffset kind bytes.now at }
{
    let word = offset_word(bytes, kind, at);
    let end = tables_end(bytes, kind);
    word < LONG || long_table_start(bytes, kind) + 8 * (word - LONG) as usize + 8 <= end
}

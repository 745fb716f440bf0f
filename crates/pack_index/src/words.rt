//! Numbers and tables in the bytes of a pack index.

ghost use Rattle.std.specs.Prelude.{◌≡◌, ◌+◌, ◌*◌, ◌<◌, ◌≤◌, ◌^◌, length};
ghost use Rattle.id_lookup.specs.Words.{byte_len_of};
ghost use Rattle.pack_index.specs.Format.{HasOffset, HasTables, crc_in, crc_table_start, digest_at, long_table_start, ids_start, num_objects, offset_in, offset_table_start, offset_word, tables_end, word_at};
ghost use Rattle.pack_index.specs.Lazy.{bucket_start, fan_out};

use gix_hash::Kind;
use id_lookup::Run;

/// Where the ids begin, in bytes from the start of the index.
pub const IDS_START: usize = 1032;

/// The smallest word of the table of offsets that refers to an 8-byte offset.
pub(crate) const LONG: u32 = 0x8000_0000;

// The number that is written in the four bytes from a position on, the highest first.
#[tactic(auto, unfolding(crate::specs::Format::word_at))]
pub(crate) fn word_at(bytes: &[u8], at: usize) -> u32
    requires { at + 4 ≤ length bytes.now }
    ensures { result ≡ word_at bytes.now at }
{
    u32::from_be_bytes([bytes[at], bytes[at + 1], bytes[at + 2], bytes[at + 3]])
}

// The number that is written in the eight bytes from a position on.
pub(crate) fn long_word_at(bytes: &[u8], at: usize) -> u64
    requires { at + 8 ≤ length bytes.now }
    ensures { result ≡ 2 ^ 32 * word_at bytes.now at + word_at bytes.now (at + 4) }
{
    0x1_0000_0000 * u64::from(word_at(bytes, at)) + u64::from(word_at(bytes, at + 4))
}

/// The number of objects, the last entry of the fan-out table.
pub fn num_objects(bytes: &[u8]) -> u32
    requires { ids_start ≤ length bytes.now }
    ensures { result ≡ num_objects bytes.now }
{
    word_at(bytes, IDS_START - 4)
}

/// The fan-out entry of a byte: the number of ids with at most that first byte.
pub fn fan_out_entry(bytes: &[u8], byte: u8) -> u32
    requires { ids_start ≤ length bytes.now }
    ensures { result ≡ fan_out bytes.now byte }
{
    word_at(bytes, 8 + 4 * usize::from(byte))
}

/// The positions of the ids with first bytes from `first` to `last`, by the fan-out table. If that
/// is wrong, they may be positions of no ids, and `end` may be below `start`.
pub fn bucket_range(bytes: &[u8], first: u8, last: u8) -> Run
    requires { ids_start ≤ length bytes.now }
    ensures start { result.start ≡ bucket_start (fan_out bytes.now) first }
    ensures end { result.end ≡ fan_out bytes.now last }
{
    let below = if first == 0 {
        0
    } else {
        fan_out_entry(bytes, first - 1)
    };
    Run {
        start: below as usize,
        end: fan_out_entry(bytes, last) as usize,
    }
}

/// Where the CRCs begin and the ids end, in bytes from the start of the index.
pub fn crc_table_start(bytes: &[u8], kind: Kind) -> usize
    requires { ids_start ≤ length bytes.now }
    ensures start { result ≡ crc_table_start kind bytes.now }
    ensures small { result < 2 ^ 40 }
{
    let count = num_objects(bytes) as usize;
    let len = match kind {
        Kind::Sha1 => 20 * count,
        Kind::Sha256 => 32 * count,
    };
    IDS_START + len
}

// Where the offsets begin.
pub(crate) fn offset_table_start(bytes: &[u8], kind: Kind) -> usize
    requires { ids_start ≤ length bytes.now }
    ensures start { result ≡ offset_table_start kind bytes.now }
    ensures small { result < 2 ^ 41 }
{
    crc_table_start(bytes, kind) + 4 * num_objects(bytes) as usize
}

// Where the 8-byte offsets begin.
pub(crate) fn long_table_start(bytes: &[u8], kind: Kind) -> usize
    requires { ids_start ≤ length bytes.now }
    ensures start { result ≡ long_table_start kind bytes.now }
    ensures small { result < 2 ^ 42 }
{
    offset_table_start(bytes, kind) + 4 * num_objects(bytes) as usize
}

// Where the 8-byte offsets end.
pub(crate) fn tables_end(bytes: &[u8], kind: Kind) -> usize
    requires { 2 * byte_len_of kind ≤ length bytes.now }
    ensures { result ≡ tables_end kind bytes.now }
{
    bytes.len() - 2 * kind.len_in_bytes()
}

// Where the digest of all bytes before it begins.
pub(crate) fn digest_at(bytes: &[u8], kind: Kind) -> usize
    requires { byte_len_of kind ≤ length bytes.now }
    ensures { result ≡ digest_at kind bytes.now }
{
    bytes.len() - kind.len_in_bytes()
}

/// The CRC-32 of object `at`, which must be below the number of objects, as stored in the index.
pub fn crc_in(bytes: &[u8], kind: Kind, at: usize) -> u32
    requires tables { HasTables kind bytes.now }
    requires in_range { at < num_objects bytes.now }
    ensures { result ≡ crc_in kind bytes.now at }
{
    word_at(bytes, crc_table_start(bytes, kind) + 4 * at)
}

// The word that the table of offsets has for object `at`.
pub(crate) fn offset_word(bytes: &[u8], kind: Kind, at: usize) -> u32
    requires tables { HasTables kind bytes.now }
    requires in_range { at < num_objects bytes.now }
    ensures { result ≡ offset_word kind bytes.now at }
{
    word_at(bytes, offset_table_start(bytes, kind) + 4 * at)
}

/// The offset of object `at` in the pack, in bytes. `at` must be below the number of objects, and
/// have an offset: [`has_offset`](crate::tables::has_offset).
pub fn offset_in(bytes: &[u8], kind: Kind, at: usize) -> u64
    requires tables { HasTables kind bytes.now }
    requires in_range { at < num_objects bytes.now }
    requires has { HasOffset kind bytes.now at }
    ensures { result ≡ offset_in kind bytes.now at }
{
    let word = offset_word(bytes, kind, at);
    if word < LONG {
        return u64::from(word);
    }
    long_word_at(
        bytes,
        long_table_start(bytes, kind) + 8 * (word - LONG) as usize,
    )
}

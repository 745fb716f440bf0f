//! The lines of a pack index and of abbreviations, put together in a buffer, many of them at once.
//!
//! Each call returns where its line ends. An `ArrayVec` knows its length, but took 116 instructions
//! more for a line of a pack index, and 48 for one of an abbreviation.

ghost use Rattle.std.specs.Prelude.{◌≡◌, ◌+◌, ◌<◌, ◌≤◌, ◌++◌, IfOk, OnErr, OnOk, decimal, false, true, length, take};
ghost use Rattle.id_lookup.specs.Words.{hex_letter, oid_digits, spelling};
ghost use Rattle.pack_index.specs.Format.{ids_in};
ghost use Rattle.packtool_commands.specs.Files.{KeepsBack, crc_text, hex_of, index_line, line_of_object};
ghost use Rattle.packtool_commands.specs.Stores.{abbreviated_line};
ghost use Rattle.streams.specs.Streams.{AppendsBeginning};

use gix_hash::{Alphabet, Kind, oid};
use hex::encode_to_slice;
use id_lookup::begins_with;
use itoa::Buffer;
use object_store::AbbreviatedId;
use pack_index::File;
use streams::{Sink, WriteFailed, write_all};

/// The length of a buffer for lines that are written together.
pub(crate) const LINES_LEN: usize = 16384;

// The length of the longest line of an abbreviation and its id: 64 digits of each, a space and a
// line feed. That of an offset of 20 digits, an id and a CRC of 8 is shorter.
const MAX_LINE_LEN: usize = 130;

// The most digits of an id.
const MAX_ID_LEN: usize = 64;

// The digits of a CRC.
const CRC_LEN: usize = 8;

/// The position of the next line in a buffer whose lines end at a position: right there or, if the
/// buffer is nearly full, at its start, after its lines were written.
pub(crate) fn next_line_at<W: Sink>(
    lines: &[u8],
    end: usize,
    out: &mut W,
) -> Result<usize, WriteFailed>
    requires lines { length lines.now ≡ LINES_LEN }
    requires end { end ≤ LINES_LEN }
    requires output { W.has_failed out.old ≡ false }
    ensures room { IfOk result (λ at. at + MAX_LINE_LEN ≤ LINES_LEN) }
    ensures kept { IfOk result (λ at.
        KeepsBack (W.taken out.old) (W.taken out.new) (take at lines.now) (take end lines.now)) }
    ensures not_failed { OnOk result (W.has_failed out.new ≡ false) }
    ensures part { OnErr result (AppendsBeginning (W.taken out.old) (W.taken out.new)
        (take end lines.now)) }
    ensures failed { OnErr result (W.has_failed out.new ≡ true) }
{
    if end + MAX_LINE_LEN <= LINES_LEN {
        return Ok(end);
    }
    write_all(out, &lines[..end])?;
    Ok(0)
}

/// Writes the line of the object at an index into the buffer at a position, and returns where it
/// ends.
pub(crate) fn put_index_line(line: &mut [u8], at: usize, file: &File<'_>, index: usize) -> usize
    requires location { index < length (ids_in file.now.kind file.now.bytes) }
    requires room { at + MAX_LINE_LEN ≤ length line.old }
    ensures most { result ≤ at + MAX_LINE_LEN }
    ensures text { take result line.new
        ≡ take at line.old ++ index_line file.now.kind file.now.bytes index }
{
    let offset = file.pack_offset_at_index(index);
    let id = file.oid_at_index(index);
    let crc = file.crc32_at_index(index);
    put_offset_id_crc(line, at, offset, id, crc)
}

// Writes a line of these parts into the buffer at a position, and returns where it ends.
fn put_offset_id_crc(line: &mut [u8], at: usize, offset: u64, id: oid<'_>, crc: u32) -> usize
    requires { at + MAX_LINE_LEN ≤ length line.old }
    ensures most { result ≤ at + MAX_LINE_LEN }
    ensures text { take result line.new ≡ take at line.old
        ++ line_of_object (decimal offset) (spelling hex_letter (oid_digits id.entry))
        (crc_text crc) }
{
    let mut number = Buffer::new();
    let offset = number.format(offset).as_bytes();
    let offset_end = put(line, at, offset);
    let id_at = put(line, offset_end, b" ");
    let id_end = put_id(line, id_at, id);
    let crc_at = put(line, id_end, b" (");
    let crc_end = put_crc(line, crc_at, crc);
    put(line, crc_end, b")\n")
}

/// Writes the line of an id and its abbreviation into the buffer at a position, and returns where
/// it ends.
pub(crate) fn put_abbreviated_line(line: &mut [u8], at: usize, abbreviated: &AbbreviatedId) -> usize
    requires { at + MAX_LINE_LEN ≤ length line.old }
    ensures most { result ≤ at + MAX_LINE_LEN }
    ensures text { take result line.new ≡ take at line.old ++ abbreviated_line abbreviated.now }
{
    let mut letters = Kind::hex_buf();
    let end = put_id(&mut letters, 0, abbreviated.id.as_oid());
    let id = &letters[..end];
    let name_end = put_abbreviation(line, at, abbreviated, id);
    let id_at = put(line, name_end, b" ");
    let id_end = put(line, id_at, id);
    put(line, id_end, b"\n")
}

// Writes the abbreviation of an id into the buffer at a position, and returns where it ends. It is
// copied from the letters of the id, if these begin with it.
fn put_abbreviation(line: &mut [u8], at: usize, abbreviated: &AbbreviatedId, id: &[u8]) -> usize
    requires room { at + MAX_ID_LEN ≤ length line.old }
    requires id { id.now ≡ hex_of abbreviated.now.id }
    ensures most { result ≤ at + MAX_ID_LEN }
    ensures text { take result line.new
        ≡ take at line.old ++ spelling hex_letter abbreviated.now.abbreviation.digits }
{
    let len = abbreviated.abbreviation.hex_len();
    if len <= abbreviated.id.kind().len_in_hex()
        && begins_with(&abbreviated.id, &abbreviated.abbreviation)
    {
        return put(line, at, &id[..len]);
    }
    abbreviated.abbreviation.put_hex(&mut line[at..]);
    at + len
}

/// Copies bytes into the buffer at a position, and returns where they end.
pub(crate) fn put(line: &mut [u8], at: usize, bytes: &[u8]) -> usize
    requires { at + length bytes.now ≤ length line.old }
    ensures end { result ≡ at + length bytes.now }
    ensures text { take result line.new ≡ take at line.old ++ bytes.now }
{
    let end = at + bytes.len();
    line[at..end].copy_from_slice(bytes);
    end
}

/// Writes an id's digits in hex into the buffer at a position, and returns where they end.
pub(crate) fn put_id(line: &mut [u8], at: usize, id: oid<'_>) -> usize
    requires { at + MAX_ID_LEN ≤ length line.old }
    ensures end { result ≡ at + length (oid_digits id.entry) }
    ensures most { result ≤ at + MAX_ID_LEN }
    ensures text { take result line.new
        ≡ take at line.old ++ spelling hex_letter (oid_digits id.entry) }
{
    Alphabet::Hex.put_id(id, &mut line[at..]);
    at + id.kind().len_in_hex()
}

// Writes a CRC's eight hex digits into the buffer at a position, and returns where they end.
#[tactic(auto, unfolding(crate::specs::Files::crc_text))]
fn put_crc(line: &mut [u8], at: usize, crc: u32) -> usize
    requires { at + CRC_LEN ≤ length line.old }
    ensures end { result ≡ at + CRC_LEN }
    ensures text { take result line.new ≡ take at line.old ++ crc_text crc }
{
    let end = at + CRC_LEN;
    encode_to_slice(crc.to_be_bytes(), &mut line[at..end]).unwrap();
    end
}

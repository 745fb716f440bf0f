//! Multi-pack-indexes in memory.

use crate::expecting::expect;
use gix_hash::{Kind, ObjectId, Prefix};
use pack_index::{LazyError, LazyFile, MultiPackIndex};
use std::alloc::{AllocError, Global};
use std::test::Fail;

// The first byte of all ids, and how many they are.
const FIRST_BYTE: u8 = 0x4b;

const COUNT: u32 = 100;

// So many ids with a first byte are read without a search.
const FEW: usize = 32;

// The names of the packs, and zeros up to a multiple of four bytes.
const NAMES: &[u8] = b"pack-a.idx\0pack-b.idx\0\0\0";

// Where the fan-out table and the ids begin.
const COUNTS_START: u32 = 84;

const IDS_START: u32 = 1108;

// The id at a position.
fn name_of(kind: Kind, at: u32) -> ObjectId {
    let mut name = kind.null();
    let bytes = name.as_mut_slice();
    bytes[0] = FIRST_BYTE;
    bytes[1..5].copy_from_slice(&at.wrapping_mul(u32::MAX / COUNT).to_be_bytes());
    name
}

// The bytes of a multi-pack-index of version 1 with the chunks that are read. Its digest is zeros.
fn multi_of(alloc: Global, kind: Kind) -> Result<Vec<u8>, AllocError> {
    let (version, id_len) = match kind {
        Kind::Sha1 => (1, 20),
        Kind::Sha256 => (2, 32),
    };
    let mut bytes = Vec::new(alloc);
    bytes.extend_from_slice(b"MIDX\x01")?;
    bytes.extend_from_slice(&[version, 3, 0, 0, 0, 0, 2])?;
    for &(letters, start) in &[
        (b"PNAM", 60),
        (b"OIDF", COUNTS_START),
        (b"OIDL", IDS_START),
        (b"\0\0\0\0", IDS_START + COUNT * id_len),
    ] {
        bytes.extend_from_slice(letters)?;
        bytes.extend_from_slice(&u64::from(start).to_be_bytes())?;
    }
    bytes.extend_from_slice(NAMES)?;
    for byte in 0..=255 {
        let up_to = if byte < FIRST_BYTE { 0 } else { COUNT };
        bytes.extend_from_slice(&up_to.to_be_bytes())?;
    }
    for at in 0..COUNT {
        bytes.extend_from_slice(name_of(kind, at).as_bytes())?;
    }
    bytes.extend_from_slice(kind.null().as_bytes())?;
    Ok(bytes)
}

// What a slice is opened as, if its chunk of names has at most so many bytes.
fn open(
    alloc: Global,
    bytes: &[u8],
    kind: Kind,
    most: u64,
) -> Result<Option<MultiPackIndex<&[u8], Global>>, LazyError> {
    LazyFile::open_multi(alloc, bytes, kind, most)
}

// Each id is found where it is, and no other, among all with its first byte and among some.
#[test]
fn each_is_found(rt: HostRuntime) -> Result<(), Fail> {
    for &kind in &[Kind::Sha1, Kind::Sha256] {
        let bytes = multi_of(rt.alloc(), kind)?;
        let Some(mut multi) = open(rt.alloc(), &bytes, kind, 1000)? else {
            return Err(Fail::new("it is no multi-pack-index"));
        };
        expect!(&rt; multi.names.as_slice() == NAMES, kind);
        expect!(&rt; multi.ids.num_objects() == COUNT, kind);
        for at in 0..COUNT {
            let name = name_of(kind, at);
            expect!(&rt; multi.ids.reads_part(FIRST_BYTE, FEW) == (at > 0), at);
            let found = position_of(rt.alloc(), &mut multi.ids, &name)?;
            expect!(&rt; found == Some(at), at);
            let mut other = name;
            other.as_mut_slice()[19] = 1;
            let found = position_of(rt.alloc(), &mut multi.ids, &other)?;
            expect!(&rt; found.is_none(), at);
        }
    }
    Ok(())
}

// The position of an id.
fn position_of(
    alloc: Global,
    index: &mut LazyFile<&[u8]>,
    name: &ObjectId,
) -> Result<Option<u32>, LazyError> {
    if name.kind() != index.object_hash() {
        return Ok(None);
    }
    let bucket = index.part(alloc, &Prefix::from(*name), FEW)?;
    Ok(index.lookup(&bucket, name.as_oid()))
}

// It has no offsets.
#[test]
fn no_offset_is_read(rt: HostRuntime) -> Result<(), Fail> {
    let bytes = multi_of(rt.alloc(), Kind::Sha1)?;
    let Some(multi) = open(rt.alloc(), &bytes, Kind::Sha1, 1000)? else {
        return Err(Fail::new("it is no multi-pack-index"));
    };
    if multi.ids.num_objects() > 7 {
        let offset = multi.ids.pack_offset_at_index(7);
        expect!(&rt; matches!(offset, Err(LazyError::NoOffset(7))), ());
    }
    Ok(())
}

// With one byte changed: a letter, the version, that of the digests, the number of chunks, that of
// base files, the letters of each chunk, where one begins or ends, and two entries of the fan-out
// table.
#[test]
fn nothing_else_is_read(rt: HostRuntime) -> Result<(), Fail> {
    for &kind in &[Kind::Sha1, Kind::Sha256] {
        let mut bytes = multi_of(rt.alloc(), kind)?;
        for &(at, value) in &[
            (0, b'm'),
            (4, 2),
            (5, 3),
            (6, 2),
            (7, 1),
            (12, b'X'),
            (24, b'X'),
            (36, b'X'),
            (31, 1),
            (35, 85),
            (47, 85),
            (59, 1),
            (84, 1),
            (1107, 101),
        ] {
            assert!(rt; at < bytes.len());
            let old = bytes[at];
            bytes[at] = value;
            expect!(&rt; open(rt.alloc(), &bytes, kind, 1000)?.is_none(), at);
            assert!(rt; at < bytes.len());
            bytes[at] = old;
            expect!(&rt; open(rt.alloc(), &bytes, kind, 1000)?.is_some(), at);
        }
    }
    Ok(())
}

// Nor of another kind, cut off anywhere, or with more names than are wanted.
#[test]
fn nor_another_nor_a_part(rt: HostRuntime) -> Result<(), Fail> {
    let bytes = multi_of(rt.alloc(), Kind::Sha1)?;
    expect!(&rt; open(rt.alloc(), &bytes, Kind::Sha256, 1000)?.is_none(), ());
    for len in 0..bytes.len() {
        let part = &bytes[..len];
        expect!(&rt; open(rt.alloc(), part, Kind::Sha1, 1000)?.is_none(), len);
    }
    expect!(&rt; open(rt.alloc(), &bytes, Kind::Sha1, 23)?.is_none(), ());
    expect!(&rt; open(rt.alloc(), &bytes, Kind::Sha1, 24)?.is_some(), ());
    Ok(())
}

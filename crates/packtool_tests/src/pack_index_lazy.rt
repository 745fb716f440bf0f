//! Pack indexes in memory, read at positions.

use crate::expecting::expect;
use gix_hash::{Kind, ObjectId, Prefix};
use linked_list_allocator::LocalHeap;
use pack_index::{LazyError, LazyFile};
use std::alloc::{AllocError, Global};
use std::test::Fail;

// The first byte of all ids.
const FIRST_BYTE: u8 = 0x4b;

// More ids than 16 bits count.
const MANY: u32 = 65_537;

// So many ids with a first byte are read without a search.
const FEW: usize = 32;

// No positions of ids.
const NONE: (u32, u32) = (u32::MAX, u32::MAX);

// The id with these four bytes after the first, and zeros after them.
fn name_of(kind: Kind, place: u32) -> ObjectId {
    let mut name = kind.null();
    let bytes = name.as_mut_slice();
    bytes[0] = FIRST_BYTE;
    bytes[1..5].copy_from_slice(&place.to_be_bytes());
    name
}

// The bytes of an index of ids that are so far apart, in order, but for two that are swapped. Its
// CRCs and digests are zeros, and the offset of each id is 12 above its position.
fn index_of(
    alloc: Global,
    kind: Kind,
    count: u32,
    step: u32,
    swapped: (u32, u32),
) -> Result<Vec<u8>, AllocError> {
    let mut bytes = Vec::new(alloc);
    bytes.extend_from_slice(b"\xfftOc\0\0\0\x02")?;
    for byte in 0..=255 {
        let up_to = if byte < FIRST_BYTE { 0 } else { count };
        bytes.extend_from_slice(&up_to.to_be_bytes())?;
    }
    for at in 0..count {
        let place = place_at(at, swapped).wrapping_mul(step);
        bytes.extend_from_slice(name_of(kind, place).as_bytes())?;
    }
    for _ in 0..count {
        bytes.extend_from_slice(&[0; 4])?;
    }
    for at in 0..count {
        bytes.extend_from_slice(&at.wrapping_add(12).to_be_bytes())?;
    }
    bytes.extend_from_slice(kind.null().as_bytes())?;
    bytes.extend_from_slice(kind.null().as_bytes())?;
    Ok(bytes)
}

// A position, or the other one of two that are swapped.
fn place_at(at: u32, (first, second): (u32, u32)) -> u32 {
    if at == first {
        second
    } else if at == second {
        first
    } else {
        at
    }
}

// How many bytes of ids are read for an id, its position, and its offset.
fn find(
    alloc: Global,
    index: &mut LazyFile<&[u8]>,
    name: &ObjectId,
) -> Result<(usize, Option<(u32, u64)>), LazyError> {
    if name.kind() != index.object_hash() {
        return Ok((0, None));
    }
    let bucket = index.part(alloc, &Prefix::from(*name), FEW)?;
    let len = bucket.ids().len();
    match index.lookup(&bucket, name.as_oid()) {
        Some(at) => Ok((len, Some((at, index.pack_offset_at_index(at)?)))),
        None => Ok((len, None)),
    }
}

// The ids that begin with a prefix of two digits or more.
fn matches(
    alloc: Global,
    index: &mut LazyFile<&[u8]>,
    prefix: &Prefix,
) -> Result<Vec<ObjectId>, LazyError> {
    let mut ids = Vec::new(alloc);
    if prefix.hex_len() >= 2 && prefix.hex_len() <= index.object_hash().len_in_hex() {
        let bucket = index.part(alloc, prefix, FEW)?;
        bucket.push_matches(prefix, &mut ids)?;
    }
    Ok(ids)
}

#[test]
fn the_last_is_found(rt: HostRuntime) -> Result<(), Fail> {
    let bytes = index_of(rt.alloc(), Kind::Sha1, MANY, 1, NONE)?;
    let mut index = LazyFile::open(&bytes[..], Kind::Sha1)?;
    let last = ObjectId::from_hex(b"4b00010000000000000000000000000000000000")?;
    for turn in 0..2 {
        let (_, found) = find(rt.alloc(), &mut index, &last)?;
        expect!(&rt; found == Some((65_536, 65_548)), turn);
    }
    Ok(())
}

// After the first look-up some ids are read for each, and found where they are. No other id is.
#[test]
fn each_is_found_among_some(rt: HostRuntime) -> Result<(), Fail> {
    let count = 1000;
    for &kind in &[Kind::Sha1, Kind::Sha256] {
        for &step in &[u32::MAX / 1000, 2] {
            let bytes = index_of(rt.alloc(), kind, count, step, NONE)?;
            let mut index = LazyFile::open(&bytes[..], kind)?;
            let all = 1000 * kind.len_in_bytes();
            for at in 0..count {
                let is_known = index.reads_part(FIRST_BYTE, FEW);
                expect!(&rt; is_known == (at > 0), at);
                let place = at.wrapping_mul(step);
                let (len, found) = find(rt.alloc(), &mut index, &name_of(kind, place))?;
                expect!(&rt; found == Some((at, u64::from(at) + 12)), (at, step));
                expect!(&rt; (len < all) == is_known, (at, step));
                let other = name_of(kind, place.wrapping_add(1));
                let (_, found) = find(rt.alloc(), &mut index, &other)?;
                expect!(&rt; found.is_none(), (at, step));
            }
            expect!(&rt; !index.reads_part(FIRST_BYTE, 1000), step);
        }
    }
    Ok(())
}

// Ids out of order are found at the second look-up as at the first.
#[test]
fn each_is_found_among_unsorted(rt: HostRuntime) -> Result<(), Fail> {
    let (count, step, swapped) = (100, u32::MAX / 100, (10, 90));
    for &kind in &[Kind::Sha1, Kind::Sha256] {
        let bytes = index_of(rt.alloc(), kind, count, step, swapped)?;
        let mut index = LazyFile::open(&bytes[..], kind)?;
        for turn in 0..2 {
            for place in 0..count {
                let at = place_at(place, swapped);
                let name = name_of(kind, place.wrapping_mul(step));
                let (_, found) = find(rt.alloc(), &mut index, &name)?;
                expect!(&rt; found == Some((at, u64::from(at) + 12)), (turn, place));
                expect!(&rt; !index.reads_part(FIRST_BYTE, FEW), (turn, place));
            }
        }
    }
    Ok(())
}

// All ids that begin with a prefix are among those that are read for it.
#[test]
fn all_of_a_prefix_are_found(rt: HostRuntime) -> Result<(), Fail> {
    let bytes = index_of(rt.alloc(), Kind::Sha1, 1000, 1, NONE)?;
    let mut index = LazyFile::open(&bytes[..], Kind::Sha1)?;
    for &(text, first, count) in &[
        ("4b", 0, 1000),
        ("4b000", 0, 1000),
        ("4b000000", 0, 256),
        ("4b000002", 512, 256),
        ("4b0000021", 528, 16),
        ("4b000003e", 992, 8),
        ("4b000003e7", 999, 1),
        ("4b000004", 0, 0),
    ] {
        let prefix = Prefix::from_hex_in(Kind::Sha1, text)?;
        let ids = matches(rt.alloc(), &mut index, &prefix)?;
        expect!(&rt; ids.len() == count, text);
        if let Some(id) = ids.get(0) {
            expect!(&rt; *id == name_of(Kind::Sha1, first), text);
        }
    }
    Ok(())
}

// If memory runs out as ids are added to a list, it has what it had, and the first of them.
#[test]
fn a_list_keeps_its_ids_without_memory(rt: HostRuntime) -> Result<(), Fail> {
    let bytes = index_of(rt.alloc(), Kind::Sha1, MANY, 1, NONE)?;
    let mut index = LazyFile::open(&bytes[..], Kind::Sha1)?;
    let prefix = Prefix::from_hex_in(Kind::Sha1, "4b")?;
    assert!(rt; prefix.hex_len() >= 2);
    let bucket = index.part(rt.alloc(), &prefix, FEW)?;
    for &most in &[256, 4096, 1 << 20] {
        let heap = LocalHeap::new(rt.alloc(), most)?;
        let mut ids = Vec::new(&heap);
        ids.push(Kind::Sha1.null())?;
        expect!(&rt; bucket.push_matches(&prefix, &mut ids).is_err(), most);
        for (at, id) in ids.iter().enumerate() {
            let wanted = match at.checked_sub(1) {
                Some(at) => name_of(Kind::Sha1, u32::try_from(at).unwrap_or(0)),
                None => Kind::Sha1.null(),
            };
            expect!(&rt; *id == wanted, at);
        }
    }
    Ok(())
}

//! A store of two packs and loose objects, whose ids, abbreviations and locations are known.

use crate::memory::{Memory, Reads};
use gix_hash::{Kind, ObjectId};
use object_store::Location;
use pack_index::LazyError;
use std::alloc::Global;
use std::test::Fail;
use test_devices::ids::{ids_of, pack_index};

// The ids of each pack, and the loose ones. Some occur twice or three times.
const FIRST: [&str; 4] = [
    "4b825d0000000000000000000000000000000000",
    "4b825dc642cb6eb9a060e54bf8d69288fbee4904",
    "e69de29bb2d1d6434b8b29ae775ad8c2e48c5391",
    "ffffffffffffffffffffffffffffffffffffffff",
];

const SECOND: [&str; 3] = [
    "0000000000000000000000000000000000000000",
    "4b825dc642cb6eb9a060e54bf8d69288fbee4904",
    "4b90000000000000000000000000000000000000",
];

// The 8-byte offsets of the second pack, of its first two ids.
const LONGS: [u64; 2] = [0x1_0000_000c, 0x7fff_ffff_ffff_ffff];

const LOOSE: [&str; 3] = [
    "e69de29c00000000000000000000000000000000",
    "4b825dc642cb6eb9a060e54bf8d69288fbee4904",
    "e69de29bb2d1d6434b8b29ae775ad8c2e48c5391",
];

// The ids of another store, in its first pack, each with another first byte.
const SPREAD: [&str; 11] = [
    "0000000000000000000000000000000000000000",
    "1111111111111111111111111111111111111111",
    "2222222222222222222222222222222222222222",
    "3333333333333333333333333333333333333333",
    "4444444444444444444444444444444444444444",
    "5555555555555555555555555555555555555555",
    "6666666666666666666666666666666666666666",
    "7777777777777777777777777777777777777777",
    "8888888888888888888888888888888888888888",
    "9999999999999999999999999999999999999999",
    "aaaaaaaaaaaaaaaaaaaaaaaaaaaaaaaaaaaaaaaa",
];

/// The ids of the store that begin with `4b`, each once, in order.
pub const FOUND: [&str; 3] = [
    "4b825d0000000000000000000000000000000000",
    "4b825dc642cb6eb9a060e54bf8d69288fbee4904",
    "4b90000000000000000000000000000000000000",
];

/// An id that is in both packs and loose.
pub const EVERYWHERE: &str = "4b825dc642cb6eb9a060e54bf8d69288fbee4904";

/// Its abbreviation of 4 digits or more.
pub const NAME: &str = "4b825dc";

/// Its locations. Its offset in the second pack is a long one.
pub const LOCATIONS: [Location; 3] = [
    Location::Packed {
        pack: 0,
        offset: 3073,
    },
    Location::Packed {
        pack: 1,
        offset: 0x7fff_ffff_ffff_ffff,
    },
    Location::Loose,
];

/// The bytes of both pack indexes, and the loose ids.
#[derive(Drop)]
pub struct Content {
    first: Vec<u8>,
    second: Vec<u8>,
    loose: Vec<ObjectId>,
}

impl Content {
    pub fn new(rt: &impl AllocGlobal) -> Result<Content, Fail> {
        let (first, second) = (ids_of(rt, &FIRST)?, ids_of(rt, &SECOND)?);
        Ok(Content {
            first: pack_index(rt.alloc(), Kind::Sha1, &first, &[])?,
            second: pack_index(rt.alloc(), Kind::Sha1, &second, &LONGS)?,
            loose: ids_of(rt, &LOOSE)?,
        })
    }

    /// A store whose ids have different first bytes.
    pub fn spread(rt: &impl AllocGlobal) -> Result<Content, Fail> {
        let ids = ids_of(rt, &SPREAD)?;
        Ok(Content {
            first: pack_index(rt.alloc(), Kind::Sha1, &ids, &[])?,
            second: pack_index(rt.alloc(), Kind::Sha1, &[], &[])?,
            loose: Vec::new(rt.alloc()),
        })
    }

    pub fn open<'a>(&'a self, alloc: Global, reads: &'a Reads) -> Result<Memory<'a>, LazyError> {
        let Content {
            first,
            second,
            loose,
        } = self;
        Memory::open(alloc, Kind::Sha1, first, second, loose, reads)
    }
}

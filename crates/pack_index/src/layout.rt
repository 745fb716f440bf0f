//! Where tables of ids are in a file.

ghost use Rattle.std.specs.Prelude.{◌≡◌, ◌+◌, ◌*◌, ◌<◌, ◌≤◌, ◌^◌};
ghost use Rattle.id_lookup.specs.Words.{byte_len_of};
ghost use Rattle.pack_index.specs.Lazy.{end_of, first_id};

use crate::words::IDS_START;
use gix_hash::Kind;

/// Where a [`LazyFile`](crate::LazyFile) finds its fan-out table and its ids, in bytes from the
/// start of the file.
#[derive(Clone, Copy, PartialEq, Eq, Debug)]
pub enum Layout {
    /// As in a pack index of version 2: the fan-out table begins at byte 8 and the ids at byte
    /// 1032. The offsets follow.
    Index,
    /// As in a multi-pack-index, of which no offset is read.
    Multi {
        /// Where the fan-out table begins.
        counts: u64,
        /// Where the ids begin.
        ids: u64,
    },
}

impl Layout {
    // Where the ids begin.
    pub(crate) fn first_id(self) -> u64
        ensures { result ≡ first_id self }
    {
        match self {
            Layout::Index => IDS_START as u64,
            Layout::Multi { ids, .. } => ids,
        }
    }
}

/// Ids in a file, one after the other: of which kind they are, where they begin, and how many they
/// are.
#[derive(Clone, Copy)]
pub(crate) struct IdTable {
    pub(crate) kind: Kind,
    pub(crate) start: u64,
    pub(crate) count: u32,
}

impl IdTable {
    // Where the id at a position begins.
    pub(crate) fn start_of(self, at: usize) -> u64
        requires inside { at ≤ self.count }
        requires room { end_of self < 2 ^ 64 }
        ensures { result ≡ self.start + byte_len_of self.kind * at }
    {
        match self.kind {
            Kind::Sha1 => self.start + 20 * at as u64,
            Kind::Sha256 => self.start + 32 * at as u64,
        }
    }
}

// How many bytes so many ids have.
pub(crate) fn ids_len(kind: Kind, count: usize) -> usize
    requires { count < 2 ^ 32 }
    ensures len { result ≡ byte_len_of kind * count }
    ensures small { result < 2 ^ 38 }
{
    match kind {
        Kind::Sha1 => 20 * count,
        Kind::Sha256 => 32 * count,
    }
}

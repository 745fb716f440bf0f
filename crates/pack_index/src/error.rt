//! Why bytes are not a pack index.

use gix_hash::Kind;
use thiserror::Error as ThisError;

/// The error of [`File::try_new`](crate::File::try_new): why bytes are not a pack index of version
/// 2 with ids of a kind. If several causes hold, the error is the first one in this list. Positions
/// count from 0.
///
/// ```
/// let why = File::try_new(b"PACK", Kind::Sha1);
/// assert!(rt; matches!(why, Err(Error::TooShort)));
/// ```
#[derive(Clone, Copy, PartialEq, Eq, Debug, ThisError)]
pub enum Error {
    /// The bytes are a pack index of version 2 with ids of this kind, the other one.
    #[error("the ids of the pack index are of the kind {0}")]
    OtherKind(Kind),
    /// There are fewer bytes than the smallest index of any version has: 1024, and two digests.
    #[error("the bytes are too few for a pack index")]
    TooShort,
    /// The bytes do not begin with the magic number, and are as many as an index of version 1 has,
    /// by its last fan-out entry.
    #[error("pack indexes of version 1 are not read")]
    Version1,
    /// The bytes do not begin with the magic number, nor are they as long as an index of version 1.
    #[error("not a pack index (bad magic number)")]
    BadMagic,
    /// The version after the magic number is this, and not 2.
    #[error("pack indexes of version {0} are not read")]
    BadVersion(u32),
    /// As many ids as the last fan-out entry says do not fit with their CRCs and offsets between
    /// the fan-out table and the digests, or the rest is not a table of 8-byte offsets, fewer than
    /// the objects. The bytes were cut, or there are too many.
    #[error("the tables of the pack index do not fill its bytes")]
    WrongLength,
    /// The id at this position is the first that is below the previous one.
    #[error("the id at position {0} is below the one before it")]
    IdsFall(usize),
    /// The fan-out entry of this byte is the first that is not the number of ids with at most that
    /// first byte. So if entries fall, one is wrong.
    #[error("the fan-out entry of the first byte {0:02x} is wrong")]
    WrongCount(u8),
    /// The object at this position is the first whose entry points past the end of the table of
    /// 8-byte offsets.
    #[error("the object at position {0} has no offset")]
    NoOffset(usize),
    /// The object at this position is the first whose entry is not the next of the table of 8-byte
    /// offsets.
    #[error("the 8-byte offset of the object at position {0} is not the next one")]
    LongOutOfOrder(usize),
    /// The 8-byte offset at this position is the first that no object has.
    #[error("the 8-byte offset at position {0} is unused")]
    SpareLong(usize),
    /// The object at this position is the first whose offset is below 12, in the header of the
    /// pack.
    #[error("the offset of the object at position {0} is in the header of the pack")]
    OffsetInHeader(usize),
    /// The object at this position is the first whose offset is 2^63 or more, so it does not fit an
    /// `off_t`.
    #[error("the offset of the object at position {0} is 2^63 or more")]
    OffsetTooHigh(usize),
    /// The last bytes are not the digest of all before them.
    #[error("the checksum of the pack index is wrong")]
    WrongChecksum,
}

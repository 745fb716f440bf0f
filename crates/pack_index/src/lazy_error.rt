//! Why a pack index that is read at positions does not give what was asked.

ghost use Rattle.std.specs.Prelude.{◌≡◌};
ghost use Rattle.pack_index.specs.declared.lazy_error.LazyError.TheVariants as errors;

use crate::error::Error;
use std::alloc::AllocError;
use std::io;
use thiserror::Error as ThisError;

/// Why a [`LazyFile`](crate::LazyFile) is not opened, or does not give what was asked. Of several
/// causes in the bytes the first in the order of the variants is reported. Positions count from 0.
///
/// ```
/// let why = LazyFile::open(&b"PACK"[..], Kind::Sha1);
/// assert!(rt; matches!(why, Err(LazyError::Head(Error::TooShort))));
/// ```
#[derive(Debug, Drop, ThisError)]
pub enum LazyError {
    /// A read failed. No read of a slice does.
    #[error("the pack index cannot be read: {0}")]
    Read(io::Error),
    /// There is not enough memory.
    #[error("out of memory")]
    Memory(AllocError),
    /// The bytes do not begin as an index of version 2 with ids of the kind, or have no length of
    /// one. The cause is one from [`Error::OtherKind`] to [`Error::WrongLength`]. `OtherKind` says
    /// that the length fits the other kind, and `WrongLength` that it fits neither.
    #[error("{0}")]
    Head(Error),
    /// The fan-out entry of this byte is the first that is below the one before it.
    #[error("the fan-out entry of the first byte {0:02x} is below the one before it")]
    CountsFall(u8),
    /// An id that has this first byte by the fan-out table has another.
    #[error("an id among those with the first byte {0:02x} has another")]
    WrongCount(u8),
    /// The entry of the object at this position points past the end of the table of 8-byte offsets,
    /// or the file is a multi-pack-index, of which no offset is read.
    #[error("the object at position {0} has no offset")]
    NoOffset(usize),
}

impl From<io::Error> for LazyError {
    ghost from_gives = { λ error made. made ≡ errors.Read error };

    fn from(error: io::Error) -> Self {
        LazyError::Read(error)
    }
}

impl From<AllocError> for LazyError {
    ghost from_gives = { λ error made. made ≡ errors.Memory error };

    fn from(error: AllocError) -> Self {
        LazyError::Memory(error)
    }
}

impl From<Error> for LazyError {
    ghost from_gives = { λ error made. made ≡ errors.Head error };

    fn from(error: Error) -> Self {
        LazyError::Head(error)
    }
}

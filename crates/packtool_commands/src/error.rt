//! Why commands fail.

ghost use Rattle.std.specs.Prelude.{◌≡◌};
ghost use Rattle.object_store.specs.declared.error.Error.TheVariants as errors;
ghost use Rattle.packtool_commands.specs.declared.error.FileError.TheVariants as file_errors;
ghost use Rattle.packtool_commands.specs.declared.error.StoreError.TheVariants as store_errors;

use std::alloc::AllocError;
use streams::WriteFailed;
use thiserror::Error as ThisError;

/// Why a command over a store fails.
///
/// ```
/// match abbreviate_all(rt.alloc(), &mut store, 7, &mut out) {
///     Err(StoreError::Store(why)) => println!(rt; "{why}")?,
///     found => println!(rt; "{}", found?)?,
/// }
/// ```
#[derive(Debug, Drop, ThisError)]
pub enum StoreError {
    /// The store cannot be read, or there is not enough memory.
    #[error("{0}")]
    Store(object_store::Error),
    /// Several lines find more than was allowed.
    #[error("too much is found")]
    TooMany,
    /// A write failed.
    #[error("cannot write")]
    Output,
}

impl From<object_store::Error> for StoreError {
    ghost from_gives = { λ error made. made ≡ store_errors.Store error };

    fn from(error: object_store::Error) -> Self {
        StoreError::Store(error)
    }
}

impl From<AllocError> for StoreError {
    ghost from_gives = { λ error made. made ≡ store_errors.Store (errors.Memory error) };

    fn from(error: AllocError) -> Self {
        StoreError::Store(object_store::Error::Memory(error))
    }
}

impl From<WriteFailed> for StoreError {
    ghost from_gives = { λ _ made. made ≡ store_errors.Output };

    fn from(_failed: WriteFailed) -> Self {
        StoreError::Output
    }
}

/// Why a pack index is not shown.
///
/// ```
/// match show(rt.alloc(), None, &mut input, &mut out) {
///     Err(FileError::Index(why)) => println!(rt; "no pack index: {why}")?,
///     shown => println!(rt; "{}", shown?)?,
/// }
/// ```
#[derive(Clone, Copy, Debug, ThisError)]
pub enum FileError {
    /// The input is not a pack index of the kind.
    #[error("{0}")]
    Index(pack_index::Error),
    /// There is not enough memory.
    #[error("out of memory")]
    Memory,
    /// A read failed.
    #[error("cannot read")]
    Input,
    /// A write failed.
    #[error("cannot write")]
    Output,
}

impl From<pack_index::Error> for FileError {
    ghost from_gives = { λ error made. made ≡ file_errors.Index error };

    fn from(error: pack_index::Error) -> Self {
        FileError::Index(error)
    }
}

impl From<WriteFailed> for FileError {
    ghost from_gives = { λ _ made. made ≡ file_errors.Output };

    fn from(_failed: WriteFailed) -> Self {
        FileError::Output
    }
}

impl From<AllocError> for FileError {
    ghost from_gives = { λ _ made. made ≡ file_errors.Memory };

    fn from(_failed: AllocError) -> Self {
        FileError::Memory
    }
}

//! The error of a look-up in a store.

ghost use Rattle.std.specs.Prelude.{◌≡◌};
ghost use Rattle.object_store.specs.Stores.{of_index};
ghost use Rattle.object_store.specs.declared.error.Error.TheVariants as errors;

use pack_index::LazyError;
use std::alloc::AllocError;
use std::io;
use thiserror::Error as ThisError;

/// The reason why a look-up in a store fails. A look-up that fails returns no part of its result.
///
/// ```
/// match lookup_prefix(rt.alloc(), &mut store, &prefix) {
///     Ok(found) => println!(rt; "{} ids", found.len())?,
///     Err(Error::Gone { path }) => println!(rt; "{path}: open the store again")?,
///     Err(error) => println!(rt; "{error}")?,
/// }
/// ```
#[derive(Debug, Drop, ThisError)]
pub enum Error {
    /// A pack index cannot be read, or is damaged where it was read. No pack index of the store
    /// before it is at fault.
    #[error("{path}: {error}")]
    Index {
        /// The path of the pack index.
        path: String,
        /// The error of the read, or what is damaged.
        error: LazyError,
    },
    /// A pack index was removed after it was listed, as `git gc` does after it has packed its
    /// objects anew. No pack index of the store before it is at fault. A program that still wants
    /// the result opens the store again.
    #[error("{path}: removed since it was listed")]
    Gone {
        /// The path of the pack index.
        path: String,
    },
    /// There is not enough memory.
    #[error("out of memory")]
    Memory(AllocError),
}

impl Error {
    /// Returns the error of a look-up for an error of the pack index at this path. It is
    /// [`Error::Gone`] if and only if a read did not find the file, [`Error::Memory`] if and only
    /// if the error is [`LazyError::Memory`], and otherwise [`Error::Index`].
    pub fn of_index(path: String, error: LazyError) -> Error
        ensures { result ≡ of_index path error }
    {
        match error {
            LazyError::Memory(error) => Error::Memory(error),
            LazyError::Read(error) if error.kind() == io::ErrorKind::NotFound => Error::Gone {
                path,
            },
            error => Error::Index { path, error },
        }
    }
}

impl From<AllocError> for Error {
    ghost from_gives = { λ error made. made ≡ errors.Memory error };

    fn from(error: AllocError) -> Self {
        Error::Memory(error)
    }
}

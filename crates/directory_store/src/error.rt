//! Why a store in directories cannot be opened or read.

ghost use Rattle.std.specs.Prelude.{◌≡◌, IsTrue};
ghost use Rattle.directory_store.specs.Stores.{IsChanged, IsIndexError, IsUnread, is_change, is_damage, of_look_up, of_repository};
ghost use Rattle.directory_store.specs.declared.error.Error.TheVariants as errors;

use pack_index::LazyError;
use std::alloc::{AllocError, Global};
use std::io;
use thiserror::Error as ThisError;

/// Why a store in directories is not opened, or a look-up in it fails. Each error of a directory or
/// file begins with its path.
///
/// ```
/// if let Err(error) = DirectoryStore::open(rt, &find_objects(rt)?, LooseIds::All) {
///     println!(rt; "{error}")?;
/// }
/// ```
#[derive(Debug, Drop, ThisError)]
pub enum Error {
    /// A directory or file cannot be read, or does not say what it is to say.
    #[error("{0}")]
    Repository(repositories::Error),
    /// A pack index cannot be read, is damaged where it was read, or was removed after it was
    /// listed.
    #[error("{0}")]
    Index(object_store::Error),
    /// A directory of packs, the alternates of the store or with them a fan-out directory were
    /// changed while they were read, each time anew. The store is to be opened again.
    #[error("{path}: changed while it was read")]
    Changed {
        /// The path of the directory.
        path: String,
    },
    /// There is not enough memory.
    #[error("out of memory")]
    Memory(#[from(alloc)] AllocError),
}

impl From<repositories::Error> for Error {
    ghost from_gives = { λ error made. made ≡ of_repository error };

    fn from(error: repositories::Error) -> Error {
        match error {
            repositories::Error::Memory(error) => Error::Memory(error),
            error => Error::Repository(error),
        }
    }
}

impl From<object_store::Error> for Error {
    ghost from_gives = { λ error made. made ≡ of_look_up error };

    fn from(error: object_store::Error) -> Error {
        match error {
            object_store::Error::Memory(error) => Error::Memory(error),
            error => Error::Index(error),
        }
    }
}

// The system's error of a process that has as many open files as it may have: EMFILE.
const TOO_MANY_OPEN: i32 = 24;

impl Error {
    // A directory or file cannot be read.
    pub(crate) fn file(alloc: Global, path: &str, error: io::Error) -> Error
        ensures { IsUnread result }
    {
        Error::from(repositories::Error::file(alloc, path, error))
    }

    // A pack index is not there, cannot be read, or is damaged.
    pub(crate) fn index(alloc: Global, path: &str, error: LazyError) -> Error
        ensures { IsIndexError path.now error result }
    {
        match String::from_str(alloc, path) {
            Ok(path) => Error::from(object_store::Error::of_index(path, error)),
            Err(error) => Error::Memory(error),
        }
    }

    // A directory was changed while the store was read.
    pub(crate) fn changed(alloc: Global, path: &str) -> Error
        ensures { IsChanged path.now result }
    {
        match String::from_str(alloc, path) {
            Ok(path) => Error::Changed { path },
            Err(error) => Error::Memory(error),
        }
    }

    // Whether a directory or file is not read because too many files are open.
    pub(crate) fn is_too_many_open(&self) -> bool
        ensures { IsTrue result → (why : _) × (self.now ≡ errors.Repository why) }
    {
        matches!(self, Error::Repository(error) if error.raw_os_error() == Some(TOO_MANY_OPEN))
    }

    // Whether a pack index was read, and is damaged or none.
    pub(crate) fn is_damage(&self) -> bool
        ensures { result ≡ is_damage self.now }
    {
        match self {
            Error::Index(object_store::Error::Index { error, .. }) => {
                !matches!(error, LazyError::Read(_))
            }
            _ => false,
        }
    }

    // Whether the store was changed while it was read.
    pub(crate) fn is_change(&self) -> bool
        ensures { result ≡ is_change self.now }
    {
        matches!(
            self,
            Error::Changed { .. } | Error::Index(object_store::Error::Gone { .. })
        )
    }
}

//! Why a repository, its object directory or one of its files cannot be found or read.

ghost use Rattle.std.specs.Prelude.{◌≡◌, None, true};
ghost use Rattle.std.specs.IoError.{error_kind};
ghost use Rattle.std.specs.declared.io.ErrorKind.{ErrorKind};
ghost use Rattle.repositories.specs.Answers.{is_memory};
ghost use Rattle.repositories.specs.Formats.{reported};

use crate::config::ConfigError;
use std::alloc::{AllocError, AllocFailed, Global};
use std::io;
use thiserror::Error as ThisError;

/// Why a repository, its object directory or an alternate cannot be found or read.
///
/// ```
/// if let Err(error) = find_objects(rt) {
///     println!(rt; "{error}")?;
/// }
/// ```
#[derive(Debug, Drop, ThisError)]
pub enum Error {
    /// Something is missing or wrong, or cannot be read. The cause is boxed, so that a `Result`
    /// with this error is small.
    #[error("{0}")]
    Cause(Box<Cause>),
    /// There is not enough memory.
    #[error("out of memory")]
    Memory(AllocError),
}

impl From<AllocError> for Error {
    ghost from_gives = { λ _ error. is_memory error ≡ true };

    fn from(error: AllocError) -> Error {
        Error::Memory(error)
    }
}

impl<T: Drop> From<AllocFailed<T>> for Error {
    ghost from_gives = { λ _ error. is_memory error ≡ true };

    fn from(_: AllocFailed<T>) -> Error {
        Error::Memory(AllocError)
    }
}

/// What is missing, wrong or cannot be read. The text of each cause in a directory or file begins
/// with its path.
#[derive(Debug, Drop, ThisError)]
pub enum Cause {
    /// A directory or file cannot be read.
    #[error("{path}: {error}")]
    File {
        /// The path of the directory or file.
        path: String,
        /// The error of the call that failed.
        error: io::Error,
    },
    /// A file, a variable of the environment or an alternate cannot be used.
    #[error("{path}: {why}")]
    Text {
        /// The path of the file or alternate, or the name of the variable.
        path: String,
        /// What is wrong.
        why: TextFault,
    },
    /// A repository's config does not say a kind of ids that is known.
    #[error("{path}: {error}")]
    Config {
        /// The path of the config.
        path: String,
        /// What is wrong in the config.
        error: ConfigError,
    },
    /// A directory is not an object directory.
    #[error("{path}: no object store")]
    NoStore {
        /// The path of the directory.
        path: String,
    },
    /// A directory is not an object directory, but has one.
    #[error("{path}: no object store: try {objects}")]
    NoStoreButIn {
        /// The path of the directory.
        path: String,
        /// The path of the object directory that it has.
        objects: String,
    },
    /// Neither the current directory nor one above it has a repository.
    #[error("no git repository in this directory or above it")]
    NoRepository,
}

/// Why a file, a variable of the environment or an alternate cannot be used.
#[derive(Clone, Copy, Debug, ThisError)]
pub enum TextFault {
    /// A file that is to have a path is empty.
    #[error("empty")]
    Empty,
    /// A variable that is to have a path is empty.
    #[error("set, but empty")]
    EmptyVariable,
    /// A file or the value of a variable is not UTF-8.
    #[error("not UTF-8")]
    NotText,
    /// A list of alternates has a path that is not UTF-8.
    #[error("a path is not UTF-8")]
    PathNotText,
    /// A list of alternates has a path that begins with a NUL.
    #[error("a path begins with a NUL")]
    PathWithNul,
    /// The path of an alternate that is missing ends in a carriage return.
    #[error("its line ends in a carriage return")]
    CarriageReturn,
    /// An alternate is nested too deep.
    #[error("nested more than 5 deep")]
    TooDeep,
    /// A config is too large.
    #[error("larger than 16 MiB")]
    LargeConfig,
    /// A gitfile is too large.
    #[error("too large to be a .git file")]
    LargeGitfile,
    /// A gitfile does not name a directory.
    #[error("names no directory")]
    NamesNone,
    /// A directory that is to be a repository is none.
    #[error("not a git repository")]
    NotRepository,
    /// A directory has a pack index whose name is not UTF-8.
    #[error("the name of a pack index is not UTF-8")]
    PackIndexNotText,
}

impl Error {
    /// Makes the error for a directory or file that cannot be read. It is `Memory` if memory ran
    /// out for the call or runs out for the error, and otherwise a [`Cause::File`].
    pub fn file(alloc: Global, path: &str, error: io::Error) -> Error
        ensures { error_kind error ≡ ErrorKind.OutOfMemory → is_memory result ≡ true }
    {
        match String::from_str(alloc, path) {
            Ok(path) if error.kind() != io::ErrorKind::OutOfMemory => {
                Error::of(alloc, Cause::File { path, error })
            }
            _ => Error::Memory(AllocError),
        }
    }

    /// Makes the error for a file, a variable or an alternate that cannot be used. It is a
    /// [`Cause::Text`], or `Memory` if memory runs out.
    pub fn text(alloc: Global, path: &str, why: TextFault) -> Error {
        match String::from_str(alloc, path) {
            Ok(path) => Error::of(alloc, Cause::Text { path, why }),
            Err(error) => Error::Memory(error),
        }
    }

    // Makes the error for a config that does not say a kind. It is `Memory` if memory ran out for
    // the config or runs out for the error.
    pub(crate) fn config(alloc: Global, path: &str, error: ConfigError) -> Error
        ensures { reported error ≡ None → is_memory result ≡ true }
    {
        match (String::from_str(alloc, path), error) {
            (_, ConfigError::Memory(error)) | (Err(error), _) => Error::Memory(error),
            (Ok(path), error) => Error::of(alloc, Cause::Config { path, error }),
        }
    }

    // Makes the error of a cause.
    pub(crate) fn of(alloc: Global, cause: Cause) -> Error {
        Box::new(alloc, cause).map_or(Error::Memory(AllocError), |cause| Error::Cause(cause))
    }

    /// The system's number of the error by which a directory or file cannot be read, or `None` for
    /// any other error.
    pub fn raw_os_error(&self) -> Option<i32> {
        let Error::Cause(cause) = self else {
            return None;
        };
        match &**cause {
            Cause::File { error, .. } => error.raw_os_error(),
            _ => None,
        }
    }
}

//! Why a file is not shown or checked.

ghost use Rattle.std.specs.Prelude.{◌≡◌, ◌≢◌, ◌++◌, ◌∷◌, [], List, OnOk, Some, ℕ};
ghost use Rattle.file_commands.specs.Failures.{IsAt};
ghost use Rattle.streams.specs.Devices.{plain_error};

use packtool_commands::lossy_text;
use std::alloc::AllocError;
use std::io;
use streams::Plain;
use thiserror::Error as ThisError;

/// Why a command over a file stops.
#[derive(Debug, Drop, ThisError)]
pub enum FileFailure {
    /// This file cannot be read, or is not what it should be.
    #[error("{path}: {why}")]
    Unread {
        /// Its path.
        path: String,
        /// Why.
        why: FileWhy,
    },
    /// Standard output cannot be written.
    #[error("standard output: {0}")]
    Output(io::Error),
    /// Memory ran out.
    #[error("out of memory")]
    Memory(#[from] AllocError),
}

impl FileFailure {
    // The failure of this standard output, which cannot be written.
    pub(crate) fn of_output<W>(out: &Plain<W>) -> Self
        ensures { (error : _) → plain_error out.now ≡ Some error
            → result ≡ FileFailure.Output error }
    {
        FileFailure::Output(out.error().unwrap_or(io::ErrorKind::WriteZero.into()))
    }

    // Why a file of this path is not shown or checked; or that memory ran out.
    pub(crate) fn at(rt: &HostRuntime, path: &str, why: FileWhy) -> Self
        ensures { IsAt why path.now result }
    {
        match String::from_str(rt.alloc(), path) {
            Ok(path) => FileFailure::Unread { path, why },
            Err(error) => FileFailure::Memory(error),
        }
    }
}

/// Why a file is not shown or checked.
#[derive(Debug, Drop, ThisError)]
pub enum FileWhy {
    /// It cannot be read.
    #[error(transparent)]
    Read(#[from] io::Error),
    /// Its name is not UTF-8, which paths are.
    #[error("the name is not UTF-8")]
    NotText,
    /// It is a directory, a pipe or a device.
    #[error("not a regular file")]
    NotRegular,
    /// It is not a pack index.
    #[error(transparent)]
    Index(pack_index::Error),
    /// It has 2^61 bytes or more.
    #[error("too long")]
    TooMuch,
}

// Fails if the name of a file is not UTF-8.
pub(crate) fn expect_text(rt: &HostRuntime, path: &str) -> Result<(), FileFailure>
    ensures { OnOk result ((text : List ℕ) → path.now ≢ text ++ (0 ∷ [])) }
{
    match lossy_text(path) {
        Some(text) => Err(FileFailure::at(rt, text, FileWhy::NotText)),
        None => Ok(()),
    }
}

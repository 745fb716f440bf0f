//! Why the program stops.

ghost use Rattle.std.specs.Prelude.{◌≡◌, Some};
ghost use Rattle.store_questions.specs.Failures.{skipped_mark};
ghost use Rattle.store_questions.specs.declared.failure.Failure.TheVariants as failures;
ghost use Rattle.streams.specs.Devices.{plain_error};

use object_store::Error as LookUpError;
use pack_index::LazyError;
use std::alloc::AllocError;
use std::{fmt, io};
use streams::Plain;
use thiserror::Error as ThisError;

/// Why a command stops.
#[derive(Drop, ThisError)]
pub enum Failure<'a> {
    /// The repository or its object directory is not found, or cannot be read.
    #[error(transparent)]
    Repository(repositories::Error),
    /// The store cannot be opened.
    #[error(transparent)]
    Store(directory_store::Error),
    /// A look-up in the store fails.
    #[error(transparent)]
    LookUp(LookUpError),
    /// The path of an object directory is not UTF-8, which paths are.
    #[error("{path}: the name is not UTF-8")]
    PathNotText {
        /// Its text, with replacement characters.
        path: &'a str,
    },
    /// A text that begins with this is not a prefix.
    #[error("{text}: not 2 to {most} hex digits")]
    Prefix {
        /// Its beginning.
        text: &'a str,
        /// How many digits an id of the store has.
        most: usize,
    },
    /// Abbreviations of at least so many digits would be longer than the store's ids.
    #[error("--least {least}: an id has {most} digits")]
    Least {
        /// The fewest digits that were asked for.
        least: usize,
        /// How many digits an id of the store has.
        most: usize,
    },
    /// An argument is not UTF-8.
    #[error("argument {number} is not UTF-8")]
    NotText {
        /// Its number among the arguments, from 1.
        number: usize,
    },
    /// Standard input cannot be read.
    #[error("standard input: {0}")]
    Input(io::Error),
    /// A line of standard input is longer than a chunk.
    #[error("standard input: line {number} has more than {most} bytes")]
    LongLine {
        /// Its number, from 1.
        number: u64,
        /// How many bytes a line may have, without its line feed.
        most: usize,
    },
    /// Lines of standard input find more than is held at a time.
    #[error("standard input: too much is found")]
    TooMany,
    /// Standard output cannot be written.
    #[error("standard output: {0}")]
    Output(io::Error),
    /// Memory ran out.
    #[error("out of memory")]
    Memory,
}

// Each error must have a debug text.
impl fmt::Debug for Failure<'_> {
    fn fmt<W: fmt::Write>(&self, f: &mut fmt::Formatter<W>) -> fmt::Result {
        fmt::Display::fmt(self, f)
    }
}

impl Failure<'_> {
    /// The failure of this standard output, which cannot be written.
    pub fn of_output<W>(out: &Plain<W>) -> Self
        ensures { (error : _) → plain_error out.now ≡ Some error → result ≡ Failure.Output error }
    {
        Failure::Output(out.error().unwrap_or(io::ErrorKind::WriteZero.into()))
    }
}

/// What is printed after the error of a part of a store that is skipped.
pub fn skipped_mark(error: &directory_store::Error) -> &'static str
    ensures { result.now ≡ skipped_mark error.now }
{
    match error {
        directory_store::Error::Index(
            LookUpError::Index {
                error: LazyError::Head(pack_index::Error::Version1),
                ..
            },
        ) => " (git index-pack PACK replaces it), skipped",
        _ => ", skipped",
    }
}

impl From<repositories::Error> for Failure<'_> {
    ghost from_gives = { λ error made. made ≡ failures.Repository error };

    fn from(error: repositories::Error) -> Self {
        Failure::Repository(error)
    }
}

impl From<directory_store::Error> for Failure<'_> {
    ghost from_gives = { λ error made. made ≡ failures.Store error };

    fn from(error: directory_store::Error) -> Self {
        Failure::Store(error)
    }
}

impl From<AllocError> for Failure<'_> {
    ghost from_gives = { λ _ made. made ≡ failures.Memory };

    fn from(_error: AllocError) -> Self {
        Failure::Memory
    }
}

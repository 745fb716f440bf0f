//! Why a search in a list text fails.

ghost use Rattle.std.specs.Prelude.{◌≡◌};

use gix_hash::{decode, prefix};
use std::alloc::AllocFailed;
use streams::WriteFailed;
use thiserror::Error as ThisError;

/// Why a search in the list text of a source failed. The errors of the other calls are these, each
/// with those that it can return.
///
/// ```
/// match search_from(rt.alloc(), Search::In(Kind::Sha1), "4b", &mut input, MAX_LEN, &mut out) {
///     Err(SearchError::NotRising { line }) => println!(rt; "line {line} is out of order")?,
///     count => println!(rt; "{} ids", count?)?,
/// }
/// ```
#[derive(Debug, Drop, ThisError)]
pub enum SearchError {
    /// The prefix does not read.
    #[error("prefix: {0}")]
    Prefix(prefix::from_hex::Error),
    /// A line does not read as an id; the first such line.
    #[error("line {line}: {error}")]
    BadLine {
        /// The line, counted from 1.
        line: usize,
        /// Why it does not read.
        error: decode::Error,
    },
    /// The id of a line is below that of the line before it; the first such line.
    #[error("line {line}: below the line before it")]
    Unsorted {
        /// The line, counted from 1.
        line: usize,
    },
    /// The prefix has more digits than some id of the list.
    #[error("prefix of {hex_len} digits, but an id of the list has only {min}")]
    PrefixTooLong {
        /// The number of the prefix's digits.
        hex_len: usize,
        /// The number of digits of the shortest id: 40 or 64.
        min: usize,
    },
    /// The id of a line is of the other kind; the first bad line.
    #[error("line {line}: an id of the other kind")]
    WrongKind {
        /// The line, counted from 1.
        line: usize,
    },
    /// The id of a line is not above that of the line before it; the first bad line.
    #[error("line {line}: not above the line before it")]
    NotRising {
        /// The line, counted from 1.
        line: usize,
    },
    /// Memory ran out.
    #[error("out of memory")]
    Memory,
    /// The writer failed, or took none of at least one byte.
    #[error("cannot write")]
    Output,
    /// A read failed, before the list's end and before the end of a bad line.
    #[error("cannot read")]
    Input,
    /// The list has more bytes than may be searched, and no bad line ends within the first of them.
    #[error("too much input")]
    TooMuch,
}

impl<T: Drop> From<AllocFailed<T>> for SearchError {
    ghost use Rattle.list_search.specs.declared.error.SearchError.TheVariants.{Memory};

    ghost from_gives = { λ _ e. e ≡ Memory };

    fn from(_failed: AllocFailed<T>) -> Self {
        SearchError::Memory
    }
}

impl From<WriteFailed> for SearchError {
    ghost use Rattle.list_search.specs.declared.error.SearchError.TheVariants.{Output};

    ghost from_gives = { λ _ e. e ≡ Output };

    fn from(_failed: WriteFailed) -> Self {
        SearchError::Output
    }
}

//! Finding ids in the list text of a source.

ghost use Rattle.std.specs.Prelude.{◌≡◌, ◌≢◌, ◌↔◌, true, false, IsErr, IfOk, IfErr, IsErrOf};
ghost use Rattle.gix_hash.specs.declared.Alphabet.{Alphabet};
ghost use Rattle.find_calls.specs.Errors.{cause_from};
ghost use Rattle.list_search.specs.Searches.{Fails, Succeeds, From, IsOwn, prefix_for};
ghost use Rattle.find_calls.specs.declared.finding_from.FindFromError.{FindFromError};
ghost use Rattle.list_search.specs.declared.search.Search.{Search};

use gix_hash::{Alphabet, decode, prefix};
use list_search::{Search, SearchError, search_from};
use std::alloc::Allocator;
use streams::{MAX_LEN, Sink, Source};
use thiserror::Error as ThisError;

/// Why a search in the list text of a source failed.
///
/// ```
/// match find_from(rt.alloc(), "4b82", &mut input, &mut out) {
///     Err(FindFromError::Input) => println!(rt; "the list cannot be read")?,
///     count => println!(rt; "{} ids", count?)?,
/// }
/// ```
#[derive(Debug, Drop, ThisError)]
pub enum FindFromError {
    /// The prefix does not read.
    #[error("prefix: {0}")]
    Prefix(prefix::from_hex::Error),
    /// A line does not read as an id; the first such line.
    #[error("line {line}: {error}")]
    BadLine {
        /// The line, counted from 1.
        line: usize,
        /// Why it does not read.
        error: decode::Error,
    },
    /// The id of a line is below that of the line before it; the first such line.
    #[error("line {line}: below the line before it")]
    Unsorted {
        /// The line, counted from 1.
        line: usize,
    },
    /// The prefix has more digits than some id of the list.
    #[error("prefix of {hex_len} digits, but an id of the list has only {min}")]
    PrefixTooLong {
        /// The number of the prefix's digits.
        hex_len: usize,
        /// The number of digits of the shortest id: 40 or 64.
        min: usize,
    },
    /// Memory ran out.
    #[error("out of memory")]
    Memory,
    /// The writer failed, or took none of at least one byte.
    #[error("cannot write")]
    Output,
    /// A read failed, before the list's end and before the end of a bad line.
    #[error("cannot read")]
    Input,
    /// The list has more than 2^61 - 1 bytes, and no bad line ends within the first of them.
    #[error("too much input")]
    TooMuch,
}

impl FindFromError {
    // The error of this cause.
    fn of(cause: SearchError) -> Self
        requires { IsOwn (Search.Sorted Alphabet.Hex) cause }
        ensures { cause_from result ≡ cause }
    {
        match cause {
            SearchError::Prefix(error) => FindFromError::Prefix(error),
            SearchError::BadLine { line, error } => FindFromError::BadLine { line, error },
            SearchError::Unsorted { line } => FindFromError::Unsorted { line },
            SearchError::PrefixTooLong { hex_len, min } => {
                FindFromError::PrefixTooLong { hex_len, min }
            }
            SearchError::Memory => FindFromError::Memory,
            SearchError::Output => FindFromError::Output,
            SearchError::Input => FindFromError::Input,
            SearchError::TooMuch => FindFromError::TooMuch,
            _ => unreachable!(),
        }
    }
}

/// Writes a line for each id of the list text of the source that begins with the prefix, and
/// returns their number, as [`find`](crate::finding::find) does for the whole text, however the
/// source cuts it.
///
/// If the prefix is rejected, nothing is read of the source. Else the source is read in chunks of
/// at most 65536 bytes, and none after the chunk in which the first bad line ends;
/// [`FindFromError::BadLine`] reports that line, with its whole length. Ids out of order, and a
/// prefix that is too long, are reported at the list's end. One chunk of the text is kept, and at
/// most 64 bytes of a line that has not ended.
///
/// [`FindFromError::Input`] is returned if and only if the source failed, and
/// [`FindFromError::Output`] if and only if the writer did; under another error nothing was
/// written. [`FindFromError::TooMuch`] is returned if more than 2^61 - 1 bytes were read and no bad
/// line ended within the first of them, and [`FindFromError::Memory`] only if the prefix and the
/// first line are read. Source and writer must not have failed before.
pub fn find_from<A: Allocator, R: Source, W: Sink>(
    alloc: A,
    prefix: &str,
    list: &mut R,
    out: &mut W,
) -> Result<usize, FindFromError>
    requires input { R.has_failed list.old ≡ false }
    requires output { W.has_failed out.old ≡ false }
    ensures found { IfOk result (Succeeds (Search.Sorted Alphabet.Hex) prefix.now
        (From MAX_LEN (R.remaining list.old) (R.remaining list.new))
        (W.taken out.old) (W.taken out.new)) }
    ensures stopped { IfErr result (λ e. Fails (Search.Sorted Alphabet.Hex) prefix.now
        (From MAX_LEN (R.remaining list.old) (R.remaining list.new)) (cause_from e)
        (W.taken out.old) (W.taken out.new)) }
    ensures unread { IsErr (prefix_for (Search.Sorted Alphabet.Hex) prefix.now)
        → list.new ≡ list.old }
    ensures untouched { IfErr result (λ e. e ≢ FindFromError.Output → out.new ≡ out.old) }
    ensures input { IsErrOf result FindFromError.Input ↔ (R.has_failed list.new ≡ true) }
    ensures output { IsErrOf result FindFromError.Output ↔ (W.has_failed out.new ≡ true) }
{
    let search = Search::Sorted(Alphabet::Hex);
    search_from(alloc, search, prefix, list, MAX_LEN, out).map_err(FindFromError::of)
}

//! Finding the ids of a list text that begin with a prefix.

ghost use Rattle.std.specs.Prelude.{◌≡◌, ◌≢◌, ◌↔◌, ℕ, List, Result, true, false, IfOk, IfErr, IsErrOf};
ghost use Rattle.gix_hash.specs.declared.Alphabet.{Alphabet};
ghost use Rattle.find_calls.specs.Errors.{cause_of};
ghost use Rattle.list_search.specs.Searches.{Fails, Succeeds, IsOfText, IsOwn, ResultHolds, Text, finding};
ghost use Rattle.list_search.specs.declared.error.SearchError.{SearchError};
ghost use Rattle.find_calls.specs.declared.finding.FindError.{FindError};
ghost use Rattle.list_search.specs.declared.search.Search.{Search};

use gix_hash::{Alphabet, decode, prefix};
use list_search::{Search, SearchError, search_from};
use std::alloc::Allocator;
use streams::{FromSlice, Sink};
use thiserror::Error as ThisError;

/// Why a search in a list text failed.
///
/// ```
/// match find(rt.alloc(), "4b82", text, &mut out) {
///     Err(FindError::BadLine { line, .. }) => println!(rt; "line {line} is not an id")?,
///     count => println!(rt; "{} ids", count?)?,
/// }
/// ```
#[derive(Debug, Drop, ThisError)]
pub enum FindError {
    /// The prefix does not read.
    #[error("prefix: {0}")]
    Prefix(prefix::from_hex::Error),
    /// A line of the list text does not read as an id; the first such line.
    #[error("line {line}: {error}")]
    BadLine {
        /// The line, counted from 1.
        line: usize,
        /// Why it does not read.
        error: decode::Error,
    },
    /// The id of a line is below that of the line before it; the first such line.
    #[error("line {line}: below the line before it")]
    Unsorted {
        /// The line, counted from 1.
        line: usize,
    },
    /// The prefix has more digits than some id of the list.
    #[error("prefix of {hex_len} digits, but an id of the list has only {min}")]
    PrefixTooLong {
        /// The number of the prefix's digits.
        hex_len: usize,
        /// The number of digits of the shortest id: 40 or 64.
        min: usize,
    },
    /// Memory ran out.
    #[error("out of memory")]
    Memory,
    /// The writer failed, or took none of at least one byte.
    #[error("cannot write")]
    Output,
}

impl FindError {
    // The error of this cause.
    fn of(cause: SearchError) -> Self
        requires sorted { IsOwn (Search.Sorted Alphabet.Hex) cause }
        requires of_text { IsOfText cause }
        ensures { cause_of result ≡ cause }
    {
        match cause {
            SearchError::Prefix(error) => FindError::Prefix(error),
            SearchError::BadLine { line, error } => FindError::BadLine { line, error },
            SearchError::Unsorted { line } => FindError::Unsorted { line },
            SearchError::PrefixTooLong { hex_len, min } => FindError::PrefixTooLong {
                hex_len,
                min,
            },
            SearchError::Memory => FindError::Memory,
            SearchError::Output => FindError::Output,
            _ => unreachable!(),
        }
    }
}

/// Writes a line for each id of the list text that begins with the prefix, and returns their
/// number. The line is the id's lowercase digits and a line feed. The lines are in the list's
/// order, with its duplicates.
///
/// A list text has a line of 40 or 64 hex digits, in any letter case, for each id; the last line
/// feed may be absent. The ids are in the dictionary order of their digits, whatever their kinds.
///
/// If several causes hold, the error is the first in the order of [`FindError`]. But
/// [`FindError::Memory`] is returned as soon as memory runs out, and never if the prefix or the
/// first line is rejected, or there is no line. Under [`FindError::Output`] a proper beginning of
/// the lines was written, and under each other error nothing. The writer must not have failed
/// before.
pub fn find<A: Allocator, W: Sink>(
    alloc: A,
    prefix: &str,
    list: &[u8],
    out: &mut W,
) -> Result<usize, FindError>
    requires { W.has_failed out.old ≡ false }
    ensures found { IfOk result (Succeeds (Search.Sorted Alphabet.Hex) prefix.now
        (Text list.now) (W.taken out.old) (W.taken out.new)) }
    ensures stopped { IfErr result (λ e. Fails (Search.Sorted Alphabet.Hex) prefix.now
        (Text list.now) (cause_of e) (W.taken out.old) (W.taken out.new)) }
    ensures untouched { IfErr result (λ e. e ≢ FindError.Output → out.new ≡ out.old) }
    ensures output { IsErrOf result FindError.Output ↔ (W.has_failed out.new ≡ true) }
{
    let search = Search::Sorted(Alphabet::Hex);
    let most = list.len() as u64;
    search_from(alloc, search, prefix, &mut FromSlice::new(list), most, out).map_err(FindError::of)
}

/// Writes a line for each id of the list text that begins with the prefix, as [`find`] does, with
/// the prefix read in the letters `z` to `k`, and the ids written in them. The list text is in hex.
pub fn find_change<A: Allocator, W: Sink>(
    alloc: A,
    letters: &str,
    list: &[u8],
    out: &mut W,
) -> Result<usize, FindError>
    requires { W.has_failed out.old ≡ false }
    ensures found { IfOk result (Succeeds (Search.Sorted Alphabet.Reverse) letters.now
        (Text list.now) (W.taken out.old) (W.taken out.new)) }
    ensures stopped { IfErr result (λ e. Fails (Search.Sorted Alphabet.Reverse) letters.now
        (Text list.now) (cause_of e) (W.taken out.old) (W.taken out.new)) }
    ensures untouched { IfErr result (λ e. e ≢ FindError.Output → out.new ≡ out.old) }
    ensures output { IsErrOf result FindError.Output ↔ (W.has_failed out.new ≡ true) }
{
    let search = Search::Sorted(Alphabet::Reverse);
    let most = list.len() as u64;
    search_from(alloc, search, letters, &mut FromSlice::new(list), most, out).map_err(FindError::of)
}

/// A law: what a search in a sorted list finds. A result is that if and only if what it says of the
/// two texts holds.
pub fn finding_means(alphabet: Alphabet, prefix: &str, list: &[u8])
    ensures { (answer : Result (List (List ℕ)) SearchError)
        → (finding (Search.Sorted alphabet) prefix.now list.now ≡ answer)
        ↔ ResultHolds (Search.Sorted alphabet) prefix.now list.now answer }
{}

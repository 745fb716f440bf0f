//! Finding the ids of a list text of one kind that begin with a prefix.

ghost use Rattle.std.specs.Prelude.{◌≡◌, ◌≢◌, ◌↔◌, ℕ, List, Result, true, false, IfOk, IfErr, IsErrOf};
ghost use Rattle.gix_hash.specs.declared.Kind.{Kind};
ghost use Rattle.find_calls.specs.Errors.{cause_in};
ghost use Rattle.list_search.specs.Searches.{Fails, Succeeds, IsOfText, IsOwn, ResultHolds, Text, finding};
ghost use Rattle.list_search.specs.declared.error.SearchError.{SearchError};
ghost use Rattle.find_calls.specs.declared.finding_in.FindInError.{FindInError};
ghost use Rattle.list_search.specs.declared.search.Search.{Search};

use gix_hash::{Kind, decode, prefix};
use list_search::{Search, SearchError, search_from};
use std::alloc::Allocator;
use streams::{FromSlice, Sink};
use thiserror::Error as ThisError;

/// Why a search in a list text of ids of one kind failed.
///
/// ```
/// match find_in(rt.alloc(), Kind::Sha1, "4b", text, &mut out) {
///     Err(FindInError::NotRising { line }) => println!(rt; "line {line} is out of order")?,
///     count => println!(rt; "{} ids", count?)?,
/// }
/// ```
#[derive(Debug, Drop, ThisError)]
pub enum FindInError {
    /// The prefix does not read as one of the kind.
    #[error("prefix: {0}")]
    Prefix(prefix::from_hex::Error),
    /// The prefix is of another kind. This is never returned, since the prefix is read as one of
    /// the kind.
    #[error("prefix of kind {kind}")]
    OtherKind {
        /// The kind of the prefix.
        kind: Kind,
    },
    /// A line of the list text does not read as an id; the first such line.
    #[error("line {line}: {error}")]
    BadLine {
        /// The line, counted from 1.
        line: usize,
        /// Why it does not read.
        error: decode::Error,
    },
    /// The id of a line is of the other kind; the first bad line.
    #[error("line {line}: an id of the other kind")]
    WrongKind {
        /// The line, counted from 1.
        line: usize,
    },
    /// The id of a line is not above that of the line before it; the first bad line.
    #[error("line {line}: not above the line before it")]
    NotRising {
        /// The line, counted from 1.
        line: usize,
    },
    /// Memory ran out.
    #[error("out of memory")]
    Memory,
    /// The writer failed, or took none of at least one byte.
    #[error("cannot write")]
    Output,
}

impl FindInError {
    // The error of this cause.
    fn of(cause: SearchError) -> Self
        requires in_kind { IsOwn (Search.In Kind.Sha1) cause }
        requires of_text { IsOfText cause }
        ensures cause { cause_in result ≡ cause }
        ensures same_kind { (other : Kind) → result ≢ FindInError.OtherKind other }
    {
        match cause {
            SearchError::Prefix(error) => FindInError::Prefix(error),
            SearchError::BadLine { line, error } => FindInError::BadLine { line, error },
            SearchError::WrongKind { line } => FindInError::WrongKind { line },
            SearchError::NotRising { line } => FindInError::NotRising { line },
            SearchError::Memory => FindInError::Memory,
            SearchError::Output => FindInError::Output,
            _ => unreachable!(),
        }
    }
}

/// Writes a line for each id of the list text that begins with the prefix, and returns their
/// number. The line is the id's lowercase digits and a line feed. The lines are in the list's
/// order.
///
/// The prefix has 1 digit up to as many as ids of the kind. The list text has a line of 40 or 64
/// hex digits, in any letter case, for each id, as for [`find`](crate::finding::find), but each id
/// is of the kind and above the previous one.
///
/// If several causes hold, the error is the first in the order of [`FindInError`]. `WrongKind` and
/// `NotRising` report the first line whose id is of the other kind or not above the previous one,
/// and `WrongKind` if it is both. But [`FindInError::Memory`] is returned as soon as memory runs
/// out, and never if the prefix or the first line is rejected, or there is no line. Under
/// [`FindInError::Output`] a proper beginning of the lines was written, and under each other error
/// nothing. The writer must not have failed before.
pub fn find_in<A: Allocator, W: Sink>(
    alloc: A,
    kind: Kind,
    prefix: &str,
    list: &[u8],
    out: &mut W,
) -> Result<usize, FindInError>
    requires { W.has_failed out.old ≡ false }
    ensures found { IfOk result (Succeeds (Search.In kind) prefix.now (Text list.now)
        (W.taken out.old) (W.taken out.new)) }
    ensures stopped { IfErr result (λ e. Fails (Search.In kind) prefix.now (Text list.now)
        (cause_in e) (W.taken out.old) (W.taken out.new)) }
    ensures same_kind { IfErr result (λ e. (other : Kind) → e ≢ FindInError.OtherKind other) }
    ensures untouched { IfErr result (λ e. e ≢ FindInError.Output → out.new ≡ out.old) }
    ensures output { IsErrOf result FindInError.Output ↔ (W.has_failed out.new ≡ true) }
{
    let search = Search::In(kind);
    let most = list.len() as u64;
    search_from(alloc, search, prefix, &mut FromSlice::new(list), most, out).map_err(
        FindInError::of,
    )
}

/// A law: what a search in ids of one kind finds. A result is that if and only if what it says of
/// the two texts holds.
pub fn finding_in_means(kind: Kind, prefix: &str, list: &[u8])
    ensures { (answer : Result (List (List ℕ)) SearchError)
        → (finding (Search.In kind) prefix.now list.now ≡ answer)
        ↔ ResultHolds (Search.In kind) prefix.now list.now answer }
{}

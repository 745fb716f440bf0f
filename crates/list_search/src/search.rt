//! The search in the list text of a source.

ghost use Rattle.std.specs.Prelude.{◌≡◌, ◌≢◌, ◌↔◌, ◌^◌, ◌<◌, false, true, IsErr, IfOk, IfErr, IsErrOf};
ghost use Rattle.id_lookup.specs.Words.{letter_of};
ghost use Rattle.list_search.specs.Searches.{Fails, Succeeds, From, IsFor, IsOwn, letter_for, prefix_for};

use crate::error::SearchError;
use crate::query::Query;
use crate::reading::find_in_source;
use gix_hash::{Alphabet, Kind, Prefix, prefix};
use std::alloc::Allocator;
use streams::{Sink, Source, write_ids};

/// How a prefix is read, and the order that the list must have.
///
/// ```
/// // Change ids, which are spelled in the letters z to k.
/// let search = Search::Sorted(Alphabet::Reverse);
/// let count = search_from(rt.alloc(), search, "vorx", &mut input, MAX_LEN, &mut out)?;
/// ```
#[derive(Clone, Copy, Debug)]
pub enum Search {
    /// A prefix of at least 4 digits in the letters of this alphabet, in which the ids are written
    /// too. The ids are of any kinds, and none is below the one before it.
    Sorted(Alphabet),
    /// A prefix of at least 1 hex digit. The ids are of this kind, and each is above the one before
    /// it.
    In(Kind),
}

impl Search {
    fn read_prefix(self, text: &str) -> Result<Prefix, prefix::from_hex::Error>
        ensures value { result ≡ prefix_for self text.now }
        ensures kind { IfOk result (IsFor self) }
    {
        match self {
            Search::Sorted(alphabet) => alphabet.read_prefix(text),
            Search::In(kind) => Prefix::from_hex_in(kind, text),
        }
    }

    fn alphabet(self) -> Alphabet
        ensures { letter_of result ≡ letter_for self }
    {
        match self {
            Search::Sorted(alphabet) => alphabet,
            Search::In(_) => Alphabet::Hex,
        }
    }
}

/// Writes a line for each id of the list text of the source that begins with the prefix, and
/// returns their number. The line is the id's lowercase digits, in the letters of the search, and a
/// line feed. The lines are in the list's order, with its duplicates. At most `most` bytes of the
/// source are searched.
///
/// A list text has a line of 40 or 64 hex digits, in any letter case, for each id; the last line
/// feed may be absent. However the source cuts it, the result is that for the whole text.
///
/// If the prefix is rejected, nothing is read of the source. Else the source is read in chunks of
/// at most 65536 bytes, and none after the chunk in which the first bad line ends;
/// [`SearchError::BadLine`] reports that line, with its whole length. Other errors of the ids are
/// reported at the list's end. One chunk of the text is kept, and at most 64 bytes of a line that
/// has not ended.
///
/// [`SearchError::Input`] is returned if and only if the source failed, and [`SearchError::Output`]
/// if and only if the writer did; under another error nothing was written. [`SearchError::TooMuch`]
/// is returned if more than `most` bytes were read and no bad line ended within the first of them,
/// and [`SearchError::Memory`] only after the prefix and the first line were accepted. Source and
/// writer must not have failed before.
pub fn search_from<A: Allocator, R: Source, W: Sink>(
    alloc: A,
    search: Search,
    prefix: &str,
    list: &mut R,
    most: u64,
    out: &mut W,
) -> Result<usize, SearchError>
    requires most { most < 2 ^ 63 }
    requires input { R.has_failed list.old ≡ false }
    requires output { W.has_failed out.old ≡ false }
    ensures found { IfOk result (Succeeds search prefix.now
        (From most (R.remaining list.old) (R.remaining list.new))
        (W.taken out.old) (W.taken out.new)) }
    ensures stopped { IfErr result (λ e. Fails search prefix.now
        (From most (R.remaining list.old) (R.remaining list.new)) e
        (W.taken out.old) (W.taken out.new)) }
    ensures own { IfErr result (IsOwn search) }
    ensures unread { IsErr (prefix_for search prefix.now) → list.new ≡ list.old }
    ensures untouched { IfErr result (λ e. e ≢ SearchError.Output → out.new ≡ out.old) }
    ensures input { IsErrOf result SearchError.Input ↔ (R.has_failed list.new ≡ true) }
    ensures output { IsErrOf result SearchError.Output ↔ (W.has_failed out.new ≡ true) }
{
    let prefix = search.read_prefix(prefix).map_err(SearchError::Prefix)?;
    let ids = find_in_source(&alloc, &Query::new(search, prefix), list, most)?;
    write_ids(search.alphabet(), &ids, out)?;
    Ok(ids.len())
}

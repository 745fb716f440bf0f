//! The searches as one call, in a text and in what a source gives.

ghost use Rattle.std.specs.Prelude.{◌≡◌, false};

use crate::expecting::shown;
use crate::well_known::{BLOB_LETTERS, TREE};
use find_calls::{find, find_change, find_from, find_in, search_from};
use gix_hash::{Alphabet, Kind};
use std::alloc::Allocator;
use std::process::Abort;
use streams::{FromSlice, MAX_LEN, Sink, Source};

/// How a search reads its prefix: in hex, in the letters of change ids, or in hex for ids of a
/// kind.
#[derive(Clone, Copy, Debug)]
pub enum By {
    Hex,
    Letters,
    In(Kind),
}

pub const EACH: [By; 3] = [By::Hex, By::Letters, By::In(Kind::Sha1)];

/// A search for the empty tree of SHA-1, or in letters for the empty blob, and whether it is in
/// what a source gives.
pub type Search = (By, bool);

pub const SEARCHES: [Search; 6] = [
    (By::Hex, false),
    (By::Letters, false),
    (By::In(Kind::Sha1), false),
    (By::Hex, true),
    (By::Letters, true),
    (By::In(Kind::Sha1), true),
];

impl By {
    /// The prefix that a search looks for.
    pub fn prefix(self) -> &'static str {
        match self {
            By::Letters => "LTQM",
            _ => "4b82",
        }
    }

    /// The line that it then writes.
    pub fn line(self) -> &'static str {
        match self {
            By::Letters => BLOB_LETTERS,
            _ => TREE,
        }
    }

    /// Searches the text, and returns the Debug text of the result.
    pub fn find<A: Allocator, W: Sink>(
        self,
        rt: &(impl Abort + AllocGlobal),
        alloc: A,
        prefix: &str,
        list: &[u8],
        out: &mut W,
    ) -> String
        requires { W.has_failed out.old ≡ false }
    {
        match self {
            By::Hex => shown(rt, find(alloc, prefix, list, out)),
            By::Letters => shown(rt, find_change(alloc, prefix, list, out)),
            By::In(kind) => shown(rt, find_in(alloc, kind, prefix, list, out)),
        }
    }

    /// As `find`, in what the source gives. What is wrong with a list has the same text.
    pub fn find_from<A: Allocator, R: Source, W: Sink>(
        self,
        rt: &(impl Abort + AllocGlobal),
        alloc: A,
        prefix: &str,
        input: &mut R,
        out: &mut W,
    ) -> String
        requires input { R.has_failed input.old ≡ false }
        requires output { W.has_failed out.old ≡ false }
    {
        match self {
            By::Hex => shown(rt, find_from(alloc, prefix, input, out)),
            By::Letters => {
                let search = find_calls::Search::Sorted(Alphabet::Reverse);
                shown(rt, search_from(alloc, search, prefix, input, MAX_LEN, out))
            }
            By::In(kind) => {
                let search = find_calls::Search::In(kind);
                shown(rt, search_from(alloc, search, prefix, input, MAX_LEN, out))
            }
        }
    }
}

/// Runs the search over the list.
pub fn run<A: Allocator, W: Sink>(
    rt: &(impl Abort + AllocGlobal),
    search: Search,
    alloc: A,
    list: &[u8],
    out: &mut W,
) -> String
    requires { W.has_failed out.old ≡ false }
{
    let (by, is_from) = search;
    if is_from {
        by.find_from(rt, alloc, by.prefix(), &mut FromSlice::new(list), out)
    } else {
        by.find(rt, alloc, by.prefix(), list, out)
    }
}

//! The look-up of a prefix in a list that comes in parts, and the order that the list must have.

ghost use Rattle.std.specs.Prelude.{◌⊎◌, IsTrue, IfSome, ◌≡◌, ◌+◌, ◌-◌, ◌^◌, ◌<◌, ◌≤◌, ℕ, List, None, Some, map, length, IfOk, IfErr, OnOk, option_map};
ghost use Rattle.std.specs.declared.cmp.Ordering.TheVariants.{Less, Greater};
ghost use Rattle.id_lookup.specs.Words.{IsIndex, hex_len_of, id_digits, id_kind, matches, place};
ghost use Rattle.id_digits.specs.Letters.{is_line_len};
ghost use Rattle.list_search.specs.Searches.{IsFor, error_of_all, first_refused};
ghost use Rattle.list_search.specs.SearchStates.{CanSkip, IsLeast, TakesLength, allows_repeats, error_of_first};
ghost use Rattle.list_search.specs.declared.search.Search.{Search};

use crate::error::SearchError;
use crate::search::Search;
use gix_hash::{Alphabet, Kind, ObjectId, Prefix};
use id_digits::are_sorted_lines;
use id_lookup::{IdIndex, IndexError, SortedIds};

/// A search whose prefix is read.
#[derive(Drop)]
pub struct Query {
    search: Search,
    prefix: Prefix,
    ghost of_kind: { IsFor search prefix },
}

impl Query {
    pub fn new(search: Search, prefix: Prefix) -> Self
        requires { IsFor search prefix }
        ensures search { result.search ≡ search }
        ensures prefix { result.prefix ≡ prefix }
    {
        Query { search, prefix }
    }

    /// The ids of the next part of a list that begin with the prefix, and the smallest number of
    /// digits of an id of the part, if it matters; or the error of the first id that is refused
    /// after the previous one. `before` is the number of ids before the part, and `last` is the
    /// last of them.
    pub fn find<'p>(
        &self,
        before: usize,
        last: Option<ObjectId>,
        part: &'p [ObjectId],
    ) -> Result<(&'p [ObjectId], usize), SearchError>
        requires { before + length part.now < 2 ^ 64 }
        ensures in_order { OnOk result (first_refused self.now.search (option_map id_digits last)
            (before + 1) (map id_digits part.now) ≡ None) }
        ensures found { IfOk result (λ found. error_of_all self.now.search self.now.prefix.digits
            (map id_digits part.now) ≡ None
            → map id_digits found.0.now
            ≡ matches self.now.prefix.digits (map id_digits part.now)) }
        ensures least { IfOk result (λ found. IsLeast self.now.search found.1
            (map id_digits part.now)) }
        ensures within { IfOk result (λ found. length found.0.now ≤ length part.now) }
        ensures refused { IfErr result (λ e. first_refused self.now.search
            (option_map id_digits last) (before + 1) (map id_digits part.now) ≡ Some e) }
    {
        if let Some(error) = error_of_first(self.search, before, last, part) {
            return Err(error);
        }
        match self.search {
            Search::Sorted(_) => match SortedIds::try_new(part) {
                Ok(list) => {
                    let min = list.min_hex_len();
                    if self.prefix.hex_len() > min {
                        return Ok((&[], min));
                    }
                    Ok((list.matches(&self.prefix), min))
                }
                Err(unsorted) => Err(SearchError::Unsorted {
                    line: before + unsorted.at + 1,
                }),
            },
            Search::In(kind) => Ok((find_in_index(kind, &self.prefix, before, part)?, 64)),
        }
    }

    /// The id of the last of the next lines of a list, each of `LINE` bytes, if the lines can be
    /// skipped: they are of full ids in order after `last`, the last id before them, and the prefix
    /// comes before the first of these ids, or after the last, so none begins with it. `None` says
    /// nothing of the lines.
    pub fn find_skippable<const LINE: usize>(
        &self,
        last: Option<ObjectId>,
        lines: &[[u8; LINE]],
    ) -> Option<ObjectId>
        requires { IsTrue (is_line_len LINE) }
        ensures { IfSome result (CanSkip self.now.search self.now.prefix.digits (LINE - 1)
            (option_map id_digits last) lines.now) }
    {
        if lines.is_empty() || !self.takes_length(LINE - 1) {
            return None;
        }
        let first = Alphabet::Hex.read_id_opt(&lines[0][..LINE - 1])?;
        let end = Alphabet::Hex.read_id_opt(&lines[lines.len() - 1][..LINE - 1])?;
        if !self.is_outside(&first, &end) {
            return None;
        }
        if error_of_first(self.search, 0, last, &[first]).is_some() {
            return None;
        }
        if are_sorted_lines(lines, self.allows_repeats()) {
            Some(end)
        } else {
            None
        }
    }

    // Whether ids of `hex_len` digits may be searched, and the prefix has no more.
    fn takes_length(&self, hex_len: usize) -> bool
        ensures search { IsTrue result → TakesLength self.now.search hex_len }
        ensures prefix { IsTrue result → length self.now.prefix.digits ≤ hex_len }
    {
        let is_kind = match self.search {
            Search::Sorted(_) => true,
            Search::In(kind) => hex_len == kind.len_in_hex(),
        };
        is_kind && self.prefix.hex_len() <= hex_len
    }

    // Whether an id may be repeated in the list.
    fn allows_repeats(&self) -> bool
        ensures { result ≡ allows_repeats self.now.search }
    {
        matches!(self.search, Search::Sorted(_))
    }

    // Whether the prefix comes before the first of sorted ids, or after the last.
    fn is_outside(&self, first: &ObjectId, end: &ObjectId) -> bool
        requires first { length self.now.prefix.digits ≤ hex_len_of (id_kind first.now) }
        requires end { length self.now.prefix.digits ≤ hex_len_of (id_kind end.now) }
        ensures { IsTrue result → (place self.now.prefix.digits (id_digits first.now) ≡ Less)
            ⊎ (place self.now.prefix.digits (id_digits end.now) ≡ Greater) }
    {
        if self.prefix.cmp_oid(first.as_oid()).is_lt() {
            return true;
        }
        self.prefix.cmp_oid(end.as_oid()).is_gt()
    }

    /// The error of a list in order whose shortest id has `min` digits.
    pub fn error_of_all(&self, min: usize) -> Option<SearchError>
        ensures { (ids : List (List ℕ)) → IsLeast self.now.search min ids
            → result ≡ error_of_all self.now.search self.now.prefix.digits ids }
    {
        let hex_len = self.prefix.hex_len();
        match self.search {
            Search::Sorted(_) if hex_len > min => {
                Some(SearchError::PrefixTooLong { hex_len, min })
            }
            _ => None,
        }
    }
}

// The error of the first of the ids for the one before it, `last`. `before` is the number of ids
// before them.
fn error_of_first(
    search: Search,
    before: usize,
    last: Option<ObjectId>,
    ids: &[ObjectId],
) -> Option<SearchError>
    requires { before + length ids.now < 2 ^ 64 }
    ensures { result ≡ error_of_first search (before + 1) (option_map id_digits last)
        (map id_digits ids.now) }
{
    let last = last?;
    if ids.is_empty() {
        return None;
    }
    let first = ids[0];
    let line = before + 1;
    match search {
        Search::Sorted(_) => {
            if first.as_oid().cmp(&last.as_oid()).is_lt() {
                return Some(SearchError::Unsorted { line });
            }
        }
        Search::In(kind) => {
            if first.kind() == kind && !last.as_oid().cmp(&first.as_oid()).is_lt() {
                return Some(SearchError::NotRising { line });
            }
        }
    }
    None
}

// Those of the ids that begin with the prefix, or the error of the first that is of the other kind
// or not above the previous one. `before` is the number of ids before them.
// Not inlined, so that the table of an index takes no time in the other searches.
#[inline(never)]
fn find_in_index<'p>(
    kind: Kind,
    prefix: &Prefix,
    before: usize,
    ids: &'p [ObjectId],
) -> Result<&'p [ObjectId], SearchError>
    requires of_kind { prefix.now.kind ≡ kind }
    requires room { before + length ids.now < 2 ^ 64 }
    ensures in_order { OnOk result (IsIndex kind (map id_digits ids.now)) }
    ensures found { IfOk result (λ found. map id_digits found.now
        ≡ matches prefix.now.digits (map id_digits ids.now)) }
    ensures within { IfOk result (λ found. length found.now ≤ length ids.now) }
    ensures bad { IfErr result (λ e. first_refused (Search.In kind) None (before + 1)
        (map id_digits ids.now) ≡ Some e) }
{
    match IdIndex::try_new(ids, kind) {
        Ok(index) => Ok(index.matches(prefix)),
        Err(IndexError::WrongKind { at }) => Err(SearchError::WrongKind {
            line: before + at + 1,
        }),
        Err(IndexError::NotRising { at }) => Err(SearchError::NotRising {
            line: before + at + 1,
        }),
    }
}

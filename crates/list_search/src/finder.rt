//! The ids that begin with a prefix in a list that comes in parts.

ghost use Rattle.std.specs.Prelude.{false, IsTrue, ◌≡◌, ◌≢◌, ◌+◌, ◌-◌, ◌^◌, ◌<◌, ℕ, List, [], ◌++◌, map, length, IfErr, OnOk, option_map};
ghost use Rattle.std.specs.Result.{result_map_both};
ghost use Rattle.id_lookup.specs.Words.{id_digits};
ghost use Rattle.id_digits.specs.Letters.{is_line_len};
ghost use Rattle.list_search.specs.Searches.{found_among};
ghost use Rattle.list_search.specs.SearchStates.{HasFound, HasSkipped, last_or};
ghost use Rattle.list_search.specs.declared.error.SearchError.{SearchError};
ghost use Rattle.list_search.specs.declared.search.Search.{Search};

use crate::error::SearchError;
use crate::query::Query;
use gix_hash::ObjectId;
use std::alloc::Allocator;

/// Searches a list of ids that comes in parts. It keeps the ids that are found, the first id that
/// is out of order, the smallest number of digits, and the last id.
#[derive(Drop)]
pub struct Finder<A: Allocator> {
    count: usize,
    last: Option<ObjectId>,
    min_hex_len: usize,
    refusal: Option<SearchError>,
    found: Vec<ObjectId, A>,
}

impl<A: Allocator> Finder<A> {
    /// A finder that has taken nothing.
    pub fn new(alloc: A) -> Self
        ensures known { (search : Search) (digits : List ℕ) → HasFound search digits [] result }
        ensures none { result.count ≡ 0 }
    {
        Finder {
            count: 0,
            last: None,
            min_hex_len: 64,
            refusal: None,
            found: Vec::new(alloc),
        }
    }

    /// Takes the next part of the list. Nothing is looked up after an error of the order.
    pub fn take(&mut self, query: &Query, part: &[ObjectId]) -> Result<(), SearchError>
        requires { self.old.count + length part.now < 2 ^ 64 }
        ensures known { OnOk result ((ids : List (List ℕ))
            → HasFound query.now.search query.now.prefix.digits ids self.old
            → HasFound query.now.search query.now.prefix.digits (ids ++ map id_digits part.now)
            self.new) }
        ensures count { OnOk result (self.new.count ≡ self.old.count + length part.now) }
        ensures memory { IfErr result (λ e. (e ≡ SearchError.Memory) × (part.now ≢ [])) }
    {
        let before = self.count;
        self.count += part.len();
        if self.refusal.is_some() {
            return Ok(());
        }
        match query.find(before, self.last, part) {
            Err(error) => {
                self.refusal = Some(error);
                Ok(())
            }
            Ok((found, min)) => {
                self.last = last_of(self.last, part);
                self.min_hex_len = self.min_hex_len.min(min);
                match self.found.extend_from_slice(found) {
                    Ok(()) => Ok(()),
                    Err(_) => Err(SearchError::Memory),
                }
            }
        }
    }

    /// Skips the next lines of the list, each of `LINE` bytes, and returns true, if
    /// [`Query::find_skippable`] says that they can be skipped. Else it takes nothing.
    pub fn skip<const LINE: usize>(&mut self, query: &Query, lines: &[[u8; LINE]]) -> bool
        requires line { IsTrue (is_line_len LINE) }
        requires room { self.old.count + length lines.now < 2 ^ 64 }
        ensures skipped { IsTrue result → HasSkipped query.now.search query.now.prefix.digits
            (LINE - 1) lines.now self.old self.new }
        ensures none { result ≡ false → self.new ≡ self.old }
    {
        if self.refusal.is_some() {
            return false;
        }
        match query.find_skippable(self.last, lines) {
            None => false,
            Some(end) => {
                self.count += lines.len();
                self.last = Some(end);
                self.min_hex_len = self.min_hex_len.min(LINE - 1);
                true
            }
        }
    }

    /// The ids that are found, or the first error of the list that was taken.
    pub fn into_found(self, query: &Query) -> Result<Vec<ObjectId, A>, SearchError>
        ensures { (ids : List (List ℕ)) → HasFound query.now.search query.now.prefix.digits ids self
            → found_among query.now.search query.now.prefix.digits ids
            ≡ result_map_both (λ found. map id_digits found.items) (λ error. error) result }
    {
        let Finder {
            min_hex_len,
            refusal,
            found,
            ..
        } = self;
        if let Some(error) = refusal {
            return Err(error);
        }
        if let Some(error) = query.error_of_all(min_hex_len) {
            return Err(error);
        }
        Ok(found)
    }
}

// The last of the ids, or `last` if there are none.
fn last_of(last: Option<ObjectId>, ids: &[ObjectId]) -> Option<ObjectId>
    ensures { option_map id_digits result
        ≡ last_or (option_map id_digits last) (map id_digits ids.now) }
{
    let len = ids.len();
    if len == 0 {
        return last;
    }
    Some(ids[len - 1])
}

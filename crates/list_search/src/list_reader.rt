//! List texts that come in chunks.

ghost use Rattle.std.specs.Prelude.{◌≡◌, ◌↔◌, ℕ, false, MatchOption, ◌+◌, ◌^◌, ◌<◌, ◌≤◌, List, [], ◌∷◌, ◌++◌, map, take, drop, length, IfOk, IfErr, IfSome, OnOk, position, slice_range};
ghost use Rattle.id_lookup.specs.Words.{full_read, hex_letter, id_digits, result_digits};
ghost use Rattle.streams.specs.Streams.{is_line_feed};
ghost use Rattle.list_search.specs.Lists.{IsListRefusal, list_read};
ghost use Rattle.list_search.specs.SearchStates.{HasIdLine, HasTaken, IsRefusalAfter, Takes};

use crate::error::SearchError;
use gix_hash::{Alphabet, Kind, ObjectId, decode};
use std::alloc::Allocator;

// The length of the longest line that is an id.
const MAX_DIGITS: usize = 64;

const LINE_FEED: u8 = b'\n';

/// Reads a list text that comes in chunks, which may cut lines anywhere.
///
/// It keeps the ids of the lines that ended until they are dropped, and of the line that has not
/// ended its length and its first 64 bytes.
#[derive(Drop)]
pub struct ListReader<A: Allocator> {
    dropped: usize,
    ids: Vec<ObjectId, A>,
    line: [u8; MAX_DIGITS],
    len: usize,
}

impl<A: Allocator> ListReader<A> {
    /// A reader that has taken nothing.
    pub fn new(alloc: A) -> Self
        ensures taken { HasTaken result.ids.items result.line result.len [] }
        ensures empty { result.len ≡ 0 }
        ensures none { result.dropped ≡ 0 }
        ensures no_ids { result.ids.items ≡ [] }
    {
        ListReader {
            dropped: 0,
            ids: Vec::new(alloc),
            line: [0; MAX_DIGITS],
            len: 0,
        }
    }

    /// Takes the next chunk of the text. An error is that of the whole text, whatever follows.
    pub fn take_chunk(&mut self, chunk: &[u8]) -> Result<(), SearchError>
        requires { self.old.dropped + length self.old.ids.items + self.old.len
            + length chunk.now < 2 ^ 64 }
        ensures ok { OnOk result (Takes self.old self.new chunk.now) }
        ensures err { IfErr result (IsRefusalAfter self.old chunk.now) }
    {
        let mut at = 0;
        while at < chunk.len() {
            at = self.take_next(chunk, at)?;
        }
        Ok(())
    }

    /// The ids of the whole text, whose last line feed may be absent.
    pub fn finish(mut self) -> Result<Vec<ObjectId, A>, SearchError>
        requires { self.dropped + length self.ids.items + 1 < 2 ^ 64 }
        ensures ok { IfOk result (λ ids. (earlier : List ObjectId) (text : List ℕ)
            → HasTaken (earlier ++ self.ids.items) self.line self.len text
            → list_read text ≡ Ok (map id_digits (earlier ++ ids.items))) }
        ensures short { IfOk result (λ ids. length ids.items ≤ length self.ids.items + 1) }
        ensures err { IfErr result (λ e. (earlier : List ObjectId) (text : List ℕ)
            → length earlier ≡ self.dropped
            → HasTaken (earlier ++ self.ids.items) self.line self.len text → IsListRefusal text e) }
    {
        if self.len > 0 {
            self.end_line()?;
        }
        let ListReader { ids, .. } = self;
        Ok(ids)
    }

    /// The ids that it keeps.
    pub fn ids(&self) -> &[ObjectId]
        ensures { result.now ≡ self.now.ids.items }
    {
        &self.ids
    }

    /// Drops the ids that it keeps.
    pub fn drop_ids(&mut self)
        requires { self.old.dropped + length self.old.ids.items < 2 ^ 64 }
        ensures ids { self.new.ids.items ≡ [] }
        ensures dropped { self.new.dropped ≡ self.old.dropped + length self.old.ids.items }
        ensures line { self.new.line ≡ self.old.line }
        ensures len { self.new.len ≡ self.old.len }
    {
        self.dropped += self.ids.len();
        self.ids.clear();
    }

    /// The number of bytes of the next chunk that belong to the line that has begun: up to its line
    /// feed, or all of them. It is 0 if no line has begun.
    pub fn rest_of_line(&self, chunk: &[u8]) -> usize
        ensures within { result ≤ length chunk.now }
        ensures none { self.now.len ≡ 0 → result ≡ 0 }
        ensures begun { 0 < self.now.len → MatchOption (position is_line_feed chunk.now)
            (result ≡ length chunk.now) (λ at. result ≡ at + 1) }
    {
        if self.len == 0 {
            return 0;
        }
        match line_feed_in(chunk) {
            Some(at) => at + 1,
            None => chunk.len(),
        }
    }

    /// Whether a line has begun that has not ended.
    pub fn has_begun_line(&self) -> bool
        ensures { (result ≡ false) ↔ (self.now.len ≡ 0) }
    {
        self.len != 0
    }

    /// Counts lines that it was not given, since they were skipped.
    pub fn skip(&mut self, lines: usize)
        requires { self.old.dropped + lines < 2 ^ 64 }
        ensures dropped { self.new.dropped ≡ self.old.dropped + lines }
        ensures ids { self.new.ids ≡ self.old.ids }
        ensures line { self.new.line ≡ self.old.line }
        ensures len { self.new.len ≡ self.old.len }
    {
        self.dropped += lines;
    }

    // Takes the whole lines that begin at this position, if the chunk has at least one and it is an
    // id, and else one byte. Returns the position after them.
    #[inline(always)]
    fn take_next(&mut self, chunk: &[u8], at: usize) -> Result<usize, SearchError>
        requires in_chunk { at < length chunk.now }
        requires room { self.old.dropped + length self.old.ids.items + self.old.len + 1 < 2 ^ 64 }
        ensures onward { IfOk result (λ next. (at < next) × (next ≤ length chunk.now)) }
        ensures ok { IfOk result (λ next. Takes self.old self.new (slice_range chunk.now at next)) }
        ensures err { IfErr result (IsRefusalAfter self.old (drop at chunk.now)) }
    {
        let next = self.take_lines(chunk, at);
        if next > at {
            return Ok(next);
        }
        self.take_byte(chunk[at])?;
        Ok(at + 1)
    }

    // Takes whole lines from this position on, if no line is begun, as long as the next is an id
    // and there is room for it: first ids of SHA-1, then ids of SHA-256. Returns the position after
    // them.
    #[inline(always)]
    fn take_lines(&mut self, chunk: &[u8], at: usize) -> usize
        requires { at ≤ length chunk.now }
        ensures onward { (at ≤ result) × (result ≤ length chunk.now) }
        ensures ok { Takes self.old self.new (slice_range chunk.now at result) }
    {
        if self.len > 0 {
            return at;
        }
        // If memory runs out, the line is taken byte by byte, and its end reports the error.
        if self.ids.reserve(1).is_err() {
            return at;
        }
        let middle = self.take_lines_of(Kind::Sha1, chunk, at);
        self.take_lines_of(Kind::Sha256, chunk, middle)
    }

    // Does what `take_lines` does, for ids of one kind. The loop calls nothing, so that what it
    // needs stays in registers.
    #[inline(always)]
    fn take_lines_of(&mut self, kind: Kind, chunk: &[u8], at: usize) -> usize
        requires in_chunk { at ≤ length chunk.now }
        requires begun { self.old.len ≡ 0 }
        ensures onward { (at ≤ result) × (result ≤ length chunk.now) }
        ensures ok { Takes self.old self.new (slice_range chunk.now at result) }
        ensures begun { self.new.len ≡ 0 }
    {
        let mut end = at;
        while self.ids.len() < self.ids.capacity() {
            let Some((id, next)) = id_line_at(kind, chunk, end) else {
                break;
            };
            self.ids.push_reserved(id);
            end = next;
        }
        end
    }

    fn take_byte(&mut self, byte: u8) -> Result<(), SearchError>
        requires { self.old.dropped + length self.old.ids.items + self.old.len + 1 < 2 ^ 64 }
        ensures ok { OnOk result (Takes self.old self.new (byte ∷ [])) }
        ensures err { IfErr result (IsRefusalAfter self.old (byte ∷ [])) }
    {
        if byte == LINE_FEED {
            return self.end_line();
        }
        store_byte(&mut self.line, self.len, byte);
        self.len += 1;
        Ok(())
    }

    // Takes a line feed.
    fn end_line(&mut self) -> Result<(), SearchError>
        requires { self.old.dropped + length self.old.ids.items + 1 < 2 ^ 64 }
        ensures ok { OnOk result (Takes self.old self.new (10 ∷ [])) }
        ensures one { OnOk result (length self.new.ids.items ≡ length self.old.ids.items + 1) }
        ensures begun { OnOk result (self.new.len ≡ 0) }
        ensures err { IfErr result (IsRefusalAfter self.old (10 ∷ [])) }
    {
        match read_line(&self.line, self.len) {
            Ok(id) => {
                self.ids.push(id)?;
                self.len = 0;
                Ok(())
            }
            Err(error) => Err(SearchError::BadLine {
                line: self.dropped + self.ids.len() + 1,
                error,
            }),
        }
    }
}

// The position of the first line feed.
fn line_feed_in(chunk: &[u8]) -> Option<usize>
    ensures first { result ≡ position is_line_feed chunk.now }
    ensures within { IfSome result (λ at. at < length chunk.now) }
{
    chunk.iter().position(|byte| *byte == LINE_FEED)
}

// Reads a line, given its length and its first 64 bytes: a longer one is rejected by its length.
fn read_line(kept: &[u8; MAX_DIGITS], len: usize) -> Result<ObjectId, decode::Error>
    ensures { (line : List ℕ) → len ≡ length line → take 64 line ≡ take len kept.now
        → result_digits result ≡ full_read hex_letter line }
{
    if len > MAX_DIGITS {
        return Err(decode::Error::InvalidHexEncodingLength(len));
    }
    ObjectId::from_hex(&kept[..len])
}

// Stores the next byte of a line of this length, if it is one of the first 64.
fn store_byte(kept: &mut [u8; MAX_DIGITS], len: usize, byte: u8)
    requires { len + 1 < 2 ^ 64 }
    ensures { (line : List ℕ) → len ≡ length line → take 64 line ≡ take len kept.old
        → take 64 (line ++ byte ∷ []) ≡ take (len + 1) kept.new }
{
    if len < MAX_DIGITS {
        kept[len] = byte;
    }
}

// The id of the kind in the line that begins at this position, and the position after its line
// feed. There is no separate search for the line feed: if it comes early, it is rejected as a
// digit.
#[inline(always)]
fn id_line_at(kind: Kind, chunk: &[u8], at: usize) -> Option<(ObjectId, usize)>
    requires { at ≤ length chunk.now }
    ensures { IfSome result (λ found. HasIdLine chunk.now at found.1 found.0) }
{
    let digits = kind.len_in_hex();
    if chunk.len() - at <= digits || chunk[at + digits] != LINE_FEED {
        return None;
    }
    match Alphabet::Hex.read_id_opt(&chunk[at..at + digits]) {
        Some(id) => Some((id, at + digits + 1)),
        None => None,
    }
}

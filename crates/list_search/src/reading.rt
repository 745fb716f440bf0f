//! Searches in the list text of a source, chunk by chunk.

ghost use Rattle.std.specs.Prelude.{◌≡◌, ◌↔◌, ◌+◌, ◌^◌, ◌<◌, ◌≤◌, [], length, take, false, true, map, IsTrue, IfOk, IfErr, OnOk, IsErrOf, Ok};
ghost use Rattle.id_lookup.specs.Words.{id_digits};
ghost use Rattle.id_digits.specs.Letters.{is_line_len};
ghost use Rattle.list_search.specs.Lists.{list_read};
ghost use Rattle.list_search.specs.Searches.{From, OfAll, Stops, found_in_list};
ghost use Rattle.list_search.specs.SearchStates.{IsRefusedIn, Searches};
ghost use Rattle.list_search.specs.declared.error.SearchError.{SearchError};

use crate::error::SearchError;
use crate::finder::Finder;
use crate::list_reader::ListReader;
use crate::query::Query;
use gix_hash::ObjectId;
use std::alloc::Allocator;
use streams::{CHUNK_LEN, Source};

// The bytes of a line of an id of each kind: its letters, and a line feed.
const SHA1_LINE: usize = 41;

const SHA256_LINE: usize = 65;

/// The ids that are found in the list text that the source gives to its end, of at most `most`
/// bytes. The ids whose lines end in a chunk are looked up together, and only those that are found
/// are kept.
///
/// It reads nothing after the chunk in which the first bad line ends, and nothing after a read that
/// failed.
// Not inlined, so that the chunk is on the stack only while this runs.
#[inline(never)]
pub fn find_in_source<A: Allocator + Copy, R: Source>(
    alloc: A,
    query: &Query,
    input: &mut R,
    most: u64,
) -> Result<Vec<ObjectId, A>, SearchError>
    requires most { most < 2 ^ 63 }
    requires input { R.has_failed input.old ≡ false }
    ensures found { IfOk result (λ ids.
        OfAll (From most (R.remaining input.old) (R.remaining input.new))
        (λ text. found_in_list query.now.search query.now.prefix.digits (list_read text)
        ≡ Ok (map id_digits ids.items))) }
    ensures not_failed { OnOk result (R.has_failed input.new ≡ false) }
    ensures stopped { IfErr result (Stops
        (λ text. found_in_list query.now.search query.now.prefix.digits (list_read text))
        (From most (R.remaining input.old) (R.remaining input.new))) }
    ensures input { IsErrOf result SearchError.Input ↔ (R.has_failed input.new ≡ true) }
{
    let mut reader = ListReader::new(alloc);
    let mut finder = Finder::new(alloc);
    let mut chunk = [0; CHUNK_LEN];
    let mut room = most;
    'chunks: loop {
        let Ok(count) = input.read(&mut chunk) else {
            return Err(SearchError::Input);
        };
        if count == 0 {
            let ids = reader.finish()?;
            finder.take(query, &ids)?;
            return finder.into_found(query);
        }
        if count as u64 > room {
            // A bad line that ends within the limit is reported first.
            reader.take_chunk(&chunk[..room as usize])?;
            return Err(SearchError::TooMuch);
        }
        search_chunk(&mut reader, &mut finder, query, &chunk[..count])?;
        room -= count as u64;
    }
}

// Takes a chunk of the list text: its lines are skipped, if they can be, or else read.
fn search_chunk<A: Allocator>(
    reader: &mut ListReader<A>,
    finder: &mut Finder<A>,
    query: &Query,
    chunk: &[u8],
) -> Result<(), SearchError>
    requires empty { reader.old.ids.items ≡ [] }
    requires count { finder.old.count ≡ reader.old.dropped }
    requires room { reader.old.dropped + reader.old.len + length chunk.now < 2 ^ 64 }
    ensures ok { OnOk result (Searches query.now.search query.now.prefix.digits
        reader.old reader.new finder.old finder.new chunk.now) }
    ensures err { IfErr result (IsRefusedIn query.now.search query.now.prefix.digits reader.old
        finder.old chunk.now) }
{
    let start = reader.rest_of_line(chunk);
    read_chunk(reader, finder, query, &chunk[..start])?;
    let mut end = start + skip_lines::<_, SHA1_LINE>(reader, finder, query, &chunk[start..]);
    end += skip_lines::<_, SHA256_LINE>(reader, finder, query, &chunk[end..]);
    read_chunk(reader, finder, query, &chunk[end..])
}

// Reads a chunk of the list text, and looks the prefix up among the ids whose lines end in it.
fn read_chunk<A: Allocator>(
    reader: &mut ListReader<A>,
    finder: &mut Finder<A>,
    query: &Query,
    chunk: &[u8],
) -> Result<(), SearchError>
    requires empty { reader.old.ids.items ≡ [] }
    requires count { finder.old.count ≡ reader.old.dropped }
    requires room { reader.old.dropped + reader.old.len + length chunk.now < 2 ^ 64 }
    ensures ok { OnOk result (Searches query.now.search query.now.prefix.digits
        reader.old reader.new finder.old finder.new chunk.now) }
    ensures err { IfErr result (IsRefusedIn query.now.search query.now.prefix.digits reader.old
        finder.old chunk.now) }
{
    reader.take_chunk(chunk)?;
    finder.take(query, reader.ids())?;
    reader.drop_ids();
    Ok(())
}

// Skips all whole lines of `LINE` bytes of a chunk, if none of their ids can begin with the prefix,
// and returns the number of their bytes.
fn skip_lines<A: Allocator, const LINE: usize>(
    reader: &mut ListReader<A>,
    finder: &mut Finder<A>,
    query: &Query,
    chunk: &[u8],
) -> usize
    requires line { IsTrue (is_line_len LINE) }
    requires empty { reader.old.ids.items ≡ [] }
    requires count { finder.old.count ≡ reader.old.dropped }
    requires room { reader.old.dropped + length chunk.now < 2 ^ 64 }
    ensures within { result ≤ length chunk.now }
    ensures searches { Searches query.now.search query.now.prefix.digits reader.old reader.new
        finder.old finder.new (take result chunk.now) }
{
    if reader.has_begun_line() {
        return 0;
    }
    let lines = chunk.as_chunks::<LINE>().0;
    if !finder.skip(query, lines) {
        return 0;
    }
    reader.skip(lines.len());
    LINE * lines.len()
}

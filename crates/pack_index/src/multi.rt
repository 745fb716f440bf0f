//! The chunks of a multi-pack-index.

ghost use Rattle.std.specs.Prelude.{◌≡◌, ◌↔◌, ◌+◌, ◌*◌, ◌-◌, ◌<◌, ◌≤◌, ℕ, IfErr, IfOk, IfSome, IsTrue, List, MatchOption, OnErr, Some, length, slice_range};
ghost use Rattle.std.specs.Option.{ForSome};
ghost use Rattle.pack_index.specs.Format.{Each, digest_at};
ghost use Rattle.pack_index.specs.Lazy.{IsReadOrMemory, fan_out, up_to_at};
ghost use Rattle.pack_index.specs.Multi.{BeginsMulti, HasChunks, HasFanOut, IsChunk, chunk_count};
ghost use Rattle.pack_index.specs.declared.layout.Layout.TheVariants.{Multi};
ghost use Rattle.pack_index.specs.declared.multi.Chunks.{Chunks};

use crate::checks::{COUNTS_LEN, first_fall};
use crate::layout::ids_len;
use crate::lazy::LazyFile;
use crate::lazy_error::LazyError;
use crate::words::{IDS_START, long_word_at, num_objects, word_at};
use gix_hash::Kind;
use std::alloc::Allocator;
use std::io;
use streams::ReadAt;

// The letters MIDX, with which a multi-pack-index begins.
const MULTI: u32 = 0x4d49_4458;

// The letters PNAM, of the chunk of the packs' names.
const NAMES: u32 = 0x504e_414d;

// The letters OIDF, of the chunk of the fan-out table.
const COUNTS: u32 = 0x4f49_4446;

// The letters OIDL, of the chunk of the ids.
const IDS: u32 = 0x4f49_444c;

// The length of the header, and of an entry of the table of chunks.
const ENTRY_LEN: usize = 12;

// The most bytes that the header and the table of chunks have, with 255 chunks.
const FRONT_LEN: usize = ENTRY_LEN * 257;

/// A multi-pack-index of Git that [`LazyFile::open_multi`] opened.
#[derive(Drop)]
pub struct MultiPackIndex<S: ReadAt, A: Allocator> {
    /// Its ids.
    pub ids: LazyFile<S>,
    /// The names of the packs that it covers, as those of their indexes, `pack-x.idx`. Each ends in
    /// a NUL, and more NULs may follow.
    pub names: Vec<u8, A>,
}

// Where the chunks are that are read.
#[derive(Clone, Copy)]
pub(crate) struct Chunks {
    // Those of the packs' names, of the fan-out table, and of the ids.
    pub(crate) names: Chunk,
    pub(crate) counts: Chunk,
    pub(crate) ids: Chunk,
}

// Where a chunk begins and ends, in bytes from the start of the file.
#[derive(Clone, Copy)]
pub(crate) struct Chunk {
    pub(crate) start: u64,
    pub(crate) end: u64,
}

// The chunks of a multi-pack-index with ids of a kind, all of which end before its digest.
pub(crate) fn chunks_in<S: ReadAt>(source: &S, kind: Kind) -> io::Result<Option<Chunks>>
    ensures chunks { IfOk result (λ found. ForSome (S.content source.now) (λ bytes.
        MatchOption found
        ((chunks : Chunks) → ¬ HasChunks kind bytes (digest_at kind bytes) chunks)
        (HasChunks kind bytes (digest_at kind bytes)))) }
    ensures in_order { IfOk result (λ found. IfSome found (λ chunks.
        (chunks.names.start ≤ chunks.names.end) × (chunks.counts.start ≤ chunks.counts.end)
        × (chunks.ids.start ≤ chunks.ids.end))) }
    ensures err { OnErr result ((bytes : List ℕ) → S.content source.now ≡ Some bytes
        → IsTrue (S.can_fail source.now)) }
{
    let len = source.len()?;
    let mut bytes = [0; FRONT_LEN];
    let front = &mut bytes[..len.min(FRONT_LEN as u64) as usize];
    source.read_exact_at(front, 0)?;
    let limit = len.saturating_sub(kind.len_in_bytes() as u64);
    Ok(chunks_of(front, kind, limit))
}

// The chunks of a multi-pack-index, by its first bytes. They end by a limit.
fn chunks_of(front: &[u8], kind: Kind, limit: u64) -> Option<Chunks>
    ensures small { chunk_count front.now < 256 }
    ensures chunks { MatchOption result
        ((chunks : Chunks) → ¬ HasChunks kind front.now limit chunks)
        (HasChunks kind front.now limit) }
{
    if !begins_multi(front, kind) {
        return None;
    }
    let names = chunk_of(front, NAMES, limit)?;
    let counts = chunk_of(front, COUNTS, limit)?;
    let ids = chunk_of(front, IDS, limit)?;
    Some(Chunks { names, counts, ids })
}

// Whether the bytes begin as a multi-pack-index of version 1 with ids of a kind that builds on no
// other, and have its table of chunks.
fn begins_multi(front: &[u8], kind: Kind) -> bool
    ensures { IsTrue result ↔ BeginsMulti kind front.now }
{
    let digests = match kind {
        Kind::Sha1 => 1,
        Kind::Sha256 => 2,
    };
    front.len() >= ENTRY_LEN
        && word_at(front, 0) == MULTI
        && front[4] == 1
        && front[5] == digests
        && front[7] == 0
        && front.len() >= 2 * ENTRY_LEN + ENTRY_LEN * usize::from(front[6])
}

// The first chunk with these letters, if it ends by a limit.
fn chunk_of(front: &[u8], letters: u32, limit: u64) -> Option<Chunk>
    requires { 24 + 12 * chunk_count front.now ≤ length front.now }
    ensures { MatchOption result ((start end : ℕ) → ¬ IsChunk front.now limit letters start end)
        (λ chunk. IsChunk front.now limit letters chunk.start chunk.end) }
{
    for at in 0..front[6] {
        let entry = ENTRY_LEN + ENTRY_LEN * usize::from(at);
        if word_at(front, entry) == letters {
            let start = long_word_at(front, entry + 4);
            let end = long_word_at(front, entry + ENTRY_LEN + 4);
            if start > end || end > limit {
                return None;
            }
            return Some(Chunk { start, end });
        }
    }
    None
}

// The fan-out table, after 8 bytes of zeros, if its chunk and that of the ids have the right length
// and no entry is below the one before it.
pub(crate) fn fan_out_of<S: ReadAt>(
    source: &S,
    kind: Kind,
    chunks: &Chunks,
) -> io::Result<Option<[u8; IDS_START]>>
    requires counts { chunks.now.counts.start ≤ chunks.now.counts.end }
    requires ids { chunks.now.ids.start ≤ chunks.now.ids.end }
    ensures right { IfOk result (λ found. IfSome found (λ head.
        HasFanOut kind chunks.now (fan_out head))) }
    ensures known { IfOk result (λ found. ForSome (S.content source.now) (λ bytes.
        let up_to = up_to_at (Multi chunks.now.counts.start chunks.now.ids.start) bytes in
        MatchOption found (¬ HasFanOut kind chunks.now up_to)
        (λ head. Each (λ byte. fan_out head byte ≡ up_to byte) 256))) }
    ensures err { OnErr result ((bytes : List ℕ) → S.content source.now ≡ Some bytes
        → chunks.now.counts.end ≤ length bytes → IsTrue (S.can_fail source.now)) }
{
    let Chunks { counts, ids, .. } = *chunks;
    if counts.end - counts.start != COUNTS_LEN as u64 {
        return Ok(None);
    }
    let mut head = [0; IDS_START];
    source.read_exact_at(&mut head[8..], counts.start)?;
    let len = ids_len(kind, num_objects(&head) as usize) as u64;
    if ids.end - ids.start != len || first_fall(&head).is_some() {
        return Ok(None);
    }
    Ok(Some(head))
}

// The bytes of a chunk.
pub(crate) fn read_chunk<S: ReadAt, A: Allocator>(
    alloc: A,
    source: &S,
    chunk: &Chunk,
) -> Result<Vec<u8, A>, LazyError>
    requires { chunk.now.start ≤ chunk.now.end }
    ensures bytes { IfOk result (λ names. ForSome (S.content source.now) (λ bytes.
        names.items ≡ slice_range bytes chunk.now.start chunk.now.end)) }
    ensures len { IfOk result (λ names. length names.items ≡ chunk.now.end - chunk.now.start) }
    ensures err { IfErr result (λ e. ForSome (S.content source.now) (λ bytes.
        chunk.now.end ≤ length bytes → IsReadOrMemory (S.can_fail source.now) e)) }
{
    let mut bytes = vec![in alloc; 0; (chunk.end - chunk.start) as usize]?;
    source.read_exact_at(&mut bytes, chunk.start)?;
    Ok(bytes)
}

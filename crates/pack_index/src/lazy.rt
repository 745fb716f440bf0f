//! Pack indexes that are read at positions, and not whole.

ghost use Rattle.std.specs.Prelude.{◌≡◌, ◌≢◌, ◌↔◌, ◌-◌, ◌*◌, ◌^◌, ◌<◌, ◌≤◌, ℕ, [], All, IfErr, IfOk, IfSome, IsTrue, List, MatchOption, Some, length, slice_index_or, slice_range};
ghost use Rattle.std.specs.Option.{ForSome};
ghost use Rattle.id_lookup.specs.Words.{byte_len_of, first_byte_of, has_first_byte, hex_len_of, oid_digits};
ghost use Rattle.pack_index.specs.Format.{Each, HasHead, HasTables, IsFirstIndexOf, digests_in, offset_word};
ghost use Rattle.pack_index.specs.Lazy.{AreBetween, HaveRightCounts, HaveFirstByte, IsBucketFault, IsOffsetFault, IsOpenFault, IsOrdered, IsPartOf, IsReadOrMemory, IsRunFault, Rises, bucket_start, end_of, fan_out, ids_of, position_of, seen, tables_of};
ghost use Rattle.pack_index.specs.Multi.{IsReadAsMulti};
ghost use Rattle.pack_index.specs.declared.layout.Layout.{Layout};
ghost use Rattle.pack_index.specs.declared.layout.Layout.TheVariants.{Index};

use crate::bucket::Bucket;
use crate::checks::{COUNTS_LEN, check_head, first_fall};
use crate::error::Error;
use crate::layout::{IdTable, Layout, ids_len};
use crate::lazy_error::LazyError;
use crate::multi::{MultiPackIndex, chunks_in, fan_out_of, read_chunk};
use crate::search::narrowed;
use crate::words::{
    IDS_START, LONG, bucket_range, long_table_start, long_word_at, num_objects, offset_table_start,
    word_at,
};
use gix_hash::{Kind, Prefix, oid};
use id_lookup::{Id, Run};
use std::alloc::Allocator;
use std::marker::Model;
use streams::ReadAt;

/// A pack index of Git, of version 2, or a multi-pack-index, that is read at positions: its header
/// and its fan-out table as it is opened, and then only what a call needs. No entry of the fan-out
/// table is below the one before it. Neither the checksum nor the order of the ids is checked.
/// Positions count from 0.
///
/// ```
/// let mut index = LazyFile::open(idx, Kind::Sha1)?;
/// let bucket = index.part(rt.alloc(), &Prefix::from(id), 32)?;
/// if let Some(at) = index.lookup(&bucket, id.as_oid()) {
///     println!(rt; "at byte {} of the pack", index.pack_offset_at_index(at)?)?;
/// }
/// ```
#[derive(Drop)]
pub struct LazyFile<S: ReadAt> {
    source: S,
    kind: Kind,
    layout: Layout,
    // The fan-out table, whose entries do not fall. As in a pack index, 8 bytes are before it.
    head: [u8; IDS_START],
    // Where the 8-byte offsets of a pack index end.
    end: u64,
    // For each first byte whether the ids that are counted with it were read, have it, and are
    // sorted.
    ordered: [bool; 256],
}

impl<S: ReadAt> Model for LazyFile<S> {
    ghost use Rattle.std.specs.Prelude.{◌+◌, ◌*◌, ◌^◌, ◌<◌, IsTrue, false, slice_index_or};
    ghost use Rattle.std.specs.Option.{ForSome};
    ghost use Rattle.id_lookup.specs.Words.{byte_len_of};
    ghost use Rattle.pack_index.specs.Format.{Each, num_objects};
    ghost use Rattle.pack_index.specs.Lazy.{HasLayout, IsOrdered, LazyIndex, Rises, fan_out, first_id, tables_of};

    ghost Value = { LazyIndex };

    ghost view = { λ file. record {
      kind = file.kind;
      layout = file.layout;
      count = num_objects file.head;
      content = S.content file.source;
      path = S.path file.source;
      can_fail = S.can_fail file.source;
    } };

    ghost invariant = { λ file. Each (Rises (fan_out file.head)) 256
        × (first_id file.layout + byte_len_of file.kind * num_objects file.head < 2 ^ 64)
        × ForSome (S.content file.source) (λ bytes.
        HasLayout file.kind file.layout file.head file.end bytes
        × Each (λ byte. IsTrue (slice_index_or file.ordered byte false)
        → IsOrdered (tables_of file.kind file.layout bytes) byte) 256) };
}

impl<S: ReadAt + Drop> LazyFile<S> {
    /// Opens the bytes of a source as a pack index with ids of a kind. Only their number and the
    /// first 1032 are looked at: the header and the fan-out table, whose entries must not fall, as
    /// for Git.
    ///
    /// The errors are `Read`, `Head` and `CountsFall`.
    pub fn open(source: S, kind: Kind) -> Result<LazyFile<S>, LazyError>
        ensures kind { IfOk result (λ file. file.kind ≡ kind) }
        ensures layout { IfOk result (λ file. file.layout ≡ Index) }
        ensures content { IfOk result (λ file. file.content ≡ S.content source) }
        ensures path { IfOk result (λ file. file.path ≡ S.path source) }
        ensures reads { IfOk result (λ file. file.can_fail ≡ S.can_fail source) }
        ensures head { IfOk result (λ file. ForSome (S.content source) (HasHead kind)) }
        ensures counts { IfOk result (λ file. ForSome (S.content source) (λ bytes.
            Each (Rises (fan_out bytes)) 256)) }
        ensures err { IfErr result (λ e. ForSome (S.content source) (λ bytes.
            IsOpenFault (S.can_fail source) kind bytes e)) }
    {
        let len = source.len()?;
        if len < (COUNTS_LEN + 2 * kind.len_in_bytes()) as u64 {
            return Err(LazyError::Head(Error::TooShort));
        }
        let mut head = [0; IDS_START];
        source.read_exact_at(&mut head, 0)?;
        check_head(&head, kind, len)?;
        if let Some(byte) = first_fall(&head) {
            return Err(LazyError::CountsFall(byte));
        }
        let end = len - 2 * kind.len_in_bytes() as u64;
        Ok(LazyFile {
            source,
            kind,
            layout: Layout::Index,
            head,
            end,
            ordered: [false; 256],
        })
    }

    /// Opens the bytes of a source as a multi-pack-index with ids of a kind. At most 3,084 bytes at
    /// its beginning, the fan-out table and the names of its packs are read.
    ///
    /// Returns `None` if they are not read as a multi-pack-index of version 1 that builds on no
    /// other, as Git's gitformat-pack describes it: if a chunk is missing, does not end before the
    /// digest or has the wrong length, or if a fan-out entry is below the one before it; and if the
    /// chunk of names has more than `most` bytes. Neither the checksum nor the order of the ids is
    /// checked, nor which packs have them. The errors are `Read` and `Memory`.
    pub fn open_multi<A: Allocator>(
        alloc: A,
        source: S,
        kind: Kind,
        most: u64,
    ) -> Result<Option<MultiPackIndex<S, A>>, LazyError>
        ensures kind { IfOk result (λ found. IfSome found (λ multi. multi.ids.kind ≡ kind)) }
        ensures content { IfOk result (λ found. IfSome found (λ multi.
            multi.ids.content ≡ S.content source)) }
        ensures path { IfOk result (λ found. IfSome found (λ multi.
            multi.ids.path ≡ S.path source)) }
        ensures reads { IfOk result (λ found. IfSome found (λ multi.
            multi.ids.can_fail ≡ S.can_fail source)) }
        ensures read { IfOk result (λ found. ForSome (S.content source) (λ bytes.
            MatchOption found ((layout : Layout) (names : List ℕ)
            → IsReadAsMulti kind bytes layout names → most < length names)
            (λ multi. IsReadAsMulti kind bytes multi.ids.layout multi.names.items))) }
        ensures few { IfOk result (λ found. IfSome found (λ multi.
            length multi.names.items ≤ most)) }
        ensures err { IfErr result (λ e. ForSome (S.content source) (λ _.
            IsReadOrMemory (S.can_fail source) e)) }
    {
        let Some(chunks) = chunks_in(&source, kind)? else {
            return Ok(None);
        };
        if chunks.names.end - chunks.names.start > most {
            return Ok(None);
        }
        let Some(head) = fan_out_of(&source, kind, &chunks)? else {
            return Ok(None);
        };
        let names = read_chunk(alloc, &source, &chunks.names)?;
        let layout = Layout::Multi {
            counts: chunks.counts.start,
            ids: chunks.ids.start,
        };
        let ids = LazyFile {
            source,
            kind,
            layout,
            head,
            end: 0,
            ordered: [false; 256],
        };
        Ok(Some(MultiPackIndex { ids, names }))
    }

    /// The kind of the ids.
    pub fn object_hash(&self) -> Kind
        ensures { result ≡ self.now.kind }
    {
        self.kind
    }

    /// The number of objects, as the last fan-out entry says.
    pub fn num_objects(&self) -> u32
        ensures count { result ≡ self.now.count }
        ensures ids { ForSome (seen self.now).tables (λ tables. result ≡ length tables.ids) }
        ensures tables { ForSome self.now.content (λ bytes.
            self.now.layout ≡ Index → HasTables self.now.kind bytes) }
    {
        num_objects(&self.head)
    }

    /// Whether [`LazyFile::part`] reads only some of the ids with a first byte: all of them were
    /// read before and are sorted, and they are more than `few`.
    pub fn reads_part(&self, byte: u8, few: usize) -> bool
        ensures { IsTrue result
            → ForSome (seen self.now).tables (λ tables. IsOrdered tables byte) }
    {
        let run = self.run_of(byte);
        run.end - run.start > few && self.ordered[usize::from(byte)]
    }

    /// Reads ids with the first byte of a prefix into memory of `alloc`, 20 or 32 bytes each. By
    /// the fan-out table they follow each other, and all ids with this first byte that begin with
    /// the prefix are among them. The prefix has 2 digits or more, and at most as many as the ids.
    ///
    /// At first these are all ids with the first byte. Once they were found sorted, and if they are
    /// more than `few`, some of them are compared with the prefix, and only those that begin with
    /// it are read, and a few beside them. If the fan-out table is right, as in each pack index, no
    /// id that begins with the prefix is missing. The errors are `Read`, `Memory` and `WrongCount`.
    pub fn part<A: Allocator>(
        &mut self,
        alloc: A,
        prefix: &Prefix,
        few: usize,
    ) -> Result<Bucket<A>, LazyError>
        requires fits { length prefix.now.digits ≤ hex_len_of self.old.kind }
        requires enough { 2 ≤ length prefix.now.digits }
        ensures same { self.new ≡ self.old }
        ensures part { IfOk result (IsPartOf (seen self.old) prefix.now.digits) }
        ensures err { IfErr result (λ e. ForSome (seen self.old).tables (λ tables. IsBucketFault
            self.old.can_fail tables (first_byte_of prefix.now.digits) e)) }
    {
        let byte = prefix.first_byte();
        let run = self.run_of(byte);
        if prefix.hex_len() > 2 && self.reads_part(byte, few) {
            let part = narrowed(&self.source, self.ids(), prefix, run)?;
            return self.read_run(alloc, byte, &part);
        }
        let bucket = self.read_run(alloc, byte, &run)?;
        if bucket.is_sorted() {
            self.ordered[usize::from(byte)] = true;
        }
        Ok(bucket)
    }

    /// The position of an id, the first one if it occurs more than once, or `None` if it does not
    /// occur. It is looked up among those that [`LazyFile::part`] read for it, for a beginning of
    /// it or for its first byte, and nothing is read. If they are not sorted, it is compared with
    /// each of them.
    pub fn lookup<A: Allocator>(&self, bucket: &Bucket<A>, id: oid<'_>) -> Option<u32>
        requires { IsPartOf (seen self.now) (oid_digits id) bucket.now }
        ensures in_range { IfSome result (λ at. at < self.now.count) }
        ensures id { IfSome result (λ at. ForSome (seen self.now).tables (λ tables.
            slice_index_or tables.ids at [] ≡ oid_digits id.entry)) }
        ensures found { ForSome (seen self.now).tables (λ tables. HaveRightCounts tables
            → MatchOption result ((k : ℕ) → k < length tables.ids
            → slice_index_or tables.ids k [] ≢ oid_digits id.entry)
            (IsFirstIndexOf tables.ids (oid_digits id.entry))) }
        ensures counted { ForSome (seen self.now).tables (λ tables.
            result ≡ position_of (oid_digits id.entry) tables) }
    {
        // The contracts of these calls say how many ids there are, and that the byte is one.
        let _count = self.num_objects();
        let _byte = id.first_byte();
        match bucket.position(id) {
            Some(at) => Some((bucket.start() + at) as u32),
            None => None,
        }
    }

    /// The offset of object `at` in the pack, in bytes; `at` must be below `num_objects()`. One
    /// number is read, and a second one if it is an 8-byte offset. The errors are `Read` and
    /// `NoOffset`, the latter for each object of a multi-pack-index.
    pub fn pack_offset_at_index(&self, at: u32) -> Result<u64, LazyError>
        requires { at < self.now.count }
        ensures offset { IfOk result (λ offset. ForSome (seen self.now).tables (λ tables.
            tables.offset at ≡ Some offset)) }
        ensures err { IfErr result (λ e. ForSome (seen self.now).tables (λ tables.
            IsOffsetFault self.now.can_fail tables at e)) }
    {
        if self.layout != Layout::Index {
            return Err(LazyError::NoOffset(at as usize));
        }
        let word = self.read_offset_word(at)?;
        if word < LONG {
            return Ok(u64::from(word));
        }
        let start = long_table_start(&self.head, self.kind) as u64 + 8 * u64::from(word - LONG);
        if start + 8 > self.end {
            return Err(LazyError::NoOffset(at as usize));
        }
        let mut long = [0; 8];
        self.source.read_exact_at(&mut long, start)?;
        Ok(long_word_at(&long, 0))
    }

    // What the table of offsets has for object `at`.
    fn read_offset_word(&self, at: u32) -> Result<u32, LazyError>
        requires in_range { at < self.now.count }
        requires index { self.now.layout ≡ Index }
        ensures word { IfOk result (λ word. ForSome self.now.content (λ bytes.
            word ≡ offset_word self.now.kind bytes at)) }
        ensures err { IfErr result (λ e. ForSome (seen self.now).tables (λ tables.
            IsOffsetFault self.now.can_fail tables at e)) }
    {
        let mut word = [0; 4];
        let start = offset_table_start(&self.head, self.kind) + 4 * at as usize;
        self.source.read_exact_at(&mut word, start as u64)?;
        Ok(word_at(&word, 0))
    }

    // The positions of the ids with a first byte, by the fan-out table.
    fn run_of(&self, byte: u8) -> Run
        ensures start { ForSome (seen self.now).tables (λ tables.
            result.start ≡ bucket_start tables.up_to byte) }
        ensures end { ForSome (seen self.now).tables (λ tables. result.end ≡ tables.up_to byte) }
        ensures in_order { result.start ≤ result.end }
        ensures inside { result.end ≤ self.now.count }
        ensures ids { ForSome (seen self.now).tables (λ tables. result.end ≤ length tables.ids) }
    {
        bucket_range(&self.head, byte, byte)
    }

    // Reads the ids of a run, which must have a first byte.
    #[inline(always)]
    fn read_run<A: Allocator>(&self, alloc: A, byte: u8, run: &Run) -> Result<Bucket<A>, LazyError>
        requires in_order { run.now.start ≤ run.now.end }
        requires inside { run.now.end ≤ self.now.count }
        ensures ids { IfOk result (AreBetween (seen self.now) byte
            run.now.start run.now.end) }
        ensures err { IfErr result (λ e. ForSome (seen self.now).tables (λ tables. IsRunFault
            self.now.can_fail (slice_range tables.ids run.now.start run.now.end) byte e)) }
    {
        let ids = self.ids();
        if run.start == run.end {
            return Ok(Bucket::new(Vec::new(alloc), ids.kind, run.start));
        }
        let mut table = vec![in alloc; 0; ids_len(ids.kind, run.end - run.start)]?;
        self.source
            .read_exact_at(&mut table, ids.start_of(run.start))?;
        if !have_first_byte(&table, ids.kind, byte) {
            return Err(LazyError::WrongCount(byte));
        }
        Ok(Bucket::new(table, ids.kind, run.start))
    }

    // Where the ids are.
    fn ids(&self) -> IdTable
        ensures kind { result.kind ≡ self.now.kind }
        ensures count { result.count ≡ self.now.count }
        ensures room { end_of result < 2 ^ 64 }
        ensures inside { ForSome self.now.content (λ bytes. end_of result ≤ length bytes) }
        ensures ids { ForSome self.now.content (λ bytes.
            ids_of result bytes ≡ (tables_of self.now.kind self.now.layout bytes).ids) }
    {
        IdTable {
            kind: self.kind,
            start: self.layout.first_id(),
            count: num_objects(&self.head),
        }
    }
}

// Whether each digest of a kind in the bytes has the first byte.
fn have_first_byte(bytes: &[u8], kind: Kind, byte: u8) -> bool
    ensures { IsTrue result ↔ HaveFirstByte byte (digests_in kind bytes.now) }
{
    match kind {
        Kind::Sha1 => all_have_first_byte::<[u8; 20]>(bytes.as_chunks().0, byte),
        Kind::Sha256 => all_have_first_byte::<[u8; 32]>(bytes.as_chunks().0, byte),
    }
}

// Whether each id has the first byte.
fn all_have_first_byte<I: Id>(ids: &[I], byte: u8) -> bool
    ensures { IsTrue result ↔ All (λ id. IsTrue (has_first_byte byte (I.digits id))) ids.now }
{
    ids.iter().all(|id| id.as_oid().first_byte() == byte)
}

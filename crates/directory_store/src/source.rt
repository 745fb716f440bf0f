//! What a pack index is read from.

ghost use Rattle.std.specs.Prelude.{◌≡◌, ◌↔◌, ◌+◌, ◌-◌, ◌≤◌, IfOk, IsOk, IsSome, None, false, length, max, refl, string_bytes, true, vec_len};
ghost use Rattle.repositories.specs.Answers.{IfKnown};
ghost use Rattle.directory_store.specs.Packs.{bytes_at};
ghost use Rattle.streams.specs.Streams.{IsReadAt};

use repositories::{Directories, retried};
use std::alloc::{AllocError, Global};
use std::cell::{Cell, RefCell};
use std::fs::File;
use std::rt::Files;
use std::{fs, io};
use streams::ReadAt;

// How many bytes a short read takes of a file that stays open.
const OPEN_LEN: usize = 4096;

// How many bytes it takes of a file that is opened again for each read, if as many may be kept.
const CLOSED_LEN: usize = 16384;

/// Directories, and files in them that are read at positions.
///
/// ```
/// let source = rt.open_source("pack-1.idx", true, 1 << 20)?;
/// let index = pack_index::LazyFile::open(source, Kind::Sha1)?;
/// ```
pub trait StoreFiles: Directories + Clone {
    /// What the bytes of a file are read from.
    type Source: ReadAt + Drop;

    /// Opens a file, to stay open or to be opened again for each read of what is not kept. It may
    /// be kept whole if it has at most `most_kept` bytes. A runtime whose answers are known opens
    /// only what it reads.
    fn open_source(&self, path: &str, stays_open: bool, most_kept: u64) -> io::Result<Self::Source>
        ensures path { IfOk result (λ source. Self.Source.path source ≡ path.now) }
        ensures content { IfOk result (λ source. IfKnown (λ at. Self.Source.content source
            ≡ bytes_at at path.now) (Self.answers self.now)) }
        ensures read { IfOk result (λ source. IfKnown (λ at. IsOk (at.bytes path.now))
            (Self.answers self.now)) };

    /// A clone answers alike.
    ghost alike: { (rt other : Self) → Self.is_clone rt other
        → Self.answers other ≡ Self.answers rt };
}

/// What a file of the host contains is not known.
impl<R: Files<File = File> + AllocGlobal + Clone + Drop> StoreFiles for R {
    type Source = StoreFile<R>;

    fn open_source(
        &self,
        path: &str,
        stays_open: bool,
        most_kept: u64,
    ) -> io::Result<StoreFile<R>> {
        StoreFile::open(self, path, stays_open, most_kept)
    }

    ghost alike = { λ rt other cloned. refl };
}

/// A file of a store, with its length as it was opened. A read of fewer than 4096 bytes takes 4096,
/// as many before as after those that are asked for, and keeps them. Of a file that is opened again
/// for each read it takes 16384 bytes, if as many may be kept. Once such reads took a quarter of
/// the length of a file that may be kept whole, the next one takes and keeps all. A read of what is
/// kept, or of nothing, reads no file.
///
/// ```
/// let source = directory_store::StoreFile::open(rt, "pack-1.idx", true, 1 << 20)?;
/// let index = pack_index::LazyFile::open(source, Kind::Sha1)?;
/// ```
#[derive(Drop)]
pub struct StoreFile<R> {
    rt: R,
    alloc: Global,
    path: String,
    // If there is none, it is opened for each read.
    file: Option<File>,
    len: u64,
    may_keep_all: bool,
    // How many bytes a short read takes, and how many all such reads took.
    window: usize,
    taken: Cell<u64>,
    kept: RefCell<Kept>,
}

// Bytes of a file from a position on.
#[derive(Drop)]
struct Kept {
    start: u64,
    bytes: Vec<u8>,
}

impl Kept {
    fn nothing(alloc: Global) -> Kept {
        Kept {
            start: 0,
            bytes: Vec::new(alloc),
        }
    }

    // Whether they contain those from a position on that fill a buffer. If so, it has them.
    #[inline(always)]
    fn copy_to(&self, buf: &mut [u8], at: u64) -> bool
        ensures copied { result ≡ true → (self.now.start ≤ at)
            × IsReadAt self.now.bytes.items (at - self.now.start) buf.new }
        ensures missing { result ≡ false → self.now.start ≤ at
            → ¬ (at - self.now.start + length buf.old ≤ vec_len self.now.bytes) }
    {
        let bytes = self.bytes.as_slice();
        at >= self.start && bytes.read_exact_at(buf, at - self.start).is_ok()
    }
}

impl<R: Files<File = File> + AllocGlobal + Clone> StoreFile<R> {
    /// Opens a file, to stay open or to be opened again for each read of what is not kept. It may
    /// be kept whole if it has at most `most_kept` bytes.
    pub fn open(rt: &R, path: &str, stays_open: bool, most_kept: u64) -> io::Result<StoreFile<R>>
        ensures path { IfOk result (λ source. string_bytes source.path ≡ path.now) }
        ensures file { IfOk result (λ source. IsSome source.file ↔ (stays_open ≡ true)) }
    {
        let file = fs::open(rt, path)?;
        let len = retried(|| ReadAt::len(&file))?;
        let mut source = StoreFile {
            rt: rt.clone()?,
            alloc: rt.alloc(),
            path: String::from_str(rt.alloc(), path)?,
            file: Some(file),
            len,
            may_keep_all: len <= most_kept,
            window: window_of(stays_open, most_kept),
            taken: Cell::new(0),
            kept: RefCell::new(Kept::nothing(rt.alloc())),
        };
        if !stays_open {
            // So a closed file keeps its beginning.
            source.read_more(&mut [], 0)?;
            source.file = None;
        }
        Ok(source)
    }
}

impl<R: Files<File = File>> StoreFile<R> {
    // Memory for so many bytes: that of the bytes that were kept, if they are as many. They are not
    // kept any more. `None` if memory runs out.
    fn take_room(&self, len: usize) -> Option<Vec<u8>> {
        let nothing = Kept::nothing(self.alloc);
        let (Ok(Kept { bytes, .. }) | Err(Kept { bytes, .. })) = self.kept.try_replace(nothing);
        if bytes.len() == len {
            return Some(bytes);
        }
        drop(bytes);
        let room: Result<Vec<u8>, AllocError> = vec![in self.alloc; 0; len];
        room.ok()
    }

    // Whether the next read of what is not kept takes all bytes.
    fn takes_all(&self) -> bool {
        let is_worth_it = self.taken.get() >= self.len / 4;
        self.len <= self.window as u64 || self.may_keep_all && is_worth_it
    }

    // The bytes that are kept where `len` bytes from a position on are read: where they begin, and
    // how many they are. `None` if none are, since those that are read are many.
    fn to_keep(&self, len: usize, at: u64) -> Option<(u64, usize)> {
        if self.takes_all() {
            return Some((0, self.len as usize));
        }
        if len >= self.window {
            return None;
        }
        let window = self.window as u64;
        self.taken.set(self.taken.get().saturating_add(window));
        let start = at.saturating_sub((window - len as u64) / 2);
        Some((start, self.len.saturating_sub(start).min(window) as usize))
    }

    // Fills the buffer with bytes that are not kept, and keeps more of the file instead of what was
    // kept, if they are few. If memory runs out, none are kept.
    #[inline(never)]
    fn read_more(&self, buf: &mut [u8], at: u64) -> io::Result<()> {
        let opened;
        let file = match &self.file {
            Some(file) => file,
            None => {
                opened = fs::open(&self.rt, self.path.as_str())?;
                &opened
            }
        };
        if let Some((start, len)) = self.to_keep(buf.len(), at) {
            if let Some(mut bytes) = self.take_room(len) {
                ReadAt::read_exact_at(file, &mut bytes, start)?;
                let _ = self.kept.try_replace(Kept { start, bytes });
            }
            if self.copy_kept(buf, at) {
                return Ok(());
            }
        }
        ReadAt::read_exact_at(file, buf, at)
    }

    // Fills the buffer from what is kept, if that has the bytes.
    #[inline(always)]
    fn copy_kept(&self, buf: &mut [u8], at: u64) -> bool {
        match self.kept.try_borrow() {
            Ok(kept) => kept.copy_to(buf, at),
            Err(_) => false,
        }
    }
}

/// What a file contains is not known.
impl<R: Files<File = File>> ReadAt for StoreFile<R> {
    ghost content = { λ _. None };

    ghost path = { λ source. string_bytes source.path };

    ghost can_fail = { λ _. true };

    fn len(&self) -> io::Result<u64> {
        Ok(self.len)
    }

    #[inline(always)]
    fn read_exact_at(&self, buf: &mut [u8], at: u64) -> io::Result<()> {
        if buf.is_empty() || self.copy_kept(buf, at) {
            return Ok(());
        }
        self.read_more(buf, at)
    }
}

// How many bytes a short read takes of a file of which at most `most_kept` bytes may be kept.
fn window_of(stays_open: bool, most_kept: u64) -> usize
    ensures { result ≤ max 4096 most_kept }
{
    if stays_open || most_kept < CLOSED_LEN as u64 {
        OPEN_LEN
    } else {
        CLOSED_LEN
    }
}

// How many bytes are kept at most of a file of `len` bytes.
pub(crate) fn most_kept_of(len: u64, stays_open: bool, most_kept: u64) -> u64
    ensures { result ≤ max 4096 most_kept }
{
    if len <= most_kept {
        len
    } else {
        window_of(stays_open, most_kept) as u64
    }
}

//! Directories in which files are moved as they are listed, and whose reads and openings fail.

use std::alloc::{Alloc, AllocError, Allocator, Global};
use std::cell::Cell;
use std::fs::{File, Metadata, OpenOptions};
use std::io;
use std::io::{BufReader, Read};
use std::path::PathBuf;
use std::rt::Files;

/// A file that is moved before a directory is listed: how many were listed before, and the two
/// paths.
pub type Move = (usize, (&'static str, &'static str));

/// The names in a directory, each given by a read of its own, from the last on, until no read is
/// left.
#[derive(Drop)]
pub struct Names {
    names: Vec<Vec<u8>>,
    reads: usize,
}

impl Names {
    // Takes the reads that it needs of those that are left.
    fn open<R: Files + AllocGlobal>(rt: &R, path: &str, left: &Cell<usize>) -> io::Result<Self> {
        let mut all = Vec::new(rt.alloc());
        BufReader::new(rt.alloc(), rt.open_dir(path)?)?.read_to_end(&mut all)?;
        let mut names = Vec::new(rt.alloc());
        for name in all.split_inclusive(|byte| *byte == 0) {
            names.push(name.to_vec(rt.alloc())?)?;
        }
        names.sort_unstable();
        let reads = left.get();
        left.set(reads.saturating_sub(names.len()).saturating_sub(1));
        Ok(Names { names, reads })
    }
}

impl Read for Names {
    fn read(&mut self, buf: &mut [u8]) -> io::Result<usize> {
        if self.reads == 0 {
            return Err(io::ErrorKind::PermissionDenied.into());
        }
        self.reads -= 1;
        let Some(name) = self.names.pop() else {
            return Ok(0);
        };
        let len = name.len().min(buf.len());
        buf[..len].copy_from_slice(&name[..len]);
        Ok(len)
    }
}

/// Directories in which files are moved as they are listed, with the number of reads that are left.
/// Of the next openings of a directory or file those fail whose bits are set, from the lowest bit
/// on, as if too many files were open.
pub struct Moving<'a, R> {
    pub rt: &'a R,
    pub moves: &'a [Move],
    pub listed: &'a Cell<usize>,
    pub reads: &'a Cell<usize>,
    pub failing: &'a Cell<u8>,
}

// EMFILE.
const TOO_MANY_OPEN: i32 = 24;

impl<R> Moving<'_, R> {
    fn expect_opening(&self) -> io::Result<()> {
        let failing = self.failing.get();
        self.failing.set(failing / 2);
        if failing % 2 == 1 {
            Err(io::Error::from_raw_os_error(TOO_MANY_OPEN))
        } else {
            Ok(())
        }
    }
}

impl<R> Copy for Moving<'_, R> {}

impl<R> Clone for Moving<'_, R> {
    fn clone(&self) -> Result<Self, AllocError> {
        Ok(*self)
    }
}

impl<R: AllocGlobal> Alloc for Moving<'_, R> {
    type A = Global;

    fn alloc(&self) -> Global {
        self.rt.alloc()
    }
}

impl<R: Files<File = File> + AllocGlobal> Files for Moving<'_, R> {
    type File = File;

    type Dir = Names;

    fn open_dir(&self, path: &str) -> io::Result<Names> {
        self.expect_opening()?;
        for (before, (from, to)) in self.moves {
            if *before == self.listed.get() {
                self.rt.rename(from, to)?;
            }
        }
        self.listed.set(self.listed.get().saturating_add(1));
        Names::open(self.rt, path, self.reads)
    }

    fn open_file(&self, how: &OpenOptions, path: &str) -> io::Result<File> {
        self.expect_opening()?;
        self.rt.open_file(how, path)
    }

    fn metadata(&self, path: &str) -> io::Result<Metadata> {
        self.rt.metadata(path)
    }

    fn symlink_metadata(&self, path: &str) -> io::Result<Metadata> {
        self.rt.symlink_metadata(path)
    }

    fn copy(&self, from: &str, to: &str) -> io::Result<u64> {
        self.rt.copy(from, to)
    }

    fn rename(&self, from: &str, to: &str) -> io::Result<()> {
        self.rt.rename(from, to)
    }

    fn remove_file(&self, path: &str) -> io::Result<()> {
        self.rt.remove_file(path)
    }

    fn create_dir(&self, path: &str) -> io::Result<()> {
        self.rt.create_dir(path)
    }

    fn remove_dir(&self, path: &str) -> io::Result<()> {
        self.rt.remove_dir(path)
    }

    fn remove_dir_all<B: Allocator>(&self, alloc: B, path: &str) -> io::Result<()> {
        self.rt.remove_dir_all(alloc, path)
    }

    fn canonicalize<B: Allocator>(&self, alloc: B, path: &str) -> io::Result<PathBuf<B>> {
        self.rt.canonicalize(alloc, path)
    }
}

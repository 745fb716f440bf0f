//! Files of which it is known how often one was opened.

use std::alloc::Allocator;
use std::cell::Cell;
use std::fs::{Metadata, OpenOptions};
use std::io;
use std::rt::Files;

/// Files that can only be opened. Opening returns an error if one is chosen,
/// else the host opens the file.
#[derive(Drop)]
pub struct Opening<'a, F> {
    host: &'a F,
    error: Option<io::ErrorKind>,
    times: Cell<usize>,
}

impl<'a, F> Opening<'a, F> {
    pub fn new(host: &'a F) -> Self {
        Opening {
            host,
            error: None,
            times: Cell::new(0),
        }
    }

    /// Files of which none can be opened, for an error of that kind.
    pub fn failing(host: &'a F, kind: io::ErrorKind) -> Self {
        Opening {
            host,
            error: Some(kind),
            times: Cell::new(0),
        }
    }

    /// How often a file was to be opened.
    pub fn times(&self) -> usize {
        self.times.get()
    }
}

fn unsupported<T>() -> io::Result<T> {
    Err(io::Error::from(io::ErrorKind::Unsupported))
}

impl<F: Files> Files for Opening<'_, F> {
    type File = F::File;

    type Dir = F::Dir;

    fn open_file(&self, how: &OpenOptions, path: &str) -> io::Result<F::File> {
        self.times.set(self.times.get().saturating_add(1));
        match self.error {
            Some(kind) => Err(io::Error::from(kind)),
            None => self.host.open_file(how, path),
        }
    }

    fn open_dir(&self, _path: &str) -> io::Result<F::Dir> {
        unsupported()
    }

    fn metadata(&self, _path: &str) -> io::Result<Metadata> {
        unsupported()
    }

    fn symlink_metadata(&self, _path: &str) -> io::Result<Metadata> {
        unsupported()
    }

    fn copy(&self, _from: &str, _to: &str) -> io::Result<u64> {
        unsupported()
    }

    fn rename(&self, _from: &str, _to: &str) -> io::Result<()> {
        unsupported()
    }

    fn remove_file(&self, _path: &str) -> io::Result<()> {
        unsupported()
    }

    fn create_dir(&self, _path: &str) -> io::Result<()> {
        unsupported()
    }

    fn remove_dir(&self, _path: &str) -> io::Result<()> {
        unsupported()
    }

    fn remove_dir_all<B: Allocator>(&self, _alloc: B, _path: &str) -> io::Result<()> {
        unsupported()
    }
}

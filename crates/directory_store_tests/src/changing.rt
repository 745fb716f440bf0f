//! Directories in memory that change before two of the calls, and have the states that a test gives
//! them.

use directory_store::StoreFiles;
use repositories::{Directories, FileState, Found};
use std::alloc::{Alloc, Global};
use std::cell::Cell;
use std::io::{self, ErrorKind};
use std::time::Duration;
use streams::ReadAt;

/// A directory: its path, the time of its last change in seconds since 1970, and the names of the
/// files in it, each ended by a NUL.
pub type Listed = (&'static str, u64, &'static str);

/// The directories that are there before the first change, after it, and after the second one.
pub type Layouts = [&'static [Listed]; 3];

/// The calls before which directories change, from 0 on, and how many there were.
#[derive(Drop)]
pub struct Calls {
    changes: Cell<[u32; 2]>,
    count: Cell<u32>,
}

impl Calls {
    /// No calls, and no changes.
    pub fn new() -> Calls {
        Calls {
            changes: Cell::new([u32::MAX; 2]),
            count: Cell::new(0),
        }
    }

    /// Counts calls from 0 on, and has the directories change before two of them.
    pub fn begin(&self, changes: [u32; 2]) {
        self.changes.set(changes);
        self.count.set(0);
    }

    /// How many there were.
    pub fn count(&self) -> u32 {
        self.count.get()
    }
}

// EMFILE.
const TOO_MANY_OPEN: i32 = 24;

/// Directories that change before two of the calls. No file can stay open, as if too many were.
#[derive(Clone, Copy)]
pub struct Changing<'a> {
    pub alloc: Global,
    pub layouts: &'a Layouts,
    pub calls: &'a Calls,
    /// What each pack index contains.
    pub index: &'a [u8],
}

impl Alloc for Changing<'_> {
    type A = Global;

    fn alloc(&self) -> Global {
        self.alloc
    }
}

impl Changing<'_> {
    // The directories that are there as a call is made, which is counted.
    fn directories(&self) -> &'static [Listed] {
        let call = self.calls.count();
        self.calls.count.set(call.saturating_add(1));
        let [before, between, after] = *self.layouts;
        let [first, second] = self.calls.changes.get();
        match call {
            _ if call < first => before,
            _ if call < second => between,
            _ => after,
        }
    }

    // What is found at a path.
    fn found(&self, path: &str) -> io::Result<Found> {
        for (directory, time, names) in self.directories() {
            if path == *directory || has_file(directory, names, path) {
                let time = Duration::from_secs(*time);
                return Ok(Found {
                    is_directory: path == *directory,
                    is_file: path != *directory,
                    state: FileState::from_parts(1, path.len() as u64, 0, time, time),
                });
            }
        }
        Err(ErrorKind::NotFound.into())
    }
}

// Whether a directory with these names has a file of this path.
fn has_file(directory: &str, names: &str, path: &str) -> bool {
    let Some(name) = path.strip_prefix(directory) else {
        return false;
    };
    names
        .split('\0')
        .any(|it| name.strip_prefix('/') == Some(it))
}

/// What they answer is not claimed, since they change.
impl Directories for Changing<'_> {
    ghost use Rattle.std.specs.Prelude.{None};

    ghost answers = { λ _. None };

    fn look(&self, path: &str) -> io::Result<Found> {
        self.found(path)
    }

    fn look_at_link(&self, path: &str) -> io::Result<Found> {
        self.found(path)
    }

    fn names(&self, path: &str) -> io::Result<Vec<u8>> {
        for (directory, _, names) in self.directories() {
            if path == *directory {
                return Ok(names.as_bytes().to_vec(self.alloc)?);
            }
        }
        Err(ErrorKind::NotFound.into())
    }

    fn read(&self, _: &str) -> io::Result<Vec<u8>> {
        Err(ErrorKind::Unsupported.into())
    }

    fn read_front(&self, _: &str, _: u64) -> io::Result<Vec<u8>> {
        Err(ErrorKind::Unsupported.into())
    }

    fn read_link(&self, _: &str) -> io::Result<String> {
        Err(ErrorKind::Unsupported.into())
    }

    fn real_path(&self, path: &str) -> io::Result<String> {
        self.found(path)?;
        Ok(String::from_str(self.alloc, path)?)
    }
}

impl<'a> StoreFiles for Changing<'a> {
    ghost use Rattle.std.specs.Prelude.{refl};

    type Source = IndexFile<'a>;

    ghost alike = { λ rt other cloned. refl };

    fn open_source(&self, path: &str, stays_open: bool, _: u64) -> io::Result<IndexFile<'a>> {
        self.found(path)?;
        if stays_open {
            return Err(io::Error::from_raw_os_error(TOO_MANY_OPEN));
        }
        Ok(IndexFile {
            path: String::from_str(self.alloc, path)?,
            bytes: self.index,
        })
    }
}

/// A pack index that was opened.
#[derive(Drop)]
pub struct IndexFile<'a> {
    path: String,
    bytes: &'a [u8],
}

impl ReadAt for IndexFile<'_> {
    ghost use Rattle.std.specs.Prelude.{None, string_bytes, true};

    ghost content = { λ _. None };

    ghost path = { λ file. string_bytes file.path };

    ghost can_fail = { λ _. true };

    fn len(&self) -> io::Result<u64> {
        ReadAt::len(&self.bytes)
    }

    fn read_exact_at(&self, buf: &mut [u8], at: u64) -> io::Result<()> {
        self.bytes.read_exact_at(buf, at)
    }
}

//! What a tree in memory answers.

ghost use Rattle.std.specs.Prelude.{◌≡◌, IsNone, IsOk, MatchResult, Err, Ok, bytes_eq, find};
ghost use Rattle.std.specs.IoError.{error_kind};
ghost use Rattle.directory_store_tests.specs.Trees.{answer, answers_of, entry_at, found_at, text_of};

use crate::mem_tree::{Entry, MemTree};
use repositories::{Directories, FileState, Found};
use std::alloc::{Alloc, Global};
use std::io::{self, ErrorKind};
use std::time::Duration;

impl Alloc for MemTree<'_> {
    type A = Global;

    fn alloc(&self) -> Global {
        self.alloc
    }
}

impl MemTree<'_> {
    // Counts a call, which fails if it is told to.
    fn call(&self) -> io::Result<()>
        ensures { IsNone self.now.fails_at → IsOk result }
    {
        let call = self.calls.get();
        self.calls.set(call.saturating_add(1));
        match self.fails_at {
            Some(fails) if fails == call => Err(ErrorKind::PermissionDenied.into()),
            _ => Ok(()),
        }
    }

    // What is at a path.
    fn entry(&self, path: &str) -> io::Result<Entry>
        ensures { IsNone self.now.fails_at → MatchResult result
            (λ entry. entry_at self.now.entries.now path.now ≡ Ok entry)
            (λ error. entry_at self.now.entries.now path.now ≡ Err (error_kind error)) }
    {
        self.call()?;
        match first_of(self.entries, path) {
            Some(entry) => Ok(entry.1),
            None => Err(ErrorKind::NotFound.into()),
        }
    }

    // The text of a file.
    fn text(&self, path: &str) -> io::Result<&'static str>
        ensures { IsNone self.now.fails_at → MatchResult result
            (λ text. answer text_of (entry_at self.now.entries.now path.now) ≡ Ok text.now)
            (λ error. answer text_of (entry_at self.now.entries.now path.now)
            ≡ Err (error_kind error)) }
    {
        match self.entry(path)? {
            Entry::File(text) => Ok(text),
            Entry::Directory | Entry::Root => Err(ErrorKind::IsADirectory.into()),
            Entry::Link(_) => Err(ErrorKind::NotFound.into()),
        }
    }
}

/// What the tree answers is known, unless a call is told to fail. It lists no names.
impl Directories for MemTree<'_> {
    ghost answers = { answers_of };

    fn look(&self, path: &str) -> io::Result<Found> {
        match self.entry(path) {
            Ok(Entry::Link(_)) => Err(ErrorKind::NotFound.into()),
            Ok(entry) => Ok(found_at(path, entry)),
            Err(error) => Err(error),
        }
    }

    fn look_at_link(&self, path: &str) -> io::Result<Found> {
        match self.entry(path) {
            Ok(entry) => Ok(found_at(path, entry)),
            Err(error) => Err(error),
        }
    }

    fn names(&self, _: &str) -> io::Result<Vec<u8>> {
        self.call()?;
        Err(ErrorKind::Unsupported.into())
    }

    fn read(&self, path: &str) -> io::Result<Vec<u8>> {
        match self.text(path) {
            Ok(text) => Ok(text.as_bytes().to_vec(self.alloc)?),
            Err(error) => Err(error),
        }
    }

    fn read_front(&self, path: &str, most: u64) -> io::Result<Vec<u8>> {
        match self.text(path) {
            Ok(text) => {
                let len = usize::try_from(most).unwrap_or(usize::MAX);
                Ok(text.as_bytes()[..text.len().min(len)].to_vec(self.alloc)?)
            }
            Err(error) => Err(error),
        }
    }

    fn read_link(&self, path: &str) -> io::Result<String> {
        match self.entry(path) {
            Ok(Entry::Link(text)) => Ok(String::from_str(self.alloc, text)?),
            Ok(_) => Err(ErrorKind::InvalidInput.into()),
            Err(error) => Err(error),
        }
    }

    fn real_path(&self, path: &str) -> io::Result<String> {
        match self.entry(path) {
            Ok(_) => Ok(String::from_str(self.alloc, path)?),
            Err(error) => Err(error),
        }
    }
}

// The first entry of a path.
fn first_of(entries: &[(&'static str, Entry)], path: &str) -> Option<(&'static str, Entry)>
    ensures { result ≡ find (λ entry. bytes_eq path.now entry.0.now) entries.now }
{
    entries.iter().copied().find(|entry| is_same(path, entry.0))
}

// Whether two texts are the same.
fn is_same(text: &str, other: &str) -> bool
    ensures { result ≡ bytes_eq text.now other.now }
{
    text == other
}

// What is found at a path. The number is the length of the path, and 0 for the root.
fn found_at(path: &str, entry: Entry) -> Found
    ensures { result ≡ found_at path.now entry }
{
    let number = match entry {
        Entry::Root => 0,
        _ => path.len() as u64,
    };
    Found {
        is_directory: matches!(entry, Entry::Directory | Entry::Root),
        is_file: matches!(entry, Entry::File(_)),
        state: FileState::from_parts(1, number, 0, Duration::ZERO, Duration::ZERO),
    }
}

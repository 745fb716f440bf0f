//! An object directory in memory, which has a pack and a loose object.

ghost use Rattle.std.specs.Prelude.{Some, false};
ghost use Rattle.known_tree.specs.Trees.{answers_in, is_file, look_at, names_at};
ghost use Rattle.repositories.specs.Answers.{IsCallAnswer};

use directory_store::StoreFiles;
use repositories::{Directories, FileState, Found};
use std::alloc::{Alloc, Global};
use std::io::{self, ErrorKind};
use std::time::Duration;
use streams::ReadAt;

/// The object directory `o`. It has the pack `o/pack/p.pack` with the index `o/pack/p.idx`, and in
/// the directory `o/4b` the file of a loose object, whose other digits are zeros.
#[derive(Clone, Copy)]
pub struct Tree<'a> {
    pub alloc: Global,
    /// The bytes of the pack index.
    pub index: &'a [u8],
}

impl Alloc for Tree<'_> {
    type A = Global;

    fn alloc(&self) -> Global {
        self.alloc
    }
}

// The names in a directory, each ended by a NUL.
fn names_at(path: &str) -> io::Result<&'static [u8]>
    ensures { IsCallAnswer (λ names. names.now) result (names_at path.now) }
{
    match path {
        "o" => Ok(b"4b\0pack\0"),
        "o/4b" => Ok(b"00000000000000000000000000000000000000\0"),
        "o/pack" => Ok(b"p.idx\0p.pack\0"),
        _ => Err(ErrorKind::NotFound.into()),
    }
}

// What a path leads to.
fn found_at(path: &str) -> io::Result<Found>
    ensures { IsCallAnswer (λ found. found) result
        (look_at (names_at path.now) (is_file path.now)) }
{
    let is_file = matches!(path, "o/pack/p.idx" | "o/pack/p.pack");
    match names_at(path) {
        Err(error) if !is_file => Err(error),
        _ => Ok(Found {
            is_directory: !is_file,
            is_file,
            state: FileState::from_parts(1, 1, 0, Duration::ZERO, Duration::ZERO),
        }),
    }
}

/// What the tree answers is known. It has no links.
impl Directories for Tree<'_> {
    ghost answers = { λ tree. Some (answers_in tree.index.now) };

    fn look(&self, path: &str) -> io::Result<Found> {
        found_at(path)
    }

    fn look_at_link(&self, path: &str) -> io::Result<Found> {
        found_at(path)
    }

    fn names(&self, path: &str) -> io::Result<Vec<u8>> {
        Ok(names_at(path)?.to_vec(self.alloc)?)
    }

    fn read(&self, path: &str) -> io::Result<Vec<u8>> {
        match path {
            "o/pack/p.idx" => Ok(self.index.to_vec(self.alloc)?),
            _ => Err(ErrorKind::NotFound.into()),
        }
    }

    fn read_front(&self, path: &str, most: u64) -> io::Result<Vec<u8>> {
        let mut bytes = self.read(path)?;
        bytes.truncate(most as usize);
        Ok(bytes)
    }

    fn read_link(&self, _: &str) -> io::Result<String> {
        Err(ErrorKind::InvalidInput.into())
    }

    fn real_path(&self, path: &str) -> io::Result<String> {
        Ok(String::from_str(self.alloc, path)?)
    }
}

/// The pack index.
#[derive(Clone, Copy)]
pub struct IndexFile<'a>(&'a [u8]);

impl ReadAt for IndexFile<'_> {
    ghost use Rattle.std.specs.Prelude.{codes};

    ghost content = { λ file. Some file.0.now };

    ghost path = { λ _. codes "o/pack/p.idx" };

    ghost can_fail = { λ _. false };

    fn len(&self) -> io::Result<u64> {
        ReadAt::len(&self.0)
    }

    fn read_exact_at(&self, buf: &mut [u8], at: u64) -> io::Result<()> {
        ReadAt::read_exact_at(&self.0, buf, at)
    }
}

impl<'a> StoreFiles for Tree<'a> {
    type Source = IndexFile<'a>;

    fn open_source(&self, path: &str, _: bool, _: u64) -> io::Result<IndexFile<'a>> {
        match path {
            "o/pack/p.idx" => Ok(IndexFile(self.index)),
            _ => Err(ErrorKind::NotFound.into()),
        }
    }

    ghost use Rattle.known_tree.specs.declared.tree.Tree.{Tree};
    ghost use Rattle.std.proofs.Common.{ap};

    ghost alike = { λ tree other same.
        ap (λ (tree : Tree). Some (answers_in tree.index.now)) same };
}

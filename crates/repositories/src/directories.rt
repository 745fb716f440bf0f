//! What paths lead to, as the functions see it that look for a repository.

ghost use Rattle.std.specs.Prelude.{◌≢◌, ◌↔◌, IfErr, IsTrue, None, Option, string_bytes};
ghost use Rattle.std.specs.Fs.{IsDir, IsFile, file_type};
ghost use Rattle.std.specs.IoError.{error_kind};
ghost use Rattle.std.specs.declared.io.ErrorKind.{ErrorKind};
ghost use Rattle.repositories.specs.Answers.{Answered, Answers, front};

use crate::files::{join, metadata, retried};
use crate::state::FileState;
use std::alloc::Global;
use std::fs::{self, Metadata};
use std::io::{self, BufReader, Read};
use std::rt::Files;

/// What a path leads to.
///
/// ```
/// let found = rt.look(".git")?;
/// println!(rt; "{}", found.is_directory)?;
/// ```
#[derive(Clone, Copy, Debug)]
pub struct Found {
    /// Whether it is a directory.
    pub is_directory: bool,
    /// Whether it is a regular file.
    pub is_file: bool,
    /// Which one it is, its size and its times.
    pub state: FileState,
}

/// Directories and files, by their paths. A relative path leads from the current directory. No call
/// changes anything.
///
/// Each call follows the links in a path, except that [`read_link`](Directories::read_link) and
/// [`look_at_link`](Directories::look_at_link) do not follow the last one. A path that leads to
/// nothing is an error of the kind `NotFound` or `NotADirectory`. A path that is too long or has a
/// NUL is one of the kind `InvalidFilename`.
///
/// ```
/// let list = rt.read(".git/objects/info/alternates")?;
/// ```
pub trait Directories: AllocGlobal {
    /// What each call answers while nothing changes; or `None`, which claims nothing.
    ghost answers: { Self → Option Answers };

    /// What a path leads to.
    fn look(&self, path: &str) -> io::Result<Found>
        ensures { Answered (λ found. found) result (λ at. at.look path.now) (answers self.now) };

    /// What is at a path, also if it is a link.
    fn look_at_link(&self, path: &str) -> io::Result<Found>
        ensures { Answered (λ found. found) result (λ at. at.entry path.now) (answers self.now) };

    /// The names in a directory, each ended by a NUL. They are bytes: a name need not be UTF-8.
    fn names(&self, path: &str) -> io::Result<Vec<u8>>
        ensures { Answered (λ names. names.items) result (λ at. at.names path.now)
            (answers self.now) };

    /// The bytes of a file.
    fn read(&self, path: &str) -> io::Result<Vec<u8>>
        ensures { Answered (λ bytes. bytes.items) result (λ at. at.bytes path.now)
            (answers self.now) };

    /// The first bytes of a file: at most `most`, and all of them if it has no more.
    fn read_front(&self, path: &str, most: u64) -> io::Result<Vec<u8>>
        ensures { Answered (λ bytes. bytes.items) result (front most path.now) (answers self.now) };

    /// The path that a link has. If there is something else, the error is of the kind
    /// `InvalidInput`; if the link's path is not UTF-8, of the kind `InvalidFilename`.
    fn read_link(&self, path: &str) -> io::Result<String>
        ensures { Answered string_bytes result (λ at. at.link path.now) (answers self.now) };

    /// The absolute path of what a path leads to, without links. If it is not UTF-8, the error is
    /// of the kind `InvalidFilename`.
    fn real_path(&self, path: &str) -> io::Result<String>
        ensures { Answered string_bytes result (λ at. at.real path.now) (answers self.now) };
}

/// What is on the host is not known. A call that a signal interrupts is made again.
impl<R: Files + AllocGlobal> Directories for R {
    ghost answers = { λ _. None };

    fn look(&self, path: &str) -> io::Result<Found>
        ensures retried { IfErr result (λ error. error_kind error ≢ ErrorKind.Interrupted) }
    {
        Ok(found_in(&metadata(self, path)?))
    }

    fn look_at_link(&self, path: &str) -> io::Result<Found>
        ensures retried { IfErr result (λ error. error_kind error ≢ ErrorKind.Interrupted) }
    {
        Ok(found_in(&retried(|| fs::symlink_metadata(self, path))?))
    }

    fn names(&self, path: &str) -> io::Result<Vec<u8>>
        ensures retried { IfErr result (λ error. error_kind error ≢ ErrorKind.Interrupted) }
    {
        // A path that ends in a slash leads to a directory by a link, too.
        let path = join(self, path, "")?;
        read_names(self.alloc(), retried(|| self.open_dir(&path))?)
    }

    fn read(&self, path: &str) -> io::Result<Vec<u8>> {
        fs::read(self, path)
    }

    fn read_front(&self, path: &str, most: u64) -> io::Result<Vec<u8>> {
        let mut bytes = Vec::new(self.alloc());
        fs::open(self, path)?.take(most).read_to_end(&mut bytes)?;
        Ok(bytes)
    }

    fn read_link(&self, path: &str) -> io::Result<String>
        ensures retried { IfErr result (λ error. error_kind error ≢ ErrorKind.Interrupted) }
    {
        Ok(retried(|| fs::read_link(self, path))?.into_string())
    }

    fn real_path(&self, path: &str) -> io::Result<String>
        ensures retried { IfErr result (λ error. error_kind error ≢ ErrorKind.Interrupted) }
    {
        Ok(retried(|| fs::canonicalize(self, path))?.into_string())
    }
}

// What the host says of what is at a path.
fn found_in(found: &Metadata) -> Found
    ensures directory { IsTrue result.is_directory ↔ IsDir (file_type found.now) }
    ensures file { IsTrue result.is_file ↔ IsFile (file_type found.now) }
{
    Found {
        is_directory: found.is_dir(),
        is_file: found.is_file(),
        state: FileState::new(found),
    }
}

// A directory is read by chunks that have room for any name, which are those of a `BufReader`.
fn read_names<D: Read + Drop>(alloc: Global, directory: D) -> io::Result<Vec<u8>>
    ensures { IfErr result (λ error. error_kind error ≢ ErrorKind.Interrupted) }
{
    let mut directory = BufReader::new(alloc, directory)?;
    let mut names = Vec::new(alloc);
    directory.read_to_end(&mut names)?;
    Ok(names)
}

//! Paths, and what they lead to.

ghost use Rattle.std.specs.Prelude.{◌≡◌, ◌≢◌, ◌↔◌, ◌++◌, ◌∷◌, [], IfErr, IfOk, IsErr, IsTrue, None, Ok, Some, false, if◌then◌else◌, map, option_copied, option_map, string_bytes, true, unwrap_or};
ghost use Rattle.std.specs.IoError.{error_kind};
ghost use Rattle.std.specs.Path.{path_join, path_parent};
ghost use Rattle.std.specs.Result.{result_ok};
ghost use Rattle.std.specs.Str.{IsUtf8};
ghost use Rattle.std.specs.declared.io.ErrorKind.{ErrorKind};
ghost use Rattle.repositories.specs.Answers.{Answered, Finds, FindsOne, IsFound, is_memory};
ghost use Rattle.repositories.specs.Discovery.{ConfigSays, HasKind, HasKindBeside};
ghost use Rattle.repositories.specs.Lookups.{as_text, if_found, if_there, is_file, is_directory, is_missing, real_directory, short_file};
ghost use Rattle.repositories.specs.Views.{directory_of};

use crate::config::kind_in_config;
use crate::directories::{Directories, Found};
use crate::error::{Error, TextFault};
use crate::state::FileState;
use gix_hash::Kind;
use std::alloc::AllocError;
use std::fs::{self, Metadata};
use std::io::{self, ErrorKind};
use std::path::Path;
use std::rt::Files;
use std::str;

// A config of more bytes is an error, so that a file without an end takes no more memory than this.
// Git reads up to 2 GiB.
const MAX_CONFIG: u32 = 16 << 20;

/// Joins a path to that of a directory. An absolute path is returned as it is.
///
/// ```
/// let packs = join(rt, ".git/objects", "pack")?;
/// ```
pub fn join(rt: &impl AllocGlobal, directory: &str, path: &str) -> Result<String, AllocError>
    ensures { IfOk result (λ joined. string_bytes joined ≡ path_join directory.now path.now) }
{
    Ok(Path::new(directory).join(rt.alloc(), path)?.into_string())
}

// Adds a path that the list of a directory names if it is UTF-8, and returns whether it is.
pub(crate) fn push_path(
    rt: &impl AllocGlobal,
    directory: &str,
    path: &[u8],
    paths: &mut Vec<String>,
) -> Result<bool, AllocError>
    ensures text { IfOk result (λ is_text. IsTrue is_text ↔ IsUtf8 path.now) }
    ensures pushed { IfOk result (λ is_text. map string_bytes paths.new.items
        ≡ map string_bytes paths.old.items
        ++ (if is_text then path_join directory.now path.now ∷ [] else [])) }
{
    let Ok(path) = str::from_utf8(path) else {
        return Ok(false);
    };
    paths.push(join(rt, directory, path)?)?;
    Ok(true)
}

/// Makes a call, again as long as a signal interrupts it, and returns its result. The error is any
/// other one of the call.
///
/// ```
/// let directory = retried(|| rt.open_dir(".git/objects/pack/"))?;
/// ```
pub fn retried<T: Drop, F: FnMut() -> io::Result<T>>(mut call: F) -> io::Result<T>
    requires { F.IsAlwaysCallable call }
    ensures { IfErr result (λ error. error_kind error ≢ ErrorKind.Interrupted) }
{
    for _ in 0..u64::MAX {
        match call() {
            Err(error) if error.kind() == ErrorKind::Interrupted => {}
            result => return result,
        }
    }
    Err(ErrorKind::TimedOut.into())
}

/// Reads what a path leads to, by a call that is made again if a signal interrupts it.
///
/// ```
/// let size = metadata(rt, ".git/HEAD")?.len();
/// ```
pub fn metadata<R: Files>(rt: &R, path: &str) -> io::Result<Metadata>
    ensures { IfErr result (λ error. error_kind error ≢ ErrorKind.Interrupted) }
{
    retried(|| fs::metadata(rt, path))
}

// Whether a call failed because there is no such directory or file.
pub(crate) fn is_missing(error: &io::Error) -> bool
    ensures { result ≡ is_missing (error_kind error.now) }
{
    matches!(error.kind(), ErrorKind::NotFound | ErrorKind::NotADirectory)
}

// What was read of a file, or `None` if there is no such file. Any other error of the read is
// returned.
pub(crate) fn if_there<T: Drop>(
    rt: &impl AllocGlobal,
    path: &str,
    read: io::Result<T>,
) -> Result<Option<T>, Error>
    ensures there { IfOk read (λ value. result ≡ Ok (Some value)) }
    ensures missing { IfErr read (λ error. is_missing (error_kind error) ≡ true
        → result ≡ Ok None) }
    ensures unread { IfErr read (λ error. is_missing (error_kind error) ≡ false → IsErr result) }
    ensures memory { IfErr read (λ error. error_kind error ≡ ErrorKind.OutOfMemory
        → IfErr result (λ error. is_memory error ≡ true)) }
{
    match read {
        Ok(read) => Ok(Some(read)),
        Err(error) if is_missing(&error) => Ok(None),
        Err(error) => Err(Error::file(rt.alloc(), path, error)),
    }
}

// The bytes of a file, or `None` if there is no such file.
pub(crate) fn read_if_there<R: Directories>(rt: &R, path: &str) -> Result<Option<Vec<u8>>, Error>
    ensures { Finds (option_map (λ bytes. bytes.items)) result (λ at. if_there (at.bytes path.now))
        (R.answers rt.now) }
{
    if_there(rt, path, rt.read(path))
}

// The bytes of a file, or `None` if there is no such file. A file of more than `most` bytes is an
// error with this fault.
pub(crate) fn read_short<R: Directories>(
    rt: &R,
    path: &str,
    most: u32,
    too_long: TextFault,
) -> Result<Option<Vec<u8>>, Error>
    ensures { Finds (option_map (λ bytes. bytes.items)) result (short_file most path.now)
        (R.answers rt.now) }
{
    let most = u64::from(most);
    match if_there(rt, path, rt.read_front(path, most + 1))? {
        Some(bytes) if bytes.len() as u64 > most => Err(Error::text(rt.alloc(), path, too_long)),
        file => Ok(file),
    }
}

// The text that the bytes of a file are, if there is one. Bytes that are not UTF-8 are an error.
pub(crate) fn as_text(
    rt: &impl AllocGlobal,
    path: &str,
    file: Option<Vec<u8>>,
) -> Result<Option<String>, Error>
    ensures { IsFound (option_map string_bytes) result
        (as_text (option_map (λ bytes. bytes.items) file)) }
{
    let Some(bytes) = file else {
        return Ok(None);
    };
    match String::from_utf8(bytes) {
        Ok(text) => Ok(Some(text)),
        Err(_) => Err(Error::text(rt.alloc(), path, TextFault::NotText)),
    }
}

// A directory that is there.
#[derive(Drop)]
pub(crate) struct RealDirectory {
    // Its absolute path without links, or, if that is not UTF-8, the path as it was given.
    pub(crate) path: String,
    // Its number, if its absolute path is not UTF-8.
    pub(crate) number: Option<FileNumber>,
    // The state of what the path led to before its links were followed.
    pub(crate) seen: FileState,
}

// The number of a file system, and that of a directory in it.
#[derive(Clone, Copy, PartialEq)]
pub(crate) struct FileNumber {
    pub(crate) dev: u64,
    pub(crate) ino: u64,
}

// The directory that a path leads to.
pub(crate) fn real_directory<R: Directories>(rt: &R, path: &str) -> io::Result<RealDirectory>
    ensures { Answered directory_of result (real_directory path.now) (R.answers rt.now) }
{
    // A path that leads to nothing needs no second call, which would look at each directory above.
    let found = rt.look(path)?;
    if !found.is_directory {
        return Err(ErrorKind::NotADirectory.into());
    }
    let seen = found.state;
    match rt.real_path(path) {
        Ok(path) => Ok(RealDirectory {
            path,
            number: None,
            seen,
        }),
        Err(error) if error.kind() == ErrorKind::InvalidFilename => Ok(RealDirectory {
            path: String::from_str(rt.alloc(), path)?,
            number: Some(seen.number()),
            seen,
        }),
        Err(error) => Err(error),
    }
}

// The directory that a path leads to, which has to be there. The error has the path.
pub(crate) fn existing_directory<R: Directories>(rt: &R, path: &str) -> Result<RealDirectory, Error>
    ensures { Finds directory_of result (λ at. result_ok (real_directory path.now at))
        (R.answers rt.now) }
{
    match real_directory(rt, path) {
        Ok(real) => Ok(real),
        Err(error) => Err(Error::file(rt.alloc(), path, error)),
    }
}

// The path of the directory above a path, if there is one.
pub(crate) fn parent(path: &str) -> Option<&str>
    ensures { option_copied result ≡ path_parent path.now }
{
    Path::new(path).parent().map(|directory| directory.as_str())
}

// The path of the directory in which a path is, or else the path itself.
fn parent_or_self(path: &str) -> &str
    ensures { result.now ≡ unwrap_or (path_parent path.now) path.now }
{
    match parent(path) {
        Some(directory) => directory,
        None => path,
    }
}

// What a path leads to, or `None` if there is nothing, or if the path is too long or has a NUL.
fn look_at<R: Directories>(rt: &R, path: &str) -> Result<Option<Found>, Error>
    ensures { Finds (λ found. found) result (λ at. if_found (at.look path.now)) (R.answers rt.now) }
{
    match rt.look(path) {
        Err(error) if error.kind() == ErrorKind::InvalidFilename => Ok(None),
        found => if_there(rt, path, found),
    }
}

// Whether a path leads to a directory.
pub(crate) fn is_directory<R: Directories>(rt: &R, path: &str) -> Result<bool, Error>
    ensures { Finds (λ is. is) result (is_directory path.now) (R.answers rt.now) }
{
    match look_at(rt, path)? {
        Some(found) => Ok(found.is_directory),
        None => Ok(false),
    }
}

// Whether a path leads to a file.
pub(crate) fn is_file<R: Directories>(rt: &R, path: &str) -> Result<bool, Error>
    ensures { Finds (λ is. is) result (is_file path.now) (R.answers rt.now) }
{
    match look_at(rt, path)? {
        Some(found) => Ok(found.is_file),
        None => Ok(false),
    }
}

// Whether a directory has a directory of this name.
pub(crate) fn has_directory<R: Directories>(
    rt: &R,
    directory: &str,
    name: &str,
) -> Result<bool, Error>
    ensures { Finds (λ has. has) result (is_directory (path_join directory.now name.now))
        (R.answers rt.now) }
{
    is_directory(rt, &join(rt, directory, name)?)
}

// The kind of a repository's ids by the config in a directory. It is SHA-1 if there is no config.
pub(crate) fn kind_by_config<R: Directories>(rt: &R, directory: &str) -> Result<Kind, Error>
    ensures { FindsOne (HasKind directory.now) result (R.answers rt.now) }
{
    match kind_if_config(rt, directory)? {
        Some(kind) => Ok(kind),
        None => Ok(Kind::Sha1),
    }
}

// The kind of the ids of an object directory by the config beside it. It is SHA-1 if there is no
// config. If the directory is a link, the config is beside the directory, or else beside the link.
pub(crate) fn kind_beside<R: Directories>(rt: &R, objects: &str) -> Result<Kind, Error>
    ensures { FindsOne (HasKindBeside objects.now) result (R.answers rt.now) }
{
    let above = join(rt, objects, "..")?;
    match kind_if_config(rt, &above)? {
        Some(kind) => Ok(kind),
        None => Ok(kind_by_config(rt, parent_or_self(objects))?),
    }
}

// The kind by the config in a directory, or `None` if there is no config.
fn kind_if_config<R: Directories>(rt: &R, directory: &str) -> Result<Option<Kind>, Error>
    ensures { FindsOne (ConfigSays directory.now) result (R.answers rt.now) }
{
    let path = join(rt, directory, "config")?;
    let Some(text) = read_short(rt, &path, MAX_CONFIG, TextFault::LargeConfig)? else {
        return Ok(None);
    };
    match kind_in_config(rt.alloc(), &text) {
        Ok(kind) => Ok(Some(kind)),
        Err(error) => Err(Error::config(rt.alloc(), &path, error)),
    }
}

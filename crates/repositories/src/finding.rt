//! Finds object directories: that of the repository that a program runs in, and others by path.

ghost use Rattle.std.specs.Prelude.{◌≡◌, ◌≢◌, ◌⊎◌, ◌++◌, ◌∷◌, ℕ, suc, IfErr, IfOk, List, None, OnOk, Some, [], false, map, option_copied, option_map, string_bytes, true};
ghost use Rattle.std.specs.List.{list_all};
ghost use Rattle.std.specs.Str.{is_utf8};
ghost use Rattle.repositories.specs.Answers.{Finds, IfKnown, is_memory};
ghost use Rattle.repositories.specs.Discovery.{HasKind, HasKindBeside, HasKindFound, HasNoKindFound, alternate_in, alternates_of, are_text, find_objects, objects_of};
ghost use Rattle.repositories.specs.Stores.{has_fan_out, byte_hex, is_store};
ghost use Rattle.repositories.specs.Views.{repository_of};

use crate::alternates::alternate_paths;
use crate::directories::Directories;
use crate::error::{Cause, Error, TextFault};
use crate::files::{has_directory, is_file, join, kind_beside, kind_by_config, push_path};
use crate::repository::{Environment, Repository, Search};
use gix_hash::Kind;
use std::alloc::AllocError;
use std::env;
use std::io::ErrorKind;
use std::rt::Env;

pub(crate) const ALTERNATES: &str = "GIT_ALTERNATE_OBJECT_DIRECTORIES";

/// An object directory that was found, and the kind of its ids.
///
/// ```
/// let directory = find_objects(rt)?;
/// println!(rt; "{}, {} ids", directory.path, directory.kind)?;
/// ```
#[derive(Debug, Drop)]
pub struct ObjectDirectory {
    /// The path of the directory.
    pub path: String,
    /// The kind of all ids: the one that the config says, or SHA-1 if there is no config. A caller
    /// may set another.
    pub kind: Kind,
    /// The paths of the object directories that the environment adds to its alternates. A path that
    /// begins with a NUL there is empty here, and is skipped.
    pub alternates: Vec<String>,
}

impl ObjectDirectory {
    /// Opens the object directory at a path. The kind is the one that the config beside it says, or
    /// SHA-1 if there is no config. The environment adds no alternates.
    ///
    /// A directory is an object directory if it has the directory `pack`, the file
    /// `info/alternates` or a fan-out directory.
    ///
    /// The error is [`Error::Memory`], or the cause [`Cause::NoStore`] or [`Cause::NoStoreButIn`]
    /// if the directory is not an object directory, [`Cause::File`] if something cannot be read,
    /// [`Cause::Text`] if the config has more than 16 MiB, or [`Cause::Config`].
    ///
    /// ```
    /// let directory = ObjectDirectory::at(rt, ".git/objects")?;
    /// assert!(rt; directory.alternates.is_empty());
    /// ```
    pub fn at<R: Directories>(rt: &R, path: &str) -> Result<ObjectDirectory, Error>
        ensures path { IfOk result (λ directory. string_bytes directory.path ≡ path.now) }
        ensures alternates { IfOk result (λ directory. directory.alternates.items ≡ []) }
        ensures store { IfOk result (λ directory. IfKnown (λ at. is_store path.now at ≡ Some true)
            (R.answers rt.now)) }
        ensures kind { IfOk result (λ directory. IfKnown (HasKindBeside path.now directory.kind)
            (R.answers rt.now)) }
        ensures err { IfErr result (λ error. is_memory error ≡ false → IfKnown (λ at.
            (is_store path.now at ≢ Some true) ⊎ ((kind : Kind) → ¬ HasKindBeside path.now kind at))
            (R.answers rt.now)) }
    {
        if !is_store(rt, path)? {
            return Err(no_store(rt, path)?);
        }
        let kind = kind_beside(rt, path)?;
        Ok(ObjectDirectory {
            path: String::from_str(rt.alloc(), path)?,
            kind,
            alternates: Vec::new(rt.alloc()),
        })
    }
}

/// Finds the object directory of the repository that a program runs in, as Git does, except that
/// `$GIT_CEILING_DIRECTORIES`, `$GIT_DISCOVERY_ACROSS_FILESYSTEM`, `$GIT_WORK_TREE`,
/// `core.worktree`, `safe.directory` and `safe.bareRepository` are ignored, that with
/// `$GIT_OBJECT_DIRECTORY` no repository is needed, and that it is an error, where Git goes on to
/// the directory above, if `.git`, `HEAD` or `objects` cannot be read or `commondir` names no
/// directory.
///
/// The repository is that of `$GIT_DIR`, or else of the current directory or the first above it
/// that has one: as `.git`, which is a directory or a gitfile, or as a bare repository. The
/// worktrees of a repository share its objects; `$GIT_COMMON_DIR` is used instead of the directory
/// that they share. `$GIT_OBJECT_DIRECTORY` is used instead of the repository's own object
/// directory, and the directories of `$GIT_ALTERNATE_OBJECT_DIRECTORIES` are alternates. Relative
/// paths lead from the directory that has `.git`, if the repository is found there.
///
/// The error is [`Error::Memory`], or the cause [`Cause::NoRepository`] if there is no repository,
/// [`Cause::Text`] if a variable or a file cannot be used, such as an empty path of a directory, a
/// gitfile of more than 1 MiB or a config of more than 16 MiB, [`Cause::File`] if something cannot
/// be read, or [`Cause::Config`].
pub fn find_objects<R: Directories + Env>(rt: &R) -> Result<ObjectDirectory, Error> {
    let given = Environment::read(rt)?;
    match given.dir {
        Some(_) => find_objects_in(rt, &given, None),
        None => find_objects_in(rt, &given, current_dir(rt)?.as_deref()),
    }
}

// The path of the current directory, or `None` if it is not UTF-8.
fn current_dir(rt: &(impl Env + AllocGlobal)) -> Result<Option<String>, Error> {
    match env::current_dir(rt) {
        Ok(here) => Ok(Some(here.into_string())),
        Err(error) if error.kind() == ErrorKind::InvalidFilename => Ok(None),
        Err(error) => Err(Error::file(rt.alloc(), ".", error)),
    }
}

/// Finds the same object directory as [`find_objects`], by what the environment says, and from the
/// current directory, whose path is `here`, or `None` if it is not UTF-8. If [`Environment::dir`]
/// is set, `here` is not used.
///
/// What is found is what the directories and files say by Git's rules. A call that fails is an
/// error, and never taken for a file that is not there. The errors are those of `find_objects`.
///
/// ```
/// let directory = find_objects_in(rt, &Environment::read(rt)?, Some("/home/me/project"))?;
/// ```
pub fn find_objects_in<R: Directories>(
    rt: &R,
    given: &Environment,
    here: Option<&str>,
) -> Result<ObjectDirectory, Error>
    ensures place { IfOk result (λ found. IfKnown (λ at.
        find_objects given.now (option_copied here.entry) at
        ≡ Some (string_bytes found.path, map string_bytes found.alternates.items))
        (R.answers rt.now)) }
    ensures kind { IfOk result (λ found. IfKnown
        (HasKindFound given.now (option_copied here.entry) found) (R.answers rt.now)) }
    ensures err { IfErr result (λ error. is_memory error ≡ false → IfKnown (λ at.
        (find_objects given.now (option_copied here.entry) at ≡ None)
        ⊎ (HasNoKindFound given.now (option_copied here.entry) at
        ⊎ (are_text given.now ≡ false))) (R.answers rt.now)) }
{
    let search = Search { rt, given };
    match search.find(here)? {
        Some(repository) => Ok(objects_of(rt, given, &repository)?),
        None => Ok(objects_given(rt, given)?),
    }
}

// The object directory of a repository.
fn objects_of<R: Directories>(
    rt: &R,
    given: &Environment,
    repository: &Repository,
) -> Result<ObjectDirectory, Error>
    ensures path { IfOk result (λ found. string_bytes found.path
        ≡ objects_of given.now (repository_of repository.now)) }
    ensures kind { IfOk result (λ found. IfKnown
        (HasKind (string_bytes repository.now.directory) found.kind) (R.answers rt.now)) }
    ensures alternates { IfOk result (λ found. map string_bytes found.alternates.items
        ≡ alternates_of given.now (string_bytes repository.now.top)) }
    ensures err { IfErr result (λ error. is_memory error ≡ false → IfKnown (λ at.
        ((kind : Kind) → ¬ HasKind (string_bytes repository.now.directory) kind at)
        ⊎ (are_text given.now ≡ false)) (R.answers rt.now)) }
{
    let kind = kind_by_config(rt, &repository.directory)?;
    let path = match &given.object_directory {
        Some(path) => join(rt, &repository.top, path)?,
        None => join(rt, &repository.directory, "objects")?,
    };
    Ok(ObjectDirectory {
        path,
        kind,
        alternates: alternates(rt, given, &repository.top)?,
    })
}

// The object directory that the environment names, if there is no repository.
fn objects_given<R: Directories>(rt: &R, given: &Environment) -> Result<ObjectDirectory, Error>
    ensures path { IfOk result (λ found. Some (string_bytes found.path)
        ≡ option_map string_bytes given.now.object_directory) }
    ensures kind { IfOk result (λ found. IfKnown
        (HasKindBeside (string_bytes found.path) found.kind) (R.answers rt.now)) }
    ensures alternates { IfOk result (λ found. map string_bytes found.alternates.items
        ≡ alternates_of given.now []) }
    ensures err { IfErr result (λ error. is_memory error ≡ false → IfKnown (λ at.
        ((path : List ℕ) (kind : Kind) → Some path ≡ option_map string_bytes
        given.now.object_directory → ¬ HasKindBeside path kind at)
        ⊎ (are_text given.now ≡ false)) (R.answers rt.now)) }
{
    let Some(path) = &given.object_directory else {
        return Err(Error::of(rt.alloc(), Cause::NoRepository));
    };
    let kind = kind_beside(rt, path)?;
    Ok(ObjectDirectory {
        path: String::from_str(rt.alloc(), path)?,
        kind,
        alternates: alternates(rt, given, "")?,
    })
}

// The directories that `$GIT_ALTERNATE_OBJECT_DIRECTORIES` names, by paths from the top.
fn alternates(rt: &impl AllocGlobal, given: &Environment, top: &str) -> Result<Vec<String>, Error>
    ensures ok { IfOk result (λ alternates. map string_bytes alternates.items
        ≡ alternates_of given.now top.now) }
    ensures err { IfErr result (λ error. is_memory error ≡ false → are_text given.now ≡ false) }
{
    match &given.alternate_object_directories {
        Some(list) => {
            let named = alternate_paths(rt.alloc(), list.as_bytes(), b':')?;
            alternates_in(rt, top, &named)
        }
        None => Ok(Vec::new(rt.alloc())),
    }
}

// The directories at these paths from the top.
fn alternates_in(rt: &impl AllocGlobal, top: &str, named: &[Vec<u8>]) -> Result<Vec<String>, Error>
    ensures ok { IfOk result (λ alternates. map string_bytes alternates.items
        ≡ map (alternate_in top.now) (map (λ path. path.items) named.now)) }
    ensures err { IfErr result (λ error. is_memory error ≡ false
        → list_all is_utf8 (map (λ path. path.items) named.now) ≡ false) }
{
    let mut alternates = Vec::new(rt.alloc());
    for path in named {
        push_alternate(rt, top, path, &mut alternates)?;
    }
    Ok(alternates)
}

// Adds the directory at a path from the top, or an empty path if this one is empty.
fn push_alternate(
    rt: &impl AllocGlobal,
    top: &str,
    path: &[u8],
    alternates: &mut Vec<String>,
) -> Result<(), Error>
    ensures ok { OnOk result (map string_bytes alternates.new.items
        ≡ map string_bytes alternates.old.items ++ alternate_in top.now path.now ∷ []) }
    ensures err { IfErr result (λ error. is_memory error ≡ false → is_utf8 path.now ≡ false) }
{
    if path.is_empty() {
        alternates.push(String::new(rt.alloc()))?;
        return Ok(());
    }
    if push_path(rt, top, path, alternates)? {
        return Ok(());
    }
    Err(Error::text(rt.alloc(), ALTERNATES, TextFault::PathNotText))
}

// Whether a directory is an object directory.
#[tactic(auto, unfolding(crate::specs::Stores::is_store))]
fn is_store<R: Directories>(rt: &R, path: &str) -> Result<bool, Error>
    ensures { Finds (λ is. is) result (is_store path.now) (R.answers rt.now) }
{
    Ok(
        has_directory(rt, path, "pack")?
            || is_file(rt, &join(rt, path, "info/alternates")?)?
            || has_fan_out(rt, path, u8::MAX)?,
    )
}

// Whether a directory has the fan-out directory of this byte, or of one below.
#[tactic(auto, unfolding(crate::specs::Stores::has_fan_out))]
fn has_fan_out<R: Directories>(rt: &R, path: &str, byte: u8) -> Result<bool, Error>
    ensures { Finds (λ has. has) result (has_fan_out (suc byte) path.now) (R.answers rt.now) }
{
    if has_directory(rt, path, &byte_hex(rt, byte)?)? {
        return Ok(true);
    }
    if byte == 0 {
        return Ok(false);
    }
    has_fan_out(rt, path, byte - 1)
}

// The two hex digits of a byte.
fn byte_hex(rt: &impl AllocGlobal, byte: u8) -> Result<String, AllocError>
    ensures { IfOk result (λ digits. string_bytes digits ≡ byte_hex byte) }
{
    format!(in rt.alloc(); "{byte:02x}")
}

// Why a directory is not an object directory.
fn no_store<R: Directories>(rt: &R, path: &str) -> Result<Error, Error> {
    let alloc = rt.alloc();
    match rt.look(path) {
        Ok(found) if found.is_directory => Ok(Error::of(alloc, no_store_but(rt, path)?)),
        Ok(_) => Ok(Error::file(alloc, path, ErrorKind::NotADirectory.into())),
        Err(error) => Ok(Error::file(alloc, path, error)),
    }
}

// That a directory is not an object directory, with the one that it has if it is a repository or a
// worktree.
fn no_store_but<R: Directories>(rt: &R, path: &str) -> Result<Cause, Error> {
    for &name in &["objects", ".git/objects"] {
        let objects = join(rt, path, name)?;
        if is_store(rt, &objects)? {
            let path = String::from_str(rt.alloc(), path)?;
            return Ok(Cause::NoStoreButIn { path, objects });
        }
    }
    let path = String::from_str(rt.alloc(), path)?;
    Ok(Cause::NoStore { path })
}

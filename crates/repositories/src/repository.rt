//! Where a repository has its objects, references and config.

ghost use Rattle.std.specs.Prelude.{◌≡◌, ◌≤◌, IfOk, length, option_copied, option_map, string_bytes};
ghost use Rattle.std.specs.Char.{is_ascii_hexdigit};
ghost use Rattle.std.specs.IoError.{error_kind};
ghost use Rattle.std.specs.List.{prefix_len};
ghost use Rattle.repositories.specs.Answers.{Finds};
ghost use Rattle.repositories.specs.Discovery.{after_gitdir, common_directory, common_named, common_of, find, find_above, find_from, first_above, directory_at, has_both, has_head, has_head_file, has_objects, is_highest, look_for, named_by, repository_at, repository_in, repository_of_worktree, required, without_line_ends};
ghost use Rattle.git_config.specs.Grammar.{is_whitespace};
ghost use Rattle.repositories.specs.Heads.{is_head};
ghost use Rattle.repositories.specs.Lookups.{file_number_at, is_no_link};
ghost use Rattle.repositories.specs.Views.{repository_of};

use crate::directories::Directories;
use crate::error::{Error, TextFault};
use crate::files::{
    FileNumber, as_text, existing_directory, has_directory, if_there, is_directory, is_file,
    is_missing, join, parent, read_if_there, read_short,
};
use crate::finding::ALTERNATES;
use std::alloc::AllocError;
use std::env::{self, VarError};
use std::io::{self, ErrorKind};
use std::rt::Env;

// As Git does, so many bytes of a `HEAD` are read at most, and a gitfile may have so many.
const MAX_HEAD: u64 = 255;

const MAX_GITFILE: u32 = 1 << 20;

// At most this many directories above the current one are looked at. A path has at most 4,096
// bytes, and each directory takes two.
const MAX_ABOVE: u16 = 4096 / 2;

// At most this many are looked at by relative paths, in which each directory takes three bytes.
const MAX_DOTS: u16 = 4096 / 3;

/// What the environment says of a repository: the values of Git's variables, if they are set.
///
/// ```
/// let given = Environment::read(rt)?;
/// println!(rt; "{}", given.dir.is_some())?;
/// ```
#[derive(Debug, Drop)]
pub struct Environment {
    /// `$GIT_DIR`: the path of the repository, or of a gitfile that names it.
    pub dir: Option<String>,
    /// `$GIT_COMMON_DIR`: the path of the directory with the objects, references and config.
    pub common_dir: Option<String>,
    /// `$GIT_OBJECT_DIRECTORY`: the path of the object directory.
    pub object_directory: Option<String>,
    /// `$GIT_ALTERNATE_OBJECT_DIRECTORIES`: the paths of alternates, as Git writes them there.
    pub alternate_object_directories: Option<String>,
}

impl Environment {
    /// Reads the environment of the program. The error is [`Error::Memory`], or the cause
    /// [`Cause::Text`](crate::Cause::Text) if a value is not UTF-8 or the path of a directory is
    /// empty.
    pub fn read(rt: &(impl Env + AllocGlobal)) -> Result<Environment, Error> {
        Ok(Environment {
            dir: path_variable(rt, "GIT_DIR")?,
            common_dir: path_variable(rt, "GIT_COMMON_DIR")?,
            object_directory: path_variable(rt, "GIT_OBJECT_DIRECTORY")?,
            alternate_object_directories: variable(rt, ALTERNATES)?,
        })
    }
}

// The path that is the value of a variable, if it is set. An empty path is an error, and not that
// of the current directory.
fn path_variable(rt: &(impl Env + AllocGlobal), name: &str) -> Result<Option<String>, Error> {
    match variable(rt, name)? {
        Some(path) if path.is_empty() => Err(Error::text(
            rt.alloc(),
            name,
            TextFault::EmptyVariable,
        )),
        path => Ok(path),
    }
}

// The value of a variable of the environment, if it is set.
fn variable(rt: &(impl Env + AllocGlobal), name: &str) -> Result<Option<String>, Error> {
    match env::var(rt, name) {
        Ok(value) => Ok(Some(value)),
        Err(VarError::NotPresent) => Ok(None),
        Err(VarError::OutOfMemory) => Err(Error::Memory(AllocError)),
        Err(VarError::NotUnicode) => Err(Error::text(rt.alloc(), name, TextFault::NotText)),
    }
}

// A repository that was found.
#[derive(Drop)]
pub(crate) struct Repository {
    // The directory with its objects, references and config.
    pub(crate) directory: String,
    // Relative paths of the environment lead from here: from the top of the worktree if the
    // repository was found there, since Git goes there first, and otherwise from the current
    // directory, which is an empty path.
    pub(crate) top: String,
}

// A search for the repository, by what the environment says.
#[derive(Drop)]
pub(crate) struct Search<'a, R> {
    pub(crate) rt: &'a R,
    pub(crate) given: &'a Environment,
}

impl<R: Directories> Search<'_, R> {
    // Finds the repository, if there is one. As by Git, it is looked for from the current
    // directory, and read from the top of its worktree, so a relative `$GIT_COMMON_DIR` leads from
    // there.
    #[tactic(auto, unfolding(crate::specs::Discovery::find))]
    pub(crate) fn find(&self, here: Option<&str>) -> Result<Option<Repository>, Error>
        ensures { Finds (option_map repository_of) result
            (find self.now.given.now (option_copied here.entry)) (R.answers self.now.rt.now) }
    {
        let Some(found) = self.look_for(here)? else {
            return Ok(None);
        };
        match &self.given.common_dir {
            Some(common) => Ok(Some(Repository {
                directory: join(self.rt, &found.top, common)?,
                top: found.top,
            })),
            None => Ok(Some(found)),
        }
    }

    // The repository that the environment names, or that is in the current directory or above it.
    #[tactic(auto, unfolding(crate::specs::Discovery::look_for))]
    fn look_for(&self, here: Option<&str>) -> Result<Option<Repository>, Error>
        ensures { Finds (option_map repository_of) result
            (look_for self.now.given.now (option_copied here.entry)) (R.answers self.now.rt.now) }
    {
        if let Some(path) = &self.given.dir {
            return Ok(Some(with_top(self.rt, self.required(path)?, "")?));
        }
        match here {
            Some(here) => self.find_from(here),
            None => self.find_above(".", MAX_DOTS),
        }
    }

    // The repository of the current directory, or of the first directory above it that has one.
    fn find_from(&self, here: &str) -> Result<Option<Repository>, Error>
        ensures { Finds (option_map repository_of) result (find_from self.now.given.now here.now)
            (R.answers self.now.rt.now) }
    {
        if let Some(mut found) = self.repository_in(here)? {
            found.top.clear();
            return Ok(Some(found));
        }
        match parent(here) {
            Some(above) => self.first_above(above, MAX_ABOVE),
            None => Ok(None),
        }
    }

    // The repository of the first of this many directories, from this one upwards, that has one.
    #[tactic(auto, unfolding(crate::specs::Discovery::first_above))]
    fn first_above(&self, directory: &str, levels: u16) -> Result<Option<Repository>, Error>
        ensures { Finds (option_map repository_of) result
            (first_above self.now.given.now levels directory.now) (R.answers self.now.rt.now) }
    {
        if levels == 0 {
            return Ok(None);
        }
        if let Some(found) = self.repository_in(directory)? {
            return Ok(Some(found));
        }
        match parent(directory) {
            Some(above) => self.first_above(above, levels - 1),
            None => Ok(None),
        }
    }

    // The repository that `first_above` finds, by relative paths, for a current directory whose
    // path is not UTF-8.
    #[tactic(auto, unfolding(crate::specs::Discovery::find_above))]
    fn find_above(&self, directory: &str, levels: u16) -> Result<Option<Repository>, Error>
        ensures { Finds (option_map repository_of) result
            (find_above self.now.given.now levels directory.now) (R.answers self.now.rt.now) }
    {
        if levels == 0 {
            return Ok(None);
        }
        if let Some(found) = self.repository_in(directory)? {
            return Ok(Some(found));
        }
        let above = join(self.rt, directory, "..")?;
        if is_highest(self.rt, directory, &above)? {
            return Ok(None);
        }
        self.find_above(&above, levels - 1)
    }

    // The repository of a directory, if it has one, as `.git`, which is a directory or a gitfile,
    // or else as a bare repository.
    #[tactic(auto, unfolding(crate::specs::Discovery::repository_in))]
    fn repository_in(&self, directory: &str) -> Result<Option<Repository>, Error>
        ensures { Finds (option_map repository_of) result
            (repository_in self.now.given.now directory.now) (R.answers self.now.rt.now) }
    {
        if let Some(repository) = self.repository_of_worktree(directory)? {
            return Ok(Some(with_top(self.rt, repository, directory)?));
        }
        match self.repository_at(directory)? {
            Some(repository) => Ok(Some(with_top(self.rt, repository, "")?)),
            None => Ok(None),
        }
    }

    // The repository that a directory has as `.git`.
    fn repository_of_worktree(&self, directory: &str) -> Result<Option<String>, Error>
        ensures { Finds (option_map string_bytes) result
            (repository_of_worktree self.now.given.now directory.now) (R.answers self.now.rt.now) }
    {
        let path = join(self.rt, directory, ".git")?;
        if is_file(self.rt, &path)? {
            Ok(Some(self.required(&path)?))
        } else {
            self.repository_at(&path)
        }
    }

    // The repository that is at a path, or that the gitfile there names. It has to be one.
    fn required(&self, path: &str) -> Result<String, Error>
        ensures { Finds string_bytes result (required self.now.given.now path.now)
            (R.answers self.now.rt.now) }
    {
        let directory = self.directory_at(path)?;
        match self.repository_at(&directory)? {
            Some(repository) => Ok(repository),
            None => Err(Error::text(self.rt.alloc(), &directory, TextFault::NotRepository)),
        }
    }

    // The path itself, or the directory that the gitfile there names.
    fn directory_at(&self, path: &str) -> Result<String, Error>
        ensures { Finds string_bytes result (directory_at path.now) (R.answers self.now.rt.now) }
    {
        if is_file(self.rt, path)? {
            named_by(self.rt, path)
        } else {
            Ok(String::from_str(self.rt.alloc(), path)?)
        }
    }

    // The repository that is a directory with `HEAD`, by the directory with its objects and
    // references, or `None` if these are not there. If the environment names an object directory,
    // the repository need not have one.
    fn repository_at(&self, directory: &str) -> Result<Option<String>, Error>
        ensures { Finds (option_map string_bytes) result
            (repository_at self.now.given.now directory.now) (R.answers self.now.rt.now) }
    {
        if !has_head(self.rt, directory)? {
            return Ok(None);
        }
        let common = self.common_directory(directory)?;
        if self.has_both(&common)? {
            Ok(Some(common))
        } else {
            Ok(None)
        }
    }

    // The common directory of a directory, but that of the environment if it names one.
    fn common_directory(&self, directory: &str) -> Result<String, Error>
        ensures { Finds string_bytes result (common_directory self.now.given.now directory.now)
            (R.answers self.now.rt.now) }
    {
        match &self.given.common_dir {
            Some(common) => Ok(String::from_str(self.rt.alloc(), common)?),
            None => common_of(self.rt, directory),
        }
    }

    // Whether an object directory is there, and the references of a directory.
    fn has_both(&self, directory: &str) -> Result<bool, Error>
        ensures { Finds (λ has. has) result (has_both self.now.given.now directory.now)
            (R.answers self.now.rt.now) }
    {
        Ok(self.has_objects(directory)? && has_directory(self.rt, directory, "refs")?)
    }

    // Whether the object directory of the environment is there, or else that of a directory.
    fn has_objects(&self, directory: &str) -> Result<bool, Error>
        ensures { Finds (λ has. has) result (has_objects self.now.given.now directory.now)
            (R.answers self.now.rt.now) }
    {
        match &self.given.object_directory {
            Some(objects) => is_directory(self.rt, objects),
            None => has_directory(self.rt, directory, "objects"),
        }
    }
}

// Whether no other directory above this one can be seen. The directory above the root is the root.
fn is_highest<R: Directories>(rt: &R, directory: &str, above: &str) -> Result<bool, Error>
    ensures { Finds (λ is. is) result (is_highest directory.now above.now) (R.answers rt.now) }
{
    Ok(file_number_at(rt, directory)? == file_number_at(rt, above)?)
}

// The number of the directory or file that a path leads to.
fn file_number_at<R: Directories>(rt: &R, path: &str) -> Result<FileNumber, Error>
    ensures { Finds (λ number. number) result (file_number_at path.now) (R.answers rt.now) }
{
    match rt.look(path) {
        Ok(found) => Ok(found.state.number()),
        Err(error) => Err(Error::file(rt.alloc(), path, error)),
    }
}

// A repository that was found, with its top.
fn with_top(rt: &impl AllocGlobal, directory: String, top: &str) -> Result<Repository, AllocError>
    ensures { IfOk result (λ found. repository_of found
        ≡ record { directory = string_bytes directory; top = top.now }) }
{
    let top = String::from_str(rt.alloc(), top)?;
    Ok(Repository { directory, top })
}

// The directory that a gitfile names.
fn named_by<R: Directories>(rt: &R, path: &str) -> Result<String, Error>
    ensures { Finds string_bytes result (named_by path.now) (R.answers rt.now) }
{
    let file = read_short(rt, path, MAX_GITFILE, TextFault::LargeGitfile)?;
    if let Some(text) = as_text(rt, path, file)?
        && let Some(name) = after_gitdir(&text)
    {
        let directory = parent(path).unwrap_or("");
        return Ok(join(rt, directory, without_line_ends(name))?);
    }
    Err(Error::text(rt.alloc(), path, TextFault::NamesNone))
}

// What a gitfile says after its key.
fn after_gitdir(text: &str) -> Option<&str>
    ensures { option_copied result ≡ after_gitdir text.now }
{
    text.strip_prefix("gitdir: ")
}

// The directory that the file `commondir` in a worktree's directory names, or the directory itself
// if there is no such file.
fn common_of<R: Directories>(rt: &R, directory: &str) -> Result<String, Error>
    ensures { Finds string_bytes result (common_of directory.now) (R.answers rt.now) }
{
    let path = join(rt, directory, "commondir")?;
    let file = read_if_there(rt, &path)?;
    match as_text(rt, &path, file)? {
        Some(name) => common_named(rt, directory, &path, &name),
        None => Ok(String::from_str(rt.alloc(), directory)?),
    }
}

// The directory that the text of the file `commondir` at a path names.
#[tactic(auto, unfolding(crate::specs::Discovery::common_named))]
fn common_named<R: Directories>(
    rt: &R,
    directory: &str,
    path: &str,
    name: &str,
) -> Result<String, Error>
    ensures { Finds string_bytes result (common_named directory.now name.now) (R.answers rt.now) }
{
    if name.is_empty() {
        return Err(Error::text(rt.alloc(), path, TextFault::Empty));
    }
    let common = join(rt, directory, without_line_ends(name))?;
    Ok(existing_directory(rt, &common)?.path)
}

// Whether a directory has a `HEAD`: a link to a reference, which need not be there, or a file that
// names a reference or begins with an id.
fn has_head<R: Directories>(rt: &R, directory: &str) -> Result<bool, Error>
    ensures { Finds (λ has. has) result (has_head directory.now) (R.answers rt.now) }
{
    let path = join(rt, directory, "HEAD")?;
    match rt.read_link(&path) {
        Ok(reference) => Ok(reference.as_bytes().starts_with(b"refs/")),
        Err(error) if is_no_link(&error) => has_head_file(rt, &path),
        Err(error) => Err(Error::file(rt.alloc(), &path, error)),
    }
}

// Whether the path of a link cannot be read because there is no link.
fn is_no_link(error: &io::Error) -> bool
    ensures { result ≡ is_no_link (error_kind error.now) }
{
    is_missing(error)
        || matches!(
            error.kind(),
            ErrorKind::InvalidInput | ErrorKind::InvalidFilename
        )
}

// Whether a path leads to a file that is a `HEAD`.
fn has_head_file<R: Directories>(rt: &R, path: &str) -> Result<bool, Error>
    ensures { Finds (λ has. has) result (has_head_file path.now) (R.answers rt.now) }
{
    if !is_file(rt, path)? {
        return Ok(false);
    }
    match if_there(rt, path, rt.read_front(path, MAX_HEAD))? {
        Some(front) => Ok(is_head(&front)),
        None => Ok(false),
    }
}

// Whether the front of a file is that of a `HEAD`: it names a reference or begins with an id.
#[tactic(auto, unfolding(crate::specs::Heads::is_head))]
fn is_head(front: &[u8]) -> bool
    ensures { result ≡ is_head front.now }
{
    match front.strip_prefix(b"ref:") {
        Some(rest) => rest[whitespace_len(rest)..].starts_with(b"refs/"),
        None => 40 <= digits_len(front),
    }
}

// The number of hex digits at the front of a text.
fn digits_len(text: &[u8]) -> usize
    ensures { result ≡ prefix_len is_ascii_hexdigit text.now }
{
    text.iter()
        .take_while(|byte| byte.is_ascii_hexdigit())
        .count()
}

// The number of spaces, tabs and line ends at the front of a text.
fn whitespace_len(text: &[u8]) -> usize
    ensures len { result ≡ prefix_len is_whitespace text.now }
    ensures bound { result ≤ length text.now }
{
    text.iter()
        .take_while(|byte| matches!(**byte, b' ' | b'\t' | b'\n' | b'\r'))
        .count()
}

// A text without the line feeds and carriage returns at its end.
fn without_line_ends(line: &str) -> &str
    ensures { result.now ≡ without_line_ends line.now }
{
    line.trim_end_matches(['\n', '\r'])
}

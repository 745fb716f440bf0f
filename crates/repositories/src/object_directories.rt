//! Finds an object directory and its alternates.

ghost use Rattle.std.specs.Prelude.{◌≡◌, ◌≢◌, ◌++◌, ◌∷◌, ◌-◌, [], All, IfErr, IfOk, IfSome, IsTrue, OnOk, Some, codes, false, length, map, None, slice_index_or, string_bytes, true};
ghost use Rattle.std.specs.List.{Contains};
ghost use Rattle.std.specs.IoError.{error_kind};
ghost use Rattle.std.specs.Path.{path_join};
ghost use Rattle.std.specs.declared.io.ErrorKind.{ErrorKind};
ghost use Rattle.repositories.specs.Answers.{Finds, IfKnown, is_memory};
ghost use Rattle.repositories.specs.Views.{directory_of};
ghost use Rattle.repositories.specs.Walks.{IsSeen, directories_of, each, has, list_at, look_at, looked_at, noted, seen_at, skip, skip_unusable, text_at, visit, visit_below, walk_from, walk_of, walk_over, with_alternates, with_first, with_directory, with_path, with_paths};

use crate::alternates::alternate_paths;
use crate::directories::Directories;
use crate::error::{Error, TextFault};
use crate::files::{
    RealDirectory, existing_directory, is_missing, join, push_path, read_if_there, real_directory,
};
use crate::finding::{ALTERNATES, ObjectDirectory};
use crate::look::{Above, AbovePaths, Look, Seen, first_above};
use crate::state::FileState;
use crate::walk::Walk;
use std::alloc::{AllocError, Global};
use std::collections::BTreeSet;
use std::io;

// This many levels of alternates are read, as by Git: those of the directory itself, and five more,
// each named by the level before.
const LEVELS: u8 = 6;

/// An object directory and its alternates, each once.
#[derive(Drop)]
pub struct ObjectDirectories {
    /// The path of the directory as it was given, and the absolute paths of the alternates. An
    /// alternate whose absolute path is not UTF-8 has the path by which it was found.
    pub paths: Vec<String>,
    /// Why other alternates are skipped: each is missing, not a directory, cannot be reached or is
    /// nested too deep, or its path in a list is not UTF-8. The error has the path of the alternate
    /// or of the list, or the name of the variable if the path begins with a NUL there.
    pub skipped: Vec<Error>,
    /// The states of the directories, each before its list was read. There is none where
    /// [`are_unchanged`](ObjectDirectories::are_unchanged) compares less, since it has a directory
    /// `info`, or is no alternate.
    pub states: Vec<Option<FileState>>,
    // What was seen where a list of alternates may be, before it was read, and at the alternates.
    looks: Vec<Look>,
    // The states of directories above what is missing.
    looks_above: Vec<Look>,
}

impl ObjectDirectories {
    /// Whether each alternate leads to the same directory as when it was found, the states of the
    /// lists of alternates and of missing alternates are the same, and what could not be used for
    /// another reason cannot be used still. All are looked at, and none is read. What cannot be
    /// looked at any more has changed.
    ///
    /// ```
    /// let directories = with_alternates(rt, &find_objects(rt)?)?;
    /// println!(rt; "{}", directories.are_unchanged(rt))?;
    /// ```
    pub fn are_unchanged<R: Directories>(&self, rt: &R) -> bool
        ensures { IsTrue result → IfKnown (λ at. All (IsSeen at) self.now.looks.items
            × All (IsSeen at) self.now.looks_above.items) (R.answers rt.now) }
    {
        self.looks.iter().all(|look| look.is_unchanged(rt))
            && self.looks_above.iter().all(|look| look.is_unchanged(rt))
    }
}

/// Finds an object directory and its alternates as Git links them: those of the environment, and
/// then those of its list, each once, and nested up to 5 times.
///
/// The error is `Memory`, or the cause `File` if the directory is not there, or if a list of
/// alternates is there and cannot be read. Alternates that cannot be used are skipped.
///
/// ```
/// let directories = with_alternates(rt, &find_objects(rt)?)?;
/// for path in &directories.paths {
///     println!(rt; "{path}")?;
/// }
/// ```
pub fn with_alternates<R: Directories>(
    rt: &R,
    objects: &ObjectDirectory,
) -> Result<ObjectDirectories, Error>
    ensures directories { Finds directories_of result (with_alternates
        (string_bytes objects.now.path) (map string_bytes objects.now.alternates.items))
        (R.answers rt.now) }
    ensures looks { IfOk result (λ found. IfKnown (λ at. looked_at (string_bytes objects.now.path)
        (map string_bytes objects.now.alternates.items) at
        ≡ Some (map (λ look. string_bytes look.path) found.looks.items)) (R.answers rt.now)) }
{
    let mut found = walk_over(rt, objects)?.found;
    // Errors have the path as it was given.
    put_first(&mut found.paths, objects.path.clone()?);
    Ok(found)
}

// Walks over an object directory and its alternates.
fn walk_over<R: Directories>(rt: &R, objects: &ObjectDirectory) -> Result<Walk, Error>
    ensures { Finds walk_of result (walk_over (string_bytes objects.now.path)
        (map string_bytes objects.now.alternates.items)) (R.answers rt.now) }
{
    let real = existing_directory(rt, &objects.path)?;
    let mut walk = Walk::new(rt.alloc());
    match walk.walk_from(rt, real, &objects.alternates) {
        Ok(()) => Ok(walk),
        Err(error) => Err(error),
    }
}

// Puts a path in the place of the first one, if there is one.
fn put_first(paths: &mut Vec<String>, path: String)
    ensures { map string_bytes paths.new.items
        ≡ with_first (string_bytes path) (map string_bytes paths.old.items) }
{
    if let Some(first) = paths.first_mut() {
        *first = path;
    }
}

impl Walk {
    // A walk that begins.
    fn new(alloc: Global) -> Walk
        ensures { walk_of result ≡ record { paths = []; numbers = []; skipped = 0; looked = [] } }
    {
        Walk {
            found: ObjectDirectories {
                paths: Vec::new(alloc),
                skipped: Vec::new(alloc),
                states: Vec::new(alloc),
                looks: Vec::new(alloc),
                looks_above: Vec::new(alloc),
            },
            paths: BTreeSet::new(alloc),
            numbers: Vec::new(alloc),
            above: AbovePaths {
                path: String::new(alloc),
                missing: String::new(alloc),
            },
        }
    }

    // Adds an object directory, the alternates of the environment, and those of its list.
    fn walk_from<R: Directories>(
        &mut self,
        rt: &R,
        real: RealDirectory,
        given: &[String],
    ) -> Result<(), Error>
        ensures { Finds (λ _. walk_of self.new) result (walk_from (directory_of real)
            (map string_bytes given.now) (walk_of self.old)) (R.answers rt.now) }
    {
        let path = real.path.clone()?;
        let seen = real.seen;
        self.push(real, None)?;
        self.visit_all(rt, given, LEVELS)?;
        let alternates = self.list_at(rt, &path, seen)?;
        self.visit_all(rt, &alternates, LEVELS)?;
        Ok(())
    }

    // Adds a directory, with its state if that is compared later.
    #[tactic(auto, using(crate::proofs::Sets::contains_more))]
    fn push(&mut self, real: RealDirectory, state: Option<FileState>) -> Result<(), AllocError>
        ensures { OnOk result (walk_of self.new
            ≡ with_directory (directory_of real) (walk_of self.old)) }
    {
        let path = real.path.clone()?;
        self.found.states.push(state)?;
        self.found.paths.reserve(1)?;
        self.paths.insert(path)?;
        self.found.paths.push_reserved(real.path);
        if let Some(number) = real.number {
            self.numbers.push(number)?;
        }
        Ok(())
    }

    // Adds why a path is skipped. The error is returned if it is that memory ran out.
    fn skip(&mut self, why: Error) -> Result<(), Error>
        ensures skipped { OnOk result (walk_of self.new ≡ skip (walk_of self.old)) }
        ensures err { IfErr result (λ error. is_memory error ≡ true) }
    {
        if let Error::Memory(error) = why {
            return Err(Error::Memory(error));
        }
        self.found.skipped.push(why)?;
        Ok(())
    }

    // Whether a directory is there already.
    fn has(&self, real: &RealDirectory) -> bool
        ensures { result ≡ has (directory_of real.now) (walk_of self.now) }
    {
        match real.number {
            Some(number) => self.numbers.contains(&number),
            None => self.paths.contains(&real.path),
        }
    }

    // Adds directories and their alternates, `levels` levels in all.
    fn visit_all<R: Directories>(
        &mut self,
        rt: &R,
        paths: &[String],
        levels: u8,
    ) -> Result<(), Error>
        ensures { Finds (λ _. walk_of self.new) result (each (visit_below levels)
            (map string_bytes paths.now) (walk_of self.old)) (R.answers rt.now) }
    {
        for path in paths {
            let alternates = self.visit(rt, path, levels)?;
            if levels > 0 {
                self.visit_all(rt, &alternates, levels - 1)?;
            }
        }
        Ok(())
    }

    // Adds a directory, and returns the paths in its list. There are none if the directory is there
    // already, or if it is skipped, since it cannot be read or no level is left.
    fn visit<R: Directories>(
        &mut self,
        rt: &R,
        path: &str,
        levels: u8,
    ) -> Result<Vec<String>, Error>
        ensures { Finds (λ paths. (walk_of self.new, map string_bytes paths.items)) result
            (visit levels path.now (walk_of self.old)) (R.answers rt.now) }
    {
        let real = match real_directory(rt, path) {
            Ok(real) => real,
            Err(error) => {
                self.skip_unusable(rt, path, error)?;
                return Ok(Vec::new(rt.alloc()));
            }
        };
        self.note(rt, path, Seen::Directory(real.seen.number()))?;
        if self.has(&real) {
            return Ok(Vec::new(rt.alloc()));
        }
        if levels == 0 {
            self.skip(Error::text(rt.alloc(), path, TextFault::TooDeep))?;
            return Ok(Vec::new(rt.alloc()));
        }
        let alternates = self.list_at(rt, &real.path, real.seen)?;
        let state = whole_state(&self.found.looks, &real.path);
        self.push(real, state)?;
        Ok(alternates)
    }

    // Notes what was seen at a path.
    fn note(&mut self, rt: &impl AllocGlobal, path: &str, seen: Seen) -> Result<(), AllocError>
        ensures looked { OnOk result (walk_of self.new ≡ look_at path.now (walk_of self.old)) }
        ensures noted { OnOk result (noted self.new ≡ noted self.old ++ (path.now, seen) ∷ []) }
    {
        let path = String::from_str(rt.alloc(), path)?;
        self.found.looks.push(Look { path, seen })?;
        Ok(())
    }

    // Notes that a path leads to nothing. The state of the directory above is noted, too, unless it
    // was the last time: what comes and goes again leaves another one.
    fn note_missing<R: Directories>(&mut self, rt: &R, path: &str) -> Result<(), AllocError>
        ensures looked { OnOk result (walk_of self.new ≡ look_at path.now (walk_of self.old)) }
        ensures noted { OnOk result (noted self.new
            ≡ noted self.old ++ (path.now, Seen.State None) ∷ []) }
    {
        self.note(rt, path, Seen::State(None))?;
        if let Some(above) = first_above(rt, path, &self.above, None) {
            self.note_above(rt, above)?;
        }
        Ok(())
    }

    // Notes the state of a directory above what is missing.
    fn note_above(&mut self, rt: &impl AllocGlobal, above: Above<'_>) -> Result<(), AllocError>
        ensures walk { OnOk result (walk_of self.new ≡ walk_of self.old) }
        ensures noted { OnOk result (noted self.new ≡ noted self.old) }
    {
        let path = String::from_str(rt.alloc(), above.path)?;
        let seen = Seen::State(Some(above.state));
        self.found.looks_above.push(Look { path, seen })?;
        self.above = AbovePaths {
            path: String::from_str(rt.alloc(), above.path)?,
            missing: String::from_str(rt.alloc(), above.missing)?,
        };
        Ok(())
    }

    // Notes that the list of alternates of a directory is missing, and the state of the directory
    // above, which is known of the directory itself. If that was looked at last, its state is noted
    // there, so that one look sees both.
    fn note_no_list<R: Directories>(
        &mut self,
        rt: &R,
        list: &str,
        directory: &str,
        state: FileState,
    ) -> Result<(), AllocError>
        ensures looked { OnOk result (walk_of self.new ≡ look_at list.now (walk_of self.old)) }
        ensures noted { OnOk result (slice_index_or (noted self.new) (length (noted self.old))
            ([], Seen.Unusable) ≡ (list.now, Seen.State None)) }
    {
        if let Some(above) = first_above(rt, list, &self.above, Some((directory, state))) {
            if above.path != directory
                || !note_whole_state(&mut self.found.looks, directory, state)
            {
                self.note_above(rt, above)?;
            }
        }
        self.note(rt, list, Seen::State(None))
    }

    // Skips an alternate that is not a directory or cannot be read. The error is that memory runs
    // out, or ran out when the alternate was read.
    fn skip_unusable<R: Directories>(
        &mut self,
        rt: &R,
        path: &str,
        error: io::Error,
    ) -> Result<(), Error>
        ensures skipped { OnOk result (walk_of self.new
            ≡ skip_unusable path.now (walk_of self.old)) }
        ensures memory { OnOk result (error_kind error ≢ ErrorKind.OutOfMemory) }
        ensures err { IfErr result (λ error. is_memory error ≡ true) }
    {
        if error.kind() == io::ErrorKind::OutOfMemory {
            return Err(Error::Memory(AllocError));
        }
        if path.is_empty() {
            return self.skip(Error::text(rt.alloc(), ALTERNATES, TextFault::PathWithNul));
        }
        match error.kind() {
            io::ErrorKind::NotFound => self.note_missing(rt, path)?,
            _ => self.note(rt, path, Seen::Unusable)?,
        }
        self.skip(unusable(rt, path, error))
    }

    // Reads the paths in the list of alternates of a directory, whose state is known. Those that
    // are not UTF-8 are skipped.
    fn list_at<R: Directories>(
        &mut self,
        rt: &R,
        directory: &str,
        state: FileState,
    ) -> Result<Vec<String>, Error>
        ensures { Finds (λ paths. (walk_of self.new, map string_bytes paths.items)) result
            (list_at directory.now (walk_of self.old)) (R.answers rt.now) }
    {
        let list = list_path(rt, directory)?;
        let text = self.text_at(rt, &list, directory, state)?;
        let named = alternate_paths(rt.alloc(), &text, b'\n')?;
        self.read_paths(rt, directory, &named)
    }

    // The paths that the list of a directory names, without those that are skipped.
    fn read_paths(
        &mut self,
        rt: &impl AllocGlobal,
        directory: &str,
        named: &[Vec<u8>],
    ) -> Result<Vec<String>, Error>
        ensures paths { IfOk result (λ paths. (walk_of self.new, map string_bytes paths.items)
            ≡ with_paths directory.now (map (λ path. path.items) named.now)
            (walk_of self.old, [])) }
        ensures err { IfErr result (λ error. is_memory error ≡ true) }
    {
        let mut paths = Vec::new(rt.alloc());
        for path in named {
            self.read_path(rt, directory, path, &mut paths)?;
        }
        Ok(paths)
    }

    // Adds a path of the list of a directory to others. An empty one is the directory itself.
    fn read_path(
        &mut self,
        rt: &impl AllocGlobal,
        directory: &str,
        path: &[u8],
        paths: &mut Vec<String>,
    ) -> Result<(), Error>
        ensures path { OnOk result ((walk_of self.new, map string_bytes paths.new.items)
            ≡ with_path directory.now path.now
            (walk_of self.old, map string_bytes paths.old.items)) }
        ensures err { IfErr result (λ error. is_memory error ≡ true) }
    {
        if path.is_empty() {
            return Ok(());
        }
        if push_path(rt, directory, path, paths)? {
            return Ok(());
        }
        let list = list_path(rt, directory)?;
        self.skip(Error::text(rt.alloc(), &list, TextFault::PathNotText))
    }

    // Reads the text of the list of alternates of a directory, which is empty if there is no list.
    // The state of the directory is known.
    fn text_at<R: Directories>(
        &mut self,
        rt: &R,
        list: &str,
        directory: &str,
        state: FileState,
    ) -> Result<Vec<u8>, Error>
        ensures looked { OnOk result (walk_of self.new ≡ look_at list.now (walk_of self.old)) }
        ensures text { Finds (λ text. text.items) result (text_at list.now) (R.answers rt.now) }
    {
        match FileState::if_there(rt, list) {
            Ok(None) => {
                self.note_no_list(rt, list, directory, state)?;
                return Ok(Vec::new(rt.alloc()));
            }
            Ok(found) => self.note(rt, list, Seen::State(found))?,
            Err(error) => return Err(Error::file(rt.alloc(), list, error)),
        }
        match read_if_there(rt, list)? {
            Some(text) => Ok(text),
            None => Ok(Vec::new(rt.alloc())),
        }
    }
}

// Whether the last look was at this directory. If so, its state is noted there.
fn note_whole_state(looks: &mut Vec<Look>, directory: &str, state: FileState) -> bool
    ensures paths { map (λ look. string_bytes look.path) looks.new.items
        ≡ map (λ look. string_bytes look.path) looks.old.items }
    ensures noted { IsTrue result → slice_index_or (seen_at looks.new.items)
        (length looks.new.items - 1) ([], Seen.Unusable)
        ≡ (directory.now, Seen.DirectoryIn state) }
    ensures same { result ≡ false → seen_at looks.new.items ≡ seen_at looks.old.items }
{
    match looks.last_mut() {
        Some(look) if look.path.as_str() == directory => {
            look.seen = Seen::DirectoryIn(state);
            true
        }
        _ => false,
    }
}

// The state of a directory that was noted, if the look before the last one was at it.
fn whole_state(looks: &[Look], directory: &str) -> Option<FileState>
    ensures { IfSome result (λ state. Contains (seen_at looks.now)
        (directory.now, Seen.DirectoryIn state)) }
{
    match looks {
        [.., look, _] if look.path.as_str() == directory => match look.seen {
            Seen::DirectoryIn(state) => Some(state),
            _ => None,
        },
        _ => None,
    }
}

// Why an alternate is skipped that is not a directory, or that cannot be read.
fn unusable(rt: &impl AllocGlobal, path: &str, error: io::Error) -> Error {
    match path.strip_suffix('\r') {
        Some(path) if is_missing(&error) => {
            Error::text(rt.alloc(), path, TextFault::CarriageReturn)
        }
        _ => Error::file(rt.alloc(), path, error),
    }
}

// The path of the list of alternates of a directory.
fn list_path(rt: &impl AllocGlobal, directory: &str) -> Result<String, AllocError>
    ensures { IfOk result (λ list. string_bytes list
        ≡ path_join directory.now (codes "info/alternates")) }
{
    join(rt, directory, "info/alternates")
}

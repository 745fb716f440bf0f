//! What directories and files are before they are read, to know whether they changed meanwhile.

ghost use Rattle.std.specs.Prelude.{◌≡◌, ◌≢◌, ◌+◌, ◌*◌, ◌<◌, ◌==◌, ◌↔◌, IfErr, IfOk, IsTrue, None, Some, not};
ghost use Rattle.std.specs.Duration.{as_nanos};
ghost use Rattle.std.specs.Fs.{metadata_len};
ghost use Rattle.std.specs.IoError.{error_kind};
ghost use Rattle.std.specs.declared.io.ErrorKind.TheVariants as errors;
ghost use Rattle.repositories.specs.Answers.{IfKnown};
ghost use Rattle.repositories.specs.States.{IsPast, IsSettled, from_zero};
ghost use Rattle.repositories.specs.Walks.{IsStateOf, or_here, state_at};

use crate::directories::Directories;
use crate::files::{FileNumber, is_missing};
use std::fs::Metadata;
use std::io::{self, ErrorKind};
use std::os::unix::fs::MetadataExt;
use std::path::Path;
use std::time::{Duration, SystemTime, UNIX_EPOCH};

// A change may leave a time that is this many nanoseconds earlier, since the clock of files ticks
// up to 10 ms after the system's, and a file system may count in 10 ms.
const GRAIN: u128 = 20_000_000;

// A time in whole seconds may be this many nanoseconds earlier, since some file systems have no
// others.
const GRAIN_OF_SECONDS: u128 = 2_000_000_000;

/// The state of a directory or file: which one it is, its size in bytes, and when it was modified
/// and when it was changed. Of a time before 1970 only the nanoseconds are kept. If a path leads to
/// nothing, its state is that of the first directory above that is there, with the number of names
/// that are missing below it. So what comes and goes again leaves another state, too.
///
/// What is read between two equal states was there at one time, unless it changed twice within one
/// tick of the file system's clock.
///
/// ```
/// let before = FileState::of(rt, ".git/objects/pack")?;
/// println!(rt; "{}", before.is_missing())?;
/// let is_unchanged = FileState::of(rt, ".git/objects/pack")? == before;
/// ```
#[derive(Clone, Copy, Debug, PartialEq)]
pub struct FileState {
    missing: u64,
    dev: u64,
    ino: u64,
    size: u64,
    // Both times are since 1970.
    modified: Duration,
    changed: Duration,
}

impl FileState {
    /// Reads the state of what a path leads to. The error is that of a look at the path, or at a
    /// directory above it if the path leads to nothing.
    pub fn of<R: Directories>(rt: &R, path: &str) -> io::Result<FileState>
        ensures { IfOk result (λ state. IfKnown (IsStateOf (or_here path.now) state)
            (R.answers rt.now)) }
    {
        FileState::of_known(rt, path, None)
    }

    /// Reads the state as [`FileState::of`] does, except that the state of the directory that the
    /// path is in may be known. If the path leads to nothing, this directory is not looked at.
    ///
    /// ```
    /// let objects = FileState::of(rt, ".git/objects")?;
    /// let packs = FileState::of_known(rt, ".git/objects/pack", Some(objects))?;
    /// ```
    pub fn of_known<R: Directories>(
        rt: &R,
        path: &str,
        directory: Option<FileState>,
    ) -> io::Result<FileState>
        ensures { IfOk result (λ state. IfKnown (IsStateOf (or_here path.now) state)
            (R.answers rt.now)) }
    {
        let path = or_here(path);
        if let Some(state) = FileState::if_there(rt, path)? {
            return Ok(state);
        }
        let Some(mut state) = directory else {
            return FileState::of_missing(rt, path);
        };
        state.missing = 1;
        Ok(state)
    }

    // Reads the state of a path that leads to nothing.
    fn of_missing<R: Directories>(rt: &R, path: &str) -> io::Result<FileState>
        ensures { IfOk result (λ state. 0 < state.missing) }
    {
        let mut missing = 1u64;
        for above in Path::new(path).ancestors().skip(1) {
            if let Some(mut state) = FileState::if_there(rt, or_here(above.as_str()))? {
                state.missing = missing;
                return Ok(state);
            }
            missing = missing.saturating_add(1);
        }
        Err(ErrorKind::NotFound.into())
    }

    /// Reads the state of what a path leads to, or returns `None` if that is nothing. The error is
    /// any other one of the look at the path.
    pub fn if_there<R: Directories>(rt: &R, path: &str) -> io::Result<Option<FileState>>
        ensures ok { IfOk result (λ state. IfKnown (λ at. state_at path.now at ≡ Some state)
            (R.answers rt.now)) }
        ensures err { IfErr result (λ error. error_kind error ≢ errors.OutOfMemory
            → IfKnown (λ at. state_at path.now at ≡ None) (R.answers rt.now)) }
    {
        match rt.look(path) {
            Err(error) if is_missing(&error) => Ok(None),
            found => Ok(Some(found?.state)),
        }
    }

    /// Makes the state of a directory or file that is there. `dev` is the number of its file
    /// system, `ino` its own number there, `size` its size in bytes, and the times at which it was
    /// modified and changed are since 1970.
    pub fn from_parts(
        dev: u64,
        ino: u64,
        size: u64,
        modified: Duration,
        changed: Duration,
    ) -> FileState
        ensures { result ≡ record {
          missing = 0;
          dev = dev;
          ino = ino;
          size = size;
          modified = modified;
          changed = changed;
        } }
    {
        FileState {
            missing: 0,
            dev,
            ino,
            size,
            modified,
            changed,
        }
    }

    // The state of what is there.
    pub(crate) fn new(found: &Metadata) -> FileState
        ensures there { result.missing ≡ 0 }
        ensures size { result.size ≡ metadata_len found.now }
    {
        FileState::from_parts(
            found.dev(),
            found.ino(),
            found.size(),
            since_1970(found.mtime(), found.mtime_nsec()),
            since_1970(found.ctime(), found.ctime_nsec()),
        )
    }

    // The number of the directory or file, or of the directory above if it is missing.
    pub(crate) fn number(&self) -> FileNumber
        ensures { result ≡ record { dev = self.now.dev; ino = self.now.ino } }
    {
        FileNumber {
            dev: self.dev,
            ino: self.ino,
        }
    }

    /// Whether each later change leaves another state, so that what is read from now on is there as
    /// long as the state stays this one. It is so if both times are earlier than `now`, a time
    /// before the path was looked at, by 20 ms, or by 2 s if they are whole seconds, since some
    /// file systems have no others.
    ///
    /// ```
    /// let now = SystemTime::now(rt)?;
    /// let is_settled = FileState::of(rt, ".git/objects/pack")?.is_settled(now);
    /// ```
    pub fn is_settled(&self, now: SystemTime) -> bool
        ensures { IsTrue result ↔ IsSettled now self.now }
    {
        is_past(self.modified, now) && is_past(self.changed, now)
    }

    /// Whether the path led to nothing.
    pub fn is_missing(&self) -> bool
        ensures { result ≡ not (self.now.missing == 0) }
    {
        self.missing > 0
    }
}

// A path, or that of the current directory if it is empty.
pub(crate) fn or_here(path: &str) -> &str
    ensures { result.now ≡ or_here path.now }
{
    match path {
        "" => ".",
        path => path,
    }
}

// Whether no change from now on leaves this time of a file.
fn is_past(time: Duration, now: SystemTime) -> bool
    ensures { IsTrue result ↔ IsPast now time }
{
    let grain = match time.subsec_nanos() {
        0 => GRAIN_OF_SECONDS,
        _ => GRAIN,
    };
    match now.duration_since(UNIX_EPOCH) {
        Ok(now) => time.as_nanos().saturating_add(grain) < now.as_nanos(),
        Err(_) => false,
    }
}

// The time since 1970 of a file's seconds and nanoseconds. Of a time before 1970 the nanoseconds
// are kept, so that two such times mostly differ, too.
fn since_1970(secs: i64, nanos: i64) -> Duration
    ensures { as_nanos result ≡ from_zero secs * 1_000_000_000 + from_zero nanos }
{
    let nanos = Duration::from_nanos(u64::try_from(nanos).unwrap_or(0));
    Duration::from_secs(u64::try_from(secs).unwrap_or(0)).saturating_add(nanos)
}

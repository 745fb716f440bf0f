//! The names in directories, and the states of directories.

ghost use Rattle.std.specs.Prelude.{◌≡◌, ◌⊎◌, ◌↔◌, All, IfErr, IfOk, IsNone, IsTrue, None, OnOk, Some, [], length, map, slice_index_or, string_bytes, vec_len};
ghost use Rattle.repositories.specs.Answers.{IfKnown};
ghost use Rattle.repositories.specs.States.{IsSettled};
ghost use Rattle.repositories.specs.Walks.{IsStateOf, or_here};
ghost use Rattle.directory_store.specs.Loose.{listed_in};
ghost use Rattle.directory_store.specs.Packs.{names_in};
ghost use Rattle.directory_store.specs.Stores.{AreStatesOf, IsChanged, IsUnread};

use crate::error::Error;
use repositories::{Directories, FileState};
use std::io;
use std::time::SystemTime;

// The names in a directory, each ended by a NUL, or none if the directory is missing. They are
// bytes: a name need not be UTF-8.
pub(crate) fn list_names<R: Directories>(rt: &R, directory: &str) -> Result<Vec<u8>, Error>
    ensures { IfOk result (λ names. IfKnown (λ at. names_in directory.now at ≡ Some names.items)
        (R.answers rt.now)) }
{
    match rt.names(directory) {
        Ok(names) => Ok(names),
        Err(error) if error.kind() == io::ErrorKind::NotFound => Ok(Vec::new(rt.alloc())),
        Err(error) => Err(Error::file(rt.alloc(), directory, error)),
    }
}

// The state of a directory, before it is read or after. That of the directory above may be known.
pub(crate) fn state_of<R: Directories>(
    rt: &R,
    directory: &str,
    above: Option<FileState>,
) -> Result<FileState, Error>
    ensures err { IfErr result IsUnread }
    ensures state { IfOk result (λ state. IfKnown (IsStateOf (or_here directory.now) state)
        (R.answers rt.now)) }
{
    let state = FileState::of_known(rt, directory, above);
    state.map_err(|error| Error::file(rt.alloc(), directory, error))
}

// The state of a directory, or `None` if it is missing.
pub(crate) fn state_if_there<R: Directories>(
    rt: &R,
    directory: &str,
) -> Result<Option<FileState>, Error>
    ensures err { IfErr result IsUnread }
    ensures missing { IfOk result (λ state. IsNone state → IfKnown (λ at.
        listed_in directory.now at ≡ []) (R.answers rt.now)) }
{
    match FileState::if_there(rt, directory) {
        Ok(state) => Ok(state),
        Err(error) => Err(Error::file(rt.alloc(), directory, error)),
    }
}

// The states of directories. Those of the directories above may be known.
pub(crate) fn states_of<R: Directories>(
    rt: &R,
    paths: &[String],
    above: &[Option<FileState>],
) -> Result<Vec<FileState>, Error>
    ensures as_many { IfOk result (λ states. vec_len states ≡ length paths.now) }
    ensures states { IfOk result (λ states. IfKnown (AreStatesOf (map string_bytes paths.now)
        states.items) (R.answers rt.now)) }
{
    let mut states = Vec::new(rt.alloc());
    for path in paths {
        let above = known_at(above, states.len());
        states.push(state_of(rt, path, above)?)?;
    }
    Ok(states)
}

// The state at a position, if it is known.
fn known_at(states: &[Option<FileState>], at: usize) -> Option<FileState>
    ensures { result ≡ slice_index_or states.now at None }
{
    states.get(at).copied().flatten()
}

// Fails if a directory is in another state.
pub(crate) fn expect_state<R: Directories>(
    rt: &R,
    path: &str,
    above: Option<FileState>,
    state: &FileState,
) -> Result<(), Error>
    ensures err { IfErr result (λ error. IsUnread error ⊎ IsChanged path.now error) }
    ensures state { OnOk result (IfKnown (IsStateOf (or_here path.now) state.now)
        (R.answers rt.now)) }
{
    if state_of(rt, path, above)? == *state {
        Ok(())
    } else {
        Err(Error::changed(rt.alloc(), path))
    }
}

// Fails if one of the directories is in another state. Those of the directories above may be known.
pub(crate) fn expect_states<R: Directories>(
    rt: &R,
    paths: &[String],
    above: &[Option<FileState>],
    states: &[FileState],
) -> Result<(), Error>
    requires { length states.now ≡ length paths.now }
    ensures { OnOk result (IfKnown (AreStatesOf (map string_bytes paths.now) states.now)
        (R.answers rt.now)) }
{
    for (at, path) in paths.iter().enumerate() {
        expect_state(rt, path, known_at(above, at), &states[at])?;
    }
    Ok(())
}

// Whether each later change leaves other states.
pub(crate) fn are_settled(states: &[FileState], now: SystemTime) -> bool
    ensures { IsTrue result ↔ All (IsSettled now) states.now }
{
    states.iter().all(|state| state.is_settled(now))
}

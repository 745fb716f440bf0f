//! What a walk over object directories sees at paths, to know whether it is there still.

ghost use Rattle.std.specs.Prelude.{ℕ, ◌≡◌, ◌⊎◌, ◌∷◌, ◌++◌, IfSome, IsSomeAnd, IsTrue, List, Some, string_bytes};
ghost use Rattle.repositories.specs.Answers.{IfKnown};
ghost use Rattle.repositories.specs.Walks.{IsSeen, state_at};

use crate::directories::Directories;
use crate::files::{FileNumber, real_directory};
use crate::state::{FileState, or_here};
use std::io::ErrorKind;
use std::path::Path;

// What was seen at a path.
#[derive(Drop)]
pub(crate) struct Look {
    pub(crate) path: String,
    pub(crate) seen: Seen,
}

#[derive(Clone, Copy)]
pub(crate) enum Seen {
    // A directory, by its number, since its times change with each directory that is made in it.
    Directory(FileNumber),
    // A directory in a state, since something is missing in it.
    DirectoryIn(FileState),
    // A list of alternates, the directory above what is missing, or nothing.
    State(Option<FileState>),
    // What is there and no directory, or cannot be looked at.
    Unusable,
}

impl Look {
    // Whether a look sees the same. If it fails, it does not.
    pub(crate) fn is_unchanged<R: Directories>(&self, rt: &R) -> bool
        ensures { IsTrue result → IfKnown (λ at. IsSeen at self.now) (R.answers rt.now) }
    {
        match self.seen {
            Seen::Directory(number) => rt.look(&self.path).is_ok_and(|found| found.is_directory
                && found.state.number() == number),
            Seen::DirectoryIn(state) => {
                rt.look(&self.path)
                    .is_ok_and(|found| found.is_directory && found.state == state)
            }
            Seen::State(state) => {
                FileState::if_there(rt, &self.path).is_ok_and(|now| now == state)
            }
            Seen::Unusable => match real_directory(rt, &self.path) {
                Ok(_) => false,
                Err(error) => error.kind() != ErrorKind::OutOfMemory,
            },
        }
    }
}

// The first directory above a missing path that is there.
#[derive(Clone, Copy)]
pub(crate) struct Above<'a> {
    pub(crate) path: &'a str,
    pub(crate) state: FileState,
    // The path of what is missing in it.
    pub(crate) missing: &'a str,
}

// The paths of a directory above what is missing, and of what is missing in it. Both are empty if
// there is none.
#[derive(Drop)]
pub(crate) struct AbovePaths {
    pub(crate) path: String,
    pub(crate) missing: String,
}

impl AbovePaths {
    // Whether a path leads into what is missing.
    fn is_missing(&self, path: &str) -> bool
        ensures { IsTrue result → (below : List ℕ)
            × (path.now ≡ string_bytes self.now.missing ++ 47 ∷ below) }
    {
        match path.strip_prefix(self.missing.as_str()) {
            Some(below) => !self.missing.is_empty() && below.starts_with('/'),
            None => false,
        }
    }
}

// The first directory above a missing path that is there. There is none if a look fails, or if the
// last one comes first. The state of a directory may be known.
pub(crate) fn first_above<'a, R: Directories>(
    rt: &R,
    path: &'a str,
    last: &AbovePaths,
    known: Option<(&str, FileState)>,
) -> Option<Above<'a>>
    ensures { IfSome result (λ above. IsSomeAnd known.entry (λ directory.
        (directory.0.now ≡ above.path.now) × (directory.1 ≡ above.state))
        ⊎ IfKnown (λ at. state_at above.path.now at ≡ Some (Some above.state)) (R.answers rt.now)) }
{
    if last.is_missing(path) {
        return None;
    }
    let mut missing = path;
    for above in Path::new(path).ancestors().skip(1) {
        let above = or_here(above.as_str());
        if above == last.path.as_str() {
            return None;
        }
        let state = match known {
            Some((directory, state)) if above == directory => Some(state),
            _ => FileState::if_there(rt, above).ok()?,
        };
        if let Some(state) = state {
            return Some(Above {
                path: above,
                state,
                missing,
            });
        }
        missing = above;
    }
    None
}

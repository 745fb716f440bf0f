//! How far a walk over object directories has come.

ghost use Rattle.std.specs.Prelude.{◌≡◌, ℕ, List, bytes_eq, map, string_bytes};
ghost use Rattle.std.specs.BTreeSet.{contains_text};
ghost use Rattle.std.specs.List.{list_any};

use crate::files::FileNumber;
use crate::look::AbovePaths;
use crate::object_directories::ObjectDirectories;
use std::collections::BTreeSet;

// A walk over directories and their alternates.
#[derive(Drop)]
pub(crate) struct Walk {
    pub(crate) found: ObjectDirectories,
    // The paths of the directories, among which each further one is looked for.
    pub(crate) paths: BTreeSet<String>,
    // The numbers of the directories whose absolute paths are not UTF-8.
    pub(crate) numbers: Vec<FileNumber>,
    // The directory above what is missing whose state was noted last.
    pub(crate) above: AbovePaths,
    ghost same_paths: { (path : List ℕ) → contains_text paths path
        ≡ list_any (λ other. bytes_eq other path) (map string_bytes found.paths.items) },
}

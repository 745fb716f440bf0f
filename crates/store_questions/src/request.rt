//! What is asked of the store of an object directory.

ghost use Rattle.std.specs.Prelude.{◌≤◌};
ghost use Rattle.gix_hash.specs.Words.{hex_len_of};

use packtool_commands::Question;
use repositories::ObjectDirectory;

// What is asked of the store of an object directory, whatever it is asked about.
#[derive(Drop)]
pub(crate) struct Query<'r, R> {
    // Where it prints, and what it reads the store by.
    pub(crate) host: &'r HostRuntime,
    pub(crate) rt: &'r R,
    pub(crate) directory: &'r ObjectDirectory,
    pub(crate) question: Question,
    // The fewest digits of an abbreviation.
    pub(crate) least: usize,
    ghost enough: { 4 ≤ least },
    ghost fits: { least ≤ hex_len_of directory.now.kind },
}

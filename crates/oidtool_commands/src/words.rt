//! The words that a program is started with.

ghost use Rattle.std.specs.Prelude.{◌≡◌};
ghost use Rattle.oidtool_commands.specs.declared.words.WordsError.TheVariants.{Memory};

use std::alloc::AllocError;
use std::rt::Env;
use std::{env, io};

/// Why the arguments of a program cannot be read.
///
/// ```
/// if let Err(WordsError::NotText) = command_line_args(rt) {
///     println!(rt; "an argument is not UTF-8")?;
/// }
/// ```
#[derive(Clone, Copy, PartialEq, Eq, Debug)]
pub enum WordsError {
    /// An argument is not UTF-8.
    NotText,
    /// Memory ran out.
    Memory,
}

impl From<AllocError> for WordsError {
    ghost from_gives = { λ _ error. error ≡ Memory };

    fn from(_error: AllocError) -> Self {
        WordsError::Memory
    }
}

/// The arguments after the program's name, in order, or [`WordsError::NotText`] if the name or an
/// argument is not UTF-8. No clause says so, since the library's `env::args` has none; it is
/// tested.
pub fn command_line_args(rt: &(impl Env + AllocGlobal)) -> Result<Vec<String>, WordsError> {
    match env::args(rt) {
        Ok(args) => Ok(args.skip(1).collect(rt.alloc())?),
        Err(error) => match error.kind() {
            io::ErrorKind::OutOfMemory => Err(WordsError::Memory),
            _ => Err(WordsError::NotText),
        },
    }
}

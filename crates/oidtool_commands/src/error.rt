//! Why a command fails.

ghost use Rattle.std.specs.Prelude.{◌≡◌};

use crate::command::ArgError;
use list_search::SearchError;
use streams::{PipeError, WriteFailed};
use thiserror::Error as ThisError;

/// Why a command was rejected, or failed.
///
/// ```
/// let command = Command::Hash { kind: Kind::Sha1 };
/// match run_command(rt, rt.alloc(), command, &mut input, &mut out) {
///     Err(CommandError::Input) => println!(rt; "standard input cannot be read")?,
///     count => println!(rt; "{} lines", count?)?,
/// }
/// ```
#[derive(Debug, Drop, ThisError)]
pub enum CommandError {
    /// The prefix or the list text is rejected. The causes that other commands share are variants
    /// of this error.
    #[error("{0}")]
    Find(SearchError),
    /// Memory ran out.
    #[error("out of memory")]
    Memory,
    /// A read of the input failed, or a file could not be opened or read, or has fewer bytes than
    /// were asked for.
    #[error("cannot read")]
    Input,
    /// The writer failed at a write or at the flush.
    #[error("cannot write")]
    Output,
    /// The input has more than 2^61 - 1 bytes.
    #[error("too much input")]
    TooMuch,
}

impl From<PipeError> for CommandError {
    ghost use Rattle.oidtool_commands.specs.Commands.{error_of_pipe};

    ghost from_gives = { λ error e. e ≡ error_of_pipe error };

    fn from(error: PipeError) -> Self {
        match error {
            PipeError::Input => CommandError::Input,
            PipeError::Output => CommandError::Output,
            PipeError::TooMuch => CommandError::TooMuch,
        }
    }
}

impl From<SearchError> for CommandError {
    ghost use Rattle.oidtool_commands.specs.Commands.{error_of_search};

    ghost from_gives = { λ error e. e ≡ error_of_search error };

    fn from(error: SearchError) -> Self {
        match error {
            SearchError::Memory => CommandError::Memory,
            SearchError::Output => CommandError::Output,
            SearchError::Input => CommandError::Input,
            SearchError::TooMuch => CommandError::TooMuch,
            error => CommandError::Find(error),
        }
    }
}

impl From<WriteFailed> for CommandError {
    ghost use Rattle.oidtool_commands.specs.declared.error.CommandError.TheVariants.{Output};

    ghost from_gives = { λ _ e. e ≡ Output };

    fn from(_failed: WriteFailed) -> Self {
        CommandError::Output
    }
}

/// Why a program did not run a command to its end.
///
/// ```
/// let why = Failure::Command(CommandError::Memory);
/// println!(rt; "{why}")?;
/// ```
#[derive(Debug, Drop, ThisError)]
pub enum Failure<'a> {
    /// The arguments are no command.
    #[error("{0}")]
    Args(ArgError<'a>),
    /// The command failed.
    #[error("{0}")]
    Command(CommandError),
}

//! How a program ends.

ghost use Rattle.std.specs.Prelude.{◌≡◌};
ghost use Rattle.std.specs.Process.{exit_status as ended_with};
ghost use Rattle.oidtool_commands.specs.CommandLines.{status_of};

use std::fmt;
use std::process::ExitCode;

/// The exit status for a result that counts what was found or written: 0 for at least one, 1 for
/// none, and 2 for an error.
pub fn exit_status<E>(outcome: &Result<usize, E>) -> u8
    ensures { result ≡ status_of outcome.now }
{
    match outcome {
        Ok(0) => 1,
        Ok(_) => 0,
        Err(_) => 2,
    }
}

/// Returns the exit status of `outcome`. If it is an error, first prints its text and a line feed
/// on standard error; the status is the same if these cannot be printed.
pub fn report<E: fmt::Display + Drop>(rt: &impl Eprint, outcome: Result<usize, E>) -> ExitCode
    ensures { ended_with result ≡ status_of outcome }
{
    if let Err(why) = &outcome {
        let _ = eprintln!(rt; "{why}");
    }
    ExitCode::from(exit_status(&outcome))
}

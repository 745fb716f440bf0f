//! The commands of `oidtool`, over any reader, writer and allocator.
//!
//! [`read_command`] reads the words of a command line, and [`run_command`] does what they ask for:
//! a search in a list, [`hash_all`](streams::hash_all), [`seal`](streams::seal), or the digest of a
//! file. [`command_line_args`] returns the words that the program was started with, and [`report`]
//! prints an error, a [`Failure`], and returns the exit status.
#![tactic(auto)]

mod command;
mod error;
mod running;
mod searching;
mod status;
mod words;

pub use command::{ArgError, Command, read_command};
pub use error::{CommandError, Failure};
pub use running::run_command;
pub use status::{exit_status, report};
pub use words::{WordsError, command_line_args};

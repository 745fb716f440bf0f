//! `oidtool` finds object ids by their beginnings in sorted lists, and computes the digests of
//! streams and files.
//!
//! Standard input is a list, with the hex digits of an id on each line, or the bytes to hash or to
//! seal. Its exit status is 0 if a search found an id or a digest was written, 1 if a search found
//! none, and 2 after an error, which is printed on standard error.
#![tactic(auto)]

mod help;

use oidtool_commands::{
    ArgError, Command, CommandError, Failure, WordsError, command_line_args, read_command, report,
    run_command,
};
use std::alloc::AllocError;
use std::io;
use std::io::BufWriter;
use std::process::ExitCode;
use std::rt::Files;
use streams::{Plain, Retrying};

fn main(rt: HostRuntime) -> ExitCode {
    let outcome = match command_line_args(&rt) {
        Ok(words) => return report(&rt, run_words(&rt, &words)),
        Err(WordsError::NotText) => Failure::Args(ArgError::Usage),
        Err(WordsError::Memory) => Failure::Command(CommandError::Memory),
    };
    report(&rt, Err(outcome))
}

/// Prints the help or the version, or runs the command that the words ask for. Nothing is read if
/// the words are rejected.
fn run_words<'a>(
    rt: &(impl Input + Print + Files + AllocGlobal),
    words: &'a [String],
) -> Result<usize, Failure<'a>> {
    let Ok(words): Result<Vec<&str>, AllocError> = words
        .iter()
        .map(|word| word.as_str())
        .collect(rt.alloc())
    else {
        return Err(Failure::Command(CommandError::Memory));
    };
    let ended = match words.first() {
        Some(&("--help" | "-h")) => print_help(rt, help::REST),
        Some(&("--version" | "-V")) => print_help(rt, ""),
        _ => match read_command(&words) {
            Ok(command) => run_over_streams(rt, command),
            Err(why) => return Err(Failure::Args(why)),
        },
    };
    match ended {
        Ok(count) => Ok(count),
        Err(why) => Err(Failure::Command(why)),
    }
}

/// Prints the first line of the help and then the rest on standard output, and returns 1.
fn print_help(rt: &impl Print, rest: &str) -> Result<usize, CommandError> {
    match print!(rt; "{}{rest}", help::VERSION) {
        Ok(()) => Ok(1),
        Err(_) => Err(CommandError::Output),
    }
}

/// Runs a command over standard input and standard output. A read or write that is interrupted is
/// tried again.
fn run_over_streams(
    rt: &(impl Input + Print + Files + AllocGlobal),
    command: Command<'_>,
) -> Result<usize, CommandError> {
    let Ok(writer) = BufWriter::new(rt.alloc(), Retrying::new(io::writer(rt))) else {
        return Err(CommandError::Memory);
    };
    let mut input = Plain::new(Retrying::new(rt.reader()));
    let mut out = Plain::new(writer);
    run_command(rt, rt.alloc(), command, &mut input, &mut out)
}

//! `packtool` looks ids up in a Git object store, and reads pack indexes.
//!
//! Its exit status is 0 if something was found and each file passed its check; 1 if nothing was
//! found, if `--one` found several ids, if a prefix from `--stdin` was missing, ambiguous or bad,
//! or if a file failed; and 2 after an error, which is printed on standard error. If nobody reads
//! its output any more, it ends in silence with 0, except for `check`, which goes on reading for
//! the status.
#![tactic(auto)]

ghost use Rattle.std.specs.Prelude.{◌≡◌, ◌≢◌, ◌↔◌, ◌++◌, ◌∷◌, ℕ, [], All, IfErr, IfOk, IsNone, IsTrue, List, string_bytes};
ghost use Rattle.packtool.specs.Failures.{IsClosedPipe, status_of_file};
ghost use Rattle.packtool.specs.Files.{AreDone, IsRead};
ghost use Rattle.streams.specs.Devices.{plain_failed, plain_inner};

mod words;

use file_commands::{FileFailure, check, first_due, show};
use gix_hash::Kind;
use packtool_arguments::{FileCommand, FileRequest, Request, command, read_request};
use packtool_commands::lossy_text;
use std::io::{self, ErrorKind};
use std::process::ExitCode;
use std::time::Instant;
use store_questions::{FAILED, FOUND, Failure, NOTHING, buffered, flushed, report};
use streams::Plain;

// How errors of the command line begin. All others begin with the program's name.
const USAGE_MARK: &str = "error: ";

fn main(rt: HostRuntime) -> ExitCode {
    let words = words::read_words(&rt);
    let outcome = match &words {
        Ok(words) => run_words(&rt, words),
        Err(_) => Err(Failure::Memory),
    };
    ExitCode::from(status_of(&rt, &outcome))
}

// The exit status of the program. A failure is printed first, except for that of a pipe that was
// closed.
fn status_of(rt: &HostRuntime, outcome: &Result<u8, Failure<'_>>) -> u8
    ensures given { IfOk outcome.now (λ status. result ≡ status) }
    ensures closed { IfErr outcome.now (λ failure. IsClosedPipe failure → result ≡ FOUND) }
    ensures failed { IfErr outcome.now (λ failure. ¬ (IsClosedPipe failure) → result ≡ FAILED) }
{
    match outcome {
        Ok(status) => *status,
        Err(failure) if is_closed_pipe(failure) => FOUND,
        Err(failure) => {
            report(rt, failure, "");
            FAILED
        }
    }
}

// Whether nobody reads the output any more.
fn is_closed_pipe(failure: &Failure<'_>) -> bool
    ensures { IsTrue result ↔ IsClosedPipe failure.now }
{
    matches!(failure, Failure::Output(error) if error.kind() == ErrorKind::BrokenPipe)
}

// Runs the command that the words ask for, over standard output, and returns the status.
fn run_words<'a>(rt: &HostRuntime, words: &'a [String]) -> Result<u8, Failure<'a>> {
    let matches = match command(rt.alloc())?.try_get_matches_from(words) {
        Ok(matches) => matches,
        Err(error) => return print_usage(rt, words, &error),
    };
    match read_request(&matches) {
        Some(Request::Store(request)) => store_questions::answer(rt, &request),
        Some(Request::Files(request)) => read_files(rt, &request),
        None => Ok(FAILED),
    }
}

// Prints why the words ask for no command, or the help or version that they ask for. An argument
// that is not UTF-8 is the first thing that is wrong.
fn print_usage<'a>(
    rt: &HostRuntime,
    words: &[String],
    error: &clap::Error,
) -> Result<u8, Failure<'a>> {
    if let Some(number) = first_not_text(words) {
        return Err(Failure::NotText { number });
    }
    if error.use_stderr() {
        let text = format!(in rt.alloc(); "{error}")?;
        let why = text.strip_prefix(USAGE_MARK).unwrap_or(&text);
        let _ = eprint!(rt; "packtool: {why}");
        return Ok(FAILED);
    }
    match error.print(rt) {
        Ok(()) => Ok(FOUND),
        Err(why) => Err(Failure::Output(why)),
    }
}

// The number, from 1, of the first word whose argument is not UTF-8.
fn first_not_text(words: &[String]) -> Option<usize>
    ensures { IsNone result → All (λ word. (text : List ℕ) → string_bytes word ≢ text ++ (0 ∷ []))
        words.now }
{
    for (before, word) in words.iter().enumerate() {
        if lossy_text(word).is_some() {
            return Some(before.saturating_add(1));
        }
    }
    None
}

// Shows or checks each file, and returns the status. `check` returns it also if nobody reads the
// output any more. This function is not inlined, so that the chunk that is hashed is on the stack
// only while it runs.
#[inline(never)]
fn read_files<'a>(rt: &HostRuntime, request: &FileRequest<'_, '_>) -> Result<u8, Failure<'a>> {
    let mut out = buffered(rt, rt.stdout())?;
    let status = read_each(rt, request, &mut out)?;
    match (flushed(status, &mut out), request.command) {
        (Err(failure), FileCommand::Check) if is_closed_pipe(&failure) => Ok(status),
        (ran, _) => ran,
    }
}

// Shows or checks each file, also after one that cannot be read, and returns the worst status.
fn read_each<'a, W: io::Write>(
    rt: &HostRuntime,
    request: &FileRequest<'_, '_>,
    out: &mut Plain<W>,
) -> Result<u8, Failure<'a>>
    ensures { IfOk result (λ status. AreDone (λ path own before after.
        IsRead request.now.command path.now (plain_failed after) own
        (W.contents (plain_inner before)) (W.contents (plain_inner after)))
        request.now.paths.now status out.old out.new) }
{
    let due = first_due(rt, !request.no_progress);
    let mut status = FOUND;
    for path in request.paths {
        status = status.max(read_file(rt, request.command, path, request.kind, due, out)?);
    }
    Ok(status)
}

// Shows or checks a file, and returns the status. One that cannot be read is reported. How much was
// read is shown from a time on, if one is given.
fn read_file<'a, W: io::Write>(
    rt: &HostRuntime,
    command: FileCommand,
    path: &str,
    kind: Option<Kind>,
    due: Option<Instant>,
    out: &mut Plain<W>,
) -> Result<u8, Failure<'a>>
    ensures { IfOk result (λ status. IsRead command path.now (plain_failed out.new) status
        (W.contents (plain_inner out.old)) (W.contents (plain_inner out.new))) }
{
    let outcome = match command {
        FileCommand::Show => show(rt, path, kind, out),
        FileCommand::Check => check(rt, path, kind, due, out),
    };
    status_of_file(rt, outcome)
}

// The status of a file that was shown or checked. If it cannot be read, that is reported.
fn status_of_file<'a>(
    rt: &HostRuntime,
    outcome: Result<bool, FileFailure>,
) -> Result<u8, Failure<'a>>
    ensures { result ≡ status_of_file outcome }
{
    match outcome {
        Ok(true) => Ok(FOUND),
        Ok(false) => Ok(NOTHING),
        Err(FileFailure::Output(error)) => Err(Failure::Output(error)),
        Err(FileFailure::Memory(_)) => Err(Failure::Memory),
        Err(failure @ FileFailure::Unread { .. }) => {
            report(rt, &failure, "");
            Ok(FAILED)
        }
    }
}

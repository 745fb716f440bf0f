//! Running a command over a reader and a writer.

ghost use Rattle.std.specs.Prelude.{◌≡◌, ◌≢◌, ◌↔◌, [], true, false, IfOk, IfErr, OnOk, IsErrOf};
ghost use Rattle.oidtool_commands.specs.Commands.{Does, FailsTo, FailsUnflushed, HashFileFails, WritesOfFile, copies, reads_input};
ghost use Rattle.oidtool_commands.specs.declared.error.CommandError.{CommandError};

use crate::command::Command;
use crate::error::CommandError;
use crate::searching::search_to_end;
use gix_hash::io::{Never, NoProgress};
use gix_hash::{Alphabet, Kind, bytes_of_file};
use list_search::{Search, search_from};
use std::alloc::Allocator;
use std::path::Path;
use std::rt::Files;
use streams::{BufferedSink, MAX_LEN, Sink, Source, hash_all, seal, write_id};

/// Runs a command over the input, writes its output, and flushes the writer. Returns the number of
/// ids written: the matches of a command that finds, and the one digest of another command.
///
/// All but `hash-file` read the input in chunks. `find` reads none after the chunk in which the
/// first bad line of its list ends; `find-change` and `find-in` read to the end also after a
/// rejected prefix or line. `hash-file` reads the file, and leaves the input as it is.
///
/// `Output` is returned if and only if the writer failed, at a write or at the flush. `Input` is
/// returned if and only if the input failed, but for `hash-file`, which returns it if its file
/// gives no digest. Only the commands that find return `Memory`, and never if the input is empty.
///
/// Under `Output` a beginning of the right output was written. Under another error `seal` has
/// written what it read, or under `TooMuch` a beginning of it, and another command nothing. Input
/// and writer must not have failed before.
pub fn run_command<F: Files, A: Allocator + Copy, R: Source, W: BufferedSink>(
    files: &F,
    alloc: A,
    command: Command<'_>,
    input: &mut R,
    out: &mut W,
) -> Result<usize, CommandError>
    requires input { R.has_failed input.old ≡ false }
    requires output { W.has_failed out.old ≡ false }
    ensures done { IfOk result (Does command.entry (R.remaining input.old) (R.remaining input.new)
        (W.taken out.old) (W.taken out.new)) }
    ensures failed { IfErr result (FailsTo command.entry (R.remaining input.old)
        (R.remaining input.new) (W.taken out.old) (W.taken out.new)) }
    ensures flushed { OnOk result (W.kept_back out.new ≡ []) }
    ensures untouched { IfErr result (λ e. e ≢ CommandError.Output → copies command.entry ≡ false
        → out.new ≡ out.old) }
    ensures input { reads_input command.entry ≡ true
        → (IsErrOf result CommandError.Input ↔ (R.has_failed input.new ≡ true)) }
    ensures unread { reads_input command.entry ≡ false → input.new ≡ input.old }
    ensures output { IsErrOf result CommandError.Output ↔ (W.has_failed out.new ≡ true) }
{
    let count = write_output(files, alloc, command, input, out)?;
    match out.flush() {
        Ok(()) => Ok(count),
        Err(_) => Err(CommandError::Output),
    }
}

// Does all of it but the flush.
fn write_output<F: Files, A: Allocator + Copy, R: Source, W: Sink>(
    files: &F,
    alloc: A,
    command: Command<'_>,
    input: &mut R,
    out: &mut W,
) -> Result<usize, CommandError>
    requires input { R.has_failed input.old ≡ false }
    requires output { W.has_failed out.old ≡ false }
    ensures done { IfOk result (Does command.entry (R.remaining input.old) (R.remaining input.new)
        (W.taken out.old) (W.taken out.new)) }
    ensures failed { IfErr result (FailsUnflushed command.entry (R.remaining input.old)
        (R.remaining input.new) (W.taken out.old) (W.taken out.new)) }
    ensures untouched { IfErr result (λ e. e ≢ CommandError.Output → copies command.entry ≡ false
        → out.new ≡ out.old) }
    ensures input { reads_input command.entry ≡ true
        → (IsErrOf result CommandError.Input ↔ (R.has_failed input.new ≡ true)) }
    ensures unread { reads_input command.entry ≡ false → input.new ≡ input.old }
    ensures output { IsErrOf result CommandError.Output ↔ (W.has_failed out.new ≡ true) }
{
    match command {
        Command::Find { prefix } => {
            let by = Search::Sorted(Alphabet::Hex);
            Ok(search_from(alloc, by, prefix, input, MAX_LEN, out)?)
        }
        Command::FindChange { letters } => {
            let by = Search::Sorted(Alphabet::Reverse);
            search_to_end(alloc, by, letters, input, out)
        }
        Command::FindIn { kind, prefix } => {
            search_to_end(alloc, Search::In(kind), prefix, input, out)
        }
        Command::Hash { kind } => {
            hash_all(input, out, kind)?;
            Ok(1)
        }
        Command::HashFile { kind, count, path } => hash_file(files, kind, count, path, out),
        Command::Seal { kind } => {
            seal(input, out, kind)?;
            Ok(1)
        }
    }
}

// Writes the digest of the first `len` bytes of a file: the lowercase hex digits and a line feed.
// Returns 1.
// Not inlined, so that the chunk is on the stack only while this runs.
#[inline(never)]
fn hash_file<F: Files, W: Sink>(
    files: &F,
    kind: Kind,
    len: u64,
    path: &str,
    out: &mut W,
) -> Result<usize, CommandError>
    requires { W.has_failed out.old ≡ false }
    ensures done { IfOk result (λ count. WritesOfFile kind len (W.taken out.old) (W.taken out.new)
        × (count ≡ 1)) }
    ensures failed { IfErr result (HashFileFails kind len (W.taken out.old) (W.taken out.new)) }
    ensures untouched { IfErr result (λ e. e ≢ CommandError.Output → out.new ≡ out.old) }
    ensures output { IsErrOf result CommandError.Output ↔ (W.has_failed out.new ≡ true) }
{
    let path = Path::new(path);
    let Ok(id) = bytes_of_file(files, path, len, kind, &mut NoProgress, &mut Never) else {
        return Err(CommandError::Input);
    };
    write_id(Alphabet::Hex, &id, out)?;
    Ok(1)
}

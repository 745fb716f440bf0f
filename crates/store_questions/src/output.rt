//! Standard output, through a buffer.

ghost use Rattle.std.specs.Prelude.{◌≡◌, [], false, IfOk, MatchOption, OnOk};
ghost use Rattle.std.specs.Io.Buffered.{writer_buffer};
ghost use Rattle.std.specs.Io.KnownBytes.{Keeps};
ghost use Rattle.streams.specs.Devices.{plain_error, plain_failed, plain_inner};
ghost use Rattle.store_questions.specs.declared.failure.Failure.{Failure};

use crate::failure::Failure;
use packtool_commands::write_named;
use std::alloc::{AllocError, Global};
use std::fmt::Display;
use std::io::{self, BufWriter};
use streams::{BufferedSink, Plain, Retrying, Sink, WriteFailed};

/// Prints a line on standard error: the program's name, an error and what is after it. If they have
/// a backslash, a line feed or a carriage return, the line begins with a backslash and these are
/// escaped, as names are in the output. If it cannot be printed, the status still tells of the
/// error.
pub fn report(rt: &HostRuntime, error: &impl Display, after: &str) {
    if print_report(rt, error, after).is_err() {
        let _ = eprintln!(rt; "packtool: out of memory");
    }
}

// Prints that line, unless memory runs out.
fn print_report(rt: &HostRuntime, error: &impl Display, after: &str) -> Result<(), AllocError> {
    let mut out = buffered(rt, rt.stderr())?;
    let _ = write_report(rt.alloc(), error, after, &mut out)?;
    let _ = out.flush();
    Ok(())
}

// Writes that line. The outer error is that memory runs out.
pub(crate) fn write_report<W: Sink>(
    alloc: Global,
    error: &impl Display,
    after: &str,
    out: &mut W,
) -> Result<Result<(), WriteFailed>, AllocError>
    requires { W.has_failed out.old ≡ false }
    ensures { IfOk result (λ ran. OnOk ran (W.has_failed out.new ≡ false)) }
{
    let line = format!(in alloc; "packtool: {error}{after}")?;
    Ok(write_named(&line, b"\n", out))
}

/// A buffer before a writer, whose calls are tried again if they are interrupted.
pub fn buffered<W: io::Write + Drop>(
    rt: &HostRuntime,
    inner: W,
) -> Result<Plain<BufWriter<Retrying<W>>>, AllocError>
    ensures { IfOk result (λ out. plain_failed out ≡ false) }
{
    match BufWriter::new(rt.alloc(), Retrying::new(inner)) {
        Ok(writer) => Ok(Plain::new(writer)),
        Err(_) => Err(AllocError),
    }
}

/// The status of a command that ran, once what is left of its output is written.
pub fn flushed<'a, W: io::Write + Drop>(
    status: u8,
    out: &mut Plain<BufWriter<W>>,
) -> Result<u8, Failure<'a>>
    ensures bytes { Keeps (⟦<BufWriter<W> as io::Write>⟧.contents (plain_inner out.old))
        (⟦<BufWriter<W> as io::Write>⟧.contents (plain_inner out.new)) }
    ensures known { MatchOption (plain_error out.new) (result ≡ Ok status)
        (λ error. result ≡ Err (Failure.Output error)) }
    ensures output { OnOk result (plain_failed out.new ≡ false) }
    ensures written { OnOk result (writer_buffer (plain_inner out.new) ≡ []) }
{
    let _ = out.flush();
    match out.error() {
        None => Ok(status),
        Some(error) => Err(Failure::Output(error)),
    }
}

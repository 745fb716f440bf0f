//! Calls that are tried again if a signal interrupts them.

ghost use Rattle.std.specs.Prelude.{◌≡◌, ◌≢◌, IfErr};
ghost use Rattle.std.specs.IoError.{error_kind};
ghost use Rattle.std.specs.declared.io.ErrorKind.{ErrorKind};
ghost use Rattle.std.specs.Io.{ReadsAtMost, WritesAtMost};
ghost use Rattle.std.specs.Io.KnownBytes.{Keeps, ReadConsumes, WriteAppends};

use std::io::{self, ErrorKind};

/// A reader or writer whose calls are tried again if they are interrupted, as those of a process
/// that was stopped and goes on may be. No call returns an error of the kind `Interrupted`.
///
/// ```
/// let mut input = Plain::new(Retrying::new(rt.reader()));
/// hash_all(&mut input, &mut out, Kind::Sha1)?;
/// ```
#[derive(Drop)]
pub struct Retrying<T> {
    inner: T,
}

impl<T> Retrying<T> {
    ghost use Rattle.streams.specs.Devices.{retrying_inner};

    /// Wraps this reader or writer.
    pub fn new(inner: T) -> Self
        ensures { retrying_inner result ≡ inner }
    {
        Retrying { inner }
    }
}

impl<R: io::Read> io::Read for Retrying<R> {
    ghost use Rattle.streams.specs.Devices.{retrying_inner};

    ghost remaining = { λ s. R.remaining (retrying_inner s) };

    /// Reads once from the reader, after reads that were interrupted.
    fn read(&mut self, buf: &mut [u8]) -> io::Result<usize>
        ensures bound { ReadsAtMost result buf.new }
        ensures bytes { ReadConsumes (R.remaining (retrying_inner self.old))
            (R.remaining (retrying_inner self.new)) result buf.new }
        ensures retried { IfErr result (λ error. error_kind error ≢ ErrorKind.Interrupted) }
    {
        for _ in 0..u64::MAX {
            match self.inner.read(buf) {
                Err(error) if error.kind() == ErrorKind::Interrupted => {}
                count => return count,
            }
        }
        Err(ErrorKind::TimedOut.into())
    }
}

impl<W: io::Write> io::Write for Retrying<W> {
    ghost use Rattle.streams.specs.Devices.{retrying_inner};

    ghost contents = { λ s. W.contents (retrying_inner s) };

    /// Writes once to the writer, after writes that were interrupted.
    fn write(&mut self, bytes: &[u8]) -> io::Result<usize>
        ensures bound { WritesAtMost result bytes.now }
        ensures bytes { WriteAppends (W.contents (retrying_inner self.old))
            (W.contents (retrying_inner self.new)) result bytes.now }
        ensures retried { IfErr result (λ error. error_kind error ≢ ErrorKind.Interrupted) }
    {
        for _ in 0..u64::MAX {
            match self.inner.write(bytes) {
                Err(error) if error.kind() == ErrorKind::Interrupted => {}
                count => return count,
            }
        }
        Err(ErrorKind::TimedOut.into())
    }

    /// Flushes the writer, after flushes that were interrupted.
    fn flush(&mut self) -> io::Result<()>
        ensures bytes { Keeps (W.contents (retrying_inner self.old))
            (W.contents (retrying_inner self.new)) }
        ensures retried { IfErr result (λ error. error_kind error ≢ ErrorKind.Interrupted) }
    {
        for _ in 0..u64::MAX {
            match self.inner.flush() {
                Err(error) if error.kind() == ErrorKind::Interrupted => {}
                flushed => return flushed,
            }
        }
        Err(ErrorKind::TimedOut.into())
    }
}

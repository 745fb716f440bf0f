//! Sources and sinks over the library's readers and writers.

ghost use Rattle.std.specs.Prelude.{◌≡◌, ◌<◌, ◌||◌, None, false, is_err, length, IfOk, IfSome, IsSome, OnErr, [], OnOk};
ghost use Rattle.std.specs.IoError.{error_kind};
ghost use Rattle.std.specs.declared.io.ErrorKind.{ErrorKind};
ghost use Rattle.std.specs.Io.{ReadsAtMost, WritesAtMost};
ghost use Rattle.std.specs.Io.KnownBytes.{ReadConsumes, WriteAppends, Keeps};
ghost use Rattle.streams.specs.Streams.{write_fails};

use crate::sink::{BufferedSink, Sink};
use crate::source::Source;
use std::alloc::Allocator;
use std::io::{self, BufWriter, Write};

/// A [`Source`] over a reader or a [`Sink`] over a writer of the standard library, which keeps the
/// first error. The bytes that remain, and those that were taken, are what the reader or writer
/// says of them.
///
/// ```
/// let mut input = Plain::new(rt.reader());
/// hash_all(&mut input, &mut out, Kind::Sha1)?;
/// ```
#[derive(Drop)]
pub struct Plain<T> {
    inner: T,
    // The error of the first call that failed.
    error: Option<io::Error>,
}

impl<T> Plain<T> {
    ghost use Rattle.streams.specs.Devices.{plain_error, plain_failed, plain_inner};

    /// A source or sink that has not failed.
    pub fn new(inner: T) -> Self
        ensures not_failed { plain_failed result ≡ false }
        ensures inner { plain_inner result ≡ inner }
    {
        Plain { inner, error: None }
    }

    /// Whether a call failed: a read or a write returned an error, or a write took none of at least
    /// one byte.
    pub fn failed(&self) -> bool
        ensures { result ≡ plain_failed self.now }
    {
        let Plain { error, .. } = self;
        error.is_some()
    }

    /// The error of the first call that failed, or `None` if none failed. If a write took none of
    /// at least one byte, its error is `WriteZero`.
    ///
    /// ```
    /// let mut input = Plain::new(rt.reader());
    /// if let Err(PipeError::Input) = check_seal(&mut input, Kind::Sha1)
    ///     && let Some(why) = input.error()
    /// {
    ///     println!(rt; "{why}")?;
    /// }
    /// ```
    pub fn error(&self) -> Option<io::Error>
        ensures { result ≡ plain_error self.now }
    {
        let Plain { error, .. } = self;
        *error
    }

    /// The reader or writer that it was made with.
    pub fn into_inner(self) -> T
        ensures { result ≡ plain_inner self }
    {
        let Plain { inner, .. } = self;
        inner
    }
}

impl<T: io::Read> Source for Plain<T> {
    ghost use Rattle.streams.specs.Devices.{error_after, plain_error, plain_failed, plain_inner};

    ghost remaining = { λ s. T.remaining (plain_inner s) };

    ghost has_failed = { plain_failed };

    /// Reads once from the reader.
    fn read(&mut self, buf: &mut [u8]) -> io::Result<usize>
        ensures bound { ReadsAtMost result buf.new }
        ensures bytes { ReadConsumes (T.remaining (plain_inner self.old))
            (T.remaining (plain_inner self.new)) result buf.new }
        ensures failed { plain_failed self.new ≡ (plain_failed self.old || is_err result) }
        ensures error { plain_error self.new ≡ error_after (plain_error self.old) result }
    {
        let count = self.inner.read(buf);
        self.error = self.error.or(count.err());
        count
    }

    fn failed(&self) -> bool {
        Plain::failed(self)
    }
}

impl<T: io::Write> Sink for Plain<T> {
    ghost use Rattle.streams.specs.Devices.{error_after, plain_error, plain_failed, plain_inner};

    ghost taken = { λ s. T.contents (plain_inner s) };

    ghost has_failed = { plain_failed };

    /// Writes once to the writer.
    fn write(&mut self, bytes: &[u8]) -> io::Result<usize>
        ensures bound { WritesAtMost result bytes.now }
        ensures bytes { WriteAppends (T.contents (plain_inner self.old))
            (T.contents (plain_inner self.new)) result bytes.now }
        ensures failed { plain_failed self.new
            ≡ (plain_failed self.old || write_fails result bytes.now) }
        ensures error { OnErr result
            (plain_error self.new ≡ error_after (plain_error self.old) result) }
        ensures write_zero { plain_error self.old ≡ None → IfOk result (λ count. count ≡ 0
            → 0 < length bytes.now → IfSome (plain_error self.new)
            (λ error. error_kind error ≡ ErrorKind.WriteZero)) }
        ensures first { IsSome (plain_error self.old)
            → plain_error self.new ≡ plain_error self.old }
    {
        let count = self.inner.write(bytes);
        let error = match &count {
            Ok(0) if !bytes.is_empty() => Some(io::ErrorKind::WriteZero.into()),
            Ok(_) => None,
            Err(error) => Some(*error),
        };
        self.error = self.error.or(error);
        count
    }

    fn failed(&self) -> bool {
        Plain::failed(self)
    }
}

impl<W: io::Write + Drop, A: Allocator> BufferedSink for Plain<BufWriter<W, A>> {
    ghost use Rattle.std.specs.Io.Buffered.{writer_buffer};
    ghost use Rattle.streams.specs.Devices.{error_after, plain_error, plain_failed, plain_inner};

    ghost kept_back = { λ s. writer_buffer (plain_inner s) };

    /// Flushes the writer.
    fn flush(&mut self) -> io::Result<()>
        ensures bytes { Keeps (⟦<Plain<BufWriter<W, A>> as Sink>⟧.taken self.old)
            (⟦<Plain<BufWriter<W, A>> as Sink>⟧.taken self.new) }
        ensures failed { plain_failed self.new ≡ (plain_failed self.old || is_err result) }
        ensures flushed { OnOk result (writer_buffer (plain_inner self.new) ≡ []) }
        ensures error { plain_error self.new ≡ error_after (plain_error self.old) result }
    {
        let flushed = self.inner.flush();
        self.error = self.error.or(flushed.err());
        flushed
    }
}

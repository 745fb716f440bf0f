//! Writers whose failures a contract can name.

ghost use Rattle.std.specs.Prelude.{◌≡◌, ◌||◌, [], false, is_err, OnOk, ℕ, Bool, List, Option};
ghost use Rattle.std.specs.Io.{WritesAtMost};
ghost use Rattle.std.specs.Io.KnownBytes.{WriteAppends, Keeps};
ghost use Rattle.streams.specs.Streams.{write_fails, Wrote};

use std::io;

/// A writer that knows whether it failed.
///
/// ```
/// let count = out.write(b"4b82")?;
/// println!(rt; "{count} of 4 bytes")?;
/// ```
pub trait Sink {
    /// The bytes written so far, or `None`, which claims nothing.
    ghost taken: { Self → Option (List ℕ) };

    /// Whether a call failed: a write or a flush returned an error, or a write took none of at
    /// least one byte.
    ghost has_failed: { Self → Bool };

    /// Takes a prefix of the bytes, and returns its length.
    fn write(&mut self, bytes: &[u8]) -> io::Result<usize>
        ensures bound { WritesAtMost result bytes.now }
        ensures bytes { WriteAppends (taken self.old) (taken self.new) result bytes.now }
        ensures failed { has_failed self.new
            ≡ (has_failed self.old || write_fails result bytes.now) };

    /// Whether a call failed. Nothing clears it.
    fn failed(&self) -> bool
        ensures { result ≡ has_failed self.now };
}

/// A sink that may keep bytes back until it is flushed.
///
/// ```
/// if out.write(b"4b82")? == 4 {
///     out.flush()?;
/// }
/// ```
pub trait BufferedSink: Sink {
    /// The bytes that it took and has not passed on.
    ghost kept_back: { Self → List ℕ };

    /// Passes on all bytes that it took. An error is a failure, as that of a write is.
    fn flush(&mut self) -> io::Result<()>
        ensures bytes { Keeps (Self.taken self.old) (Self.taken self.new) }
        ensures failed { Self.has_failed self.new ≡ (Self.has_failed self.old || is_err result) }
        ensures flushed { OnOk result (kept_back self.new ≡ []) };
}

/// The error of a call that only writes: a write failed.
///
/// ```
/// if let Err(WriteFailed) = write_all(&mut out, b"4b82") {
///     println!(rt; "not all was written")?;
/// }
/// ```
#[derive(Clone, Copy, Debug)]
pub struct WriteFailed;

/// Writes all of the bytes, by as many writes as needed, and stops at the first that fails. After
/// an error a proper prefix of the bytes was written. The sink must not have failed before.
pub fn write_all<W: Sink>(out: &mut W, bytes: &[u8]) -> Result<(), WriteFailed>
    requires { W.has_failed out.old ≡ false }
    ensures { Wrote W.taken W.has_failed out.old out.new result bytes.now }
{
    let mut at = 0;
    while at < bytes.len() {
        let Ok(count) = out.write(&bytes[at..]) else {
            return Err(WriteFailed);
        };
        if count == 0 {
            return Err(WriteFailed);
        }
        at += count;
    }
    Ok(())
}

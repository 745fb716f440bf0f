//! Readers whose failures a contract can name.

ghost use Rattle.std.specs.Prelude.{◌≡◌, ◌||◌, is_err, ℕ, Bool, List, Option};
ghost use Rattle.std.specs.Io.{ReadsAtMost};
ghost use Rattle.std.specs.Io.KnownBytes.{ReadConsumes};

use std::io;

/// The length of the buffer for a chunk: 64 KiB, as many bytes as a pipe holds.
pub const CHUNK_LEN: usize = 65536;

/// The most bytes of a source that is read in chunks: 2^61 - 1, that is 2^64 - 8 bits. FIPS 180-4
/// defines no digest of more.
pub const MAX_LEN: u64 = 2305843009213693951;

/// A reader that knows whether it failed.
///
/// ```
/// let mut buf = [0; 16];
/// let count = input.read(&mut buf)?;
/// println!(rt; "{count} bytes")?;
/// ```
pub trait Source {
    /// The remaining bytes, or `None`, which claims nothing.
    ghost remaining: { Self → Option (List ℕ) };

    /// Whether a read returned an error.
    ghost has_failed: { Self → Bool };

    /// Reads the next bytes into the start of the buffer, and returns their number. For a non-empty
    /// buffer that is 0 only if no bytes remain.
    fn read(&mut self, buf: &mut [u8]) -> io::Result<usize>
        ensures bound { ReadsAtMost result buf.new }
        ensures bytes { ReadConsumes (remaining self.old) (remaining self.new) result buf.new }
        ensures failed { has_failed self.new ≡ (has_failed self.old || is_err result) };

    /// Whether a read returned an error. Nothing clears it.
    fn failed(&self) -> bool
        ensures { result ≡ has_failed self.now };
}

//! A source over a slice.

ghost use Rattle.std.specs.Prelude.{◌≡◌, ◌++◌, false, min, length, take, drop, Some, Ok};
ghost use Rattle.std.specs.Io.{ReadsAtMost};
ghost use Rattle.std.specs.Io.KnownBytes.{ReadConsumes};

use crate::source::Source;
use std::io;

/// A source that reads from a slice and never fails.
///
/// ```
/// hash_all(&mut FromSlice::new(b"abc"), &mut out, Kind::Sha1)?;
/// ```
#[derive(Drop)]
pub struct FromSlice<'a> {
    rest: &'a [u8],
}

impl<'a> FromSlice<'a> {
    /// A source with all bytes of the slice remaining.
    pub fn new(bytes: &'a [u8]) -> Self
        ensures whole { ⟦<FromSlice<'a> as Source>⟧.remaining result ≡ Some bytes.now }
        ensures not_failed { ⟦<FromSlice<'a> as Source>⟧.has_failed result ≡ false }
    {
        FromSlice { rest: bytes }
    }
}

impl Source for FromSlice<'_> {
    ghost use Rattle.streams.specs.Devices.{slice_rest};

    ghost remaining = { λ s. Some (slice_rest s) };

    ghost has_failed = { λ _. false };

    /// Reads as many bytes as fit. The bytes of the buffer after them stay as they were.
    fn read(&mut self, buf: &mut [u8]) -> io::Result<usize>
        ensures bound { ReadsAtMost result buf.new }
        ensures bytes { ReadConsumes (Some (slice_rest self.old))
            (Some (slice_rest self.new)) result buf.new }
        ensures fills { result ≡ Ok (min (length buf.old) (length (slice_rest self.old))) }
        ensures after { let count = min (length buf.old) (length (slice_rest self.old)) in
            buf.new ≡ take count (slice_rest self.old) ++ drop count buf.old }
    {
        let count = buf.len().min(self.rest.len());
        buf[..count].copy_from_slice(&self.rest[..count]);
        self.rest = &self.rest[count..];
        Ok(count)
    }

    fn failed(&self) -> bool {
        false
    }
}

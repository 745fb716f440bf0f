//! A sink over a slice.

ghost use Rattle.std.specs.Prelude.{◌≡◌, ◌≤◌, ◌-◌, ◌||◌, false, [], min, length, Some, Ok, IsOk, OnOk, is_err};
ghost use Rattle.std.specs.Io.{WritesAtMost};
ghost use Rattle.std.specs.Io.KnownBytes.{WriteAppends, Keeps};
ghost use Rattle.streams.specs.Streams.{write_fails};

use crate::sink::{BufferedSink, Sink};
use std::io;

/// A sink that fills a slice from its start, and takes what fits.
///
/// ```
/// let mut room = [0; 65];
/// let mut out = IntoSlice::new(&mut room);
/// hash_all(&mut input, &mut out, Kind::Sha1)?;
/// println!(rt; "{} bytes", out.written().len())?;
/// ```
#[derive(Drop)]
pub struct IntoSlice<'a> {
    buf: &'a mut [u8],
    len: usize,
    failed: bool,
    ghost in_range: { len ≤ length buf.now },
}

impl<'a> IntoSlice<'a> {
    ghost use Rattle.streams.specs.Devices.{room_in};

    /// A sink that has taken nothing and has not failed.
    pub fn new(buf: &'a mut [u8]) -> Self
        ensures empty { ⟦<IntoSlice<'a> as Sink>⟧.taken result ≡ Some [] }
        ensures not_failed { ⟦<IntoSlice<'a> as Sink>⟧.has_failed result ≡ false }
        ensures room { room_in result ≡ length buf.old }
    {
        IntoSlice {
            buf,
            len: 0,
            failed: false,
        }
    }

    /// The bytes written so far.
    pub fn written(&self) -> &[u8]
        ensures { ⟦<IntoSlice<'a> as Sink>⟧.taken self.now ≡ Some result.now }
    {
        &self.buf[..self.len]
    }
}

impl Sink for IntoSlice<'_> {
    ghost use Rattle.streams.specs.Devices.{slice_taken, slice_failed, room_in};

    ghost taken = { λ s. Some (slice_taken s) };

    ghost has_failed = { slice_failed };

    /// Takes as many of the bytes as fit.
    fn write(&mut self, bytes: &[u8]) -> io::Result<usize>
        ensures bound { WritesAtMost result bytes.now }
        ensures bytes { WriteAppends (Some (slice_taken self.old))
            (Some (slice_taken self.new)) result bytes.now }
        ensures failed { slice_failed self.new
            ≡ (slice_failed self.old || write_fails result bytes.now) }
        ensures takes { result ≡ Ok (min (length bytes.now) (room_in self.old)) }
        ensures left { room_in self.new ≡ room_in self.old - length bytes.now }
    {
        let count = bytes.len().min(self.buf.len() - self.len);
        let end = self.len + count;
        self.buf[self.len..end].copy_from_slice(&bytes[..count]);
        self.len = end;
        self.failed = self.failed || count == 0 && !bytes.is_empty();
        Ok(count)
    }

    fn failed(&self) -> bool {
        self.failed
    }
}

impl<'a> BufferedSink for IntoSlice<'a> {
    ghost use Rattle.streams.specs.Devices.{slice_taken, slice_failed};

    ghost kept_back = { λ _. [] };

    /// Does nothing, since the bytes are already in the slice.
    fn flush(&mut self) -> io::Result<()>
        ensures bytes { Keeps (Some (slice_taken self.old)) (Some (slice_taken self.new)) }
        ensures failed { slice_failed self.new ≡ (slice_failed self.old || is_err result) }
        ensures flushed { OnOk result
            (⟦<IntoSlice<'a> as BufferedSink>⟧.kept_back self.new ≡ []) }
        ensures ok { IsOk result }
    {
        Ok(())
    }
}

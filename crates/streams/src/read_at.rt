//! Readers at a position.

ghost use Rattle.std.specs.Prelude.{◌≡◌, ◌+◌, ◌≤◌, ℕ, Bool, List, Option, Some, OnErr, OnOk, IfOk, IsTrue, [], length, None, true, false};

use std::fs::File;
use std::io;
use std::os::unix::fs::FileExt;

/// A reader at a position, such as a file. No read changes it.
///
/// ```
/// let mut magic = [0; 4];
/// idx.read_exact_at(&mut magic, 0)?;
/// println!(rt; "{} bytes", idx.len()?)?;
/// ```
pub trait ReadAt {
    ghost use Rattle.streams.specs.Streams.{IsReadAt};

    /// All bytes, or `None`, which claims nothing.
    ghost content: { Self → Option (List ℕ) };

    /// Its path, or nothing if it has none.
    ghost path: { Self → List ℕ };

    /// Whether [`len`](ReadAt::len) may fail, and a read that does not go past the end.
    ghost can_fail: { Self → Bool };

    /// The number of bytes. For a slice this call never fails.
    fn len(&self) -> io::Result<u64>
        ensures len { IfOk result (λ len. (bytes : List ℕ) → content self.now ≡ Some bytes
            → len ≡ length bytes) }
        ensures err { OnErr result (IsTrue (can_fail self.now)) };

    /// Fills the buffer with the bytes from a position on. For a slice it fails only if that goes
    /// past the end. After an error the buffer may have any bytes.
    fn read_exact_at(&self, buf: &mut [u8], at: u64) -> io::Result<()>
        ensures bytes { OnOk result ((bytes : List ℕ) → content self.now ≡ Some bytes
            → IsReadAt bytes at buf.new) }
        ensures err { OnErr result ((bytes : List ℕ) → content self.now ≡ Some bytes
            → at + length buf.old ≤ length bytes → IsTrue (can_fail self.now)) };
}

/// What a file contains is not known, nor when a read fails.
impl ReadAt for File {
    ghost content = { λ _. None };

    ghost path = { λ _. [] };

    ghost can_fail = { λ _. true };

    fn len(&self) -> io::Result<u64> {
        Ok(self.metadata()?.len())
    }

    fn read_exact_at(&self, buf: &mut [u8], at: u64) -> io::Result<()> {
        FileExt::read_exact_at(self, buf, at)
    }
}

/// A read of a slice fails only if it goes past the end.
impl ReadAt for &[u8] {
    ghost content = { λ slice. Some slice.now };

    ghost path = { λ _. [] };

    ghost can_fail = { λ _. false };

    fn len(&self) -> io::Result<u64> {
        Ok(<[u8]>::len(self) as u64)
    }

    fn read_exact_at(&self, buf: &mut [u8], at: u64) -> io::Result<()> {
        let bytes = *self;
        let Ok(at) = usize::try_from(at) else {
            return Err(io::ErrorKind::UnexpectedEof.into());
        };
        if at > bytes.len() || bytes.len() - at < buf.len() {
            return Err(io::ErrorKind::UnexpectedEof.into());
        }
        let end = at + buf.len();
        buf.copy_from_slice(&bytes[at..end]);
        Ok(())
    }
}

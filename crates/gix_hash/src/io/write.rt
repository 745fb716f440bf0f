//! A writer that hashes what passes through it.

ghost use Rattle.std.specs.Prelude.{◌≡◌, [], OnErr};
ghost use Rattle.std.specs.Io.{WritesAtMost};
ghost use Rattle.std.specs.Io.KnownBytes.{Keeps, WriteAppends};
ghost use Rattle.gix_hash.specs.Hashing.{Flushed, WasFed, WriterStep, Wrote, hasher_kind};

use crate::hashing::start::hasher;
use crate::hashing::state::Hasher;
use crate::kind::Kind;
use std::io;

/// A writer that passes what is written on to an inner writer, and hashes the bytes that the inner
/// writer accepts.
///
/// As long as its fields are only read, the hasher has been fed exactly the bytes that the inner
/// writer accepted.
///
/// ```
/// let mut out = Write::new(file, Kind::Sha1);
/// out.write_all(b"PACK")?;
/// let id = out.hash.try_finalize()?;
/// ```
#[derive(Drop)]
pub struct Write<T> {
    /// The hasher, which was fed all that the inner writer accepted.
    pub hash: Hasher,
    /// The inner writer.
    pub inner: T,
}

impl<T: io::Write> Write<T> {
    /// A writer to `inner` whose hasher computes digests of the kind `object_hash`, and was fed
    /// nothing.
    pub fn new(inner: T, object_hash: Kind) -> Self
        ensures kind { hasher_kind result.hash ≡ object_hash }
        ensures empty { WasFed result.hash [] }
        ensures inner { result.inner ≡ inner }
    {
        Write {
            hash: hasher(object_hash),
            inner,
        }
    }

    /// Calls the inner writer's `write` once with `buf`, and returns what it returns. If that is
    /// `Ok(w)`, the hasher is fed the first `w` bytes. An error leaves the hasher as it was.
    pub fn write(&mut self, buf: &[u8]) -> io::Result<usize>
        ensures bound { WritesAtMost result buf.now }
        ensures passes { WriterStep T.contents self.old (Wrote buf.now result) self.new }
        ensures err { OnErr result ((self.new.hash ≡ self.old.hash)
            × Keeps (T.contents self.old.inner) (T.contents self.new.inner)) }
    {
        let written = self.inner.write(buf)?;
        self.hash.update(&buf[..written]);
        Ok(written)
    }

    /// Flushes the inner writer, and returns what it returns. The hasher stays as it was.
    pub fn flush(&mut self) -> io::Result<()>
        ensures passes { WriterStep T.contents self.old Flushed self.new }
        ensures hash { self.new.hash ≡ self.old.hash }
        ensures bytes { Keeps (T.contents self.old.inner) (T.contents self.new.inner) }
    {
        self.inner.flush()
    }
}

/// Does the same as [`Write::write`] and [`Write::flush`].
impl<T: io::Write> io::Write for Write<T> {
    ghost contents = { λ writer. T.contents writer.inner };

    fn write(&mut self, buf: &[u8]) -> io::Result<usize>
        ensures bound { WritesAtMost result buf.now }
        ensures bytes { WriteAppends (T.contents self.old.inner)
            (T.contents self.new.inner) result buf.now }
        ensures passes { WriterStep T.contents self.old (Wrote buf.now result) self.new }
        ensures err { OnErr result ((self.new.hash ≡ self.old.hash)
            × Keeps (T.contents self.old.inner) (T.contents self.new.inner)) }
    {
        self.write(buf)
    }

    fn flush(&mut self) -> io::Result<()>
        ensures bytes { Keeps (T.contents self.old.inner) (T.contents self.new.inner) }
        ensures passes { WriterStep T.contents self.old Flushed self.new }
        ensures hash { self.new.hash ≡ self.old.hash }
    {
        self.flush()
    }
}

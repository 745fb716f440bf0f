//! Hashing a stream from a source, and sealing it with its digest on the way to a sink.

ghost use Rattle.std.specs.Prelude.{◌≡◌, ◌≢◌, ◌↔◌, ℕ, List, false, true, OnOk, IfOk, IfErr, IsErrOf, None};
ghost use Rattle.std.specs.Io.KnownBytes.{Appends};
ghost use Rattle.gix_hash.specs.Words.{digest, sealed};
ghost use Rattle.streams.specs.Streams.{HasReadAll, HashingFails, SealingFails, digest_line};

use crate::printing::write_id;
use crate::{CHUNK_LEN, Sink, Source, WriteFailed, next_chunk, write_all};
use gix_hash::{Alphabet, Kind, ObjectId, hasher};
use std::io;
use thiserror::Error as ThisError;

/// Why a stream was not hashed, sealed or checked to its end.
///
/// ```
/// match seal(&mut input, &mut out, Kind::Sha1) {
///     Err(PipeError::Output) => println!(rt; "not all was written")?,
///     sealed => sealed?,
/// }
/// ```
#[derive(Clone, Copy, PartialEq, Eq, Debug, ThisError)]
pub enum PipeError {
    /// A read returned an error.
    #[error("cannot read")]
    Input,
    /// A write returned an error, or took none of at least one byte.
    #[error("cannot write")]
    Output,
    /// The source has more than 2^61 - 1 bytes, for which FIPS 180-4 defines no digest.
    #[error("too much input")]
    TooMuch,
}

impl From<WriteFailed> for PipeError {
    ghost use Rattle.streams.specs.declared.pipe.PipeError.TheVariants.{Output};

    ghost from_gives = { λ _ error. error ≡ Output };

    fn from(_failed: WriteFailed) -> Self {
        PipeError::Output
    }
}

/// Reads the source to its end, and writes the line of the digest of its bytes: the lowercase hex
/// digits and a line feed.
///
/// Each error is returned exactly when its cause holds: [`PipeError::Input`] if a read returns an
/// error, [`PipeError::Output`] if a write fails, [`PipeError::TooMuch`] if the source has more
/// than 2^61 - 1 bytes. Nothing is read or written after it. Under [`PipeError::Output`] the sink
/// took a proper beginning of the line, and under the others nothing. Source and sink must not have
/// failed before.
pub fn hash_all<R: Source, W: Sink>(input: &mut R, out: &mut W, kind: Kind) -> Result<(), PipeError>
    requires input { R.has_failed input.old ≡ false }
    requires output { W.has_failed out.old ≡ false }
    ensures hashed { OnOk result ((message : List ℕ)
        × HasReadAll (R.remaining input.old) (R.remaining input.new) message
        × Appends (W.taken out.old) (W.taken out.new) (digest_line kind message)) }
    ensures input { IsErrOf result PipeError.Input ↔ (R.has_failed input.new ≡ true) }
    ensures output { IsErrOf result PipeError.Output ↔ (W.has_failed out.new ≡ true) }
    ensures stopped { IfErr result (λ e. HashingFails e kind (R.remaining input.old)
        (R.remaining input.new) (W.taken out.old) (W.taken out.new)) }
    ensures untouched { IfErr result (λ e. e ≢ PipeError.Output → out.new ≡ out.old) }
{
    let id = copy_all(input, &mut Discard, kind)?;
    Ok(write_id(Alphabet::Hex, &id, out)?)
}

/// Copies the source to its end, and then writes the bytes of the digest of all that it copied: 20
/// for SHA-1, 32 for SHA-256. Git's packs and pack indexes end in this way.
///
/// The errors are those of [`hash_all`]. Under [`PipeError::Input`] the sink took all bytes read,
/// under [`PipeError::TooMuch`] a proper beginning of them, and under [`PipeError::Output`] a
/// proper beginning of them and their digest. Source and sink must not have failed before.
pub fn seal<R: Source, W: Sink>(input: &mut R, out: &mut W, kind: Kind) -> Result<(), PipeError>
    requires input { R.has_failed input.old ≡ false }
    requires output { W.has_failed out.old ≡ false }
    ensures sealed { OnOk result ((message : List ℕ)
        × HasReadAll (R.remaining input.old) (R.remaining input.new) message
        × Appends (W.taken out.old) (W.taken out.new) (sealed kind message)) }
    ensures input { IsErrOf result PipeError.Input ↔ (R.has_failed input.new ≡ true) }
    ensures output { IsErrOf result PipeError.Output ↔ (W.has_failed out.new ≡ true) }
    ensures stopped { IfErr result (λ e. SealingFails e kind (R.remaining input.old)
        (R.remaining input.new) (W.taken out.old) (W.taken out.new)) }
{
    let id = copy_all(input, out, kind)?;
    Ok(write_all(out, id.as_slice())?)
}

// Copies the source to its end, and returns the digest of all that it copied. This function is not
// inlined, so that the buffer is on the stack only while it runs.
#[inline(never)]
fn copy_all<R: Source, W: Sink>(
    input: &mut R,
    out: &mut W,
    kind: Kind,
) -> Result<ObjectId, PipeError>
    requires input { R.has_failed input.old ≡ false }
    requires output { W.has_failed out.old ≡ false }
    ensures copied { IfOk result (λ id. (message : List ℕ)
        × HasReadAll (R.remaining input.old) (R.remaining input.new) message
        × Appends (W.taken out.old) (W.taken out.new) message × (id ≡ digest kind message)) }
    ensures reads { OnOk result (R.has_failed input.new ≡ false) }
    ensures not_failed { OnOk result (W.has_failed out.new ≡ false) }
    ensures input { IsErrOf result PipeError.Input ↔ (R.has_failed input.new ≡ true) }
    ensures output { IsErrOf result PipeError.Output ↔ (W.has_failed out.new ≡ true) }
    ensures stopped { IfErr result (λ e. SealingFails e kind (R.remaining input.old)
        (R.remaining input.new) (W.taken out.old) (W.taken out.new)) }
{
    let mut hasher = hasher(kind);
    let mut total: u64 = 0;
    let mut buf = [0; CHUNK_LEN];
    'chunks: loop {
        let len = next_chunk(input, &mut total, &mut buf)?;
        if len == 0 {
            let Ok(id) = hasher.try_finalize() else {
                unreachable!();
            };
            return Ok(id);
        }
        let chunk = &buf[..len];
        write_all(out, chunk)?;
        hasher.update(chunk);
    }
}

/// A sink that takes all bytes and keeps none.
#[derive(Clone, Copy)]
struct Discard;

impl Sink for Discard {
    ghost taken = { λ _. None };

    ghost has_failed = { λ _. false };

    fn write(&mut self, bytes: &[u8]) -> io::Result<usize> {
        Ok(bytes.len())
    }

    fn failed(&self) -> bool {
        false
    }
}

//! The digest of the next bytes of a reader.

ghost use Rattle.std.specs.Prelude.{◌≡◌, ◌++◌, ℕ, List, length, IfOk, OnOk, IfErr};
ghost use Rattle.gix_hash.specs.Hashing.{Reaches, ReadsNext, StopsWith, WasFed, all_false, chunks, digest, hasher_kind, heard_all};

use super::{Error, Interrupt, Progress};
use crate::hashing::start::hasher;
use crate::hashing::state::Hasher;
use crate::kind::Kind;
use crate::object_id::ObjectId;
use std::io::Read;

// The most bytes that are read at once.
const CHUNK_LEN: usize = 65535;

/// The digest of all that `hasher` was fed and then of the next `num_bytes_from_start` bytes of
/// `read`, whose further bytes stay unread.
///
/// The bytes are read in chunks of 65535 bytes, the last of 1 to 65535; if there are none, nothing
/// is read. [`Progress::init`] is called first with the number of all bytes, [`Progress::inc_by`]
/// after each chunk with its length, and [`Progress::show_throughput`] at the end.
/// `should_interrupt` is called once after each chunk.
///
/// [`Error::Io`] is returned if a chunk can't be read, because the reader fails or ends. The chunks
/// before it were reported to `progress`; how many of its bytes were read is not specified.
/// [`Error::Interrupted`] is returned if `should_interrupt` returns true: exactly the chunks until
/// then were read, and all of them were reported. After an error `show_throughput` is not called.
pub fn bytes_with_hasher<R: Read, P: Progress, I: Interrupt>(
    read: &mut R,
    num_bytes_from_start: u64,
    mut hasher: Hasher,
    progress: &mut P,
    should_interrupt: &mut I,
) -> Result<ObjectId, Error>
    ensures digest { IfOk result (λ id. (bytes : List ℕ)
        × ReadsNext (R.remaining read.old) (R.remaining read.new) num_bytes_from_start bytes
        × ((message : List ℕ) → WasFed hasher message
        → id ≡ digest (hasher_kind hasher) (message ++ bytes))) }
    ensures heard { OnOk result (Reaches P.hears progress.old
        (heard_all num_bytes_from_start) progress.new) }
    ensures asked { OnOk result (Reaches I.answers should_interrupt.old
        (all_false (length (chunks num_bytes_from_start))) should_interrupt.new) }
    ensures err { IfErr result (λ e. StopsWith e num_bytes_from_start
        (λ calls. Reaches P.hears progress.old calls progress.new)
        (λ answers. Reaches I.answers should_interrupt.old answers should_interrupt.new)
        (R.remaining read.old) (R.remaining read.new)) }
{
    progress.init(Some(num_bytes_from_start));
    let mut buf = [0; CHUNK_LEN];
    let mut left = num_bytes_from_start;
    while left > 0 {
        let count = left.min(CHUNK_LEN as u64);
        let chunk = &mut buf[..count as usize];
        read.read_exact(chunk).map_err(Error::Io)?;
        left -= count;
        progress.inc_by(count);
        hasher.update(chunk);
        if should_interrupt.should_interrupt() {
            return Err(Error::Interrupted);
        }
    }
    let id = hasher.try_finalize()?;
    progress.show_throughput();
    Ok(id)
}

/// The digest, of the given kind, of the next `num_bytes_from_start` bytes of `read`: what
/// [`bytes_with_hasher`] returns for a hasher that was fed nothing.
pub fn bytes<R: Read, P: Progress, I: Interrupt>(
    read: &mut R,
    num_bytes_from_start: u64,
    kind: Kind,
    progress: &mut P,
    should_interrupt: &mut I,
) -> Result<ObjectId, Error>
    ensures digest { IfOk result (λ id. (bytes : List ℕ)
        × ReadsNext (R.remaining read.old) (R.remaining read.new) num_bytes_from_start bytes
        × (id ≡ digest kind bytes)) }
    ensures heard { OnOk result (Reaches P.hears progress.old
        (heard_all num_bytes_from_start) progress.new) }
    ensures asked { OnOk result (Reaches I.answers should_interrupt.old
        (all_false (length (chunks num_bytes_from_start))) should_interrupt.new) }
    ensures err { IfErr result (λ e. StopsWith e num_bytes_from_start
        (λ calls. Reaches P.hears progress.old calls progress.new)
        (λ answers. Reaches I.answers should_interrupt.old answers should_interrupt.new)
        (R.remaining read.old) (R.remaining read.new)) }
{
    bytes_with_hasher(
        read,
        num_bytes_from_start,
        hasher(kind),
        progress,
        should_interrupt,
    )
}

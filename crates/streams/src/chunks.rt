//! Reading a source chunk by chunk, and counting its bytes.

ghost use Rattle.std.specs.Prelude.{◌≡◌, ◌+◌, ◌≤◌, ◌<◌, ◌++◌, ◌↔◌, ℕ, List, Option, false, true, length, take, IfOk, IfErr, OnOk, IsErrOf};
ghost use Rattle.streams.specs.Streams.{ChunkFails, HasReadAll, HasReadCounted};

use crate::pipe::PipeError;
use crate::source::{MAX_LEN, Source};

/// Reads the next chunk into the start of a non-empty buffer and returns its length, which is 0 at
/// the end of the source. `total` is the number of bytes read so far.
///
/// The error is [`PipeError::Input`] if the read fails, and [`PipeError::TooMuch`] if the chunk,
/// which was read, makes the total more than [`MAX_LEN`]. Both leave `total` as it was. The source
/// must not have failed before.
///
/// ```
/// let mut buf = [0; CHUNK_LEN];
/// let len = next_chunk(&mut input, &mut total, &mut buf)?;
/// println!(rt; "{len} of {total} bytes")?;
/// ```
pub fn next_chunk<R: Source>(
    input: &mut R,
    total: &mut u64,
    buf: &mut [u8],
) -> Result<usize, PipeError>
    requires not_failed { R.has_failed input.old ≡ false }
    requires limit { total.old ≤ MAX_LEN }
    requires room { 0 < length buf.old }
    ensures bound { IfOk result (λ count. count ≤ length buf.new) }
    ensures counted { IfOk result (λ count. (total.new ≡ total.old + count)
        × (total.new ≤ MAX_LEN)) }
    ensures given { IfOk result (λ count. (start : Option (List ℕ)) (bytes : List ℕ)
        → HasReadCounted start (R.remaining input.old) bytes total.old
        → HasReadCounted start (R.remaining input.new) (bytes ++ take count buf.new) total.new) }
    ensures end { IfOk result (λ count. count ≡ 0 → (start : Option (List ℕ)) (bytes : List ℕ)
        → HasReadCounted start (R.remaining input.old) bytes total.old
        → HasReadAll start (R.remaining input.new) bytes) }
    ensures stopped { IfErr result (λ e. (start : Option (List ℕ)) (bytes : List ℕ)
        → HasReadCounted start (R.remaining input.old) bytes total.old
        → ChunkFails e start (R.remaining input.new) bytes buf.new) }
    ensures same { IfErr result (λ _. total.new ≡ total.old) }
    ensures not_failed { OnOk result (R.has_failed input.new ≡ false) }
    ensures input { IsErrOf result PipeError.Input ↔ (R.has_failed input.new ≡ true) }
{
    let Ok(count) = input.read(buf) else {
        return Err(PipeError::Input);
    };
    if count as u64 > MAX_LEN - *total {
        return Err(PipeError::TooMuch);
    }
    *total += count as u64;
    Ok(count)
}

//! Checking a stream of bytes that ends with the digest of all before it.

ghost use Rattle.std.specs.Prelude.{◌≡◌, ◌↔◌, ◌≤◌, ◌++◌, ℕ, List, Option, None, false, true, length, OnOk, IfOk, IfErr, IsErrOf};
ghost use Rattle.gix_hash.specs.Words.{WasFed, byte_len_of, hasher_kind};
ghost use Rattle.streams.specs.Streams.{AreAllBelow, AreFed, HasEnding, HasEndingOf, HasEndingOfEither, HasReadAll, HashingFails, IsEnding};

use crate::{CHUNK_LEN, PipeError, Source, next_chunk};
use gix_hash::hashing_laws::digests;
use gix_hash::{Hasher, Kind, ObjectId, hasher};

// The length of the longest digest, that of SHA-256.
const MAX_DIGEST_LEN: usize = 32;

// The length of a chunk and of a digest that is held back before it.
const BUFFER_LEN: usize = CHUNK_LEN + MAX_DIGEST_LEN;

/// Whether a message ends with its own digest, as [`check_seal`] found.
///
/// ```
/// if let Ending::Sealed(id) = check_seal(&mut input, Kind::Sha1)? {
///     println!(rt; "{id}")?;
/// }
/// ```
#[derive(Clone, Copy, Debug)]
pub enum Ending {
    /// It ends with the digest of all bytes before it, which is this.
    Sealed(ObjectId),
    /// It does not, or is shorter than a digest.
    Unsealed {
        /// The digest of all bytes except the last 20 or 32, or that of the empty message if there
        /// are fewer.
        digest: ObjectId,
        /// Those last bytes, or `None` if there are fewer bytes than a digest has.
        last: Option<ObjectId>,
    },
}

/// Reads the source to its end, and checks whether its bytes end with the digest of all bytes
/// before it, as [`seal`](crate::seal) writes them: 20 bytes for SHA-1, 32 for SHA-256. Git's
/// packs, pack indexes, commit-graphs and multi-pack-indexes end in this way.
///
/// Each error is returned exactly when its cause holds, as by [`hash_all`](crate::hash_all).
/// [`PipeError::Output`] is never returned. The source must not have failed before.
///
/// ```
/// let ending = check_seal(&mut input, Kind::Sha1)?;
/// println!(rt; "{}", matches!(ending, Ending::Sealed(_)))?;
/// ```
pub fn check_seal<R: Source>(input: &mut R, kind: Kind) -> Result<Ending, PipeError>
    requires { R.has_failed input.old ≡ false }
    ensures checked { IfOk result (λ ending. (bytes : List ℕ)
        × HasReadAll (R.remaining input.old) (R.remaining input.new) bytes
        × HasEnding kind bytes ending) }
    ensures reads { OnOk result (R.has_failed input.new ≡ false) }
    ensures input { IsErrOf result PipeError.Input ↔ (R.has_failed input.new ≡ true) }
    ensures output { ¬ (IsErrOf result PipeError.Output) }
    ensures stopped { IfErr result (λ e. HashingFails e kind (R.remaining input.old)
        (R.remaining input.new) None None) }
{
    check(input, kind, None)
}

/// Reads the source to its end, once, and checks whether its bytes end with the SHA-1 digest of all
/// bytes before it or, if not, with the SHA-256 digest. If they end with neither, the result is
/// that of [`check_seal`] for SHA-1.
///
/// The errors are those of [`check_seal`]. The source must not have failed before.
///
/// ```
/// if let Ending::Sealed(id) = check_either(&mut input)? {
///     println!(rt; "{id}, of the kind {}", id.kind())?;
/// }
/// ```
pub fn check_either<R: Source>(input: &mut R) -> Result<Ending, PipeError>
    requires { R.has_failed input.old ≡ false }
    ensures checked { IfOk result (λ ending. (bytes : List ℕ)
        × HasReadAll (R.remaining input.old) (R.remaining input.new) bytes
        × HasEndingOfEither Kind.Sha1 Kind.Sha256 bytes ending) }
    ensures reads { OnOk result (R.has_failed input.new ≡ false) }
    ensures input { IsErrOf result PipeError.Input ↔ (R.has_failed input.new ≡ true) }
    ensures output { ¬ (IsErrOf result PipeError.Output) }
    ensures stopped { IfErr result (λ e. HashingFails e Kind.Sha1 (R.remaining input.old)
        (R.remaining input.new) None None) }
{
    check(input, Kind::Sha1, Some(Kind::Sha256))
}

// Checks for a digest of the kind and, if there is none, for one of the other kind, if one is
// given. The hashers are fed all bytes except the last ones, as many as the longest digest has,
// which are held back at the start of the buffer. This function is not inlined, so that the buffer
// is on the stack only while it runs.
#[inline(never)]
fn check<R: Source>(input: &mut R, kind: Kind, other: Option<Kind>) -> Result<Ending, PipeError>
    requires { R.has_failed input.old ≡ false }
    ensures checked { IfOk result (λ ending. (bytes : List ℕ)
        × HasReadAll (R.remaining input.old) (R.remaining input.new) bytes
        × HasEndingOf kind other bytes ending) }
    ensures reads { OnOk result (R.has_failed input.new ≡ false) }
    ensures input { IsErrOf result PipeError.Input ↔ (R.has_failed input.new ≡ true) }
    ensures output { ¬ (IsErrOf result PipeError.Output) }
    ensures stopped { IfErr result (λ e. HashingFails e kind (R.remaining input.old)
        (R.remaining input.new) None None) }
{
    let mut first = hasher(kind);
    let mut second = other.map(|kind| hasher(kind));
    let mut total: u64 = 0;
    let mut buf = [0; BUFFER_LEN];
    let mut held = 0;
    'chunks: loop {
        let len = next_chunk(input, &mut total, &mut buf[held..held + CHUNK_LEN])?;
        if len == 0 {
            let last = &buf[..held];
            let ending = ending_of(kind, first, last);
            return Ok(or_else(ending, other, second, last));
        }
        let end = held + len;
        let fed = end.saturating_sub(MAX_DIGEST_LEN);
        first.update(&buf[..fed]);
        update(&mut second, &buf[..fed]);
        buf.copy_within(fed..end, 0);
        held = end - fed;
    }
}

// Feeds a hasher, if there is one.
fn update(hasher: &mut Option<Hasher>, bytes: &[u8])
    ensures { (kind : Option Kind) (message : List ℕ) → AreFed kind hasher.old message
        → AreFed kind hasher.new (message ++ bytes.now) }
{
    if let Some(hasher) = hasher {
        hasher.update(bytes);
    }
}

// How a message with these last bytes ends. If they are fewer than the longest digest has, they are
// the whole message. The hasher was fed the bytes before them.
fn ending_of(kind: Kind, mut hasher: Hasher, last: &[u8]) -> Ending
    ensures { (message : List ℕ) → hasher_kind hasher ≡ kind → WasFed hasher message
        → AreAllBelow MAX_DIGEST_LEN message last.now
        → HasEnding kind (message ++ last.now) result }
{
    let (more, last) = last.split_at(last.len().saturating_sub(kind.len_in_bytes()));
    hasher.update(more);
    let Ok(digest) = hasher.try_finalize() else {
        unreachable!();
    };
    digests(kind);
    ending_by_digest(kind, digest, last)
}

// How a message ends for the other kind, if one is given and the message is sealed for it, or else
// the ending that was found before.
fn or_else(ending: Ending, other: Option<Kind>, hasher: Option<Hasher>, last: &[u8]) -> Ending
    ensures { (kind : Kind) (message : List ℕ) → HasEnding kind (message ++ last.now) ending
        → AreFed other hasher message → AreAllBelow MAX_DIGEST_LEN message last.now
        → HasEndingOf kind other (message ++ last.now) result }
{
    match (ending, other, hasher) {
        (Ending::Unsealed { .. }, Some(kind), Some(hasher)) => match ending_of(kind, hasher, last) {
            Ending::Unsealed { .. } => ending,
            sealed => sealed,
        },
        _ => ending,
    }
}

// How a message with these last bytes ends, if the bytes before them have this digest.
fn ending_by_digest(kind: Kind, digest: ObjectId, last: &[u8]) -> Ending
    requires { length last.now ≤ byte_len_of kind }
    ensures { IsEnding kind digest last.now result }
{
    if digest.as_slice() == last {
        return Ending::Sealed(digest);
    }
    let last = if last.len() == kind.len_in_bytes() {
        Some(ObjectId::from_bytes_or_panic(last))
    } else {
        None
    };
    Ending::Unsealed { digest, last }
}

//! Pack indexes and the packs beside them.

ghost use Rattle.std.specs.Prelude.{◌≡◌, ◌≤◌, ℕ, List, Some, false, length, IfOk, IsTrue, MatchOption, OnErr};
ghost use Rattle.pack_index.specs.Format.{Each, min_len, ids_in};
ghost use Rattle.packtool_commands.specs.Files.{EndsIn, IsFirstBeyond, IsOffsetBelow, IsPairing, file_line, pairing_verdict};
ghost use Rattle.streams.specs.Streams.{Wrote};

use crate::escaping::write_named;
use crate::line_end::{LineEnd, push, push_digest, push_number};
use gix_hash::{Kind, ObjectId};
use pack_index::File;
use std::io;
use streams::{ReadAt, Sink, WriteFailed};

/// Whether a pack index belongs to a pack.
///
/// ```
/// if let Pairing::Other { named, .. } = pair(&open_index(content, None)?, &pack)? {
///     println!(rt; "its pack ends in {named}")?;
/// }
/// ```
#[derive(Clone, Copy, Debug)]
pub enum Pairing {
    /// The index has the digest in which the pack ends, and each of its offsets is before that.
    Same,
    /// The index has another digest.
    Other {
        /// The digest of its pack that the index has.
        named: ObjectId,
        /// The last bytes of the pack, as many as a digest has, or `None` if there are fewer.
        found: Option<ObjectId>,
    },
    /// The index has the digest in which the pack ends, but this offset, which is not before that.
    Beyond(u64),
}

/// Whether a pack index belongs to a pack: whether the digest of its pack that it has is the one in
/// which the pack ends, and its offsets are before that.
///
/// Only the length and the last digest of the pack are read, and the digest is not checked. An
/// error is returned only if a read fails.
///
/// ```
/// let pairing = pair(&open_index(content, None)?, &pack)?;
/// println!(rt; "{}", matches!(pairing, Pairing::Same))?;
/// ```
pub fn pair<P: ReadAt>(index: &File<'_>, pack: &P) -> io::Result<Pairing>
    ensures pairing { IfOk result (λ pairing. (bytes : List ℕ)
        → P.content pack.now ≡ Some bytes
        → IsPairing index.now.kind index.now.bytes bytes pairing) }
    ensures err { OnErr result ((bytes : List ℕ) → P.content pack.now ≡ Some bytes
        → IsTrue (P.can_fail pack.now)) }
{
    Ok(pairing_of(index, last_digest(pack, index.object_hash())?))
}

// The digest in which a pack ends.
#[derive(Clone, Copy)]
struct LastDigest {
    id: ObjectId,
    // The position at which it begins.
    at: u64,
}

// The digest of a kind in which a pack ends, or `None` if it has fewer bytes.
fn last_digest<P: ReadAt>(pack: &P, kind: Kind) -> io::Result<Option<LastDigest>>
    ensures digest { IfOk result (λ last. (bytes : List ℕ) → P.content pack.now ≡ Some bytes
        → EndsIn kind bytes last) }
    ensures err { OnErr result ((bytes : List ℕ) → P.content pack.now ≡ Some bytes
        → IsTrue (P.can_fail pack.now)) }
{
    let mut id = kind.null();
    let Some(at) = pack.len()?.checked_sub(kind.len_in_bytes() as u64) else {
        return Ok(None);
    };
    pack.read_exact_at(id.as_mut_slice(), at)?;
    Ok(Some(LastDigest { id, at }))
}

// Whether an index belongs to a pack that ends in this digest.
fn pairing_of(index: &File<'_>, last: Option<LastDigest>) -> Pairing
    requires { min_len index.now.kind ≤ length index.now.bytes }
    ensures { (bytes : List ℕ) → EndsIn index.now.kind bytes last
        → IsPairing index.now.kind index.now.bytes bytes result }
{
    let named = index.pack_checksum();
    let Some(last) = last else {
        return Pairing::Other {
            named: named.to_owned(),
            found: None,
        };
    };
    if named.as_bytes() != last.id.as_slice() {
        return Pairing::Other {
            named: named.to_owned(),
            found: Some(last.id),
        };
    }
    match first_beyond(index, last.at) {
        Some(offset) => Pairing::Beyond(offset),
        None => Pairing::Same,
    }
}

// The first offset of an index that is not below an end.
fn first_beyond(index: &File<'_>, end: u64) -> Option<u64>
    ensures { MatchOption result (Each (IsOffsetBelow index.now.kind index.now.bytes end)
        (length (ids_in index.now.kind index.now.bytes)))
        (IsFirstBeyond index.now.kind index.now.bytes end) }
{
    let count = index.num_objects();
    for at in 0..count {
        let offset = index.pack_offset_at_index(at);
        if offset >= end {
            return Some(offset);
        }
    }
    None
}

/// Writes the line of a pack index with this name and this relation to the pack beside it: `NAME:
/// OK`, or `NAME: FAILED` and why, with both digests or the offset.
///
/// It stops at the first write that fails, after a proper beginning of the line. The sink must not
/// have failed before.
///
/// ```
/// let pairing = pair(&open_index(content, None)?, &pack)?;
/// if write_pairing("pack-1.idx", &pairing, &mut out).is_err() {
///     println!(rt; "the line is not written whole")?;
/// }
/// ```
pub fn write_pairing<W: Sink>(name: &str, pairing: &Pairing, out: &mut W) -> Result<(), WriteFailed>
    requires { W.has_failed out.old ≡ false }
    ensures { Wrote W.taken W.has_failed out.old out.new result
        (file_line name.now (pairing_verdict pairing.now)) }
{
    write_named(name, pairing_verdict(pairing).as_slice(), out)
}

// What is printed after the name of a pack index.
fn pairing_verdict(pairing: &Pairing) -> LineEnd
    ensures { result.items ≡ pairing_verdict pairing.now }
{
    let mut line = LineEnd::new();
    match pairing {
        Pairing::Same => push(&mut line, b": OK\n"),
        Pairing::Other { named, found } => {
            push_digest(&mut line, b": FAILED: its pack ends in ", named);
            match found {
                Some(found) => {
                    push_digest(&mut line, b", and the pack beside it ends in ", found);
                    push(&mut line, b"\n");
                }
                None => {
                    push(
                        &mut line,
                        b", and the pack beside it is shorter than a digest",
                    );
                    push(&mut line, b"\n");
                }
            }
        }
        Pairing::Beyond(offset) => {
            push_number(&mut line, b": FAILED: the offset ", *offset);
            push(&mut line, b" is not in the pack beside it");
            push(&mut line, b"\n");
        }
    }
    line
}

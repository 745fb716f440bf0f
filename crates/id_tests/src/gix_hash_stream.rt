//! Hashers, and digests of what readers give.

use crate::expecting::{
    expect, expect_debug, expect_error, expect_io, expect_outcome, expect_text,
};
use crate::listeners::{Asked, Call, Heard, chunks};
use crate::well_known::BLOB_ID;
use gix_hash::io::{Never, NoProgress};
use gix_hash::{
    Hasher, Kind, ObjectId, bytes, bytes_with_hasher, digest_of, ends_in_digest, hasher, hashing,
    hashing_laws, io,
};
use std::io::ErrorKind::UnexpectedEof;
use std::process::Abort;
use std::test::Fail;
use test_devices::{FAILED, Fault, Reader};

/// The digests of `abc`, as FIPS 180-4's examples have them.
pub const ABC: &str = "a9993e364706816aba3e25717850c26c9cd0d89d";

pub const ABC_256: &str = "ba7816bf8f01cfea414140de5dae2223b00361a396177a9cb410ff61f20015ad";

/// The digests of nothing.
pub const EMPTY: &str = "da39a3ee5e6b4b0d3255bfef95601890afd80709";

const EMPTY_256: &str = "e3b0c44298fc1c149afbf4c8996fb92427ae41e4649b934ca495991b7852b855";

const TWO_BLOCKS: &str = "84983e441c3bd26ebaae4aa1f95129e5e54670f1";

const TWO_BLOCKS_256: &str = "248d6a61d20638b8e5c026930c3e6039a33ce45964ff2167f6ecedd419db06c1";

// The digests of 65535 and of 131071 zero bytes, by sha1sum.
const FULL_CHUNK: &str = "391edab7225a1de662ebc3a1a670a20d8e6a226b";

pub const THREE_CHUNKS: &str = "63cbd9d6dff6a8038e5c813f168ba2324f223cfa";

/// A hasher that was fed the parts.
pub fn hasher_fed(kind: Kind, parts: &[&[u8]]) -> Hasher {
    let mut hasher = hasher(kind);
    for part in parts {
        hasher.update(part);
    }
    hasher
}

// The parts, fed one after another, have that digest.
fn expect_digest(rt: &(impl Abort + AllocGlobal), kind: Kind, parts: &[&[u8]], want: &str) {
    expect_outcome(rt, hasher_fed(kind, parts).try_finalize(), want);
    expect_outcome(rt, hashing_laws::id_of_chunks(kind, parts), want)
}

// The examples of FIPS 180-4, and the digest of nothing.
const MESSAGES: [(Kind, &[&[u8]], &str); 6] = [
    (Kind::Sha1, &[], EMPTY),
    (Kind::Sha256, &[], EMPTY_256),
    (Kind::Sha1, &[b"ab", b"", b"c"], ABC),
    (Kind::Sha256, &[b"abc"], ABC_256),
    (
        Kind::Sha1,
        &[b"abcdbcdecdefdefgefghfghighijhijkijkljklmklmnlmnomnopnopq"],
        TWO_BLOCKS,
    ),
    (
        Kind::Sha256,
        &[
            b"abc",
            b"dbcdecdefdefgefghfghighijhijkijkljklmklmnlmnomnopnopq",
        ],
        TWO_BLOCKS_256,
    ),
];

#[test]
fn parts_are_one_message(rt: HostRuntime) {
    for &(kind, parts, want) in &MESSAGES {
        expect_digest(&rt, kind, parts, want);
    }
}

// The digest of the 20 bytes of the empty blob's id, by sha1sum.
#[test]
fn an_id_is_hashed_by_its_bytes(rt: HostRuntime) {
    expect_text(
        &rt,
        digest_of(Kind::Sha1, BLOB_ID.as_slice()),
        "d96f4801970aae11efea1c6d388b6a6c021b1095",
    );
}

// Packs of one blob, by `git pack-objects`, by SHA-1 and by SHA-256.
const PACK: &[u8] =
    b"PACK\x00\x00\x00\x02\x00\x00\x00\x01\x34\x78\x9c\xcb\xcf\x4b\xe5\x02\x00\x03\xde\x01\x4d\
\x2e\xeb\xbd\x27\x77\x04\x30\x04\x27\x01\xf1\xe0\xdf\x31\x87\x41\x23\xb1\x0d\xcf";

const PACK_256: &[u8] =
    b"PACK\x00\x00\x00\x02\x00\x00\x00\x01\x34\x78\x9c\xcb\xcf\x4b\xe5\x02\x00\x03\xde\x01\x4d\
\x67\x66\xf0\x29\x9f\x67\x52\x3f\x52\x7c\x37\xb1\x04\xa5\x4a\xc6\x0b\x1e\x5d\x1e\x64\x21\x2b\x45\x81\x79\x0b\x1b\
\xf0\xf5\x2c\x31";

#[test]
fn packs_end_in_their_digest(rt: HostRuntime) {
    expect!(&rt; ends_in_digest(Kind::Sha1, digest_of(Kind::Sha1, b"").as_slice()));
    expect!(&rt; !ends_in_digest(Kind::Sha1, &PACK[1..]));
    for &(kind, bytes, ends) in &[
        (Kind::Sha1, PACK, true),
        (Kind::Sha256, PACK_256, true),
        (Kind::Sha1, PACK_256, false),
        (Kind::Sha1, b"PACK", false),
        (Kind::Sha1, b"", false),
    ] {
        expect!(&rt; ends_in_digest(kind, bytes) == ends, bytes.len());
    }
}

fn expect_three_read(rt: &(impl Abort + AllocGlobal), chunk: usize) {
    let mut input = Reader::new(b"abcdef", chunk, Fault::Never);
    let id = bytes(&mut input, 3, Kind::Sha1, &mut NoProgress, &mut Never);
    expect_outcome(rt, id, ABC);
    expect!(rt; input.rest == b"def".as_slice());
}

fn expect_two_read(rt: &(impl Abort + AllocGlobal), chunk: usize) {
    let mut input = Reader::new(b"bcX", chunk, Fault::Never);
    let fed = hasher_fed(Kind::Sha1, &[b"a"]);
    let id = bytes_with_hasher(&mut input, 2, fed, &mut NoProgress, &mut Never);
    expect_outcome(rt, id, ABC);
    expect!(rt; input.rest == b"X".as_slice());
}

#[test]
fn only_the_next_bytes_are_read(rt: HostRuntime) {
    for &chunk in &[1, 6] {
        expect_three_read(&rt, chunk);
        expect_two_read(&rt, chunk);
    }
}

// What is heard about 131071 bytes.
const THREE_CHUNKS_HEARD: [Call; 5] = [
    Call::Init(Some(131071)),
    Call::IncBy(65535),
    Call::IncBy(65535),
    Call::IncBy(1),
    Call::ShowThroughput,
];

// A run that reads from 131071 zero bytes, is interrupted at the call with that number, or never at
// 0, and what it returns.
struct Run {
    num_bytes: u64,
    stops_at: usize,
    outcome: &'static str,
    heard: &'static [Call],
    unread: usize,
}

const RUNS: [Run; 7] = [
    Run {
        num_bytes: 0,
        stops_at: 0,
        outcome: EMPTY,
        heard: &[Call::Init(Some(0)), Call::ShowThroughput],
        unread: 131071,
    },
    Run {
        num_bytes: 65535,
        stops_at: 0,
        outcome: FULL_CHUNK,
        heard: &[
            Call::Init(Some(65535)),
            Call::IncBy(65535),
            Call::ShowThroughput,
        ],
        unread: 65536,
    },
    Run {
        num_bytes: 131071,
        stops_at: 0,
        outcome: THREE_CHUNKS,
        heard: &THREE_CHUNKS_HEARD,
        unread: 0,
    },
    Run {
        num_bytes: 131071,
        stops_at: 1,
        outcome: "Interrupted",
        heard: &[Call::Init(Some(131071)), Call::IncBy(65535)],
        unread: 65536,
    },
    Run {
        num_bytes: 131071,
        stops_at: 2,
        outcome: "Interrupted",
        heard: &[
            Call::Init(Some(131071)),
            Call::IncBy(65535),
            Call::IncBy(65535),
        ],
        unread: 1,
    },
    Run {
        num_bytes: 131071,
        stops_at: 3,
        outcome: "Interrupted",
        heard: &[
            Call::Init(Some(131071)),
            Call::IncBy(65535),
            Call::IncBy(65535),
            Call::IncBy(1),
        ],
        unread: 0,
    },
    Run {
        num_bytes: 65536,
        stops_at: 2,
        outcome: "Interrupted",
        heard: &[Call::Init(Some(65536)), Call::IncBy(65535), Call::IncBy(1)],
        unread: 65535,
    },
];

// There was one call of the interruption for each chunk.
fn expect_run(rt: &(impl Abort + AllocGlobal), zeros: &[u8], run: &Run) {
    let mut input = zeros;
    let mut heard = Heard::new();
    let mut asked = Asked::stopping_at(run.stops_at);
    let len = run.num_bytes;
    let outcome = bytes(&mut input, len, Kind::Sha1, &mut heard, &mut asked);
    heard.expect(rt, run.heard);
    let counts = (asked.times, input.len());
    expect!(rt; counts == (chunks(run.heard), run.unread), run.outcome);
    expect_outcome(rt, outcome, run.outcome);
}

#[test]
fn chunks_are_heard_and_asked_after(rt: HostRuntime) {
    let zeros = [0; 131071];
    for run in &RUNS {
        expect_run(&rt, &zeros, run);
    }
    expect_text(&rt, digest_of(Kind::Sha1, &zeros), THREE_CHUNKS);
}

// No byte is read, and yet the progress hears a beginning and an end.
#[test]
fn none_of_the_next_bytes_are_read(rt: HostRuntime) {
    let mut heard = Heard::new();
    let fed = hasher_fed(Kind::Sha1, &[b"abc"]);
    let mut input: &[u8] = b"d";
    let id = bytes_with_hasher(&mut input, 0, fed, &mut heard, &mut Never);
    expect_outcome(&rt, id, ABC);
    heard.expect(&rt, &[Call::Init(Some(0)), Call::ShowThroughput]);
    expect!(&rt; input == b"d".as_slice());
}

// No allocator is in reach.
#[test]
fn hashed_without_memory() -> Result<(), Fail> {
    let (mut input, mut rest): (&[u8], &[u8]) = (b"abc", b"bc");
    let whole = bytes(&mut input, 3, Kind::Sha1, &mut NoProgress, &mut Never)?;
    let fed = hasher_fed(Kind::Sha1, &[b"a"]);
    let in_parts = bytes_with_hasher(&mut rest, 2, fed, &mut NoProgress, &mut Never)?;
    if whole.eq_str(ABC) && in_parts.eq_str(ABC) {
        return Ok(());
    }
    Err(Fail::new("another digest without memory"))
}

// FIPS 180-4's long example: a million times the letter a.
#[test]
fn a_million_bytes(rt: HostRuntime) {
    for &(kind, want) in &[
        (Kind::Sha1, "34aa973cd4c4daa4f61eeb2bdbad27316534016f"),
        (
            Kind::Sha256,
            "cdc76e5c9914fb9281a1c7e284d73e67f1809a48a497200e046d39ccc7112cd0",
        ),
    ] {
        let mut input = std::io::repeat(b'a');
        let id = bytes(&mut input, 1_000_000, kind, &mut NoProgress, &mut Never);
        expect_outcome(&rt, id, want);
    }
}

fn expect_ended(rt: &impl Abort, given: &[u8], num_bytes: u64, calls: &[Call]) {
    let mut input = given;
    let mut heard = Heard::new();
    let outcome = bytes(&mut input, num_bytes, Kind::Sha1, &mut heard, &mut Never);
    expect_io(rt, outcome, UnexpectedEof);
    heard.expect(rt, calls);
}

#[test]
fn a_reader_that_ends_too_early(rt: HostRuntime) {
    expect_ended(&rt, b"abc", 5, &[Call::Init(Some(5))]);
    let calls = [Call::Init(Some(65537)), Call::IncBy(65535)];
    expect_ended(&rt, &[0; 65536], 65537, &calls);
}

// The read with that number fails, after so many chunks and these calls of a progress.
fn expect_failed_read(
    rt: &(impl Abort + AllocGlobal),
    zeros: &[u8],
    at: usize,
    chunks: usize,
    calls: &[Call],
) {
    let mut input = Reader::new(zeros, 30000, Fault::AtCall(at));
    let mut heard = Heard::new();
    let mut asked = Asked::stopping_at(0);
    let outcome = bytes(&mut input, 131071, Kind::Sha1, &mut heard, &mut asked);
    expect_outcome(rt, outcome, FAILED);
    heard.expect(rt, calls);
    expect!(rt; (asked.times, input.calls) == (chunks, at), at);
}

// Three reads a chunk, and one for the last byte.
#[test]
fn each_read_fails_in_turn(rt: HostRuntime) {
    let zeros = [0; 131071];
    for at in 1..=7 {
        let chunks = (at - 1) / 3;
        expect_failed_read(&rt, &zeros, at, chunks, &THREE_CHUNKS_HEARD[..1 + chunks]);
    }
}

fn expect_read(rt: &(impl Abort + AllocGlobal), mut input: Reader<'_>, num_bytes: u64, want: &str) {
    let id = bytes(
        &mut input,
        num_bytes,
        Kind::Sha1,
        &mut NoProgress,
        &mut Never,
    );
    expect_outcome(rt, id, want);
}

// By a reader that fails at an eighth read, and by one that returns its error after its bytes.
#[test]
fn readers_that_fail_at_the_end(rt: HostRuntime) {
    let zeros = [0; 131071];
    let eighth = Reader::new(&zeros, 30000, Fault::AtCall(8));
    expect_read(&rt, eighth, 131071, THREE_CHUNKS);
    expect_read(&rt, Reader::new(b"abc", 2, Fault::AfterBytes(3)), 4, FAILED);
}

fn collision() -> hashing::Error {
    hashing::Error::CollisionAttack {
        digest: ObjectId::null(Kind::Sha1),
    }
}

#[test]
fn error_texts(rt: HostRuntime) {
    expect_error(
        &rt,
        collision(),
        "Detected SHA-1 collision attack with digest 0000000000000000000000000000000000000000",
    );
    let failed = io::Error::from(std::io::Error::new(std::io::ErrorKind::Other, FAILED));
    expect_error(&rt, failed, FAILED);
    expect_error(&rt, io::Error::from(collision()), "Failed to hash data");
    expect_error(&rt, io::Error::Interrupted, "Interrupted");
    expect_debug(&rt, (NoProgress, Never), "(NoProgress, Never)");
}

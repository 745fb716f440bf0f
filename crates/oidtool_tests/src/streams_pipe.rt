//! Hashing and sealing: digests from outside, texts, and devices that fail.

ghost use Rattle.std.specs.Prelude.{◌≡◌, false};

use crate::expecting::{expect, expect_bytes};
use gix_hash::io::{Never, NoProgress};
use gix_hash::{Kind, ObjectId, bytes, oid, verify};
use std::alloc::{AllocError, Global};
use std::process::Abort;
use std::test::Fail;
use streams::{FromSlice, IntoSlice, PipeError, Plain, Sink, Source, hash_all, seal};
use test_devices::{Fault, Reader, Writer};

// The digests of `abc` and of nothing, in FIPS 180-4's own examples.
pub const ABC: &str = "a9993e364706816aba3e25717850c26c9cd0d89d\n";

pub const ABC_256: &str = "ba7816bf8f01cfea414140de5dae2223b00361a396177a9cb410ff61f20015ad\n";

const EMPTY: &str = "da39a3ee5e6b4b0d3255bfef95601890afd80709\n";

const EMPTY_256: &str = "e3b0c44298fc1c149afbf4c8996fb92427ae41e4649b934ca495991b7852b855\n";

// Those of a million letters `a`, too.
const MILLION: &str = "34aa973cd4c4daa4f61eeb2bdbad27316534016f\n";

const MILLION_256: &str = "cdc76e5c9914fb9281a1c7e284d73e67f1809a48a497200e046d39ccc7112cd0\n";

// Those of `bbc`, by the program `sha1sum` and its like.
const BBC: &str = "0fbe2a58568b4590569588e52ed6a7da4e91b6ab\n";

const BBC_256: &str = "77e6f78af45f649c5f3b8ebe484a91a144eb203a34a89c8dc5b1c4ca87bc6f71\n";

/// What hashing and sealing `abc` in SHA-1 write.
pub const HASHED: &[u8] = b"a9993e364706816aba3e25717850c26c9cd0d89d\n";

pub const SEALED: &[u8] =
    b"abc\xa9\x99\x3e\x36\x47\x06\x81\x6a\xba\x3e\x25\x71\x78\x50\xc2\x6c\x9c\xd0\xd8\x9d";

/// What connects a source and a sink.
#[derive(Clone, Copy, Debug, PartialEq, Eq)]
enum Pipe {
    Hash,
    Seal,
}

impl Pipe {
    fn run<R: Source, W: Sink>(
        self,
        input: &mut R,
        out: &mut W,
        kind: Kind,
    ) -> Result<(), PipeError>
        requires input { R.has_failed input.old ≡ false }
        requires output { W.has_failed out.old ≡ false }
    {
        match self {
            Pipe::Hash => hash_all(input, out, kind),
            Pipe::Seal => seal(input, out, kind),
        }
    }
}

// A message and the bytes of its digest, which is written in hex digits and a line feed.
pub fn sealed(rt: &(impl Abort + AllocGlobal), message: &[u8], line: &str) -> Vec<u8> {
    let Ok(id) = ObjectId::from_hex(line.trim_end().as_bytes()) else {
        panic!(rt; "a digest does not read: {line}");
    };
    joined(rt.alloc(), message, id.as_slice()).expect(rt, "no memory for a message")
}

fn joined(alloc: Global, message: &[u8], digest: &[u8]) -> Result<Vec<u8>, AllocError> {
    let mut bytes = Vec::new(alloc);
    bytes.extend_from_slice(message)?;
    bytes.extend_from_slice(digest)?;
    Ok(bytes)
}

// Hashes the message in whole chunks, and compares with the digest's line.
fn expect_digest(rt: &impl Abort, kind: Kind, message: &[u8], line: &str) {
    let mut buf = [0; 80];
    let mut hashed = IntoSlice::new(&mut buf);
    let outcome = hash_all(&mut FromSlice::new(message), &mut hashed, kind);
    expect!(rt; outcome.is_ok(), line);
    expect_bytes(rt, hashed.written(), line.as_bytes(), &line);
}

// Seals the message in whole chunks, and compares with the digest's line.
fn expect_sealed(rt: &(impl Abort + AllocGlobal), kind: Kind, message: &[u8], line: &str) {
    let mut out = Plain::new(Vec::new(rt.alloc()));
    let outcome = seal(&mut FromSlice::new(message), &mut out, kind);
    expect!(rt; outcome.is_ok(), line);
    let whole = sealed(rt, message, line);
    expect!(rt; out.into_inner() == whole, line);
}

/// Messages, and the lines of their digests.
pub const MESSAGES: [(Kind, &[u8], &str); 4] = [
    (Kind::Sha1, b"abc", ABC),
    (Kind::Sha256, b"abc", ABC_256),
    (Kind::Sha1, b"", EMPTY),
    (Kind::Sha256, b"", EMPTY_256),
];

#[test]
fn hashes_and_seals(rt: HostRuntime) {
    for &(kind, message, line) in &MESSAGES {
        expect_digest(&rt, kind, message, line);
        expect_sealed(&rt, kind, message, line);
    }
}

#[test]
fn hashes_and_seals_a_million_bytes(rt: HostRuntime) {
    let million = vec![in rt.alloc(); b'a'; 1_000_000].expect(&rt, "no memory for a message");
    for &(kind, line) in &[(Kind::Sha1, MILLION), (Kind::Sha256, MILLION_256)] {
        expect_digest(&rt, kind, &million, line);
        expect_sealed(&rt, kind, &million, line);
    }
}

// Compares the digest at the end of a sealed message with that of all before it, as who reads a
// pack does.
fn verified(sealed: &[u8], kind: Kind) -> Result<Result<(), verify::Error>, Fail> {
    let Some(len) = sealed.len().checked_sub(kind.len_in_bytes()) else {
        return Err(Fail::new("a sealed message is too short"));
    };
    let mut message = &sealed[..len];
    let id = bytes(&mut message, len as u64, kind, &mut NoProgress, &mut Never)?;
    Ok(id.verify(oid::try_from_bytes(&sealed[len..])?))
}

fn expect_verified(rt: &impl Abort, kind: Kind, abc: &str, bbc: &str) -> Result<(), Fail> {
    let mut buf = [0; 80];
    let mut out = IntoSlice::new(&mut buf);
    seal(&mut FromSlice::new(b"abc"), &mut out, kind)?;
    let len = out.written().len().min(80);
    expect!(rt; verified(&buf[..len], kind)?.is_ok(), abc);
    buf[0] = b'b';
    match verified(&buf[..len], kind)? {
        Ok(()) => Err(Fail::new("another message is verified")),
        Err(verify::Error { actual, expected }) => {
            expect!(rt; actual.eq_str(bbc.trim_end()), bbc);
            expect!(rt; expected.eq_str(abc.trim_end()), abc);
            Ok(())
        }
    }
}

#[test]
fn seals_verifiably(rt: HostRuntime) -> Result<(), Fail> {
    expect_verified(&rt, Kind::Sha1, ABC, BBC)?;
    expect_verified(&rt, Kind::Sha256, ABC_256, BBC_256)
}

/// A run between two devices, of `abc` in SHA-1, and what it must give.
#[derive(Clone, Copy)]
struct Run<'a> {
    pipe: Pipe,
    /// The most bytes a read, and the fault.
    read: (usize, Fault),
    /// The most bytes a write, and the fault.
    write: (usize, Fault),
    outcome: Result<(), PipeError>,
    taken: &'a [u8],
    /// How often the devices are called.
    calls: (usize, usize),
}

fn expect_run(rt: &(impl Abort + AllocGlobal), run: &Run<'_>) {
    let (chunk, fault) = run.read;
    let mut input = Plain::new(Reader::new(b"abc", chunk, fault));
    let (chunk, fault) = run.write;
    let mut out = Plain::new(Writer::new(rt.alloc(), chunk, fault));
    let outcome = run.pipe.run(&mut input, &mut out, Kind::Sha1);
    let row = (run.pipe, run.calls);
    expect!(rt; outcome == run.outcome, row);
    let (reads, writes) = run.calls;
    expect!(rt; input.into_inner().calls == reads, row);
    let writer = out.into_inner();
    expect!(rt; writer.calls == writes, row);
    expect_bytes(rt, &writer.bytes, run.taken, &row);
}

// What is right of `abc`, hashed and sealed.
fn right(pipe: Pipe) -> &'static [u8] {
    match pipe {
        Pipe::Hash => HASHED,
        Pipe::Seal => SEALED,
    }
}

// Devices that take whole chunks, and those that take a byte a call.
const FINE: (usize, Fault) = (usize::MAX, Fault::Never);

const SINGLE: (usize, Fault) = (1, Fault::Never);

#[test]
fn ends_over_devices(rt: HostRuntime) {
    for &(pipe, read, write, calls) in &[
        (Pipe::Hash, FINE, FINE, (2, 1)),
        (Pipe::Hash, SINGLE, FINE, (4, 1)),
        (Pipe::Hash, FINE, SINGLE, (2, 41)),
        (Pipe::Seal, FINE, FINE, (2, 2)),
        (Pipe::Seal, SINGLE, FINE, (4, 4)),
        (Pipe::Seal, FINE, SINGLE, (2, 23)),
        (Pipe::Seal, SINGLE, SINGLE, (4, 23)),
    ] {
        let run = Run {
            pipe,
            read,
            write,
            outcome: Ok(()),
            taken: right(pipe),
            calls,
        };
        expect_run(&rt, &run);
    }
}

// The n-th read fails, or the library's loops would try it again.
fn expect_failed_read(rt: &(impl Abort + AllocGlobal), n: usize, fault: Fault) {
    assert!(rt; n >= 1);
    let given = (n - 1).min(3);
    let run = Run {
        pipe: Pipe::Hash,
        read: (1, fault),
        write: (usize::MAX, Fault::Never),
        outcome: Err(PipeError::Input),
        taken: b"",
        calls: (n, 0),
    };
    expect_run(rt, &run);
    let run = Run {
        pipe: Pipe::Seal,
        taken: &b"abc"[..given],
        calls: (n, given),
        ..run
    };
    expect_run(rt, &run);
}

#[test]
fn reports_a_read_that_fails(rt: HostRuntime) {
    for n in 1..=4 {
        expect_failed_read(&rt, n, Fault::AtCall(n));
        expect_failed_read(&rt, n, Fault::InterruptedAt(n));
    }
    expect_failed_read(&rt, 3, Fault::AfterBytes(2));
}

// The n-th write fails, or takes none.
fn expect_failed_write(
    rt: &(impl Abort + AllocGlobal),
    pipe: Pipe,
    n: usize,
    write: (usize, Fault),
) {
    let whole = right(pipe);
    assert!(rt; n >= 1);
    assert!(rt; n <= whole.len());
    let reads = match pipe {
        Pipe::Hash => 4,
        Pipe::Seal => n.min(4),
    };
    let run = Run {
        pipe,
        read: (1, Fault::Never),
        write,
        outcome: Err(PipeError::Output),
        taken: &whole[..n - 1],
        calls: (reads, n),
    };
    expect_run(rt, &run);
}

#[test]
fn reports_a_write_that_fails(rt: HostRuntime) {
    for n in 1..=41 {
        expect_failed_write(&rt, Pipe::Hash, n, (1, Fault::AtCall(n)));
        expect_failed_write(&rt, Pipe::Hash, n, (1, Fault::InterruptedAt(n)));
    }
    for n in 1..=23 {
        expect_failed_write(&rt, Pipe::Seal, n, (1, Fault::AtCall(n)));
        expect_failed_write(&rt, Pipe::Seal, n, (1, Fault::InterruptedAt(n)));
    }
    for &pipe in &[Pipe::Hash, Pipe::Seal] {
        expect_failed_write(&rt, pipe, 1, (0, Fault::Never));
    }
}

// What writers take that have room for a few bytes, or take all after their error, and how often
// both devices are called.
const TAKEN: [(Pipe, Fault, &[u8], (usize, usize)); 6] = [
    (Pipe::Hash, Fault::AfterBytes(5), b"a9993", (2, 2)),
    (Pipe::Hash, Fault::AtCall(1), b"", (2, 1)),
    (Pipe::Seal, Fault::AtCall(1), b"", (1, 1)),
    (Pipe::Seal, Fault::AtCall(2), b"abc", (2, 2)),
    (Pipe::Seal, Fault::AfterBytes(2), b"ab", (1, 2)),
    (Pipe::Seal, Fault::AfterBytes(5), b"abc\xa9\x99", (2, 3)),
];

#[test]
fn reports_a_write_of_more_bytes_that_fails(rt: HostRuntime) {
    for &(pipe, fault, taken, calls) in &TAKEN {
        let run = Run {
            pipe,
            read: FINE,
            write: (usize::MAX, fault),
            outcome: Err(PipeError::Output),
            taken,
            calls,
        };
        expect_run(&rt, &run);
    }
}

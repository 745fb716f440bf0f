//! What is written through a hashing writer.

use crate::expecting::{expect, expect_kind, expect_outcome, expect_text};
use crate::gix_hash_stream::{ABC, EMPTY, THREE_CHUNKS};
use crate::well_known::BLOB;
use gix_hash::{Kind, io};
use std::io::Write;
use std::process::Abort;
use test_devices::{FAILED, Fault, KINDS, Writer};

fn written<W: Write>(out: &mut W, bytes: &[u8]) -> std::io::Result<usize> {
    out.write(bytes)
}

fn flushed<W: Write>(out: &mut W) -> std::io::Result<()> {
    out.flush()
}

// A hashing writer whose inner writer takes at most `chunk` bytes a call.
fn over(rt: &impl AllocGlobal, chunk: usize, fault: Fault) -> io::Write<Writer> {
    io::Write::new(Writer::new(rt.alloc(), chunk, fault), Kind::Sha1)
}

// The write returns how many bytes were taken, or the error.
fn expect_write(
    rt: &(impl Abort + AllocGlobal),
    out: &mut io::Write<Writer>,
    bytes: &[u8],
    want: &str,
) {
    expect_outcome(rt, out.write(bytes), want);
}

// The inner writer takes one byte, then fails, and then takes all.
#[test]
fn hashed_as_far_as_it_was_taken(rt: HostRuntime) {
    let mut out = over(&rt, 1, Fault::AtCall(2));
    expect_write(&rt, &mut out, b"blob 0\0", "1");
    expect_write(&rt, &mut out, b"lob 0\0", FAILED);
    out.inner.chunk = 9;
    expect_write(&rt, &mut out, b"lob 0\0", "6");
    expect!(&rt; out.inner.calls == 3);
    expect!(&rt; out.inner.bytes.as_slice() == b"blob 0\0".as_slice());
    expect_outcome(&rt, out.hash.try_finalize(), BLOB);
}

// One write called the inner writer once, which took these bytes.
fn expect_taken(
    rt: &(impl Abort + AllocGlobal),
    out: io::Write<Writer>,
    outcome: std::io::Result<usize>,
    taken: &[u8],
    digest: &str,
) {
    expect!(rt; (outcome.ok(), out.inner.calls) == (Some(taken.len()), 1), digest);
    expect!(rt; out.inner.bytes.as_slice() == taken, digest);
    expect_outcome(rt, out.hash.try_finalize(), digest);
}

// By the method and by the library's trait.
fn expect_one_write(rt: &(impl Abort + AllocGlobal), bytes: &[u8], chunk: usize, digest: &str) {
    let taken = &bytes[..chunk.min(bytes.len())];
    let mut out = over(rt, chunk, Fault::Never);
    let outcome = out.write(bytes);
    expect_taken(rt, out, outcome, taken, digest);
    let mut out = over(rt, chunk, Fault::Never);
    let outcome = written(&mut out, bytes);
    expect_taken(rt, out, outcome, taken, digest);
}

// However long it is.
#[test]
fn inner_writer_called_once(rt: HostRuntime) {
    for &(text, chunk, digest) in &[
        ("abc", 0, EMPTY),
        ("abc", 2, "da23614e02469a0d7c7bd1bdab5c9c474b1904dc"),
        ("abc", 3, ABC),
        ("abc", 9, ABC),
        ("", usize::MAX, EMPTY),
    ] {
        expect_one_write(&rt, text.as_bytes(), chunk, digest);
    }
    expect_one_write(&rt, &[0; 131071], usize::MAX, THREE_CHUNKS);
}

// The inner writer returns an error of each kind, which is passed on as it is. Each write and each
// flush calls it once, by the method and by the library's trait.
fn expect_passed_on(rt: &(impl Abort + AllocGlobal), kind: std::io::ErrorKind) {
    let mut out = over(rt, 9, Fault::Always(kind));
    expect_kind(rt, out.write(b"abc"), kind);
    expect_kind(rt, written(&mut out, b"abc"), kind);
    expect_kind(rt, out.flush(), kind);
    expect_kind(rt, flushed(&mut out), kind);
    expect!(rt; (out.inner.calls, out.inner.flushes) == (2, 2), kind);
    expect_outcome(rt, out.hash.try_finalize(), EMPTY);
}

#[test]
fn errors_are_the_inner_writers(rt: HostRuntime) {
    for &kind in &KINDS {
        expect_passed_on(&rt, kind);
    }
}

// The flush failed with the device's error.
fn expect_failed(rt: &(impl Abort + AllocGlobal), outcome: std::io::Result<()>) {
    let error = outcome.err().expect(rt, "a failed flush returns Ok");
    expect_text(rt, error, FAILED);
}

#[test]
fn flushes_leave_the_hasher(rt: HostRuntime) {
    let mut out = over(&rt, 9, Fault::Never);
    expect!(&rt; out.write_all(b"abc").is_ok());
    expect!(&rt; out.flush().is_ok());
    expect!(&rt; flushed(&mut out).is_ok());
    out.inner.fault = Fault::AtFlush;
    expect_failed(&rt, out.flush());
    expect_failed(&rt, flushed(&mut out));
    expect!(&rt; (out.inner.flushes, out.inner.calls) == (4, 1));
    expect_outcome(&rt, out.hash.try_finalize(), ABC);
}

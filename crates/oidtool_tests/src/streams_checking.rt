//! Checking what ends with the digest of all before it: digests from outside, and devices that
//! fail.

use crate::expecting::{expect, expect_printed};
use crate::streams_pipe::{ABC, ABC_256, MESSAGES, SEALED, sealed};
use gix_hash::Kind;
use std::process::Abort;
use streams::{Ending, PipeError, Plain, Source, check_seal};
use test_devices::{Fault, Reader};

// The digests of that many letters `a`, by the programs `sha1sum` and `sha256sum`. A source is read
// in chunks of 65536 bytes: a sealed message ends with a chunk, or its digest is in the next one.
const LETTERS: [(usize, &str); 3] = [
    (65516, "886ebc06124d48cca5e41969c1cfd7b75455724f\n"),
    (65536, "79db5888b5d38e10afbdbd14a19cd1caa9044c65\n"),
    (131052, "752ae3e0def5c57fc099604a377a97a71f618015\n"),
];

const LETTERS_256: [(usize, &str); 2] = [
    (
        65504,
        "86a068709672991985c78087ee5afdf4373fcd7379027f17a5b12c65e2d15197\n",
    ),
    (
        131040,
        "fa8e97d6772471aeebeb8a51e0a1e0c1f97f6aae9d19412d7aad1619f538b54a\n",
    ),
];

// The pack of no objects, as `git pack-objects` writes it in a repository of each kind.
const NO_OBJECTS: &[u8] =
    b"PACK\0\0\0\x02\0\0\0\0\x02\x9d\x08\x82\x3b\xd8\xa8\xea\xb5\x10\xad\x6a\xc7\x5c\x82\x3c\xfd\x3e\xd3\x1e";

const NO_OBJECTS_256: &[u8] =
    b"PACK\0\0\0\x02\0\0\0\0\x7e\xd8\x90\xd8\xa4\x57\x60\xf3\xee\xcf\x73\x04\x5b\x1d\x10\x47\x08\x5a\xf4\x77\x6d\xc6\x83\xd7\x8e\xac\x82\x20\x3d\xf1\x99\x3f";

// Checks the bytes, at most `chunk` a read: they end with the digest of the line if it is given,
// and otherwise with other bytes, which are as many as a digest has unless there are fewer.
fn expect_check(rt: &impl Abort, kind: Kind, bytes: &[u8], chunk: usize, line: Option<&str>) {
    let mut input = Plain::new(Reader::new(bytes, chunk, Fault::Never));
    let is_right = match (check_seal(&mut input, kind), line) {
        (Ok(Ending::Sealed(id)), Some(line)) => id.eq_str(line.trim_end()),
        (Ok(Ending::Unsealed { last, .. }), None) => {
            last.is_some() == (bytes.len() >= kind.len_in_bytes())
        }
        _ => false,
    };
    expect!(rt; is_right, (kind, bytes.len(), chunk, line));
}

#[test]
fn finds_what_is_sealed(rt: HostRuntime) {
    for &(kind, message, line) in &MESSAGES {
        let whole = sealed(&rt, message, line);
        for &chunk in &[1, 2, 3, 19, 20, 21, 32, 33, usize::MAX] {
            expect_check(&rt, kind, &whole, chunk, Some(line));
        }
    }
}

#[test]
fn finds_what_git_sealed(rt: HostRuntime) {
    let line = Some("029d08823bd8a8eab510ad6ac75c823cfd3ed31e\n");
    expect_check(&rt, Kind::Sha1, NO_OBJECTS, usize::MAX, line);
    let line = Some("7ed890d8a45760f3eecf73045b1d1047085af4776dc683d78eac82203df1993f\n");
    expect_check(&rt, Kind::Sha256, NO_OBJECTS_256, usize::MAX, line);
}

// Checks the letters, followed by their digest, and the same with the last byte changed.
fn expect_letters(rt: &(impl Abort + AllocGlobal), kind: Kind, count: usize, line: &str) {
    let letters = vec![in rt.alloc(); b'a'; count].expect(rt, "no memory for a message");
    let mut whole = sealed(rt, &letters, line);
    for &chunk in &[31, 4095, 65535, usize::MAX] {
        expect_check(rt, kind, &whole, chunk, Some(line));
    }
    if let Some(last) = whole.last_mut() {
        *last ^= 1;
    }
    expect_check(rt, kind, &whole, usize::MAX, None);
}

#[test]
fn finds_across_chunks(rt: HostRuntime) {
    for &(count, line) in &LETTERS {
        expect_letters(&rt, Kind::Sha1, count, line);
    }
    for &(count, line) in &LETTERS_256 {
        expect_letters(&rt, Kind::Sha256, count, line);
    }
}

// Neither the first `len` bytes are sealed, nor all with the next one changed.
fn expect_unsealed(rt: &impl Abort, kind: Kind, whole: &mut [u8], len: usize) {
    assert!(rt; len < whole.len());
    for &chunk in &[1, usize::MAX] {
        expect_check(rt, kind, &whole[..len], chunk, None);
    }
    whole[len] ^= 0x80;
    expect_check(rt, kind, whole, usize::MAX, None);
    whole[len] ^= 0x80;
}

#[test]
fn finds_what_is_not_sealed(rt: HostRuntime) {
    for &(kind, other, line) in &[
        (Kind::Sha1, Kind::Sha256, ABC),
        (Kind::Sha256, Kind::Sha1, ABC_256),
    ] {
        let mut whole = sealed(&rt, b"abc", line);
        expect_check(&rt, other, &whole, usize::MAX, None);
        for len in 0..whole.len() {
            expect_unsealed(&rt, kind, &mut whole, len);
        }
        whole.push(b'\n').expect(&rt, "no memory for a message");
        expect_check(&rt, kind, &whole, usize::MAX, None);
    }
}

// The last bytes, and the digest of the rest, by the program `sha1sum`.
#[test]
fn gives_both_digests(rt: HostRuntime) {
    let mut input = Plain::new(Reader::new(b"abc0123456789abcdefghij", 5, Fault::Never));
    match check_seal(&mut input, Kind::Sha1) {
        Ok(
            Ending::Unsealed {
                digest,
                last: Some(last),
            },
        ) => {
            expect_printed(&rt, &digest, "a9993e364706816aba3e25717850c26c9cd0d89d");
            expect_printed(&rt, &last, "303132333435363738396162636465666768696a");
        }
        _ => expect!(&rt; false),
    }
}

// The 24th read is the one that finds the end.
#[test]
fn reports_a_read_that_fails(rt: HostRuntime) {
    for n in 1..=24 {
        for &fault in &[Fault::AtCall(n), Fault::InterruptedAt(n)] {
            let mut input = Plain::new(Reader::new(SEALED, 1, fault));
            expect!(&rt; matches!(check_seal(&mut input, Kind::Sha1), Err(PipeError::Input)), n);
            expect!(&rt; input.failed(), n);
            expect!(&rt; input.into_inner().calls == n, n);
        }
    }
}

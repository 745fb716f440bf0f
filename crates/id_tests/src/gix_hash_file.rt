//! Digests of files.

use crate::expecting::{expect, expect_io, expect_outcome};
use crate::gix_hash_stream::{ABC, ABC_256, EMPTY};
use crate::listeners::{Asked, Call, Heard};
use crate::opening::Opening;
use gix_hash::io::{Never, NoProgress};
use gix_hash::{Kind, bytes_of_file};
use std::fs;
use std::io::ErrorKind;
use std::path::Path;
use std::process::Abort;
use std::rt::Files;
use test_devices::KINDS;

const FILE: &str = "six_bytes_to_be_hashed";

fn write_file(rt: &(impl Abort + Files), name: &str, bytes: &[u8]) {
    fs::write(rt, name, bytes).expect(rt, "a file is not written");
}

fn remove_file(rt: &(impl Abort + Files), name: &str) {
    fs::remove_file(rt, name).expect(rt, "a file is not removed");
}

// The digest of the first bytes of the file, which is opened once.
fn expect_first_bytes(
    rt: &(impl Abort + Files + AllocGlobal),
    num_bytes: u64,
    kind: Kind,
    want: &str,
) {
    let files = Opening::new(rt);
    let path = Path::new(FILE);
    let id = bytes_of_file(&files, path, num_bytes, kind, &mut NoProgress, &mut Never);
    expect_outcome(rt, id, want);
    expect!(rt; files.times() == 1, num_bytes);
}

// The last by sha1sum.
#[test]
fn first_bytes_of_a_file(rt: HostRuntime) {
    write_file(&rt, FILE, b"abcdef");
    for &(num_bytes, kind, want) in &[
        (0, Kind::Sha1, EMPTY),
        (3, Kind::Sha1, ABC),
        (3, Kind::Sha256, ABC_256),
        (6, Kind::Sha1, "1f8ac10f23c5b5bc1167bda84b833e5c057a77d2"),
    ] {
        expect_first_bytes(&rt, num_bytes, kind, want);
    }
    remove_file(&rt, FILE);
}

// The file gives no digest because a call on it fails. It was opened once.
fn expect_failure<F: Files>(
    rt: &(impl Abort + AllocGlobal),
    files: &Opening<'_, F>,
    name: &str,
    num_bytes: u64,
    kind: ErrorKind,
    calls: &[Call],
) {
    let mut heard = Heard::new();
    let mut asked = Asked::stopping_at(1);
    let path = Path::new(name);
    let outcome = bytes_of_file(files, path, num_bytes, Kind::Sha1, &mut heard, &mut asked);
    expect_io(rt, outcome, kind);
    heard.expect(rt, calls);
    expect!(rt; (asked.times, files.times()) == (0, 1), name);
}

// If opening fails, its error is returned, of whatever kind and however few bytes are asked for.
fn expect_not_opened(rt: &(impl Abort + Files + AllocGlobal), num_bytes: u64) {
    for &kind in &KINDS {
        let failing = Opening::failing(rt, kind);
        expect_failure(rt, &failing, "not_a_directory", num_bytes, kind, &[]);
    }
    for &(name, kind) in &[
        ("no_file_of_that_name", ErrorKind::NotFound),
        ("", ErrorKind::NotFound),
        ("not_a_directory/file", ErrorKind::NotADirectory),
        ("a\0b", ErrorKind::InvalidInput),
    ] {
        expect_failure(rt, &Opening::new(rt), name, num_bytes, kind, &[]);
    }
}

#[test]
fn files_that_cannot_be_opened(rt: HostRuntime) {
    write_file(&rt, "not_a_directory", b"abc");
    expect_not_opened(&rt, 0);
    expect_not_opened(&rt, 3);
    remove_file(&rt, "not_a_directory");
}

fn expect_interrupted(rt: &(impl Abort + Files + AllocGlobal), name: &str) {
    let mut asked = Asked::stopping_at(1);
    let path = Path::new(name);
    let outcome = bytes_of_file(rt, path, 3, Kind::Sha1, &mut NoProgress, &mut asked);
    expect_outcome(rt, outcome, "Interrupted");
}

// A file of three bytes.
const ABC_FILE: &str = "three_bytes_to_be_hashed";

// A directory opens, and can't be read.
#[test]
fn files_that_give_no_digest(rt: HostRuntime) {
    write_file(&rt, ABC_FILE, b"abc");
    for &(name, num_bytes, kind) in &[
        (ABC_FILE, 4, ErrorKind::UnexpectedEof),
        (ABC_FILE, 70_000, ErrorKind::UnexpectedEof),
        (".", 1, ErrorKind::IsADirectory),
    ] {
        let calls = [Call::Init(Some(num_bytes))];
        expect_failure(&rt, &Opening::new(&rt), name, num_bytes, kind, &calls);
    }
    expect_interrupted(&rt, ABC_FILE);
    remove_file(&rt, ABC_FILE);
}

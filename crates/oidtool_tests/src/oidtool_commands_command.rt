//! The commands that compute digests: their words, and their runs.

use crate::expecting::{expect, expect_shown};
use crate::oidtool_commands_running::{Words, expect_flushed, expect_run};
use crate::streams_pipe::{HASHED, SEALED};
use oidtool_commands::read_command;
use std::fs;
use std::test::Fail;
use test_devices::Fault;

// Words, and the Debug text of what they read as.
const WORDS: [(&[&str], &str); 8] = [
    (&[], "Err(Usage)"),
    (&["find", "4b82"], "Ok(Find { prefix: \"4b82\" })"),
    (
        &["find-change", "LTQM"],
        "Ok(FindChange { letters: \"LTQM\" })",
    ),
    (
        &["find-in", "sha1", "4"],
        "Ok(FindIn { kind: Sha1, prefix: \"4\" })",
    ),
    (&["hash", "sha1"], "Ok(Hash { kind: Sha1 })"),
    (&["seal", "SHA-256"], "Ok(Seal { kind: Sha256 })"),
    (&["hash", "md5"], "Err(BadKind(\"md5\"))"),
    (&["hash-file", "md5", "x", "p"], "Err(BadKind(\"md5\"))"),
];

const NUMBERS: [(&str, &str); 6] = [
    ("+3", "Ok(HashFile { kind: Sha1, count: 3, path: \"p\" })"),
    (
        "18446744073709551615",
        "Ok(HashFile { kind: Sha1, count: 18446744073709551615, path: \"p\" })",
    ),
    (
        "18446744073709551616",
        "Err(BadNumber(\"18446744073709551616\"))",
    ),
    ("-1", "Err(BadNumber(\"-1\"))"),
    ("+", "Err(BadNumber(\"+\"))"),
    ("", "Err(BadNumber(\"\"))"),
];

#[test]
fn reads_kinds_and_numbers(rt: HostRuntime) {
    for &(words, outcome) in &WORDS {
        expect_shown(&rt, read_command(words), outcome, &outcome);
    }
    for &(number, outcome) in &NUMBERS {
        let words = ["hash-file", "sha1", number, "p"];
        expect_shown(&rt, read_command(words.as_slice()), outcome, &number);
    }
}

const HASH: Words = &["hash", "sha1"];

const SEAL: Words = &["seal", "sha1"];

// Over `abc`, a byte a read.
const PIPES: [(Words, Fault, &str, &[u8], usize); 4] = [
    (HASH, Fault::Never, "Ok(1)", HASHED, 4),
    (SEAL, Fault::Never, "Ok(1)", SEALED, 4),
    (HASH, Fault::AtCall(3), "Err(Input)", b"", 3),
    (SEAL, Fault::AtCall(3), "Err(Input)", b"ab", 3),
];

#[test]
fn runs_pipes(rt: HostRuntime) {
    for &(words, fault, outcome, written, reads) in &PIPES {
        let called = expect_run(&rt, words, b"abc", (1, fault), outcome, written);
        expect!(&rt; called == reads, words);
    }
    for &(words, written) in &[(HASH, HASHED), (SEAL, SEALED)] {
        let failing = (1000, Fault::AtFlush);
        expect_flushed(&rt, words, b"abc", failing, "Err(Output)", written, 1);
    }
}

// How many bytes of a file are hashed. The last is no file.
const HASHES: [(&str, &str, &str, &[u8]); 3] = [
    ("3", "oidtool-hashes-files", "Ok(1)", HASHED),
    ("7", "oidtool-hashes-files", "Err(Input)", b""),
    ("3", "oidtool-hashes-no-file", "Err(Input)", b""),
];

#[test]
fn hashes_files(rt: HostRuntime) -> Result<(), Fail> {
    fs::write(&rt, "oidtool-hashes-files", b"abcdef")?;
    for &(count, path, outcome, written) in &HASHES {
        let words = ["hash-file", "sha1", count, path];
        let whole = (usize::MAX, Fault::Never);
        let reads = expect_run(&rt, &words, b"", whole, outcome, written);
        expect!(&rt; reads == 0, words);
    }
    fs::remove_file(&rt, "oidtool-hashes-files")?;
    Ok(())
}

//! The searches in list texts, whole and however a source cuts them: what is found and written, and
//! which error is returned.

use crate::by::{By, EACH};
use crate::expecting::{expect, expect_bytes, expect_text};
use crate::well_known::{
    BLOB, BLOB_256, BLOB_LETTERS, BLOB_TREE, NO_MATCH, TREE, TREE_256, TREE_BLOB, TREE_LETTERS,
    text_of,
};
use find_calls::{Search, search_from};
use gix_hash::Kind;
use std::alloc::{AllocError, Global};
use std::process::Abort;
use std::test::Fail;
use streams::{FromSlice, IntoSlice, MAX_LEN, Plain};
use test_devices::{Fault, Reader};

// A prefix, the parts of a list, the Debug text of the result, and what is written.
type Row = (
    &'static str,
    &'static [&'static str],
    &'static str,
    &'static str,
);

// The well-known ids in order, twice the same, no order, and those of each kind.
const ALL: &[&str] = &[BLOB_256, TREE, TREE_256, BLOB];

const TWICE: &[&str] = &[TREE, TREE];

const UNSORTED: &[&str] = &[BLOB, TREE];

const SHA1: &[&str] = &[TREE, BLOB];

const SHA256: &[&str] = &[BLOB_256, TREE_256];

const TREE_TWICE: &str =
    "4b825dc642cb6eb9a060e54bf8d69288fbee4904\n4b825dc642cb6eb9a060e54bf8d69288fbee4904\n";

const UPPER: &str = "4B825DC642CB6EB9A060E54BF8D69288FBEE4904";

const MIXED: &str = "4b825DC642cb6eb9a060e54bf8d69288fBEE4904\n";

const OPEN_BLOB: &str = "e69de29bb2d1d6434b8b29ae775ad8c2e48c5391";

const ZEROS_41: &str = "00000000000000000000000000000000000000000";

const DIGITS_41: &str = "473a0f4c3be8a93681a267e3b1e9a7dcda1185436";

const NO_PREFIX: &str = "Err(Prefix(Invalid))";

const SHORT: &str = "Err(Prefix(TooShort { hex_len: 3 }))";

const BAD_1: &str = "Err(BadLine { line: 1, error: InvalidHexEncodingLength(2) })";

const BAD_2: &str = "Err(BadLine { line: 2, error: InvalidHexEncodingLength(2) })";

const BAD_3: &str = "Err(BadLine { line: 3, error: InvalidHexEncodingLength(2) })";

const EMPTY_1: &str = "Err(BadLine { line: 1, error: InvalidHexEncodingLength(0) })";

const EMPTY_2: &str = "Err(BadLine { line: 2, error: InvalidHexEncodingLength(0) })";

const NO_DIGIT: &str = "Err(BadLine { line: 1, error: Invalid })";

const TOO_LONG: &str = "Err(PrefixTooLong { hex_len: 41, min: 40 })";

const UNSORTED_2: &str = "Err(Unsorted { line: 2 })";

const UNSORTED_3: &str = "Err(Unsorted { line: 3 })";

const NOT_RISING_2: &str = "Err(NotRising { line: 2 })";

const NOT_RISING_3: &str = "Err(NotRising { line: 3 })";

const BY_HEX: [Row; 22] = [
    ("4b82", ALL, "Ok(1)", TREE),
    (
        "4b82",
        &[BLOB_256, TREE, TREE_256, OPEN_BLOB],
        "Ok(1)",
        TREE,
    ),
    ("4B825dC", ALL, "Ok(1)", TREE),
    ("ffff", ALL, "Ok(0)", NO_MATCH),
    ("473a0f", ALL, "Ok(1)", BLOB_256),
    (DIGITS_41, SHA256, "Ok(1)", BLOB_256),
    ("4b82", &[], "Ok(0)", NO_MATCH),
    ("4b82", &[UPPER], "Ok(1)", TREE),
    ("4b82", &[MIXED], "Ok(1)", TREE),
    ("4b82", TWICE, "Ok(2)", TREE_TWICE),
    (ZEROS_41, ALL, TOO_LONG, NO_MATCH),
    (ZEROS_41, UNSORTED, UNSORTED_2, NO_MATCH),
    (
        "4b82",
        &[TREE, BLOB, BLOB_256, TREE_256],
        UNSORTED_3,
        NO_MATCH,
    ),
    ("4b82", &[TREE, "zz"], BAD_2, NO_MATCH),
    ("4b82", &[BLOB, TREE, "zz"], BAD_3, NO_MATCH),
    ("4b82", &["\n"], EMPTY_1, NO_MATCH),
    ("abc", &[], SHORT, NO_MATCH),
    ("abc", &["zz"], SHORT, NO_MATCH),
    ("abc", &[TREE], SHORT, NO_MATCH),
    ("abcg", &[], NO_PREFIX, NO_MATCH),
    ("abcg", &["zz"], NO_PREFIX, NO_MATCH),
    ("abcg", &[TREE], NO_PREFIX, NO_MATCH),
];

const BY_LETTERS: [Row; 10] = [
    ("LTQM", ALL, "Ok(1)", BLOB_LETTERS),
    ("VoRx", ALL, "Ok(1)", TREE_LETTERS),
    ("zzzz", ALL, "Ok(0)", NO_MATCH),
    ("abcd", ALL, NO_PREFIX, NO_MATCH),
    ("zzz", ALL, SHORT, NO_MATCH),
    ("vorx", UNSORTED, UNSORTED_2, NO_MATCH),
    ("vorx", &[TREE_LETTERS], NO_DIGIT, NO_MATCH),
    ("vorx", SHA1, "Ok(1)", TREE_LETTERS),
    ("vorx", &[TREE, BLOB, TREE], UNSORTED_3, NO_MATCH),
    ("vorx", &[TREE, BLOB, BLOB], "Ok(1)", TREE_LETTERS),
];

const IN_SHA1: [Row; 16] = [
    ("4b82", SHA1, "Ok(1)", TREE),
    ("4", SHA1, "Ok(1)", TREE),
    ("4C", SHA1, "Ok(0)", NO_MATCH),
    ("4b82", &[], "Ok(0)", NO_MATCH),
    ("", SHA1, "Err(Prefix(TooShort { hex_len: 0 }))", NO_MATCH),
    (
        ZEROS_41,
        SHA1,
        "Err(Prefix(TooLong { hex_len: 41 }))",
        NO_MATCH,
    ),
    ("4g", &["zz\n"], NO_PREFIX, NO_MATCH),
    ("4b82", ALL, "Err(WrongKind { line: 1 })", NO_MATCH),
    (
        "4",
        &[TREE, BLOB_256],
        "Err(WrongKind { line: 2 })",
        NO_MATCH,
    ),
    ("4b82", TWICE, NOT_RISING_2, NO_MATCH),
    ("4b82", UNSORTED, NOT_RISING_2, NO_MATCH),
    ("4b82", &[BLOB, TREE, BLOB_256], NOT_RISING_2, NO_MATCH),
    ("4b82", &[BLOB, BLOB_256, "zz"], BAD_3, NO_MATCH),
    ("4", &[TREE, BLOB, TREE], NOT_RISING_3, NO_MATCH),
    ("4", &[TREE, BLOB, BLOB], NOT_RISING_3, NO_MATCH),
    ("e69de", &[TREE, OPEN_BLOB], "Ok(1)", BLOB),
];

const IN_SHA256: [Row; 3] = [
    ("473a0f", SHA256, "Ok(1)", BLOB_256),
    (DIGITS_41, SHA256, "Ok(1)", BLOB_256),
    ("4", &[TREE_256, "zz\n"], BAD_2, NO_MATCH),
];

// Searches in what the reader gives in chunks of that length, and compares the Debug text of the
// result and what was written. Returns how often the reader was called.
fn expect_from(
    rt: &(impl Abort + AllocGlobal),
    by: By,
    prefix: &str,
    list: &[u8],
    (chunk, fault): (usize, Fault),
    want: (&str, &str),
) -> usize {
    let mut input = Plain::new(Reader::new(list, chunk, fault));
    let mut buf = [0; 256];
    let mut out = IntoSlice::new(&mut buf);
    let found = by.find_from(rt, rt.alloc(), prefix, &mut input, &mut out);
    let row = (by, prefix, chunk);
    expect_text(rt, found.as_str(), want.0, &row);
    expect_bytes(rt, out.written(), want.1.as_bytes(), &row);
    input.into_inner().calls
}

// Searches in the list as one text, and cut into chunks, with the same result.
fn expect_list(
    rt: &(impl Abort + AllocGlobal),
    by: By,
    prefix: &str,
    list: &[u8],
    want: (&str, &str),
) {
    let mut buf = [0; 256];
    let mut out = IntoSlice::new(&mut buf);
    let found = by.find(rt, rt.alloc(), prefix, list, &mut out);
    let row = (by, prefix);
    expect_text(rt, found.as_str(), want.0, &row);
    expect_bytes(rt, out.written(), want.1.as_bytes(), &row);
    for &chunk in &[1, 7, 41, 42, usize::MAX] {
        expect_from(rt, by, prefix, list, (chunk, Fault::Never), want);
    }
}

fn expect_rows(rt: &(impl Abort + AllocGlobal), by: By, rows: &[Row]) {
    for &(prefix, parts, outcome, written) in rows {
        let list = text_of(rt, parts);
        expect_list(rt, by, prefix, list.as_bytes(), (outcome, written));
    }
}

#[test]
fn finds_in_lists(rt: HostRuntime) {
    expect_rows(&rt, By::Hex, &BY_HEX);
    expect_rows(&rt, By::Letters, &BY_LETTERS);
    expect_rows(&rt, By::In(Kind::Sha1), &IN_SHA1);
    expect_rows(&rt, By::In(Kind::Sha256), &IN_SHA256);
}

// Lists that each search reads alike, and whether it then finds the empty tree of SHA-1.
const ALIKE: [(&[u8], &str, bool); 10] = [
    (b"4B825dc642cb6eb9a060e54bf8D69288fbee4904\n", "Ok(1)", true),
    (
        b"4b825dc642cb6eb9a060e54bf8d69288fbee4904\ne69de29bb2d1d6434b8b29ae775ad8c2e48c5391",
        "Ok(1)",
        true,
    ),
    (
        b"4b825dc642cb6eb9a060e54bf8d69288fbee4904\r\n",
        "Err(BadLine { line: 1, error: InvalidHexEncodingLength(41) })",
        false,
    ),
    (
        b"\0b825dc642cb6eb9a060e54bf8d69288fbee4904\n",
        NO_DIGIT,
        false,
    ),
    (
        b"\xffb825dc642cb6eb9a060e54bf8d69288fbee4904\n",
        NO_DIGIT,
        false,
    ),
    (
        b"+b825dc642cb6eb9a060e54bf8d69288fbee4904\n",
        NO_DIGIT,
        false,
    ),
    (
        b"4b825dc642cb6eb9a060e54bf8d69288fbee4904\n\n",
        EMPTY_2,
        false,
    ),
    (
        b"4b825dc642cb6eb9a060e54bf8d69288fbee4904\n\ne69de29bb2d1d6434b8b29ae775ad8c2e48c5391\n",
        EMPTY_2,
        false,
    ),
    (b"zz", BAD_1, false),
    (b"", "Ok(0)", false),
];

#[test]
fn reads_lists_alike(rt: HostRuntime) {
    for &by in &EACH {
        let (prefix, line) = match by {
            By::Letters => ("vorx", TREE_LETTERS),
            _ => ("4b82", TREE),
        };
        for &(list, outcome, is_found) in &ALIKE {
            let written = if is_found { line } else { NO_MATCH };
            expect_list(&rt, by, prefix, list, (outcome, written));
        }
    }
}

#[test]
fn reports_the_whole_length_of_a_bad_line(rt: HostRuntime) -> Result<(), Fail> {
    let zeros = vec![in rt.alloc(); b'0'; 70_000]?;
    let want = "Err(BadLine { line: 1, error: InvalidHexEncodingLength(70000) })";
    for &chunk in &[4096, 65_536, usize::MAX] {
        let reader = (chunk, Fault::Never);
        expect_from(&rt, By::Hex, "4b82", &zeros, reader, (want, NO_MATCH));
    }
    Ok(())
}

// Prefixes, lists, the chunks in which they are read and after how many bytes a read fails, the
// outcomes, and how often is read.
const UNREAD: [(&str, &str, (usize, usize), &str, usize); 6] = [
    ("4b82", TREE, (41, 41), "Err(Input)", 2),
    ("4b82", "zz\n", (1, 3), BAD_1, 3),
    ("4b82", "zz", (1, 2), "Err(Input)", 3),
    ("4b82", BAD_AND_TREE, (1, 1000), BAD_1, 3),
    ("abc", BAD_AND_TREE, (1, 0), SHORT, 0),
    ("4b82", BLOB_TREE, (41, 1000), UNSORTED_2, 3),
];

const BAD_AND_TREE: &str = "zz\n4b825dc642cb6eb9a060e54bf8d69288fbee4904\n";

// Ids that are out of order are reported at the end of the list, after which nothing is read.
#[test]
fn reads_nothing_after_a_bad_line(rt: HostRuntime) {
    for &(prefix, list, (chunk, after), outcome, calls) in &UNREAD {
        let reader = (chunk, Fault::AfterBytes(after));
        let want = (outcome, NO_MATCH);
        let called = expect_from(&rt, By::Hex, prefix, list.as_bytes(), reader, want);
        expect!(&rt; called == calls, outcome);
    }
}

// 82 bytes in chunks of 7, and the read that meets the end. Nothing is read after a failure.
#[test]
fn reports_each_read_that_fails(rt: HostRuntime) {
    for &by in &EACH {
        for at in 1..=14 {
            let want = if at < 14 {
                ("Err(Input)", NO_MATCH)
            } else {
                ("Ok(1)", by.line())
            };
            for &fault in &[Fault::AtCall(at), Fault::InterruptedAt(at)] {
                let reader = (7, fault);
                let calls = expect_from(&rt, by, by.prefix(), TREE_BLOB.as_bytes(), reader, want);
                expect!(&rt; calls == at.min(13), (by, at));
            }
        }
    }
}

// Ids of SHA-1, each the number of its line, and further lines.
fn numbers(alloc: Global, lines: usize, more: &[&str]) -> Result<String, AllocError> {
    let mut text = String::new(alloc);
    for n in 0..lines {
        text.push_str(format!(in alloc; "{n:040x}\n")?.as_str())?;
    }
    for line in more {
        text.push_str(line)?;
    }
    Ok(text)
}

// `count` ids of SHA-1 in the list begin with the prefix, and their lines are written.
fn expect_count(rt: &(impl Abort + AllocGlobal), list: &[u8], prefix: &str, count: usize) {
    let mut input = FromSlice::new(list);
    let mut out = Plain::new(Vec::new(rt.alloc()));
    let found = search_from(
        rt.alloc(),
        Search::In(Kind::Sha1),
        prefix,
        &mut input,
        MAX_LEN,
        &mut out,
    );
    expect!(rt; matches!(found, Ok(n) if n == count), prefix);
    expect!(rt; out.into_inner().len() == count.saturating_mul(41), prefix);
}

// Lists that are longer than what is read at once: a source is read in chunks of 65536 bytes, which
// are 1598 lines of 41 bytes and a part of one.
#[test]
fn finds_across_parts(rt: HostRuntime) {
    let list = numbers(rt.alloc(), 4000, &[]).expect(&rt, "no memory for a list");
    for &(prefix, count) in &[
        ("0000000000000000000000000000000000000", 4000),
        ("00000000000000000000000000000000000006", 256),
    ] {
        expect_count(&rt, list.as_bytes(), prefix, count);
    }
}

#[test]
fn reports_a_bad_order_in_a_later_part(rt: HostRuntime) {
    let more = [TREE, BLOB, TREE];
    let list = numbers(rt.alloc(), 4000, &more).expect(&rt, "no memory for a list");
    for &(by, outcome) in &[
        (By::In(Kind::Sha1), "Err(NotRising { line: 4003 })"),
        (By::Hex, "Err(Unsorted { line: 4003 })"),
    ] {
        let whole = (usize::MAX, Fault::Never);
        expect_from(&rt, by, "4b82", list.as_bytes(), whole, (outcome, NO_MATCH));
    }
}

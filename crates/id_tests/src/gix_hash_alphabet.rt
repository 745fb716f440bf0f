//! Texts that are no ids and no prefixes: each reading call by one table of lengths, and letters
//! that are no digits.

use crate::expecting::{expect, tried};
use crate::gix_hash_prefix::beginning;
use crate::well_known::{BLOB_256, BLOB_256_ID};
use gix_hash::prefix::from_hex;
use gix_hash::{ChangeId, Kind, ObjectId, Prefix, decode};
use std::alloc::{AllocError, Global};
use std::process::Abort;

/// What a call returns.
#[derive(Clone, Copy, PartialEq)]
enum Reading {
    /// An id or a prefix of this kind, all of whose digits are 0.
    Zeros(Kind),
    /// The error for a text of another length than that of an id, with its length.
    BadLength,
    /// The error for too few bytes, with their number.
    TooShort,
    /// The error for too many bytes, with their number.
    TooLong,
    /// A byte is no digit.
    Invalid,
}

const ZEROS_41: &str = "00000000000000000000000000000000000000000";

const GS_41: &str = "ggggggggggggggggggggggggggggggggggggggggg";

const GS_65: &str = "ggggggggggggggggggggggggggggggggggggggggggggggggggggggggggggggggg";

use Reading::{BadLength, Invalid, TooLong, TooShort, Zeros};

// Numbers of digits 0, and what the calls return that read an id, a prefix of at least 4 digits,
// and one of at least 1.
const ROWS: [(usize, [Reading; 3]); 11] = [
    (0, [BadLength, TooShort, TooShort]),
    (1, [BadLength, TooShort, SHA1]),
    (3, [BadLength, TooShort, SHA1]),
    (4, [BadLength, SHA1, SHA1]),
    (39, [BadLength, SHA1, SHA1]),
    (40, [SHA1, SHA1, SHA1]),
    (41, [BadLength, SHA256, SHA256]),
    (63, [BadLength, SHA256, SHA256]),
    (64, [SHA256, SHA256, SHA256]),
    (65, [BadLength, TooLong, TooLong]),
    (70000, [BadLength, TooLong, TooLong]),
];

const SHA1: Reading = Zeros(Kind::Sha1);

const SHA256: Reading = Zeros(Kind::Sha256);

impl Reading {
    /// The result for as many letters that are no digits: lengths are tested first.
    fn without_digits(self) -> Reading {
        match self {
            Zeros(_) => Invalid,
            error => error,
        }
    }
}

fn repeated(alloc: Global, letter: char, len: usize) -> Result<String, AllocError> {
    let mut text = String::new(alloc);
    for _ in 0..len {
        text.push(letter)?;
    }
    Ok(text)
}

fn text_of(rt: &(impl Abort + AllocGlobal), letter: char, len: usize) -> String {
    repeated(rt.alloc(), letter, len).expect(rt, "no memory for a text")
}

// The result of reading an id, and the number of bytes in it.
fn expect_id(rt: &impl Abort, reading: Result<ObjectId, decode::Error>, len: usize, want: Reading) {
    let read = match reading {
        Ok(id) => {
            expect!(rt; id.is_null(), len);
            (Zeros(id.kind()), id.kind().len_in_hex())
        }
        Err(decode::Error::InvalidHexEncodingLength(found)) => (BadLength, found),
        Err(decode::Error::Invalid) => (Invalid, len),
    };
    expect!(rt; read == (want, len));
}

// The result of reading a prefix, and the number of bytes in it.
fn expect_prefix(
    rt: &impl Abort,
    reading: Result<Prefix, from_hex::Error>,
    len: usize,
    want: Reading,
) {
    let read = match reading {
        Ok(prefix) => {
            expect!(rt; prefix.as_oid().is_null(), len);
            (Zeros(prefix.as_oid().kind()), prefix.hex_len())
        }
        Err(from_hex::Error::TooShort { hex_len }) => (TooShort, hex_len),
        Err(from_hex::Error::TooLong { hex_len }) => (TooLong, hex_len),
        Err(from_hex::Error::Invalid) => (Invalid, len),
    };
    expect!(rt; read == (want, len));
}

// The calls that read hex.
fn expect_hex(rt: &impl Abort, text: &str, &[id, prefix, nonempty]: &[Reading; 3]) {
    let len = text.len();
    expect_id(rt, ObjectId::from_hex(text.as_bytes()), len, id);
    expect_prefix(rt, Prefix::from_hex(text), len, prefix);
    expect_prefix(rt, tried::<&str, Prefix>(text), len, prefix);
    expect_prefix(rt, Prefix::from_hex_nonempty(text), len, nonempty);
}

// The calls that read the letters `z` to `k`.
fn expect_reverse(rt: &impl Abort, text: &str, &[id, prefix, nonempty]: &[Reading; 3]) {
    let len = text.len();
    let read = match ChangeId::from_reverse_hex(text.as_bytes()) {
        Ok(change) => Ok(ObjectId::from(change)),
        Err(error) => Err(error),
    };
    expect_id(rt, read, len, id);
    expect_prefix(rt, Prefix::from_reverse_hex(text), len, prefix);
    expect_prefix(rt, Prefix::from_reverse_hex_nonempty(text), len, nonempty);
}

fn without_digits(&[id, prefix, nonempty]: &[Reading; 3]) -> [Reading; 3] {
    [
        id.without_digits(),
        prefix.without_digits(),
        nonempty.without_digits(),
    ]
}

// A text of that many letters, by the calls that read hex and by those that read `z` to `k`.
fn expect_repeated(
    rt: &(impl Abort + AllocGlobal),
    letter: char,
    len: usize,
    hex: &[Reading; 3],
    reverse: &[Reading; 3],
) {
    let text = text_of(rt, letter, len);
    expect_hex(rt, text.as_str(), hex);
    expect_reverse(rt, text.as_str(), reverse);
}

// In the alphabet of the other calls the texts have the same lengths, but no digits.
#[test]
fn each_length(rt: HostRuntime) {
    for (len, read) in &ROWS {
        let invalid = without_digits(read);
        expect_repeated(&rt, '0', *len, read, &invalid);
        expect_repeated(&rt, 'z', *len, &invalid, read);
    }
}

// Lengths are in bytes, and only the sixteen letters of an alphabet are digits: the Kelvin sign,
// whose lowercase is `k`, has three bytes.
#[test]
fn letters_that_are_no_digits(rt: HostRuntime) {
    for &(text, len, prefix, nonempty) in &[
        ("é", 2, TooShort, Invalid),
        ("éé", 4, Invalid, Invalid),
        ("+123", 4, Invalid, Invalid),
        ("abcg", 4, Invalid, Invalid),
        ("\u{212a}zzz", 6, Invalid, Invalid),
        (GS_65, 65, TooLong, TooLong),
    ] {
        expect_prefix(&rt, Prefix::from_hex(text), len, prefix);
        expect_prefix(&rt, Prefix::from_hex_nonempty(text), len, nonempty);
        expect_prefix(&rt, Prefix::from_reverse_hex(text), len, prefix);
        expect_prefix(&rt, Prefix::from_reverse_hex_nonempty(text), len, nonempty);
    }
}

#[test]
fn prefixes_of_a_given_kind(rt: HostRuntime) {
    for &(kind, text, hex_len, is_same) in &[
        (Kind::Sha256, "473a0f", 6, true),
        (Kind::Sha1, "473a0f", 6, false),
        (Kind::Sha256, BLOB_256, 64, true),
    ] {
        let prefix = beginning(&rt, &BLOB_256_ID, hex_len);
        let read = Prefix::from_hex_in(kind, text).expect(&rt, "a text that is no prefix");
        expect!(&rt; (read == prefix) == is_same, text);
    }
}

#[test]
fn no_prefixes_of_a_given_kind(rt: HostRuntime) {
    for &(text, len, want) in &[
        ("G", 1, Invalid),
        ("", 0, TooShort),
        (GS_41, 41, TooLong),
        (ZEROS_41, 41, TooLong),
    ] {
        expect_prefix(&rt, Prefix::from_hex_in(Kind::Sha1, text), len, want);
    }
}

//! Prefixes of ids.

use crate::expecting::{
    converted, expect, expect_below, expect_debug, expect_error, expect_fed, expect_outcome,
    expect_same, expect_text,
};
use crate::well_known::{BLOB, BLOB_256, BLOB_256_ID, BLOB_ID, TREE, id};
use gix_hash::prefix::{self, from_hex};
use gix_hash::{Kind, ObjectId, Prefix};
use std::cmp::Ordering;
use std::process::Abort;

fn expect_new(rt: &(impl Abort + AllocGlobal), rows: &[(&str, usize, &str)]) {
    for &(text, hex_len, want) in rows {
        expect_outcome(rt, Prefix::new(id(rt, text).as_oid(), hex_len), want);
    }
}

// Ids, numbers of digits, and what the prefix prints as, or the error.
const BEGINNINGS: [(&str, usize, &str); 6] = [
    (BLOB, 4, "e69d"),
    (BLOB, 40, BLOB),
    (BLOB_256, 6, "473a0f"),
    (BLOB_256, 64, BLOB_256),
    (
        BLOB,
        3,
        "The minimum hex length of a short object id is 4, got 3",
    ),
    (
        BLOB,
        41,
        "An object of kind sha1 cannot be larger than 40 in hex, but 41 was requested",
    ),
];

/// The first digits of an id.
pub fn beginning(rt: &impl Abort, id: &ObjectId, hex_len: usize) -> Prefix {
    Prefix::new(id.as_oid(), hex_len).expect(rt, "a number of digits of no prefix")
}

#[test]
fn beginnings_of_ids(rt: HostRuntime) {
    expect_new(&rt, &BEGINNINGS);
    expect_text(
        &rt,
        beginning(&rt, &BLOB_ID, 4).as_oid(),
        "e69d000000000000000000000000000000000000",
    );
    expect_same(&rt, &beginning(&rt, &BLOB_ID, 40), &converted(BLOB_ID));
}

#[test]
fn beginnings_by_ranges(rt: HostRuntime) {
    let blob = BLOB_ID;
    assert!(rt; 3 <= blob.kind().len_in_bytes());
    expect_text(&rt, blob.to_prefix(0..0), "");
    expect_text(&rt, blob.to_prefix(1..3), "9de2");
}

// Texts, and what the prefix prints as: lengths and other letters are in `bad_texts`.
#[test]
fn read_from_text(rt: HostRuntime) {
    for &(text, want) in &[
        ("e69d", "e69d"),
        ("E69D0", "e69d0"),
        ("35e77c16", "35e77c16"),
    ] {
        expect_outcome(&rt, Prefix::from_hex(text), want);
    }
    expect_outcome(&rt, Prefix::from_hex_nonempty("35e"), "35e");
}

#[test]
fn error_texts(rt: HostRuntime) {
    expect_error(
        &rt,
        from_hex::Error::TooShort { hex_len: 3 },
        "The minimum hex length of a short object id is 4, got 3",
    );
    expect_error(
        &rt,
        from_hex::Error::TooLong { hex_len: 65 },
        "An id cannot be larger than 64 chars in hex, but 65 was requested",
    );
    expect_error(&rt, from_hex::Error::Invalid, "Invalid hex character");
    expect_error(
        &rt,
        prefix::Error::TooShort { hex_len: 2 },
        "The minimum hex length of a short object id is 4, got 2",
    );
    expect_error(
        &rt,
        prefix::Error::TooLong {
            object_kind: Kind::Sha256,
            hex_len: 70,
        },
        "An object of kind sha256 cannot be larger than 64 in hex, but 70 was requested",
    );
}

/// The prefix of these digits.
pub fn read(rt: &impl Abort, digits: &str) -> Prefix {
    Prefix::from_hex(digits).expect(rt, "digits that are no prefix")
}

// By kind first, then by digits, a shorter prefix first.
#[test]
fn order(rt: HostRuntime) {
    for &(lower, upper) in &[("e69d", "e69d0"), ("e69d0", "e69e"), ("e69d", "e69e")] {
        expect_below(&rt, &read(&rt, lower), &read(&rt, upper));
    }
    expect_below(&rt, &read(&rt, "ffff"), &Prefix::from(BLOB_256_ID));
    expect_same(&rt, &read(&rt, "E69D"), &read(&rt, "e69d"));
}

// Prefixes, ids, and the places of the prefixes against them, also where a word of digits ends.
const PLACES: [(&str, &str, Ordering); 12] = [
    ("e69de2a", BLOB, Ordering::Greater),
    ("e69de29", BLOB, Ordering::Equal),
    ("e69de28", BLOB, Ordering::Less),
    ("4b825d", TREE, Ordering::Equal),
    ("473a0f", BLOB_256, Ordering::Equal),
    ("e69de29bb2d1d6434b8b29ae775ad8c2", BLOB, Ordering::Equal),
    ("e69de29bb2d1d6434b8b29ae775ad8c2f", BLOB, Ordering::Greater),
    ("e69de29bb2d1d6434b8b29ae775ad8c2d", BLOB, Ordering::Less),
    (
        "e69de29bb2d1d6434b8b29ae775ad8c2e48c5390",
        BLOB,
        Ordering::Less,
    ),
    (BLOB_256, BLOB_256, Ordering::Equal),
    (
        "473a0f4c3be8a93681a267e3b1e9a7dcda1185436fe141f7749120a303721814",
        BLOB_256,
        Ordering::Greater,
    ),
    (
        "473a0f4c3be8a93681a267e3b1e9a7dcda1185436fe141f7749120a303721812",
        BLOB_256,
        Ordering::Less,
    ),
];

fn place_of(rt: &impl Abort, prefix: &Prefix, candidate: &ObjectId) -> Ordering {
    assert!(rt; prefix.hex_len() <= candidate.kind().len_in_hex());
    prefix.cmp_oid(candidate.as_oid())
}

#[test]
fn places_against_ids(rt: HostRuntime) {
    for &(digits, text, place) in &PLACES {
        let found = place_of(&rt, &read(&rt, digits), &id(&rt, text));
        expect!(&rt; found == place, digits);
    }
}

// The first seven digits of the empty blob, with zeros after them.
const PADDED: [u8; 20] = [
    0xe6, 0x9d, 0xe2, 0x90, 0, 0, 0, 0, 0, 0, 0, 0, 0, 0, 0, 0, 0, 0, 0, 0,
];

#[test]
fn fed_to_a_hash(rt: HostRuntime) {
    let prefix = beginning(&rt, &BLOB_ID, 7);
    expect_fed(&rt, &prefix, &[&PADDED, &[7, 0, 0, 0, 0, 0, 0, 0]]);
}

#[test]
fn written_into_a_buffer(rt: HostRuntime) {
    let prefix = read(&rt, "e69de29");
    assert!(rt; prefix.hex_len() <= 10);
    let mut buffer = [b'#'; 10];
    expect!(&rt; prefix.hex_to_buf(&mut buffer) == "e69de29");
    let mut buffer = [b'#'; 10];
    prefix.put_hex(&mut buffer);
    expect!(&rt; &buffer == b"e69de29###");
    expect_debug(&rt, prefix, "Prefix(e69de29)");
}

//! Ids that own or borrow their bytes.

use crate::expecting::{
    converted, expect, expect_below, expect_debug, expect_error, expect_fed, expect_outcome,
    expect_same, expect_text, parsed, tried,
};
use crate::gix_hash_prefix::beginning;
use crate::well_known::{
    BLOB, BLOB_256, BLOB_256_BYTES, BLOB_256_ID, BLOB_BYTES, BLOB_ID, TREE, TREE_ID, id,
};
use gix_hash::{Kind, ObjectId, decode, oid};
use std::process::Abort;

// Reads by each of the calls that read an id.
fn expect_read(rt: &(impl Abort + AllocGlobal), rows: &[(&str, &str)]) {
    for &(text, want) in rows {
        expect_outcome(rt, ObjectId::from_hex(text.as_bytes()), want);
        expect_outcome(rt, parsed::<ObjectId>(text), want);
    }
}

// Makes ids of the bytes, by each of the calls that test the length.
fn expect_made(rt: &(impl Abort + AllocGlobal), bytes: &[u8], want: &str) {
    expect_outcome(rt, oid::try_from_bytes(bytes), want);
    expect_outcome(rt, tried::<&[u8], oid<'_>>(bytes), want);
    expect_outcome(rt, tried::<&[u8], ObjectId>(bytes), want)
}

#[test]
fn documented_example(rt: HostRuntime) {
    let blob = id(&rt, BLOB);
    expect_debug(&rt, blob, "Sha1(e69de29bb2d1d6434b8b29ae775ad8c2e48c5391)");
    let prefix = beginning(&rt, &blob, 7);
    expect_text(&rt, prefix, "e69de29");
    expect_text(
        &rt,
        prefix.as_oid(),
        "e69de29000000000000000000000000000000000",
    );
}

// Texts, and what the id prints as, or the error.
const TEXTS: [(&str, &str); 8] = [
    (BLOB, BLOB),
    ("E69DE29BB2D1D6434B8B29AE775AD8C2E48C5391", BLOB),
    ("e69DE29bb2d1d6434B8B29ae775ad8c2E48C5391", BLOB),
    (BLOB_256, BLOB_256),
    (
        "473A0F4C3BE8A93681A267E3B1E9A7DCDA1185436FE141F7749120A303721813",
        BLOB_256,
    ),
    (
        "g69de29bb2d1d6434b8b29ae775ad8c2e48c5391",
        "Invalid character encountered",
    ),
    (
        "473a0f4c3be8a93681a267e3b1e9a7dcda1185436fe141f7749120a30372181g",
        "Invalid character encountered",
    ),
    (
        "e69de29bb2d1d6434b8b29ae775ad8c2e48c539/",
        "Invalid character encountered",
    ),
];

#[test]
fn read_from_text(rt: HostRuntime) {
    expect_read(&rt, &TEXTS);
    expect_error(
        &rt,
        decode::Error::InvalidHexEncodingLength(2),
        "A hash sized 2 hexadecimal characters is invalid",
    );
    expect_error(&rt, decode::Error::Invalid, "Invalid character encountered");
}

#[test]
fn compared_with_text(rt: HostRuntime) {
    for &(text, same) in &[
        (BLOB, true),
        ("E69DE29BB2D1D6434B8B29AE775AD8C2E48C5391", false),
        (TREE, false),
        ("e69de29", false),
    ] {
        expect!(&rt; BLOB_ID.eq_str(text) == same, text);
    }
}

#[test]
fn made_from_bytes(rt: HostRuntime) {
    expect_made(&rt, &BLOB_BYTES, BLOB);
    expect_made(&rt, &BLOB_256_BYTES, BLOB_256);
    expect_made(
        &rt,
        &[0; 19],
        "Cannot instantiate git hash from a digest of length 19",
    );
    expect_made(
        &rt,
        &[0; 33],
        "Cannot instantiate git hash from a digest of length 33",
    );
}

#[test]
fn converted_from_bytes(rt: HostRuntime) {
    let blob: ObjectId = converted(BLOB_BYTES);
    let view: oid<'_> = converted(&BLOB_BYTES);
    let wide: ObjectId = converted(BLOB_256_BYTES);
    let wide_view: oid<'_> = converted(&BLOB_256_BYTES);
    expect_text(&rt, blob, BLOB);
    expect_text(&rt, ObjectId::from_bytes_or_panic(&BLOB_BYTES), BLOB);
    expect_text(&rt, converted::<_, ObjectId>(view), BLOB);
    expect_text(&rt, view.to_owned(), BLOB);
    expect_text(&rt, wide, BLOB_256);
    expect!(&rt; wide.eq_oid(wide_view));
}

#[test]
fn written_digest(rt: HostRuntime) {
    let mut digest = Kind::Sha1.null();
    if let Some(first) = digest.as_mut_slice().first_mut() {
        *first = 0xe6;
    }
    expect_text(&rt, digest, "e600000000000000000000000000000000000000");
}

#[test]
fn order(rt: HostRuntime) {
    // Views are ordered by digits only, owned ids by kind first.
    expect_below(&rt, &BLOB_256_ID.as_oid(), &TREE_ID.as_oid());
    expect_below(&rt, &Kind::Sha1.null_ref(), &Kind::Sha256.null_ref());
    expect_same(&rt, &BLOB_256_ID.as_oid(), &id(&rt, BLOB_256).as_oid());
    expect_below(&rt, &TREE_ID, &BLOB_256_ID);
}

#[test]
fn order_in_a_kind(rt: HostRuntime) {
    expect_below(&rt, &TREE_ID, &BLOB_ID);
    expect_same(&rt, &TREE_ID, &id(&rt, TREE));
}

// The id, owned and borrowed, feeds its bytes to a hash.
fn expect_id_fed(rt: &impl Abort, id: &ObjectId, bytes: &[u8]) {
    expect_fed(rt, id, &[bytes]);
    expect_fed(rt, &id.as_oid(), &[bytes]);
}

#[test]
fn fed_to_a_hash(rt: HostRuntime) {
    expect_id_fed(&rt, &BLOB_ID, &BLOB_BYTES);
    expect_id_fed(&rt, &BLOB_256_ID, &BLOB_256_BYTES);
    expect_fed(
        &rt,
        &BLOB_ID.to_hex_with_len(50),
        &[&BLOB_BYTES, &[50, 0, 0, 0, 0, 0, 0, 0]],
    );
}

#[test]
fn printed(rt: HostRuntime) {
    let shown = "Sha256(473a0f4c3be8a93681a267e3b1e9a7dcda1185436fe141f7749120a303721813)";
    expect_debug(&rt, BLOB_256_ID, shown);
    expect_debug(&rt, BLOB_256_ID.as_oid(), shown);
    for &(hex_len, want) in &[(0, ""), (1, "e"), (7, "e69de29"), (50, BLOB), (100, BLOB)] {
        expect_text(&rt, BLOB_ID.to_hex_with_len(hex_len), want);
    }
}

// How many digits two ids share.
const SHARED: [(ObjectId, ObjectId, usize); 4] = [
    (BLOB_ID, BLOB_ID, 40),
    (TREE_ID, BLOB_ID, 0),
    (BLOB_256_ID, TREE_ID, 1),
    (ObjectId::Sha1([0; 20]), ObjectId::Sha256([0; 32]), 40),
];

#[test]
fn shared_digits(rt: HostRuntime) {
    for &(one, other, want) in &SHARED {
        expect!(&rt; one.common_hex_len(other.as_oid()) == want, one);
    }
}

#[test]
fn displays_compared(rt: HostRuntime) {
    // The number of digits asked for counts, not that of the digits printed.
    let asked_50 = BLOB_ID.to_hex_with_len(50);
    expect_below(&rt, &asked_50, &BLOB_ID.to_hex_with_len(100));
    expect_below(&rt, &TREE_ID.to_hex_with_len(100), &asked_50);
    expect_same(
        &rt,
        &BLOB_ID.to_hex(),
        &BLOB_ID.as_oid().to_hex_with_len(40),
    );
}

#[test]
fn written_into_a_buffer(rt: HostRuntime) {
    let blob = BLOB_ID;
    assert!(rt; blob.kind().len_in_hex() == 40);
    let mut buffer = [b'#'; 64];
    expect!(&rt; blob.hex_to_buf(&mut buffer) == BLOB);
    let mut buffer = [b'#'; 64];
    blob.put_hex(&mut buffer);
    expect!(&rt; &buffer == b"e69de29bb2d1d6434b8b29ae775ad8c2e48c5391########################");
}

#[test]
fn verified(rt: HostRuntime) {
    expect!(&rt; BLOB_ID.verify(BLOB_ID.as_oid()).is_ok());
    let error = BLOB_ID
        .verify(TREE_ID.as_oid())
        .err()
        .expect(&rt, "another id is verified");
    expect_error(
        &rt,
        error,
        "Hash was e69de29bb2d1d6434b8b29ae775ad8c2e48c5391, but should have been 4b825dc642cb6eb9a060e54bf8d69288fbee4904",
    );
}

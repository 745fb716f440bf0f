//! Ids in the letters `z` to `k`.

use crate::expecting::{
    converted, expect, expect_below, expect_fed, expect_outcome, expect_same, expect_shown,
    expect_text, parsed,
};
use crate::gix_hash_prefix::beginning;
use crate::well_known::{BLOB, BLOB_256, BLOB_BYTES, BLOB_ID, BLOB_LETTERS, TREE_ID, id};
use gix_hash::{ChangeId, ObjectId, Prefix};
use std::process::Abort;

// The empty tree of SHA-1, and the empty blob of SHA-256.
const TREE_LETTERS: &str = "vorxumntvxnotloqpztzluvokrmtqxrrkollvqzv";

const BLOB_256_LETTERS: &str = "vswpzkvnwolrpqwtrypxtslwoylqpsmnmpyyruvwtklyvykssvqyxzpwzwsxyryw";

// Reads by each of the calls that read a change id.
fn expect_read(rt: &(impl Abort + AllocGlobal), rows: &[(&str, &str)]) {
    for &(text, want) in rows {
        expect_outcome(rt, ChangeId::from_reverse_hex(text.as_bytes()), want);
        expect_outcome(rt, parsed::<ChangeId>(text), want);
    }
}

#[test]
fn spelled(rt: HostRuntime) {
    let blob = ChangeId::from(BLOB_ID);
    expect_text(&rt, blob, BLOB_LETTERS);
    expect_text(&rt, ChangeId::from(TREE_ID), TREE_LETTERS);
    for &(hex_len, want) in &[
        (0, ""),
        (8, "ltqmlxqo"),
        (40, BLOB_LETTERS),
        (100, BLOB_LETTERS),
    ] {
        expect_text(&rt, blob.to_reverse_hex_with_len(hex_len), want);
    }
}

#[test]
fn compared_with_text(rt: HostRuntime) {
    let blob = ChangeId::from(BLOB_ID);
    expect!(&rt; [blob.eq_str(BLOB_LETTERS), blob.eq_str(BLOB)] == [true, false]);
    expect_shown(&rt, &blob);
}

#[test]
fn read_from_text(rt: HostRuntime) {
    expect_read(
        &rt,
        &[
            (BLOB_LETTERS, BLOB_LETTERS),
            ("LTQMLXQOOXMYMTVWVOROXQPLSSUPMRNXLVRNUWQY", BLOB_LETTERS),
            ("VoRxUmNtVxNoTlOqPzTzLuVoKrMtQxRrKoLlVqZv", TREE_LETTERS),
            (BLOB_256_LETTERS, BLOB_256_LETTERS),
            (BLOB, "Invalid character encountered"),
        ],
    );
}

#[test]
fn prefixes(rt: HostRuntime) {
    for &(letters, digits) in &[
        ("LTQM", "e69d"),
        ("ltqmlxq", "e69de29"),
        (BLOB_256_LETTERS, BLOB_256),
        ("0000", "Invalid hex character"),
        ("zzzj", "Invalid hex character"),
    ] {
        expect_outcome(&rt, Prefix::from_reverse_hex(letters), digits);
    }
    let prefix = beginning(&rt, &BLOB_ID, 7);
    expect_text(&rt, prefix.to_reverse_hex(), "ltqmlxq");
}

// The change id is that of the empty blob.
fn expect_blob(rt: &impl Abort, change: ChangeId) {
    expect!(rt; converted::<_, ObjectId>(change) == BLOB_ID);
    expect!(rt; converted::<_, Prefix>(change) == Prefix::from(BLOB_ID));
}

#[test]
fn conversions(rt: HostRuntime) {
    expect_blob(&rt, converted(BLOB_ID));
    expect_blob(&rt, converted(BLOB_ID.as_oid()));
}

#[test]
fn compared(rt: HostRuntime) {
    let blob = ChangeId::from(BLOB_ID);
    expect_below(&rt, &ChangeId::from(TREE_ID), &blob);
    expect_same(&rt, &blob, &ChangeId::from(id(&rt, BLOB)));
    expect_fed(&rt, &blob, &[&BLOB_BYTES]);
}

#[test]
fn displays_compared(rt: HostRuntime) {
    let blob = ChangeId::from(BLOB_ID);
    // The number of digits asked for counts, not that of the digits printed.
    let asked_50 = blob.to_reverse_hex_with_len(50);
    expect_below(&rt, &asked_50, &blob.to_reverse_hex_with_len(100));
    let tree = ChangeId::from(TREE_ID);
    expect_below(&rt, &tree.to_reverse_hex_with_len(100), &asked_50);
    expect_same(
        &rt,
        &blob.to_reverse_hex(),
        &blob.to_reverse_hex_with_len(40),
    );
}

#[test]
fn display_fed_to_a_hash(rt: HostRuntime) {
    let blob = ChangeId::from(BLOB_ID);
    expect_fed(
        &rt,
        &blob.to_reverse_hex_with_len(50),
        &[&BLOB_BYTES, &[50, 0, 0, 0, 0, 0, 0, 0]],
    );
}

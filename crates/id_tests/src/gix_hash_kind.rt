//! Kinds: their names, numbers, lengths and well-known ids.

use crate::expecting::{expect, expect_below, expect_same, expect_text, tried};
use crate::well_known::{BLOB, BLOB_256, TREE, TREE_256};
use gix_hash::{Kind, ObjectId};
use std::process::Abort;

const NULL: &str = "0000000000000000000000000000000000000000";

const NULL_256: &str = "0000000000000000000000000000000000000000000000000000000000000000";

// The id has this text, and is the null id, the empty blob or the empty tree, as is said.
fn expect_one(
    rt: &(impl Abort + AllocGlobal),
    id: ObjectId,
    want: &str,
    (null, blob, tree): (bool, bool, bool),
) {
    expect_text(rt, id, want);
    expect!(rt; id.is_null() == null, want);
    expect!(rt; id.is_empty_blob() == blob, want);
    expect!(rt; id.is_empty_tree() == tree, want);
}

const IS_NULL: (bool, bool, bool) = (true, false, false);

const IS_BLOB: (bool, bool, bool) = (false, true, false);

const IS_TREE: (bool, bool, bool) = (false, false, true);

fn expect_of_kind(rt: &(impl Abort + AllocGlobal), kind: Kind, [null, blob, tree]: [&str; 3]) {
    expect_one(rt, kind.null(), null, IS_NULL);
    expect_one(rt, kind.null_ref().to_owned(), null, IS_NULL);
    expect_one(rt, kind.empty_blob(), blob, IS_BLOB);
    expect_one(rt, kind.empty_tree(), tree, IS_TREE);
}

fn expect_of_id(rt: &(impl Abort + AllocGlobal), kind: Kind, [null, blob, tree]: [&str; 3]) {
    expect_one(rt, ObjectId::null(kind), null, IS_NULL);
    expect_one(rt, ObjectId::empty_blob(kind), blob, IS_BLOB);
    expect_one(rt, ObjectId::empty_tree(kind), tree, IS_TREE);
}

const TEXTS: [&str; 3] = [NULL, BLOB, TREE];

const TEXTS_256: [&str; 3] = [NULL_256, BLOB_256, TREE_256];

// Names, and their kinds, or none where the error returns the name.
const NAMES: [(&str, Option<Kind>); 12] = [
    ("sha1", Some(Kind::Sha1)),
    ("SHA1", Some(Kind::Sha1)),
    ("SHA-1", Some(Kind::Sha1)),
    ("sha256", Some(Kind::Sha256)),
    ("SHA256", Some(Kind::Sha256)),
    ("SHA-256", Some(Kind::Sha256)),
    ("sha-1", None),
    ("Sha1", None),
    ("md5", None),
    ("", None),
    ("sha1 ", None),
    ("SHA-2560", None),
];

#[test]
fn names(rt: HostRuntime) {
    for &(name, kind) in &NAMES {
        expect!(&rt; Kind::from_str(name) == kind.ok_or(name), name);
    }
    expect_text(&rt, Kind::Sha1, "sha1");
    expect_text(&rt, Kind::Sha256, "sha256");
}

const NUMBERS: [(u8, Result<Kind, u8>); 4] = [
    (0, Err(0)),
    (1, Ok(Kind::Sha1)),
    (2, Ok(Kind::Sha256)),
    (3, Err(3)),
];

#[test]
fn numbers(rt: HostRuntime) {
    for &(number, kind) in &NUMBERS {
        expect!(&rt; tried(number) == kind, number);
    }
}

#[test]
fn lengths(rt: HostRuntime) {
    for &(hex_len, kind) in &[
        (0, Some(Kind::Sha1)),
        (40, Some(Kind::Sha1)),
        (41, Some(Kind::Sha256)),
        (64, Some(Kind::Sha256)),
        (65, None),
    ] {
        expect!(&rt; Kind::from_hex_len(hex_len) == kind, hex_len);
    }
}

#[test]
fn order(rt: HostRuntime) {
    expect_below(&rt, &Kind::Sha1, &Kind::Sha256);
    expect_same(&rt, &Kind::Sha256, &Kind::Sha256);
}

#[test]
fn well_known_ids(rt: HostRuntime) {
    expect_of_kind(&rt, Kind::Sha1, TEXTS);
    expect_of_kind(&rt, Kind::Sha256, TEXTS_256);
    expect_of_id(&rt, Kind::Sha1, TEXTS);
    expect_of_id(&rt, Kind::Sha256, TEXTS_256);
}

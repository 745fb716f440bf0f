//! Runs in lists of the well-known ids and in a list of a thousand ids.

use crate::expecting::{expect, expect_text};
use crate::well_known::{BLOB, BLOB_256_ID, BLOB_ID, TREE_256_ID, TREE_ID};
use gix_hash::{Kind, ObjectId, Prefix};
use id_lookup::{Probes, Run, SortedIds, lookup};
use std::process::Abort;

// The ids of the empty blobs and trees, in order.
fn well_known() -> [ObjectId; 4] {
    [
        Kind::Sha256.empty_blob(),
        Kind::Sha1.empty_tree(),
        Kind::Sha256.empty_tree(),
        Kind::Sha1.empty_blob(),
    ]
}

/// The SHA-1 ids whose first four digits are the numbers below a thousand, each followed by zeros.
pub fn thousand() -> [ObjectId; 1000] {
    let mut ids = [ObjectId::Sha1([0; 20]); 1000];
    for number in 0..1000 {
        let mut digest = [0; 20];
        digest[0] = (number / 256) as u8;
        digest[1] = (number % 256) as u8;
        ids[number] = ObjectId::Sha1(digest);
    }
    ids
}

// The run that a look-up gives, by at most `most` asks, and that is found without probes.
fn expect_run(rt: &impl Abort, list: &SortedIds<'_>, prefix: &Prefix, want: Run, most: u64) {
    assert!(rt; prefix.hex_len() <= list.min_hex_len());
    let mut probes = Probes::new(list, *prefix);
    expect!(rt; lookup(&mut probes) == want, prefix);
    expect!(rt; list.find(prefix) == want, prefix);
    expect!(rt; probes.asked() <= most, prefix);
}

/// The prefix of these digits. No digits make the prefix of all ids.
pub fn prefix_of(rt: &impl Abort, digits: &str) -> Prefix {
    match digits {
        "" => Kind::Sha1.null().to_prefix(0..0),
        _ => Prefix::from_hex_nonempty(digits).expect(rt, "digits that are no prefix"),
    }
}

// Rows of digits and runs, by at most `most` asks.
fn expect_runs(rt: &impl Abort, ids: &[ObjectId], most: u64, rows: &[(&str, usize, usize)]) {
    let list = SortedIds::try_new(ids).expect(rt, "ids out of order");
    for &(digits, start, end) in rows {
        expect_run(rt, &list, &prefix_of(rt, digits), Run { start, end }, most);
    }
}

#[test]
fn empty_list(rt: HostRuntime) {
    let list: SortedIds<'_> = SortedIds::try_new(&[]).expect(&rt, "ids out of order");
    expect!(&rt; (list.min_hex_len(), list.len()) == (64, 0));
    expect_runs(&rt, &[], 0, &[("e69d", 0, 0)]);
}

#[test]
fn well_known_ids(rt: HostRuntime) {
    let ids = well_known();
    let list = SortedIds::try_new(&ids).expect(&rt, "ids out of order");
    assert!(rt; list.len() == 4);
    expect!(&rt; (list.min_hex_len(), *list.get(3)) == (40, BLOB_ID));
}

// By the beginnings of one id, of each number of digits.
#[test]
fn runs_of_one(rt: HostRuntime) {
    for hex_len in 1..=40 {
        let digits = BLOB.get(..hex_len).expect(&rt, "the id has fewer digits");
        expect_runs(&rt, &well_known(), 6, &[(digits, 3, 4)]);
    }
}

#[test]
fn runs_of_lists(rt: HostRuntime) {
    expect_runs(
        &rt,
        &well_known(),
        6,
        &[
            ("", 0, 4),
            ("4b82", 1, 2),
            ("4", 0, 2),
            ("5", 2, 2),
            ("473a0f", 0, 1),
            ("6ef1", 2, 3),
            ("ffff", 4, 4),
        ],
    );
    expect_runs(&rt, &[BLOB_ID; 5], 6, &[("e69d", 0, 5), ("", 0, 5)]);
    expect_runs(
        &rt,
        &thousand(),
        20,
        &[("0200", 512, 513), ("03", 768, 1000), ("ffff", 1000, 1000)],
    );
}

#[test]
fn not_sorted(rt: HostRuntime) {
    let error = SortedIds::try_new(&[TREE_ID, BLOB_ID, BLOB_256_ID, TREE_256_ID])
        .err()
        .expect(&rt, "it is accepted as sorted");
    expect_text(
        &rt,
        error,
        "the id at position 2 is below the one before it",
    );
}

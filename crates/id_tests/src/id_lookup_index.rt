//! Indexes of the well-known ids and of a thousand ids.

use crate::expecting::{expect, expect_text};
use crate::id_lookup_search::{prefix_of, thousand};
use crate::well_known::{BLOB_256_ID, BLOB_ID, TREE_256_ID, TREE_ID, id};
use gix_hash::{Kind, ObjectId, Prefix};
use id_lookup::laws::find_own_abbreviation;
use id_lookup::{Answer, Id, IdIndex, Run, lookup_in};
use std::process::Abort;

fn answer_of(run: Run) -> Answer {
    match run.end.saturating_sub(run.start) {
        0 => Answer::None,
        1 => Answer::One(run.start),
        _ => Answer::Many(run),
    }
}

// What an index finds by a prefix, directly and by probes with at most `most` asks.
fn expect_found<I: Id>(
    rt: &impl Abort,
    index: &IdIndex<'_, I>,
    prefix: &Prefix,
    want: Run,
    most: u64,
) {
    assert!(rt; prefix.as_oid().kind() == index.kind());
    expect!(rt; index.find(prefix) == answer_of(want), prefix);
    let mut probes = index.probes(prefix);
    expect!(rt; lookup_in(index.fan_out(), &mut probes) == want, prefix);
    expect!(rt; probes.asked() <= most, prefix);
}

const NOT_ABOVE: &str = "the id at position 1 is not above the one before it";

const NO_INDEXES: [(&[ObjectId], &str); 4] = [
    (
        &[BLOB_256_ID, TREE_ID, TREE_256_ID, BLOB_ID],
        "the id at position 0 is of the other kind",
    ),
    (&[TREE_ID, TREE_ID], NOT_ABOVE),
    (&[BLOB_ID, TREE_ID], NOT_ABOVE),
    (
        &[TREE_ID, BLOB_256_ID],
        "the id at position 1 is of the other kind",
    ),
];

#[test]
fn no_index(rt: HostRuntime) {
    for &(ids, want) in &NO_INDEXES {
        let error = IdIndex::try_new(ids, Kind::Sha1).err();
        expect_text(&rt, error.expect(&rt, "it is accepted as an index"), want);
    }
}

// Rows of digits and what is found by them in an index of these ids.
fn expect_each_found<I: Id>(rt: &impl Abort, ids: &[I], rows: &[(&str, usize, usize, u64)]) {
    let index = IdIndex::try_new(ids, Kind::Sha1).expect(rt, "ids of no index");
    for &(digits, start, end, most) in rows {
        expect_found(rt, &index, &prefix_of(rt, digits), Run { start, end }, most);
    }
}

// The empty tree and the empty blob of SHA-1.
const TWO: [ObjectId; 2] = [TREE_ID, BLOB_ID];

#[test]
fn first_bytes_of_two(rt: HostRuntime) {
    let index = IdIndex::try_new(&TWO, Kind::Sha1).expect(&rt, "ids of no index");
    for &(byte, want) in &[(0x4a, 0), (0x4b, 1), (0xe5, 1), (0xe6, 2), (0xff, 2)] {
        expect!(&rt; index.fan_out().up_to(byte) == want, byte);
    }
}

// Two ids that share four digits, and a third.
fn two_alike(rt: &impl Abort) -> [ObjectId; 3] {
    [
        id(rt, "abcd000000000000000000000000000000000000"),
        id(rt, "abcd100000000000000000000000000000000000"),
        id(rt, "ffff000000000000000000000000000000000000"),
    ]
}

#[test]
fn none_one_and_many(rt: HostRuntime) {
    let none: [ObjectId; 0] = [];
    expect_each_found(&rt, &none, &[("4b82", 0, 0, 0)]);
    expect_each_found(&rt, &TWO, &[("4b82", 0, 1, 2)]);
    let rows = [("abcd", 0, 2, 4), ("abcd1", 1, 2, 4), ("abce", 2, 2, 4)];
    expect_each_found(&rt, &two_alike(&rt), &rows);
    let rows = [
        ("0200", 512, 513, 18),
        ("03", 768, 1000, 16),
        ("0", 0, 1000, 0),
        ("04", 1000, 1000, 0),
    ];
    expect_each_found(&rt, &thousand(), &rows);
}

// A table of digests, one after the other, is a list of ids.
#[test]
fn one_of_a_table(rt: HostRuntime) {
    let mut table = [0; 60];
    table[20] = 0x4b;
    table[21] = 0x82;
    table[40] = 0xe6;
    expect_each_found(&rt, table.as_chunks::<20>().0, &[("4b82", 1, 2, 2)]);
}

// The member at an index has its name, which prints and reads back, and finds only that member.
fn expect_name(rt: &(impl Abort + AllocGlobal), index: &IdIndex<'_>, at: usize, want: &str) {
    assert!(rt; at < index.len());
    let name = index.abbreviate(at);
    expect_text(rt, name, want);
    let read = Prefix::from_hex_in(index.kind(), want).expect(rt, "a name that is no prefix");
    expect!(rt; (read, find_own_abbreviation(index, at)) == (name, Answer::One(at)), want);
}

fn expect_names(rt: &(impl Abort + AllocGlobal), ids: &[ObjectId], names: &[&str]) {
    let index = IdIndex::try_new(ids, Kind::Sha1).expect(rt, "ids of no index");
    expect!(rt; names.len() == index.len());
    for (at, name) in names.iter().enumerate() {
        expect_name(rt, &index, at, name);
    }
}

#[test]
fn shortest_names(rt: HostRuntime) {
    let zeros = "0000000000000000000000000000000000000000";
    let last_one = "0000000000000000000000000000000000000001";
    expect_names(&rt, &[TREE_ID], &["4b82"]);
    expect_names(
        &rt,
        &[id(&rt, zeros), id(&rt, last_one)],
        &[zeros, last_one],
    );
    expect_names(&rt, &two_alike(&rt), &["abcd0", "abcd1", "ffff"]);
}

//! A call of each kind of `callers`: ids that are printed, kept in a set and a map, sorted, and
//! found by typed abbreviations; files of references and a commit, of a repository that Git made.

use crate::expecting::{expect, expect_ids};
use callers::abbreviations::{Resolved, resolve, write_abbreviation};
use callers::checking::{pack_name, write_line};
use callers::commits::read_head;
use callers::references::{read_reference, write_reference};
use callers::sets::{mark_seen, set_offset};
use callers::sorting::sort_into_index;
use gix_hash::Kind;
use std::collections::{BTreeMap, HashSet};
use std::test::Fail;
use test_devices::ids::ids_of;

#[test]
fn printed(rt: HostRuntime) -> Result<(), Fail> {
    let blob = Kind::Sha1.empty_blob();
    let mut out = Vec::new(rt.alloc());
    write_line(blob.as_oid(), &mut out)?;
    expect!(&rt; out.as_slice() == b"e69de29bb2d1d6434b8b29ae775ad8c2e48c5391\n".as_slice());
    let name = pack_name(rt.alloc(), blob.as_oid())?;
    expect!(&rt; name.as_str() == "pack-e69de29bb2d1d6434b8b29ae775ad8c2e48c5391.pack");
    Ok(())
}

#[test]
fn kept(rt: HostRuntime) -> Result<(), Fail> {
    let blob = Kind::Sha1.empty_blob();
    let mut seen = HashSet::new(rt.alloc());
    expect!(&rt; mark_seen(&mut seen, blob)?);
    let mut offsets = BTreeMap::new(rt.alloc());
    expect!(&rt; set_offset(&mut offsets, blob, 12)?.is_none());
    Ok(())
}

// The objects of a repository, by `git rev-list --objects --all`, sorted.
const OBJECTS: [&str; 11] = [
    "1aacd729786f83138b67bef0cd5e8c2028329be7",
    "259ae177f9f667bfc2b0ee070b0d85e7fb7f0129",
    "280bd343acd3b99e6f369110283329b8c3c5be24",
    "2bdf67abb163a4ffb2d7f3f0880c9fe5068ce782",
    "52a9d52e11a1bd7675fe75ae7b770fff944deef2",
    "5626abf0f72e58d7a153368ba57db4c673c0e171",
    "8113e80d2ee4e9c0413244886184bfe73b08c6d4",
    "95cdf64464bed58021df4e8a6feec1a7fb297455",
    "a5512f275d0647248ac9311a2b689f4d142e3e2b",
    "b1ea253509c6004817f83cd7659ab4e6c38b2981",
    "f719efd430d52bcfc8566a43b2eb655688d38871",
];

// Names that are typed, and the number of the objects that they mean; none for what is no prefix.
const TYPED: [(&str, Option<usize>); 5] = [
    ("8113", Some(1)),
    ("F71", Some(1)),
    ("2", Some(3)),
    ("c", Some(0)),
    ("g", None),
];

// The abbreviation is by `git rev-parse --short=4`.
#[test]
fn typed_abbreviations(rt: HostRuntime) -> Result<(), Fail> {
    let mut ids = ids_of(&rt, &OBJECTS)?;
    let index = sort_into_index(&mut ids, Kind::Sha1)?;
    for &(name, want) in &TYPED {
        let count = match resolve(&index, name) {
            Ok(Resolved::Unknown) => Some(0),
            Ok(Resolved::Id(_)) => Some(1),
            Ok(Resolved::Ambiguous(ids)) => Some(ids.len()),
            Err(_) => None,
        };
        expect!(&rt; count == want, name);
    }
    let mut out = Vec::new(rt.alloc());
    if index.len() > 1 {
        write_abbreviation(&index, 1, &mut out)?;
    }
    expect!(&rt; out.as_slice() == b"259a\n".as_slice());
    Ok(())
}

// Files of references, as .git/HEAD and .git/refs/heads/main, and what is none. In names are bytes
// that `git check-ref-format` takes or rejects.
const REFERENCES: [(Kind, &[u8], bool); 22] = [
    (Kind::Sha1, b"ref: refs/heads/main\n", true),
    (
        Kind::Sha1,
        b"8113e80d2ee4e9c0413244886184bfe73b08c6d4\n",
        true,
    ),
    (
        Kind::Sha256,
        b"f3ef7a05e5d18627612467654827cd9f1eec84c2bbef285b492cf5b3a6341bda\n",
        true,
    ),
    (
        Kind::Sha1,
        b"f3ef7a05e5d18627612467654827cd9f1eec84c2bbef285b492cf5b3a6341bda\n",
        false,
    ),
    (
        Kind::Sha1,
        b"8113e80d2ee4e9c0413244886184bfe73b08c6d4",
        false,
    ),
    (Kind::Sha1, b"ref: refs/heads/main", false),
    (Kind::Sha1, b"ref: \n", false),
    (Kind::Sha1, b"ref: refs/heads/main\n\n", false),
    (Kind::Sha1, b"ref: refs/heads/a b\n", false),
    (Kind::Sha1, b"", false),
    (Kind::Sha1, b"ref: !./@{}-_a0\x80\xff\n", true),
    (Kind::Sha1, b"ref: \x00\n", false),
    (Kind::Sha1, b"ref: \x1f\n", false),
    (Kind::Sha1, b"ref: \x20\n", false),
    (Kind::Sha1, b"ref: \x7f\n", false),
    (Kind::Sha1, b"ref: ~\n", false),
    (Kind::Sha1, b"ref: ^\n", false),
    (Kind::Sha1, b"ref: :\n", false),
    (Kind::Sha1, b"ref: ?\n", false),
    (Kind::Sha1, b"ref: *\n", false),
    (Kind::Sha1, b"ref: [\n", false),
    (Kind::Sha1, b"ref: \\\n", false),
];

// What is read is written as the file.
#[test]
fn files_of_references(rt: HostRuntime) -> Result<(), Fail> {
    for &(kind, file, want) in &REFERENCES {
        let mut out = Vec::new(rt.alloc());
        let reference = read_reference(kind, file);
        expect!(&rt; reference.is_some() == want, file);
        if let Some(reference) = reference {
            write_reference(&reference, &mut out)?;
            expect!(&rt; out.as_slice() == file, file);
        }
    }
    Ok(())
}

// By `git cat-file commit`.
const MERGE: &str = "tree 95cdf64464bed58021df4e8a6feec1a7fb297455
parent 1aacd729786f83138b67bef0cd5e8c2028329be7
parent a5512f275d0647248ac9311a2b689f4d142e3e2b
author A <a@example.org> 1700000000 +0000
committer A <a@example.org> 1700000000 +0000

merge
";

#[test]
fn head_of_a_commit(rt: HostRuntime) -> Result<(), Fail> {
    let head = read_head(rt.alloc(), Kind::Sha1, MERGE.as_bytes())?.expect(&rt, "no head");
    expect!(&rt; head.tree.eq_str("95cdf64464bed58021df4e8a6feec1a7fb297455"));
    let parents = [
        "1aacd729786f83138b67bef0cd5e8c2028329be7",
        "a5512f275d0647248ac9311a2b689f4d142e3e2b",
    ];
    expect_ids(&rt, &head.parents, &parents);
    Ok(())
}

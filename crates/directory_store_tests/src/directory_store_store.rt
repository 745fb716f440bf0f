//! Stores in directories that change while they are opened or looked up in, and whose reads fail.

ghost use Rattle.std.specs.Prelude.{◌≡◌, Some};
ghost use Rattle.directory_store.specs.Stores.{only_of};

use crate::expecting::{expect, expect_ids, expect_printed};
use crate::moving::{Move, Moving};
use crate::object_directories::{BOTH, Bytes, Index, LOOSE, PACKED, make};
use directory_store::{DirectoryStore, Error, LooseIds, Purpose};
use gix_hash::{ObjectId, Prefix};
use object_store::{Store, lookup_prefix};
use pack_index::LazyError;
use repositories::ObjectDirectory;
use std::alloc::AllocError;
use std::cell::Cell;
use std::fs::File;
use std::process::Abort;
use std::rt::Files;
use std::test::Fail;
use std::time::{Duration, SystemTime, UNIX_EPOCH};
use std::{fs, io};

// A store with a packed object, a loose one and a pack without its index. Beside it are a pack of
// both, the loose file of the packed one and the index.
const LIVE: [&str; 6] = [
    "live/objects/pack/pack-1.pack",
    "live/objects/pack/pack-3.pack",
    "live/objects/4b/ffffffffffffffffffffffffffffffffffffff",
    "live/new/pack-2.pack",
    "live/new/825dc642cb6eb9a060e54bf8d69288fbee4904",
    "live/old/none",
];

const LIVE_INDEXES: [Index; 3] = [
    ("live/objects/pack/pack-1.idx", &[PACKED]),
    ("live/new/pack-2.idx", &[PACKED, LOOSE]),
    ("live/new/pack-3.idx", &[LOOSE]),
];

const NEW_PACK: (&str, &str) = ("live/new/pack-2.pack", "live/objects/pack/pack-2.pack");

const NEW_INDEX: (&str, &str) = ("live/new/pack-2.idx", "live/objects/pack/pack-2.idx");

const OTHER_INDEX: (&str, &str) = ("live/new/pack-3.idx", "live/objects/pack/pack-3.idx");

const OLD_INDEX: (&str, &str) = ("live/objects/pack/pack-1.idx", "live/old/pack-1.idx");

const OLD_LOOSE: (&str, &str) = (
    "live/objects/4b/ffffffffffffffffffffffffffffffffffffff",
    "live/old/loose",
);

const NEW_LOOSE: (&str, &str) = (
    "live/new/825dc642cb6eb9a060e54bf8d69288fbee4904",
    "live/objects/4b/825dc642cb6eb9a060e54bf8d69288fbee4904",
);

// Moves as by `git gc`: of objects into a pack, from a pack into another, and out of a pack, the
// last as another pack gets its index.
const MOVES: [[Move; 3]; 6] = [
    [(0, NEW_PACK), (0, NEW_INDEX), (1, OLD_LOOSE)],
    [(1, NEW_PACK), (1, NEW_INDEX), (1, OLD_LOOSE)],
    [(2, NEW_PACK), (2, NEW_INDEX), (2, OLD_LOOSE)],
    [(2, NEW_PACK), (2, NEW_INDEX), (2, OLD_INDEX)],
    [(2, NEW_LOOSE), (2, OLD_INDEX), (9, OLD_LOOSE)],
    [(2, NEW_LOOSE), (2, OLD_INDEX), (2, OTHER_INDEX)],
];

// The ids of the store that begin with `4b`, of which the loose objects are listed.
fn find<R: Files<File = File> + AllocGlobal + Clone + Drop>(
    rt: &(impl Abort + AllocGlobal),
    store: &mut DirectoryStore<R>,
) -> Result<Vec<ObjectId>, object_store::Error>
    requires { only_of store.old.loose.which ≡ Some 75 }
{
    let kind = store.object_hash();
    let prefix = Prefix::from_hex_in(kind, "4b").expect(rt, "no prefix");
    assert!(rt; prefix.hex_len() >= 2 && prefix.first_byte() == 0x4b);
    lookup_prefix(rt.alloc(), store, &prefix)
}

// The pack indexes are in the order of their paths.
fn expect_in_order<R: Files<File = File> + AllocGlobal + Clone + Drop>(
    rt: &impl Abort,
    store: &DirectoryStore<R>,
) -> Result<(), Fail> {
    for at in 1..store.indexes().len() {
        expect!(rt; store.index_path(at - 1)? < store.index_path(at)?, at);
    }
    Ok(())
}

// These ids are found, and the pack indexes are in order.
fn expect_found<R: Files<File = File> + AllocGlobal + Clone + Drop>(
    rt: &(impl Abort + AllocGlobal),
    store: &mut DirectoryStore<R>,
    ids: &[&str],
) -> Result<(), Fail>
    requires { only_of store.old.loose.which ≡ Some 75 }
{
    expect_ids(rt, &find(rt, store)?, ids);
    expect_in_order(rt, store)
}

// Opens the store with these moves and `left` reads of directories, and compares the ids that are
// found, or the error.
fn expect_opened<R: Abort + Files<File = File> + AllocGlobal>(
    rt: &R,
    objects: &str,
    moves: &[Move],
    left: usize,
    want: Result<&[&str], &str>,
) -> Result<(), Fail> {
    let (listed, reads, failing) = (Cell::new(0), Cell::new(left), Cell::new(0));
    let moving = Moving {
        rt,
        moves,
        listed: &listed,
        reads: &reads,
        failing: &failing,
    };
    let directory = ObjectDirectory::at(rt, objects)?;
    match DirectoryStore::open(&moving, &directory, LooseIds::WithFirstByte(0x4b)) {
        Ok(mut store) => {
            let ids = want.expect(rt, "a store where an error is wanted");
            let ended = expect_found(rt, &mut store, ids);
            drop(store);
            ended
        }
        Err(error) => {
            expect_printed(rt, error, want.err().unwrap_or("a store"));
            Ok(())
        }
    }
}

const AMPLE: usize = 10_000;

#[test]
fn no_object_is_lost_that_moves(rt: HostRuntime) -> Result<(), Fail> {
    for moves in &MOVES {
        make(&rt, &LIVE, &[], &LIVE_INDEXES)?;
        expect_opened(&rt, "live/objects", moves, AMPLE, Ok(&[PACKED, LOOSE]))?;
        fs::remove_dir_all(&rt, "live")?;
    }
    Ok(())
}

// A pack index that is away whenever the packs are listed again, and comes back as the store is
// read for the next time. It is read 100 times.
#[test]
fn a_store_that_changes_is_read_again(rt: HostRuntime) -> Result<(), Fail> {
    let (home, away) = OLD_INDEX;
    for &(times, want) in &[
        (98, Ok([PACKED, LOOSE].as_slice())),
        (
            100,
            Err("live/objects/pack/pack-1.idx: removed since it was listed"),
        ),
    ] {
        make(&rt, &LIVE, &[], &LIVE_INDEXES)?;
        let mut moves = Vec::new(rt.alloc());
        for n in 0..times {
            moves.push((3 * n + 2, (home, away)))?;
            moves.push((3 * n + 3, (away, home)))?;
        }
        expect_opened(&rt, "live/objects", &moves, AMPLE, want)?;
        fs::remove_dir_all(&rt, "live")?;
    }
    Ok(())
}

// A packed object and a loose one, among files of other names.
const LISTED: [&str; 5] = [
    "listed/objects/pack/pack-1.pack",
    "listed/objects/pack/pack-2.pack",
    "listed/objects/pack/tmp_idx_f0K1Cz",
    "listed/objects/4b/825dc642cb6eb9a060e54bf8d69288fbee4904",
    "listed/objects/4b/tmp_obj_f0K1Cz",
];

const LISTED_INDEXES: [Index; 2] = [
    ("listed/objects/pack/pack-1.idx", &[BOTH]),
    ("listed/objects/pack/pack-2.idx", &[LOOSE]),
];

// The packs are listed, the loose objects, and the packs again. In a directory two names are those
// of itself and of the one above it, and a last read finds the end.
#[test]
fn each_read_of_a_directory_fails_in_turn(rt: HostRuntime) -> Result<(), Fail> {
    make(&rt, &LISTED, &[], &LISTED_INDEXES)?;
    for left in 0..=21 {
        let want = match left {
            0..8 | 13..21 => Err("listed/objects/pack: permission denied"),
            8..13 => Err("listed/objects/4b: permission denied"),
            _ => Ok([PACKED, BOTH, LOOSE].as_slice()),
        };
        expect_opened(&rt, "listed/objects", &[], left, want)?;
    }
    fs::remove_dir_all(&rt, "listed")?;
    Ok(())
}

// A store of 70 packs, of which the last do not stay open, and a loose object.
fn make_many(rt: &HostRuntime) -> Result<(), Fail> {
    make(
        rt,
        &["many/objects/pack/pack-00.pack", MANY_LOOSE],
        &[],
        &[("many/objects/pack/pack-00.idx", &[BOTH])],
    )?;
    for at in 1..70 {
        for &ending in &["pack", "idx"] {
            let from = format!(in rt.alloc(); "many/objects/pack/pack-00.{ending}")?;
            let to = format!(in rt.alloc(); "many/objects/pack/pack-{at:02}.{ending}")?;
            fs::copy(rt, &from, &to)?;
        }
    }
    Ok(())
}

const MANY_LOOSE: &str = "many/objects/4b/ffffffffffffffffffffffffffffffffffffff";

// A loose object that is gone is no fault, and neither is a small pack index: it was read as it was
// opened. A larger one that is gone is one that says so.
fn expect_without_files<R: Files<File = File> + AllocGlobal + Clone + Drop>(
    rt: &(impl Abort + AllocGlobal + Files<File = File>),
    store: &mut DirectoryStore<R>,
) -> Result<(), Fail>
    requires { only_of store.old.loose.which ≡ Some 75 }
{
    expect_in_order(rt, store)?;
    rt.remove_file(MANY_LOOSE)?;
    store.check_loose_files(&Prefix::from_hex("4bff")?)?;
    rt.remove_file("many/objects/pack/pack-69.idx")?;
    let loose = "4bffffffffffffffffffffffffffffffffffffff";
    expect_ids(rt, &find(rt, store)?, &[BOTH, loose]);
    let error = LazyError::Read(io::ErrorKind::NotFound.into());
    let error = object_store::Error::of_index(store.index_path(69)?, error);
    let want = "many/objects/pack/pack-69.idx: removed since it was listed";
    expect_printed(rt, error, want);
    Ok(())
}

#[test]
fn files_may_be_removed_after_opening(rt: HostRuntime) -> Result<(), Fail> {
    make_many(&rt)?;
    let directory = ObjectDirectory::at(&rt, "many/objects")?;
    let mut store = DirectoryStore::open(&rt, &directory, LooseIds::WithFirstByte(0x4b))?;
    let ended = expect_without_files(&rt, &mut store);
    drop(store);
    ended?;
    fs::remove_dir_all(&rt, "many")?;
    Ok(())
}

const FRESH: LooseIds = LooseIds::WithFirstByte(0x4b);

// Refreshes a store, and compares whether it is what it was, and the ids that are found.
fn expect_refreshed<R: Files<File = File> + AllocGlobal + Clone + Drop>(
    rt: &(impl Abort + AllocGlobal),
    store: &mut DirectoryStore<R>,
    now: SystemTime,
    is_same: bool,
    want: &[&str],
) -> Result<(), Fail> {
    expect!(rt; store.refresh(FRESH, now)? == is_same, is_same);
    expect_ids(rt, &find(rt, store)?, want);
    Ok(())
}

// What comes into a store: empty files, files and pack indexes; and the ids that are found then.
type Coming = (
    &'static [&'static str],
    &'static [Bytes],
    &'static [Index],
    &'static [&'static str],
);

// A loose object, a pack and an alternate, each where there was no directory or file.
const COMING: [Coming; 4] = [
    (
        &["fresh/objects/info/none", "fresh/objects/00/none"],
        &[],
        &[],
        &[],
    ),
    (
        &["fresh/objects/4b/ffffffffffffffffffffffffffffffffffffff"],
        &[],
        &[],
        &[LOOSE],
    ),
    (
        &["fresh/objects/pack/pack-1.pack"],
        &[],
        &[("fresh/objects/pack/pack-1.idx", &[BOTH])],
        &[BOTH, LOOSE],
    ),
    (
        &["fresh/other/4b/825dc642cb6eb9a060e54bf8d69288fbee4904"],
        &[("fresh/objects/info/alternates", b"../other\n")],
        &[],
        &[PACKED, BOTH, LOOSE],
    ),
];

// After what comes the store is another, and then the same until it changes.
fn expect_refreshed_as_they_come<R: Files<File = File> + AllocGlobal + Clone + Drop>(
    rt: &(impl Abort + AllocGlobal + Files<File = File>),
    store: &mut DirectoryStore<R>,
    now: SystemTime,
) -> Result<(), Fail> {
    for (empty, files, indexes, want) in &COMING {
        make(rt, empty, files, indexes)?;
        expect_refreshed(rt, store, now, false, want)?;
        expect_refreshed(rt, store, now, true, want)?;
    }
    Ok(())
}

// By the time all states are settled.
#[test]
fn a_store_is_refreshed(rt: HostRuntime) -> Result<(), Fail> {
    make(&rt, COMING[0].0, &[], &[])?;
    let directory = ObjectDirectory::at(&rt, "fresh/objects")?;
    let now = SystemTime::now(&rt)?.checked_add(Duration::from_secs(60));
    let now = now.expect(&rt, "no time");
    let mut store = DirectoryStore::open(&rt, &directory, FRESH)?;
    let ended = expect_refreshed_as_they_come(&rt, &mut store, now);
    drop(store);
    ended?;
    fs::remove_dir_all(&rt, "fresh")?;
    Ok(())
}

// Loose objects are kept by what was asked for, and what may change in the same tick is not.
fn expect_refreshed_each_time<R: Files<File = File> + AllocGlobal + Clone + Drop>(
    rt: &(impl Abort + AllocGlobal + Files<File = File>),
    store: &mut DirectoryStore<R>,
) -> Result<(), Fail> {
    expect_refreshed(rt, store, UNIX_EPOCH, false, &[LOOSE])?;
    expect_refreshed(rt, store, UNIX_EPOCH, false, &[LOOSE])?;
    expect!(rt; !store.refresh(LooseIds::WithFirstByte(0), UNIX_EPOCH)?);
    expect!(rt; store.loose().ids().is_empty());
    expect_refreshed(rt, store, UNIX_EPOCH, false, &[LOOSE])
}

#[test]
fn a_store_is_refreshed_for_other_loose_objects(rt: HostRuntime) -> Result<(), Fail> {
    make(
        &rt,
        &["kept/objects/4b/ffffffffffffffffffffffffffffffffffffff"],
        &[],
        &[],
    )?;
    let directory = ObjectDirectory::at(&rt, "kept/objects")?;
    let mut store = DirectoryStore::open(&rt, &directory, FRESH)?;
    let ended = expect_refreshed_each_time(&rt, &mut store);
    drop(store);
    ended?;
    fs::remove_dir_all(&rt, "kept")?;
    Ok(())
}

// Which openings fail: the one of the look for other loose objects, after which the store is opened
// again, and one of each kind while it is opened: of the directory of packs, of a fan-out
// directory, and of a pack index, also as one of few open files and as the only one.
const FAILING: [u8; 3] = [0b11, 0b101, 0b11_1001];

// After a refresh that failed the next one finds the packs.
fn expect_refreshed_after_failures<R: Files<File = File> + AllocGlobal + Clone + Drop>(
    rt: &(impl Abort + AllocGlobal),
    store: &mut DirectoryStore<R>,
    failing: &Cell<u8>,
    now: SystemTime,
) -> Result<(), Fail> {
    expect_refreshed(rt, store, now, false, &[BOTH])?;
    for bits in &FAILING {
        failing.set(*bits);
        let error = store.refresh(LooseIds::WithFirstByte(0), now).err();
        let error = error.expect(rt, "refreshed where openings fail");
        drop(error);
        failing.set(0);
        expect_refreshed(rt, store, now, false, &[BOTH])?;
        expect_refreshed(rt, store, now, true, &[BOTH])?;
    }
    Ok(())
}

#[test]
fn no_pack_is_lost_by_a_refresh_that_fails(rt: HostRuntime) -> Result<(), Fail> {
    make(
        &rt,
        &["failed/objects/pack/pack-1.pack"],
        &[],
        &[("failed/objects/pack/pack-1.idx", &[BOTH])],
    )?;
    let (listed, reads, failing) = (Cell::new(0), Cell::new(AMPLE), Cell::new(0));
    let moving = Moving {
        rt: &rt,
        moves: &[],
        listed: &listed,
        reads: &reads,
        failing: &failing,
    };
    let directory = ObjectDirectory::at(&rt, "failed/objects")?;
    let now = SystemTime::now(&rt)?.checked_add(Duration::from_secs(60));
    let now = now.expect(&rt, "no time");
    let mut store = DirectoryStore::open(&moving, &directory, FRESH)?;
    let ended = expect_refreshed_after_failures(&rt, &mut store, &failing, now);
    drop(store);
    ended?;
    fs::remove_dir_all(&rt, "failed")?;
    Ok(())
}

// How often directories are listed: those of packs once, as long as they are unchanged, and a
// fan-out directory when the store is opened and when it is refreshed for the first time.
fn expect_listed_once<R: Files<File = File> + AllocGlobal + Clone + Drop>(
    rt: &(impl Abort + AllocGlobal),
    store: &mut DirectoryStore<R>,
    listed: &Cell<usize>,
    now: SystemTime,
) -> Result<(), Fail> {
    expect!(rt; listed.get() == 2, listed.get());
    expect_refreshed(rt, store, now, false, &[BOTH, LOOSE])?;
    expect!(rt; listed.get() == 3, listed.get());
    expect_refreshed(rt, store, now, true, &[BOTH, LOOSE])?;
    expect!(rt; listed.get() == 3, listed.get());
    Ok(())
}

#[test]
fn packs_are_listed_once_to_be_refreshed(rt: HostRuntime) -> Result<(), Fail> {
    make(
        &rt,
        &[
            "once/objects/pack/pack-1.pack",
            "once/objects/4b/ffffffffffffffffffffffffffffffffffffff",
        ],
        &[],
        &[("once/objects/pack/pack-1.idx", &[BOTH])],
    )?;
    let (listed, reads, failing) = (Cell::new(0), Cell::new(AMPLE), Cell::new(0));
    let moving = Moving {
        rt: &rt,
        moves: &[],
        listed: &listed,
        reads: &reads,
        failing: &failing,
    };
    let directory = ObjectDirectory::at(&rt, "once/objects")?;
    let now = SystemTime::now(&rt)?.checked_add(Duration::from_secs(60));
    let now = now.expect(&rt, "no time");
    let purpose = Purpose::Ids;
    let mut store = DirectoryStore::open_for_refresh(&moving, &directory, purpose, FRESH, now)?;
    let ended = expect_listed_once(&rt, &mut store, &listed, now);
    drop(store);
    ended?;
    fs::remove_dir_all(&rt, "once")?;
    Ok(())
}

// One that `packtool` does not print.
#[test]
fn text_of_an_error(rt: HostRuntime) {
    expect_printed(&rt, Error::Memory(AllocError), "out of memory");
}

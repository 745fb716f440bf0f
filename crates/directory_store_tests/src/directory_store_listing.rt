//! Stores that are opened or refreshed while an object moves, before each call in turn.

use crate::changing::{Calls, Changing, Layouts};
use crate::expecting::expect;
use crate::object_directories::LOOSE;
use directory_store::{DirectoryStore, LooseIds, StoreFiles};
use gix_hash::{Kind, ObjectId};
use object_store::Store;
use repositories::ObjectDirectory;
use std::alloc::AllocError;
use std::process::Abort;
use std::test::Fail;
use std::time::{Duration, SystemTime, UNIX_EPOCH};
use test_devices::ids::{ids_of, pack_index};

// The name of the object's loose file, and those of a pack that has it and of another one.
const FILE: &str = "ffffffffffffffffffffffffffffffffffffff\0";

const PACK: &str = "pack-1.idx\0pack-1.pack\0";

const OTHER: &str = "pack-2.idx\0pack-2.pack\0";

// How the object moves, and the time at which the store is refreshed, in seconds since 1970: into
// an alternate and back, with its fan-out directory, without it, and in a pack; and into a pack and
// back. Then the same within one tick, after which the directories have the states that they had:
// into a pack, out of it, and into another one.
const PLANS: [(Layouts, u64); 7] = [
    (
        [
            &[
                ("a", 0, ""),
                ("a/4b", 0, FILE),
                ("a/info", 0, ""),
                ("a/pack", 0, ""),
                ("b", 0, ""),
                ("b/info", 0, ""),
                ("b/pack", 0, ""),
            ],
            &[
                ("a", 1, ""),
                ("a/info", 0, ""),
                ("a/pack", 0, ""),
                ("b", 1, ""),
                ("b/4b", 0, FILE),
                ("b/info", 0, ""),
                ("b/pack", 0, ""),
            ],
            &[
                ("a", 2, ""),
                ("a/4b", 0, FILE),
                ("a/info", 0, ""),
                ("a/pack", 0, ""),
                ("b", 2, ""),
                ("b/info", 0, ""),
                ("b/pack", 0, ""),
            ],
        ],
        1000,
    ),
    (
        [
            &[
                ("a", 0, ""),
                ("a/4b", 0, FILE),
                ("b", 0, ""),
                ("b/4b", 0, ""),
            ],
            &[
                ("a", 0, ""),
                ("a/4b", 1, ""),
                ("b", 0, ""),
                ("b/4b", 1, FILE),
            ],
            &[
                ("a", 0, ""),
                ("a/4b", 2, FILE),
                ("b", 0, ""),
                ("b/4b", 2, ""),
            ],
        ],
        1000,
    ),
    (
        [
            &[
                ("a", 0, ""),
                ("a/pack", 0, PACK),
                ("b", 0, ""),
                ("b/pack", 0, ""),
            ],
            &[
                ("a", 0, ""),
                ("a/pack", 1, ""),
                ("b", 0, ""),
                ("b/pack", 1, PACK),
            ],
            &[
                ("a", 0, ""),
                ("a/pack", 2, PACK),
                ("b", 0, ""),
                ("b/pack", 2, ""),
            ],
        ],
        1000,
    ),
    (
        [
            &[("a", 0, ""), ("a/4b", 0, FILE), ("a/pack", 0, "")],
            &[("a", 0, ""), ("a/4b", 1, ""), ("a/pack", 1, PACK)],
            &[("a", 0, ""), ("a/4b", 2, FILE), ("a/pack", 2, "")],
        ],
        1000,
    ),
    (
        [
            &[("a", 0, ""), ("a/4b", 0, FILE), ("a/pack", 0, "")],
            &[("a", 0, ""), ("a/4b", 0, ""), ("a/pack", 0, PACK)],
            &[("a", 0, ""), ("a/4b", 0, ""), ("a/pack", 0, PACK)],
        ],
        1,
    ),
    (
        [
            &[("a", 0, ""), ("a/4b", 0, ""), ("a/pack", 0, PACK)],
            &[("a", 0, ""), ("a/4b", 0, FILE), ("a/pack", 0, "")],
            &[("a", 0, ""), ("a/4b", 0, FILE), ("a/pack", 0, "")],
        ],
        1,
    ),
    (
        [
            &[("a", 0, ""), ("a/pack", 0, PACK)],
            &[("a", 0, ""), ("a/pack", 0, OTHER)],
            &[("a", 0, ""), ("a/pack", 0, OTHER)],
        ],
        1,
    ),
];

const FRESH: LooseIds = LooseIds::WithFirstByte(0x4b);

const OTHER_BYTE: LooseIds = LooseIds::WithFirstByte(0);

// The object directory `a`, whose alternate is `b` if that is there.
fn directory_of(rt: &impl AllocGlobal, layouts: &Layouts) -> Result<ObjectDirectory, AllocError> {
    let mut alternates = Vec::new(rt.alloc());
    if layouts[0].iter().any(|listed| listed.0 == "b") {
        alternates.push(String::from_str(rt.alloc(), "b")?)?;
    }
    Ok(ObjectDirectory {
        path: String::from_str(rt.alloc(), "a")?,
        kind: Kind::Sha1,
        alternates,
    })
}

// Whether a store has the object, loose or in a pack.
fn has<R: StoreFiles>(store: &DirectoryStore<R>, id: &ObjectId) -> bool {
    store.loose().contains(id) || !store.indexes().is_empty()
}

// Whether a store that is opened as the directories change has the object.
fn opens<R: StoreFiles>(
    tree: &R,
    directory: &ObjectDirectory,
    calls: &Calls,
    changes: [u32; 2],
    id: &ObjectId,
) -> Result<bool, Fail> {
    calls.begin(changes);
    let store = DirectoryStore::open(tree, directory, FRESH)?;
    Ok(has(&store, id))
}

// The same for a store that was asked for other loose objects before, and is refreshed.
fn refreshes<R: StoreFiles>(
    tree: &R,
    directory: &ObjectDirectory,
    calls: &Calls,
    changes: [u32; 2],
    id: &ObjectId,
    now: SystemTime,
) -> Result<bool, Fail> {
    calls.begin([u32::MAX; 2]);
    let mut store = DirectoryStore::open(tree, directory, OTHER_BYTE)?;
    store.refresh(OTHER_BYTE, now)?;
    calls.begin(changes);
    store.refresh(FRESH, now)?;
    Ok(has(&store, id))
}

// Opens and refreshes the store as the directories change before each call in turn: from the first
// layout on, with both changes one call after the other, and from the second layout on. It has the
// object each time.
fn expect_kept(rt: &(impl Abort + AllocGlobal), layouts: &Layouts, now: u64) -> Result<(), Fail> {
    let id = ObjectId::from_hex(LOOSE.as_bytes())?;
    let index = pack_index(rt.alloc(), Kind::Sha1, &ids_of(rt, &[LOOSE])?, &[])?;
    let calls = Calls::new();
    let tree = Changing {
        alloc: rt.alloc(),
        layouts,
        calls: &calls,
        index: &index,
    };
    let directory = directory_of(rt, layouts)?;
    let now = UNIX_EPOCH.checked_add(Duration::from_secs(now));
    let now = now.expect(rt, "no time");
    let mut last = 0;
    for at in 0..100 {
        if at > last {
            break;
        }
        for changes in &[[at, u32::MAX], [at, at + 1], [0, at]] {
            expect!(rt; opens(&tree, &directory, &calls, *changes, &id)?, changes);
            last = last.max(calls.count());
            expect!(rt; refreshes(&tree, &directory, &calls, *changes, &id, now)?, changes);
            last = last.max(calls.count());
        }
    }
    Ok(())
}

#[test]
fn no_object_is_lost_that_moves_before_a_call(rt: HostRuntime) -> Result<(), Fail> {
    for (layouts, now) in &PLANS {
        expect_kept(&rt, layouts, *now)?;
    }
    Ok(())
}

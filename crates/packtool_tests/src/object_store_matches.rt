//! Look-ups of ids, an abbreviation and locations, where reads and memory fail.

ghost use Rattle.std.specs.Prelude.{ℕ};
ghost use Rattle.object_store.specs.Stores.{IsListed};

use crate::content::{Content, EVERYWHERE, FOUND, LOCATIONS, NAME};
use crate::expecting::{expect, expect_text, text_of};
use crate::memory::{Memory, Reads};
use gix_hash::{ObjectId, Prefix};
use linked_list_allocator::LocalHeap;
use object_store::{Error, Location, Parts, Store, lookup_prefix};
use std::alloc::Allocator;
use std::process::Abort;
use std::test::Fail;

/// The ids of the store that begin with the prefix.
pub fn find<S: Store, A: Allocator + Copy>(
    rt: &impl Abort,
    alloc: A,
    store: &mut S,
    prefix: &str,
) -> Result<Vec<ObjectId, A>, Error>
    requires { (byte : ℕ) → IsListed (S.view store.old) byte }
{
    let kind = store.object_hash();
    let prefix = Prefix::from_hex_in(kind, prefix).expect(rt, "no prefix");
    assert!(rt; prefix.hex_len() >= 2);
    lookup_prefix(alloc, store, &prefix)
}

pub fn expect_ids(rt: &impl Abort, found: &[ObjectId], want: &[&str]) {
    expect!(rt; found.len() == want.len());
    for (id, text) in found.iter().zip(want) {
        expect!(rt; id.eq_str(text), text);
    }
}

// The locations of an object in a store of the id's kind.
fn locations_of<S: Store, A: Allocator + Copy>(
    rt: &impl Abort,
    alloc: A,
    store: &mut S,
    id: &str,
) -> Result<Vec<Location, A>, Error>
    requires { (byte : ℕ) → IsListed (S.view store.old) byte }
{
    let id = ObjectId::from_hex(id.as_bytes()).expect(rt, "no id");
    assert!(rt; id.kind() == store.object_hash());
    Parts::new(alloc, store).locate(&id)
}

fn expect_locations(rt: &impl Abort, found: &[Location], want: &[Location]) {
    expect!(rt; *found == *want);
}

// The abbreviation of an object in a store of the id's kind, of 4 digits or more.
fn name_of<S: Store, A: Allocator + Copy>(
    rt: &impl Abort,
    alloc: A,
    store: &mut S,
    id: &str,
) -> Result<Option<Prefix>, Error>
    requires { (byte : ℕ) → IsListed (S.view store.old) byte }
{
    let id = ObjectId::from_hex(id.as_bytes()).expect(rt, "no id");
    assert!(rt; id.kind() == store.object_hash() && id.kind().len_in_hex() >= 4);
    Parts::new(alloc, store).abbreviate(&id, 4)
}

// A look-up of the ids that begin with `4b`, or of the locations or the abbreviation of the id that
// is everywhere.
#[derive(Clone, Copy)]
enum Asked {
    Ids,
    Locations,
    Name,
}

// Finds what is asked for, or nothing.
fn look_up<S: Store, A: Allocator + Copy>(
    rt: &impl Abort,
    alloc: A,
    store: &mut S,
    asked: Asked,
) -> Result<(), Error>
    requires { (byte : ℕ) → IsListed (S.view store.old) byte }
{
    match asked {
        Asked::Ids => expect_ids(rt, &find(rt, alloc, store, "4b")?, &FOUND),
        Asked::Locations => expect_locations(
            rt,
            &locations_of(rt, alloc, store, EVERYWHERE)?,
            &LOCATIONS,
        ),
        Asked::Name => {
            let name = name_of(rt, alloc, store, EVERYWHERE)?;
            expect!(rt; name.is_some_and(|name| name.eq_str(NAME)));
        }
    }
    Ok(())
}

// Opens the store and looks up with this many reads: the text of the error, if any.
fn outcome(
    rt: &(impl Abort + AllocGlobal),
    content: &Content,
    left: usize,
    asked: Asked,
) -> Result<String, Fail> {
    let reads = Reads::new(left);
    let mut store = match content.open(rt.alloc(), &reads) {
        Ok(store) => store,
        Err(error) => return text_of(rt, error),
    };
    match look_up(rt, rt.alloc(), &mut store, asked) {
        Ok(()) => text_of(rt, "found"),
        Err(error) => text_of(rt, error),
    }
}

// What is found with so many reads. Two open an index, for its length and its head. A look-up of
// ids reads the ids of each index.
const IDS: [&str; 7] = [
    "the pack index cannot be read: permission denied",
    "the pack index cannot be read: permission denied",
    "the pack index cannot be read: permission denied",
    "the pack index cannot be read: permission denied",
    "1.idx: the pack index cannot be read: permission denied",
    "2.idx: the pack index cannot be read: permission denied",
    "found",
];

// One of locations reads the same, and then an offset of each index, and a long one.
const LOCATED: [&str; 6] = [
    "1.idx: the pack index cannot be read: permission denied",
    "2.idx: the pack index cannot be read: permission denied",
    "1.idx: the pack index cannot be read: permission denied",
    "2.idx: the pack index cannot be read: permission denied",
    "2.idx: the pack index cannot be read: permission denied",
    "found",
];

#[test]
fn each_read_fails_in_turn(rt: HostRuntime) -> Result<(), Fail> {
    let content = Content::new(&rt)?;
    for (left, want) in IDS.iter().enumerate() {
        expect_text(&rt, &outcome(&rt, &content, left, Asked::Ids)?, want);
    }
    for (done, want) in LOCATED.iter().enumerate() {
        expect_text(
            &rt,
            &outcome(&rt, &content, 4 + done, Asked::Locations)?,
            want,
        );
    }
    Ok(())
}

// Whether this much memory is enough for a look-up. If not, the error says so. All is given back.
fn is_enough(
    rt: &(impl Abort + AllocGlobal),
    store: &mut Memory<'_>,
    units: usize,
    asked: Asked,
) -> Result<bool, Fail> {
    let heap = LocalHeap::new(rt.alloc(), units.saturating_mul(16))?;
    let outcome = look_up(rt, &heap, store, asked);
    expect!(rt; heap.used() == 0, units);
    let Err(error) = outcome else {
        return Ok(true);
    };
    let text = text_of(rt, error)?;
    expect!(rt; text.ends_with("out of memory") && !text.contains("read"), text);
    Ok(false)
}

// Memory is too little at first, and then enough.
#[test]
fn memory_is_refused(rt: HostRuntime) -> Result<(), Fail> {
    let content = Content::new(&rt)?;
    let reads = Reads::new(100_000);
    let mut store = content.open(rt.alloc(), &reads)?;
    for &asked in &[Asked::Ids, Asked::Locations, Asked::Name] {
        let mut before = false;
        for units in 0..64 {
            let is_enough = is_enough(&rt, &mut store, units, asked)?;
            expect!(&rt; is_enough >= before && !(is_enough && units == 0), units);
            before = is_enough;
        }
        expect!(&rt; before);
    }
    Ok(())
}

// Ids that the store does not have: one that differs from one of it only in its last digit, one
// between two of it, and one with another first byte.
const ABSENT: [&str; 3] = [
    "4b825dc642cb6eb9a060e54bf8d69288fbee4905",
    "4b88000000000000000000000000000000000000",
    "5000000000000000000000000000000000000000",
];

#[test]
fn absent_ids_have_no_name_and_no_location(rt: HostRuntime) -> Result<(), Fail> {
    let content = Content::new(&rt)?;
    let reads = Reads::new(100_000);
    let mut store = content.open(rt.alloc(), &reads)?;
    for id in &ABSENT {
        expect!(&rt; name_of(&rt, rt.alloc(), &mut store, id)?.is_none(), id);
        expect!(&rt; locations_of(&rt, rt.alloc(), &mut store, id)?.is_empty(), id);
    }
    Ok(())
}

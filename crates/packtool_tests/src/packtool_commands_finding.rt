//! What `packtool` prints of a store, where writes and reads fail in turn.

use crate::content::Content;
use crate::expecting::expect;
use crate::memory::{Memory, Reads};
use object_store::Store;
use packtool_commands::{PrefixLines, StoreError, Wanted, abbreviate_all, find_each, locate_each};
use std::process::Abort;
use std::test::Fail;
use streams::{IntoSlice, Sink};

const FOUND: &str =
    "4b825d0000000000000000000000000000000000\n4b825dc642cb6eb9a060e54bf8d69288fbee4904\n";

// The second id has an 8-byte offset in the second pack, and two loose files.
const LOCATED: &str = "4b825d0000000000000000000000000000000000 1.pack 3072
4b825dc642cb6eb9a060e54bf8d69288fbee4904 1.pack 3073
4b825dc642cb6eb9a060e54bf8d69288fbee4904 2.pack 9223372036854775807
4b825dc642cb6eb9a060e54bf8d69288fbee4904 a/loose
4b825dc642cb6eb9a060e54bf8d69288fbee4904 b/loose
";

const NAMED: &str = "000000 0000000000000000000000000000000000000000
4b825d0 4b825d0000000000000000000000000000000000
4b825dc 4b825dc642cb6eb9a060e54bf8d69288fbee4904
4b9000 4b90000000000000000000000000000000000000
e69de29b e69de29bb2d1d6434b8b29ae775ad8c2e48c5391
e69de29c e69de29c00000000000000000000000000000000
ffffff ffffffffffffffffffffffffffffffffffffffff
";

// More than are made when a store is opened and all of it is read.
const AMPLE: usize = 10_000;

// What is asked for: of a prefix alone, or of all ids.
#[derive(Clone, Copy)]
enum Asked {
    Find(&'static str),
    Locate(&'static str),
    Abbreviate,
}

// Does what is asked for over the store.
fn run(
    rt: &(impl Abort + AllocGlobal),
    asked: Asked,
    store: &mut Memory<'_>,
    out: &mut IntoSlice<'_>,
) -> Result<bool, StoreError> {
    let kind = store.object_hash();
    assert!(rt; !out.failed());
    let (Asked::Find(prefix) | Asked::Locate(prefix)) = asked else {
        assert!(rt; kind.len_in_hex() >= 6);
        return abbreviate_all(rt.alloc(), store, 6, out);
    };
    // A single prefix may find more than this.
    let most = 0;
    let lines = PrefixLines::read(rt.alloc(), kind, prefix.as_bytes())?;
    let why = match asked {
        Asked::Find(_) => find_each(rt.alloc(), store, &lines, Wanted::Bare, most, out),
        _ => locate_each(rt.alloc(), store, &lines, Wanted::Bare, most, out),
    };
    Ok(why?.is_none())
}

// Whether a run ends so that writes this many bytes of the text, with this many reads and this much
// room: after all of it, or because a write or a read fails.
fn is_right(
    outcome: &Result<bool, StoreError>,
    text: &str,
    left: usize,
    room: usize,
    written: usize,
) -> bool {
    match outcome {
        Ok(any) => *any != text.is_empty() && written == text.len(),
        Err(StoreError::Output) => written == room && room < text.len() && left == AMPLE,
        Err(StoreError::TooMany) => false,
        Err(StoreError::Store(_)) => written < text.len() && left < AMPLE,
    }
}

// With this many reads and this much room, this many bytes of the text are written, from its
// beginning on.
fn expect_written(
    rt: &(impl Abort + AllocGlobal),
    (asked, text): (Asked, &str),
    left: usize,
    room: usize,
    written: usize,
) -> Result<(), Fail> {
    let content = Content::new(rt)?;
    let reads = Reads::new(left);
    let mut store = content.open(rt.alloc(), &reads)?;
    let mut buf = [0; 512];
    let mut out = IntoSlice::new(buf.get_mut(..room).ok_or("no room")?);
    let outcome = run(rt, asked, &mut store, &mut out);
    let is_right = is_right(&outcome, text, left, room, written);
    let want = text.as_bytes().get(..written);
    expect!(rt; is_right && want == Some(out.written()), (left, room));
    Ok(())
}

#[test]
fn writes_fail_in_turn(rt: HostRuntime) -> Result<(), Fail> {
    for &(asked, text) in &[(Asked::Find("4B8"), FOUND), (Asked::Locate("4B8"), LOCATED)] {
        for room in 0..=text.len() {
            expect_written(&rt, (asked, text), AMPLE, room, room)?;
        }
    }
    for &room in &[0, 1, 47, 48, 49, 100, NAMED.len() - 1, NAMED.len()] {
        expect_written(&rt, (Asked::Abbreviate, NAMED), AMPLE, room, room)?;
    }
    Ok(())
}

// With more room than is needed, and with none where none is.
#[test]
fn writes_all(rt: HostRuntime) -> Result<(), Fail> {
    for &(asked, text, room) in &[
        (Asked::Abbreviate, NAMED, 512),
        (Asked::Locate("fe"), "", 0),
        (Asked::Find("fe"), "", 0),
    ] {
        expect_written(&rt, (asked, text), AMPLE, room, text.len())?;
    }
    Ok(())
}

// How many reads there are before one fails, and how many bytes are written then, of locations and
// of abbreviations. Four reads open the store. Two find the ids to locate. Then one reads the
// offset of the first id, and three those of the second: the long one takes two. For the ids of a
// first byte, each pack that has any is read once, and its lines are written before those of the
// next.
const LOCATED_BY: [(usize, usize); 7] = [
    (4, 0),
    (5, 0),
    (6, 0),
    (7, 0),
    (8, 0),
    (9, 0),
    (10, LOCATED.len()),
];

const NAMED_BY: [(usize, usize); 6] = [
    (4, 0),
    (5, 48),
    (6, 48),
    (7, 194),
    (8, 294),
    (9, NAMED.len()),
];

#[test]
fn reads_fail_in_turn(rt: HostRuntime) -> Result<(), Fail> {
    for left in 4..6 {
        // Nothing is found in part: with no room a write would fail.
        expect_written(&rt, (Asked::Find("4b8"), FOUND), left, 0, 0)?;
    }
    for &(left, written) in &LOCATED_BY {
        expect_written(&rt, (Asked::Locate("4b8"), LOCATED), left, 512, written)?;
    }
    for &(left, written) in &NAMED_BY {
        expect_written(&rt, (Asked::Abbreviate, NAMED), left, 512, written)?;
    }
    Ok(())
}

// Runs over a store whose pack indexes are gone after `left` reads, and each time that it is opened
// again after `again` reads; expects the text, or a failure, and this number of openings.
fn expect_reopened(
    rt: &(impl Abort + AllocGlobal),
    content: &Content,
    (asked, text): (Asked, &str),
    left: usize,
    again: usize,
    reopened: usize,
) -> Result<(), Fail> {
    let reads = Reads::gone(left, again, 20);
    let mut store = content.open(rt.alloc(), &reads)?;
    let mut buf = [0; 1024];
    let mut out = IntoSlice::new(&mut buf);
    let is_right = match run(rt, asked, &mut store, &mut out) {
        Ok(any) => any && out.written() == text.as_bytes(),
        Err(StoreError::Store(_)) => again == 0 && out.written().is_empty(),
        Err(_) => false,
    };
    let opened = 20usize.saturating_sub(reads.times());
    expect!(rt; is_right && opened == reopened, (left, again, reopened));
    Ok(())
}

// A store whose pack index is gone is opened again, 9 times at most for one look-up, and each line
// is written once.
#[test]
fn opens_again(rt: HostRuntime) -> Result<(), Fail> {
    let content = Content::new(&rt)?;
    for &asked in &[(Asked::Find("4b8"), FOUND), (Asked::Locate("4b8"), LOCATED)] {
        expect_reopened(&rt, &content, asked, 4, AMPLE, 1)?;
        expect_reopened(&rt, &content, asked, 5, AMPLE, 1)?;
        expect_reopened(&rt, &content, asked, 4, 0, 9)?;
    }
    expect_reopened(&rt, &content, (Asked::Locate("4b8"), LOCATED), 9, AMPLE, 1)?;
    for &left in &[4, 5, 6, 7, 8] {
        expect_reopened(&rt, &content, (Asked::Abbreviate, NAMED), left, AMPLE, 1)?;
    }
    expect_reopened(&rt, &content, (Asked::Abbreviate, NAMED), 4, 0, 9)
}

// The abbreviations of ids with 11 first bytes, each of which takes one read.
const SPREAD_ABBREVIATED: &str = "000000 0000000000000000000000000000000000000000
111111 1111111111111111111111111111111111111111
222222 2222222222222222222222222222222222222222
333333 3333333333333333333333333333333333333333
444444 4444444444444444444444444444444444444444
555555 5555555555555555555555555555555555555555
666666 6666666666666666666666666666666666666666
777777 7777777777777777777777777777777777777777
888888 8888888888888888888888888888888888888888
999999 9999999999999999999999999999999999999999
aaaaaa aaaaaaaaaaaaaaaaaaaaaaaaaaaaaaaaaaaaaaaa
";

// For all ids it may be opened again more often: once for each first byte here.
#[test]
fn opens_again_for_each_first_byte(rt: HostRuntime) -> Result<(), Fail> {
    let content = Content::spread(&rt)?;
    expect_reopened(
        &rt,
        &content,
        (Asked::Abbreviate, SPREAD_ABBREVIATED),
        4 + 1,
        1,
        10,
    )
}

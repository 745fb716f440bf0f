//! What is printed for each line of a text, where writes, reads and memory fail in turn.

use crate::content::Content;
use crate::expecting::{expect, text_of};
use crate::memory::{Memory, Reads};
use linked_list_allocator::LocalHeap;
use object_store::Store;
use packtool_commands::{
    NoAnswer, PrefixLines, StoreError, Wanted, abbreviate_each, find_each, locate_each,
};
use std::alloc::{AllocError, Allocator, Global};
use std::process::Abort;
use std::test::Fail;
use streams::{IntoSlice, Sink};

// A prefix of one id, one in upper case, one of two ids and one of none; an empty line, one with a
// carriage return and one that is no prefix; and one without a line feed.
const LINES: &str = "4b9\n4B825DC\n4b8\nfe\n\n4b9\r\nx\nff";

const FOUND: &str = "4b9 4b90000000000000000000000000000000000000
4B825DC 4b825dc642cb6eb9a060e54bf8d69288fbee4904
4b8 4b825d0000000000000000000000000000000000
4b8 4b825dc642cb6eb9a060e54bf8d69288fbee4904
fe missing
 bad
4b9\r bad
x bad
ff ffffffffffffffffffffffffffffffffffffffff
";

const FOUND_ONE: &str = "4b90000000000000000000000000000000000000
4b825dc642cb6eb9a060e54bf8d69288fbee4904
4b8 ambiguous
fe missing
 bad
4b9\r bad
x bad
ffffffffffffffffffffffffffffffffffffffff
";

const LOCATED: &str = "4b9 4b90000000000000000000000000000000000000 2.pack 3074
4B825DC 4b825dc642cb6eb9a060e54bf8d69288fbee4904 1.pack 3073
4B825DC 4b825dc642cb6eb9a060e54bf8d69288fbee4904 2.pack 9223372036854775807
4B825DC 4b825dc642cb6eb9a060e54bf8d69288fbee4904 a/loose
4B825DC 4b825dc642cb6eb9a060e54bf8d69288fbee4904 b/loose
4b8 4b825d0000000000000000000000000000000000 1.pack 3072
4b8 4b825dc642cb6eb9a060e54bf8d69288fbee4904 1.pack 3073
4b8 4b825dc642cb6eb9a060e54bf8d69288fbee4904 2.pack 9223372036854775807
4b8 4b825dc642cb6eb9a060e54bf8d69288fbee4904 a/loose
4b8 4b825dc642cb6eb9a060e54bf8d69288fbee4904 b/loose
fe missing
 bad
4b9\r bad
x bad
ff ffffffffffffffffffffffffffffffffffffffff 1.pack 3075
";

const LOCATED_ONE: &str = "4b90000000000000000000000000000000000000 2.pack 3074
4b825dc642cb6eb9a060e54bf8d69288fbee4904 1.pack 3073
4b825dc642cb6eb9a060e54bf8d69288fbee4904 2.pack 9223372036854775807
4b825dc642cb6eb9a060e54bf8d69288fbee4904 a/loose
4b825dc642cb6eb9a060e54bf8d69288fbee4904 b/loose
4b8 ambiguous
fe missing
 bad
4b9\r bad
x bad
ffffffffffffffffffffffffffffffffffffffff 1.pack 3075
";

const NAMED: &str = "4b9000
4b825dc
4b8 ambiguous
fe missing
 bad
4b9\r bad
x bad
ffffff
";

// What is asked for of each line.
#[derive(Clone, Copy, Debug)]
enum Asked {
    Find(Wanted),
    Locate(Wanted),
    Abbreviate,
}

// What is asked for of which lines, whether each line has an answer, and what is printed.
const ROWS: [(Asked, &str, bool, &str); 10] = [
    (Asked::Find(Wanted::All), LINES, false, FOUND),
    (Asked::Find(Wanted::One), LINES, false, FOUND_ONE),
    (Asked::Locate(Wanted::All), LINES, false, LOCATED),
    (Asked::Locate(Wanted::One), LINES, false, LOCATED_ONE),
    (Asked::Abbreviate, LINES, false, NAMED),
    (
        Asked::Find(Wanted::One),
        "4b9\n",
        true,
        "4b90000000000000000000000000000000000000\n",
    ),
    (
        Asked::Locate(Wanted::One),
        "4b9\n",
        true,
        "4b90000000000000000000000000000000000000 2.pack 3074\n",
    ),
    (Asked::Abbreviate, "4b9\nff", true, "4b9000\nffffff\n"),
    (Asked::Locate(Wanted::One), "4b\n", false, "4b ambiguous\n"),
    (Asked::Find(Wanted::BareOne), "4b8", false, ""),
];

// More than are made when a store is opened and all of it is read.
const AMPLE: usize = 10_000;

// More than the lines find.
const MOST: usize = 10_000;

// Prints what is asked for.
fn run<A: Allocator + Copy>(
    rt: &impl Abort,
    alloc: A,
    (asked, lines): (Asked, &str),
    store: &mut Memory<'_>,
    out: &mut IntoSlice<'_>,
) -> Result<Option<NoAnswer>, StoreError> {
    assert!(rt; !out.failed());
    let lines = PrefixLines::read(alloc, store.object_hash(), lines.as_bytes())?;
    match asked {
        Asked::Find(answers) => find_each(alloc, store, &lines, answers, MOST, out),
        Asked::Locate(answers) => locate_each(alloc, store, &lines, answers, MOST, out),
        Asked::Abbreviate => {
            assert!(rt; store.object_hash().len_in_hex() >= 6);
            abbreviate_each(alloc, store, &lines, 6, MOST, out)
        }
    }
}

// With this many reads and this much room, these many bytes of what is to be printed are, from its
// beginning on: after all of it, or because a write or a read fails.
fn expect_printed(
    rt: &(impl Abort + AllocGlobal),
    (asked, lines, all, text): (Asked, &str, bool, &str),
    left: usize,
    room: usize,
    printed: usize,
) -> Result<(), Fail> {
    let content = Content::new(rt)?;
    let reads = Reads::new(left);
    let mut store = content.open(rt.alloc(), &reads)?;
    let mut buf = [0; 1024];
    let mut out = IntoSlice::new(buf.get_mut(..room).ok_or("no room")?);
    let is_right = match run(rt, rt.alloc(), (asked, lines), &mut store, &mut out) {
        Ok(why) => why.is_none() == all && printed == text.len(),
        Err(StoreError::Output) => room < text.len(),
        Err(StoreError::TooMany) => false,
        Err(StoreError::Store(_)) => left < AMPLE && printed == 0,
    };
    let want = text.as_bytes().get(..printed);
    expect!(rt; is_right && want == Some(out.written()), (asked, left, room));
    Ok(())
}

#[test]
fn writes_fail_in_turn(rt: HostRuntime) -> Result<(), Fail> {
    for row in &ROWS {
        for room in 0..=row.3.len() {
            expect_printed(&rt, *row, AMPLE, room, room)?;
        }
    }
    Ok(())
}

// How many reads each takes: four open the store, and one finds the ids with a first byte in each
// pack that has some: two for 4b, one for ff and none for fe. Then each offset is one more, and a
// long one two; in the last row that of the third id is not read.
const READS: [(usize, usize); 6] = [(0, 7), (1, 7), (2, 16), (3, 16), (4, 7), (8, 10)];

#[test]
fn reads_fail_in_turn(rt: HostRuntime) -> Result<(), Fail> {
    for &(at, reads) in &READS {
        let row = *ROWS.get(at).ok_or("no row")?;
        for left in 4..reads {
            expect_printed(&rt, row, left, 1024, 0)?;
        }
        expect_printed(&rt, row, reads, 1024, row.3.len())?;
    }
    Ok(())
}

// More lines than `packtool` asks for at once.
const MANY: usize = 8_193;

// What is asked for of many equal lines, the line, and what is printed for each.
const MANY_ROWS: [(Asked, &str, &str); 3] = [
    (
        Asked::Find(Wanted::One),
        "4b9\n",
        "4b90000000000000000000000000000000000000\n",
    ),
    (
        Asked::Locate(Wanted::One),
        "4b9\n",
        "4b90000000000000000000000000000000000000 2.pack 3074\n",
    ),
    (Asked::Abbreviate, "4b9\n", "4b9000\n"),
];

// A text, repeated for many lines.
fn repeated(alloc: Global, text: &str) -> Result<String, AllocError> {
    let mut all = String::new(alloc);
    for _ in 0..MANY {
        all.push_str(text)?;
    }
    Ok(all)
}

// Prints what is asked for of many lines.
fn expect_many(
    rt: &(impl Abort + AllocGlobal),
    store: &mut Memory<'_>,
    (asked, line, printed): (Asked, &str, &str),
) -> Result<(), Fail> {
    let (lines, want) = (repeated(rt.alloc(), line)?, repeated(rt.alloc(), printed)?);
    let mut buf = want.as_bytes().to_vec(rt.alloc())?;
    buf.fill(0);
    let mut out = IntoSlice::new(&mut buf);
    let outcome = run(rt, rt.alloc(), (asked, lines.as_str()), store, &mut out);
    expect!(rt; matches!(outcome, Ok(None)) && out.written() == want.as_bytes(), asked);
    Ok(())
}

#[test]
fn lines_may_be_many(rt: HostRuntime) -> Result<(), Fail> {
    let content = Content::new(&rt)?;
    let reads = Reads::new(1_000_000);
    let mut store = content.open(rt.alloc(), &reads)?;
    for row in &MANY_ROWS {
        expect_many(&rt, &mut store, *row)?;
    }
    Ok(())
}

// Whether this much memory is enough. If not, the error says so, and nothing is printed. All is
// given back.
fn is_enough(
    rt: &(impl Abort + AllocGlobal),
    store: &mut Memory<'_>,
    units: usize,
    asked: Asked,
) -> Result<bool, Fail> {
    let heap = LocalHeap::new(rt.alloc(), units.saturating_mul(16))?;
    let mut buf = [0; 1024];
    let mut out = IntoSlice::new(&mut buf);
    let outcome = run(rt, &heap, (asked, LINES), store, &mut out);
    expect!(rt; heap.used() == 0, units);
    let Err(error) = outcome else {
        return Ok(true);
    };
    expect!(rt; out.written().is_empty(), units);
    let text = text_of(rt, error)?;
    expect!(rt; text.ends_with("out of memory") && !text.contains("read"), text);
    Ok(false)
}

// Memory is too little at first, and then enough.
#[test]
fn memory_is_refused(rt: HostRuntime) -> Result<(), Fail> {
    let content = Content::new(&rt)?;
    let reads = Reads::new(1_000_000);
    let mut store = content.open(rt.alloc(), &reads)?;
    for &(asked, _, _, _) in &ROWS {
        let mut before = false;
        for units in 0..256 {
            let is_enough = is_enough(&rt, &mut store, units, asked)?;
            expect!(&rt; is_enough >= before && !(is_enough && units == 0), units);
            before = is_enough;
        }
        expect!(&rt; before);
    }
    Ok(())
}

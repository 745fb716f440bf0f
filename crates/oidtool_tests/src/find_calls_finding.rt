//! Each of the searches with writers that fail, and with too little memory.

use crate::by::{By, SEARCHES, Search, run};
use crate::expecting::{expect, expect_bytes, expect_text};
use crate::well_known::{BLOB, BLOB_256, TREE, TREE_256, expect_granted, text_of};
use linked_list_allocator::LocalHeap;
use std::alloc::{AllocError, Global};
use std::process::Abort;
use std::test::Fail;
use streams::{IntoSlice, Plain};
use test_devices::{Fault, Writer};

// The ids one above the empty tree and the empty blob of SHA-1, and the latter in letters.
const NEXT_TREE: &str = "4b825dc642cb6eb9a060e54bf8d69288fbee4905\n";

const NEXT_BLOB: &str = "e69de29bb2d1d6434b8b29ae775ad8c2e48c5392\n";

const NEXT_BLOB_LETTERS: &str = "ltqmlxqooxmymtvwvoroxqplssupmrnxlvrnuwqx\n";

const FAILED: &str = "Err(Output)";

// A list of that many lines, at least four, in which a search finds one. Four lines, for a search
// that is not in a kind, are the empty blobs and trees of both kinds.
fn list_of(by: By, alloc: Global, lines: usize) -> Result<String, AllocError> {
    let is_in_kind = matches!(by, By::In(_));
    let mut text = String::new(alloc);
    for n in 3..lines.max(4) {
        if is_in_kind {
            text.push_str(format!(in alloc; "{n:040}\n")?.as_str())?;
        } else {
            text.push_str(BLOB_256)?;
        }
    }
    text.push_str(TREE)?;
    text.push_str(if is_in_kind {
        "5000000000000000000000000000000000000000\n"
    } else {
        TREE_256
    })?;
    text.push_str(BLOB)?;
    Ok(text)
}

/// A search of a list, and the lines that it writes.
#[derive(Clone, Copy)]
struct Searched<'a> {
    search: Search,
    list: &'a [u8],
    lines: &'a [u8],
}

// Searches with this writer, and compares the Debug text of the result, how many bytes of the lines
// the writer took, and how often it was called. No search flushes.
fn expect_taken(
    rt: &(impl Abort + AllocGlobal),
    searched: &Searched<'_>,
    (chunk, fault): (usize, Fault),
    want: &str,
    len: usize,
    calls: usize,
) {
    let mut out = Plain::new(Writer::new(rt.alloc(), chunk, fault));
    let found = run(rt, searched.search, rt.alloc(), searched.list, &mut out);
    let row = (searched.search, len, calls);
    expect_text(rt, found.as_str(), want, &row);
    let writer = out.into_inner();
    expect_bytes(
        rt,
        &writer.bytes,
        searched.lines.get(..len).unwrap_or(b""),
        &row,
    );
    expect!(rt; (writer.calls, writer.flushes) == (calls, 0), row);
}

// The line that a search writes after its first, if the list has the next id too.
fn next_line(by: By) -> &'static str {
    match by {
        By::Letters => NEXT_BLOB_LETTERS,
        _ => NEXT_TREE,
    }
}

// Writers that fail at each call and after each byte, of two lines of 41 bytes.
fn expect_each_failed(rt: &(impl Abort + AllocGlobal), searched: &Searched<'_>) {
    for n in 1..=82 {
        for &fault in &[Fault::AtCall(n), Fault::InterruptedAt(n)] {
            expect_taken(rt, searched, (1, fault), FAILED, n - 1, n);
        }
    }
    for most in 0..82 {
        let writer = (7, Fault::AfterBytes(most));
        // The calls that take some of each line, and the one that fails.
        let calls = most.min(41).div_ceil(7) + most.saturating_sub(41).div_ceil(7) + 1;
        expect_taken(rt, searched, writer, FAILED, most, calls);
    }
}

const FOUND: &str = "Ok(2)";

// Writers that take a byte a call, none, all after their error, and as much as there is room. With
// each the result, how many bytes of two lines of 41 it takes, and in how many calls.
const WRITERS: [(usize, Fault, &str, usize, usize); 10] = [
    (1, Fault::Never, FOUND, 82, 82),
    (0, Fault::Never, FAILED, 0, 1),
    (7, Fault::AfterBytes(82), FOUND, 82, 12),
    (usize::MAX, Fault::AtCall(1), FAILED, 0, 1),
    (usize::MAX, Fault::AtCall(2), FAILED, 41, 2),
    (usize::MAX, Fault::AfterBytes(10), FAILED, 10, 2),
    (usize::MAX, Fault::AfterBytes(40), FAILED, 40, 2),
    (usize::MAX, Fault::AfterBytes(41), FAILED, 41, 2),
    (usize::MAX, Fault::AfterBytes(82), FOUND, 82, 2),
    (usize::MAX, Fault::AtFlush, FOUND, 82, 2),
];

#[test]
fn report_each_write_that_fails(rt: HostRuntime) {
    let list = text_of(&rt, &[TREE, NEXT_TREE, BLOB, NEXT_BLOB]);
    for &search in &SEARCHES {
        let (by, _) = search;
        let lines = text_of(&rt, &[by.line(), next_line(by)]);
        let searched = Searched {
            search,
            list: list.as_bytes(),
            lines: lines.as_bytes(),
        };
        expect_each_failed(&rt, &searched);
        for &(chunk, fault, outcome, len, calls) in &WRITERS {
            expect_taken(&rt, &searched, (chunk, fault), outcome, len, calls);
        }
    }
}

#[test]
fn write_nothing_if_none_is_found(rt: HostRuntime) {
    for &search in &SEARCHES {
        let searched = Searched {
            search,
            list: b"5000000000000000000000000000000000000000\n",
            lines: b"",
        };
        expect_taken(&rt, &searched, (0, Fault::AtCall(1)), "Ok(0)", 0, 0);
    }
}

// How many of the lists it can search in a heap of that many units of 16 bytes.
fn granted_within(
    rt: &(impl Abort + AllocGlobal),
    search: Search,
    lists: &[String],
    units: usize,
) -> Result<usize, Fail> {
    let heap = LocalHeap::new(rt.alloc(), units.saturating_mul(16))?;
    let mut granted = 0;
    for (n, list) in lists.iter().enumerate() {
        let mut buf = [0; 64];
        let mut out = IntoSlice::new(&mut buf);
        let found = run(rt, search, &heap, list.as_bytes(), &mut out);
        let is_granted = expect_granted(
            rt,
            found.as_str(),
            out.written(),
            search.0.line(),
            &search,
        );
        // All is given back, and where a list is granted, each shorter one is.
        expect!(rt; heap.used() == 0, (search, units));
        if is_granted {
            expect!(rt; granted == n, (search, units));
            granted = n + 1;
        }
    }
    Ok(granted)
}

// As the heap grows, each growth is once the first that fails, until none does.
fn expect_each_failed_growth(rt: &(impl Abort + AllocGlobal), search: Search) -> Result<(), Fail> {
    let mut lists = Vec::new(rt.alloc());
    for &lines in &[4, 8, 9] {
        lists.push(list_of(search.0, rt.alloc(), lines)?)?;
    }
    let mut before = 0;
    for units in 0..1000 {
        let granted = granted_within(rt, search, &lists, units)?;
        let steps = granted.abs_diff(before);
        // No growth is skipped.
        expect!(rt; steps <= 1, (search, units));
        if granted == 3 {
            return Ok(());
        }
        before = granted;
    }
    Err(Fail::new("a growth failed each time"))
}

// Lists of 4, 8 and 9 lines need one growth, two and three for their ids, and one for what is
// found.
#[test]
fn report_each_growth_that_fails(rt: HostRuntime) -> Result<(), Fail> {
    for &search in &SEARCHES {
        expect_each_failed_growth(&rt, search)?;
    }
    Ok(())
}

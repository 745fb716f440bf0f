//! Commands over readers and writers that give and take odd chunks, or fail.

use crate::expecting::{expect, expect_bytes, expect_shown, shown};
use crate::well_known::{ALL, BLOB_LETTERS, BLOB_TREE, NO_MATCH, TREE, TREE_BLOB, expect_granted};
use linked_list_allocator::LocalHeap;
use oidtool_commands::{Command, read_command, run_command};
use std::io::BufWriter;
use std::process::Abort;
use std::rt::Files;
use std::test::Fail;
use streams::{FromSlice, IntoSlice, Plain};
use test_devices::{Fault, Reader, Writer};

/// The words of a command.
pub type Words = &'static [&'static str];

/// The command that these words ask for.
pub fn command_of<'a>(rt: &impl Abort, words: &[&'a str]) -> Command<'a> {
    read_command(words).expect(rt, "words that ask for no command")
}

/// Runs the command over the text in chunks of that length, and compares the result and what was
/// written. Returns how often the input was read.
pub fn expect_run(
    rt: &(impl Abort + Files + AllocGlobal),
    words: &[&str],
    text: &[u8],
    (chunk, fault): (usize, Fault),
    outcome: &str,
    written: &[u8],
) -> usize {
    let command = command_of(rt, words);
    let mut input = Plain::new(Reader::new(text, chunk, fault));
    let mut buf = [0; 256];
    let mut out = IntoSlice::new(&mut buf);
    let ended = run_command(rt, rt.alloc(), command, &mut input, &mut out);
    expect_bytes(rt, out.written(), written, &words);
    expect_shown(rt, ended, outcome, &words);
    input.into_inner().calls
}

const NO_HEX: &str = "Err(Find(Prefix(Invalid)))";

const RUNS: [(Words, &str, &str); 4] = [
    (&["find", "4b82"], "Ok(1)", TREE),
    (&["find", "ltqm"], NO_HEX, NO_MATCH),
    (&["find-change", "ltqm"], "Ok(1)", BLOB_LETTERS),
    (&["find-change", "4b82"], NO_HEX, NO_MATCH),
];

#[test]
fn runs_commands(rt: HostRuntime) {
    for &(words, outcome, written) in &RUNS {
        for &chunk in &[1, 41, 1000] {
            let reader = (chunk, Fault::Never);
            expect_run(
                &rt,
                words,
                ALL.as_bytes(),
                reader,
                outcome,
                written.as_bytes(),
            );
        }
    }
}

const FIND: Words = &["find", "4b82"];

const FIND_CHANGE: Words = &["find-change", "LTQM"];

const FIND_IN: Words = &["find-in", "sha1", "4b82"];

const BAD_LINE: &str = "Err(Find(BadLine { line: 1, error: InvalidHexEncodingLength(5) }))";

const UNSORTED: &str = "Err(Find(Unsorted { line: 2 }))";

const NOT_RISING: &str = "Err(Find(NotRising { line: 2 }))";

// After a bad line `find` reads no more, and the others read on. Ids that are out of order are
// reported at the end of the list, after which none reads.
#[test]
fn reports_a_read_that_fails(rt: HostRuntime) {
    for &(words, bad_line, order) in &[
        (FIND, BAD_LINE, UNSORTED),
        (FIND_CHANGE, "Err(Input)", UNSORTED),
        (FIND_IN, "Err(Input)", NOT_RISING),
    ] {
        expect_run(&rt, words, b"no id\n", (6, Fault::AtCall(2)), bad_line, b"");
        let reader = (41, Fault::AtCall(4));
        let reads = expect_run(&rt, words, BLOB_TREE.as_bytes(), reader, order, b"");
        expect!(&rt; reads == 3, words);
    }
}

// Searches for an id of SHA-1, and what each writes.
const SEARCHES: [(Words, &str); 3] = [(FIND, TREE), (FIND_CHANGE, BLOB_LETTERS), (FIND_IN, TREE)];

/// Runs the command over the text with a buffered writer, and compares the Debug text of the
/// result, and what the writer took and how often it was flushed.
pub fn expect_flushed(
    rt: &(impl Abort + Files + AllocGlobal),
    words: &[&str],
    text: &[u8],
    (chunk, fault): (usize, Fault),
    outcome: &str,
    taken: &[u8],
    flushes: usize,
) {
    let command = command_of(rt, words);
    let mut input = FromSlice::new(text);
    let writer = Writer::new(rt.alloc(), chunk, fault);
    let buffered = BufWriter::new(rt.alloc(), writer).expect(rt, "no memory for a buffer");
    let mut out = Plain::new(buffered);
    let ended = run_command(rt, rt.alloc(), command, &mut input, &mut out);
    let row = (words, outcome, flushes);
    let (writer, _) = out.into_inner().into_parts();
    expect_bytes(rt, &writer.bytes, taken, &row);
    expect!(rt; writer.flushes == flushes, row);
    expect_shown(rt, ended, outcome, &row);
}

// Writers, the result of a run, how many bytes of the line are taken, and how often is flushed.
const WRITERS: [(usize, Fault, &str, usize, usize); 6] = [
    (1000, Fault::Never, "Ok(1)", usize::MAX, 1),
    (1, Fault::Never, "Ok(1)", usize::MAX, 1),
    (0, Fault::Never, "Err(Output)", 0, 0),
    (1000, Fault::AtCall(1), "Err(Output)", 0, 0),
    (4, Fault::AfterBytes(10), "Err(Output)", 10, 0),
    (1000, Fault::AtFlush, "Err(Output)", usize::MAX, 1),
];

#[test]
fn flushes_at_the_end(rt: HostRuntime) {
    let list = TREE_BLOB.as_bytes();
    for &(words, line) in &SEARCHES {
        for &(chunk, fault, outcome, taken, flushes) in &WRITERS {
            let taken = &line.as_bytes()[..taken.min(line.len())];
            expect_flushed(&rt, words, list, (chunk, fault), outcome, taken, flushes);
        }
    }
}

// Whether a heap of that many units of 16 bytes is enough for the search. All is given back.
fn is_enough(
    rt: &(impl Abort + Files + AllocGlobal),
    (words, line): (Words, &str),
    units: usize,
) -> Result<bool, Fail> {
    let command = command_of(rt, words);
    let heap = LocalHeap::new(rt.alloc(), units.saturating_mul(16))?;
    let mut input = FromSlice::new(TREE_BLOB.as_bytes());
    let mut buf = [0; 64];
    let mut out = IntoSlice::new(&mut buf);
    let ended = shown(rt, run_command(rt, &heap, command, &mut input, &mut out));
    expect!(rt; heap.used() == 0, (words, units));
    Ok(expect_granted(rt, ended.as_str(), out.written(), line, &words))
}

// The list text needs memory, and some heap is enough.
fn expect_refused(
    rt: &(impl Abort + Files + AllocGlobal),
    search: (Words, &str),
) -> Result<(), Fail> {
    expect!(rt; !is_enough(rt, search, 0)?, search);
    for units in 1..100 {
        if is_enough(rt, search, units)? {
            return Ok(());
        }
    }
    Err(Fail::new("no run had enough memory"))
}

#[test]
fn reports_too_little_memory(rt: HostRuntime) -> Result<(), Fail> {
    for &search in &SEARCHES {
        expect_refused(&rt, search)?;
    }
    Ok(())
}

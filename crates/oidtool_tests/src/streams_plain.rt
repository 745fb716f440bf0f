//! No device is called after a failure of it or of another.

use crate::expecting::expect;
use crate::oidtool_commands_running::{Words, command_of};
use crate::well_known::TREE_BLOB;
use oidtool_commands::run_command;
use std::fs;
use std::io::{BufWriter, ErrorKind};
use std::process::Abort;
use std::rt::Files;
use std::test::Fail;
use streams::{BufferedSink, Plain, Sink, Source};
use test_devices::watched::{Course, Watch, Watched};
use test_devices::{Fault, Reader, Writer};

// How many bytes a reader gives and a writer takes in a call.
const READ: usize = 41;

const WRITTEN: usize = 7;

// The file that is hashed.
const FILE: &str = "oidtool-stops-at-a-failure";

// The commands, and how often each reads and writes if nothing fails: two chunks and the end are
// read, a line of 41 bytes takes six writes, and the digest of a sealed list takes three.
const COMMANDS: [(Words, usize, usize); 6] = [
    (&["find", "4b82"], 3, 6),
    (&["find-change", "LTQM"], 3, 6),
    (&["find-in", "sha1", "4b82"], 3, 6),
    (&["hash", "sha1"], 3, 6),
    (&["hash-file", "sha1", "3", FILE], 0, 6),
    (&["seal", "sha1"], 3, 15),
];

// Runs the command over devices with these faults, and compares how they fared. The writer has a
// buffer that is too small for a line.
fn expect_course_of_command(
    rt: &(impl Abort + Files + AllocGlobal),
    words: &[&str],
    read: Fault,
    (chunk, write): (usize, Fault),
    want: Course,
) {
    let command = command_of(rt, words);
    let watch = Watch::new();
    let reader = Reader::new(TREE_BLOB.as_bytes(), READ, read);
    let mut input = Plain::new(Watched::new(reader, &watch));
    let writer = Watched::new(Writer::new(rt.alloc(), chunk, write), &watch);
    let buffered = BufWriter::with_capacity(rt.alloc(), 4, writer).expect(
        rt,
        "no memory for a buffer",
    );
    let mut out = Plain::new(buffered);
    let outcome = run_command(rt, rt.alloc(), command, &mut input, &mut out);
    expect!(rt; watch.course() == want, words);
    expect!(rt; outcome.is_ok() == (want == Course::Fine), words);
}

#[test]
fn commands_stop_at_a_failure(rt: HostRuntime) -> Result<(), Fail> {
    fs::write(&rt, FILE, b"abc")?;
    let never = Fault::Never;
    for &(words, reads, writes) in &COMMANDS {
        for n in 1..=16 {
            let of_reads = Course::of_fault(n, reads);
            let of_writes = Course::of_fault(n, writes);
            for &fault in &[Fault::AtCall(n), Fault::InterruptedAt(n)] {
                expect_course_of_command(&rt, words, fault, (WRITTEN, never), of_reads);
                expect_course_of_command(&rt, words, never, (WRITTEN, fault), of_writes);
            }
        }
        for &writer in &[(0, never), (usize::MAX, Fault::AtFlush)] {
            expect_course_of_command(&rt, words, never, writer, Course::Failed);
        }
    }
    fs::remove_file(&rt, FILE)?;
    Ok(())
}

fn expect_one_read(rt: &impl Abort, fault: Fault, kind: ErrorKind) {
    let mut input = Plain::new(Reader::new(b"abc", 3, fault));
    let mut buf = [0; 3];
    let outcome = input.read(&mut buf);
    expect!(rt; matches!(outcome, Err(error) if error.kind() == kind));
    expect!(rt; input.into_inner().calls == 1);
}

fn expect_one_write(rt: &(impl Abort + AllocGlobal), fault: Fault, kind: ErrorKind) {
    let mut out = Plain::new(Writer::new(rt.alloc(), 3, fault));
    let outcome = out.write(b"abc");
    expect!(rt; matches!(outcome, Err(error) if error.kind() == kind));
    expect!(rt; out.into_inner().calls == 1);
}

// A device over a reader or a writer of the library calls it once, and passes its error on.
#[test]
fn devices_ask_once(rt: HostRuntime) {
    for &(fault, kind) in &[
        (Fault::AtCall(1), ErrorKind::Other),
        (Fault::InterruptedAt(1), ErrorKind::Interrupted),
    ] {
        expect_one_read(&rt, fault, kind);
        expect_one_write(&rt, fault, kind);
    }
}

fn expect_flush(rt: &(impl Abort + AllocGlobal), chunk: &[u8], fault: Fault, fails: bool) {
    let writer = Writer::new(rt.alloc(), 3, fault);
    let buffered = BufWriter::new(rt.alloc(), writer).expect(rt, "no memory for a buffer");
    let mut out = Plain::new(buffered);
    let outcomes = (out.write(chunk).is_ok(), out.flush().is_err());
    expect!(rt; (outcomes, out.failed()) == ((true, fails), fails));
    let (writer, _) = out.into_inner().into_parts();
    expect!(rt; writer.flushes == 1 && writer.bytes.as_slice() == chunk);
}

// A flush reaches the writer, also if nothing was kept back.
#[test]
fn flushes_reach_the_writer(rt: HostRuntime) {
    for &chunk in &[b"".as_slice(), b"abc"] {
        expect_flush(&rt, chunk, Fault::Never, false);
        expect_flush(&rt, chunk, Fault::AtFlush, true);
    }
}

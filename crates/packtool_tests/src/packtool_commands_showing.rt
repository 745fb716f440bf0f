//! What is printed of files, with devices and memory that fail.

use crate::expecting::{expect, expect_bytes};
use gix_hash::{Kind, ObjectId};
use linked_list_allocator::LocalHeap;
use packtool_commands::{FileError, Pairing, show, write_ending, write_pairing};
use std::alloc::{AllocError, Global};
use std::process::Abort;
use std::test::Fail;
use streams::{Ending, IntoSlice, Plain};
use test_devices::ids::pack_index;
use test_devices::watched::{Course, Watch, Watched};
use test_devices::{Fault, Reader, Writer};

const KIND: Kind = Kind::Sha1;

// How many bytes a reader gives and a writer takes in a call.
const READ: usize = 100;

const WRITTEN: usize = 7;

// How often `show` reads the index of one name, which has 1100 bytes, and writes its line.
const READS: usize = 12;

const WRITES: usize = 9;

// What `show` prints of the index.
const LINE: &[u8] = b"3072 4b825dc642cb6eb9a060e54bf8d69288fbee4904 (00000000)\n";

// The index of a pack that has the empty tree at its byte 3072.
fn index_of_one(alloc: Global) -> Result<Vec<u8>, AllocError> {
    pack_index(alloc, KIND, &[KIND.empty_tree()], &[])
}

// Shows the index over devices with these faults, and compares how they fared.
fn expect_course(
    rt: &(impl Abort + AllocGlobal),
    read: Fault,
    (chunk, write): (usize, Fault),
    want: Course,
) {
    let index = index_of_one(rt.alloc()).expect(rt, "no memory for an index");
    let watch = Watch::new();
    let mut input = Plain::new(Watched::new(Reader::new(&index, READ, read), &watch));
    let mut out = Plain::new(Watched::new(Writer::new(rt.alloc(), chunk, write), &watch));
    let outcome = show(rt.alloc(), None, &mut input, &mut out);
    expect!(rt; watch.course() == want, want);
    expect!(rt; outcome.is_ok() == (want == Course::Fine), want);
}

#[test]
fn stops_at_a_failure(rt: HostRuntime) {
    let never = Fault::Never;
    for n in 1..=13 {
        for &fault in &[Fault::AtCall(n), Fault::InterruptedAt(n)] {
            expect_course(&rt, fault, (WRITTEN, never), Course::of_fault(n, READS));
            expect_course(&rt, never, (WRITTEN, fault), Course::of_fault(n, WRITES));
        }
    }
    expect_course(&rt, never, (0, never), Course::Failed);
}

// The growths fail one after the other, until a run has enough memory.
#[test]
fn reports_too_little_memory(rt: HostRuntime) -> Result<(), Fail> {
    let index = index_of_one(rt.alloc())?;
    let mut failed_at = 0;
    for units in 0..300usize {
        let heap = LocalHeap::new(rt.alloc(), 16 * units)?;
        let mut input = Plain::new(Reader::new(&index, READ, Fault::Never));
        let mut buf = [0; 64];
        let mut out = IntoSlice::new(&mut buf);
        let outcome = show(&heap, Some(KIND), &mut input, &mut out);
        if outcome.is_ok() {
            expect_bytes(&rt, out.written(), LINE, &units);
            expect!(&rt; failed_at > 1);
            return Ok(());
        }
        expect!(&rt; matches!(outcome, Err(FileError::Memory)), units);
        expect_bytes(&rt, out.written(), b"", &units);
        // All is given back.
        expect!(&rt; heap.used() == 0, units);
        failed_at = units;
    }
    Err(Fail::new("no run had enough memory"))
}

// A line of a file.
#[derive(Clone, Copy, Debug)]
enum Line {
    Ending(Ending),
    Pairing(Pairing),
}

// A writer takes as much of the line as it has room for, and the result says whether that is all.
fn expect_line(rt: &impl Abort, line: Line, want: &str) {
    for room in 0..=want.len() {
        let mut buf = [0; 240];
        let Some(buf) = buf.get_mut(..room) else {
            return expect!(rt; false, room);
        };
        let mut out = IntoSlice::new(buf);
        let written = match line {
            Line::Ending(ending) => write_ending("a.idx", &ending, &mut out),
            Line::Pairing(pairing) => write_pairing("a.idx", &pairing, &mut out),
        };
        expect!(rt; written.is_ok() == (room == want.len()), room);
        let taken = want.as_bytes().get(..room).unwrap_or(b"");
        expect_bytes(rt, out.written(), taken, &room);
    }
}

// The ids of the empty tree and of the empty blob of SHA-1, and of the latter of SHA-256.
const TREE: ObjectId = ObjectId::Sha1([
    0x4b, 0x82, 0x5d, 0xc6, 0x42, 0xcb, 0x6e, 0xb9, 0xa0, 0x60, 0xe5, 0x4b, 0xf8, 0xd6, 0x92, 0x88,
    0xfb, 0xee, 0x49, 0x04,
]);

const BLOB: ObjectId = ObjectId::Sha1([
    0xe6, 0x9d, 0xe2, 0x9b, 0xb2, 0xd1, 0xd6, 0x43, 0x4b, 0x8b, 0x29, 0xae, 0x77, 0x5a, 0xd8, 0xc2,
    0xe4, 0x8c, 0x53, 0x91,
]);

const LONG: ObjectId = ObjectId::Sha256([
    0x47, 0x3a, 0x0f, 0x4c, 0x3b, 0xe8, 0xa9, 0x36, 0x81, 0xa2, 0x67, 0xe3, 0xb1, 0xe9, 0xa7, 0xdc,
    0xda, 0x11, 0x85, 0x43, 0x6f, 0xe1, 0x41, 0xf7, 0x74, 0x91, 0x20, 0xa3, 0x03, 0x72, 0x18, 0x13,
]);

// Lines of files, and what is written.
const LINES: [(Line, &str); 8] = [
    (Line::Ending(Ending::Sealed(TREE)), "a.idx: OK\n"),
    (
        Line::Ending(Ending::Unsealed {
            digest: TREE,
            last: None,
        }),
        "a.idx: FAILED: it is shorter than a digest\n",
    ),
    (
        Line::Ending(Ending::Unsealed {
            digest: TREE,
            last: Some(BLOB),
        }),
        "a.idx: FAILED: it ends in e69de29bb2d1d6434b8b29ae775ad8c2e48c5391, and the digest of the rest is 4b825dc642cb6eb9a060e54bf8d69288fbee4904\n",
    ),
    (
        Line::Ending(Ending::Unsealed {
            digest: LONG,
            last: Some(LONG),
        }),
        "a.idx: FAILED: it ends in 473a0f4c3be8a93681a267e3b1e9a7dcda1185436fe141f7749120a303721813, and the digest of the rest is 473a0f4c3be8a93681a267e3b1e9a7dcda1185436fe141f7749120a303721813\n",
    ),
    (Line::Pairing(Pairing::Same), "a.idx: OK\n"),
    (
        Line::Pairing(Pairing::Beyond(u64::MAX)),
        "a.idx: FAILED: the offset 18446744073709551615 is not in the pack beside it\n",
    ),
    (
        Line::Pairing(Pairing::Other {
            named: TREE,
            found: None,
        }),
        "a.idx: FAILED: its pack ends in 4b825dc642cb6eb9a060e54bf8d69288fbee4904, and the pack beside it is shorter than a digest\n",
    ),
    (
        Line::Pairing(Pairing::Other {
            named: LONG,
            found: Some(LONG),
        }),
        "a.idx: FAILED: its pack ends in 473a0f4c3be8a93681a267e3b1e9a7dcda1185436fe141f7749120a303721813, and the pack beside it ends in 473a0f4c3be8a93681a267e3b1e9a7dcda1185436fe141f7749120a303721813\n",
    ),
];

#[test]
fn writes_lines_of_files(rt: HostRuntime) {
    for &(line, want) in &LINES {
        expect_line(&rt, line, want);
    }
}

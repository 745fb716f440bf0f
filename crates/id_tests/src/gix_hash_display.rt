//! What printing and writing do with the options of a format and with a writer that fails.

use crate::expecting::{expect, expect_kind, expect_text, expect_whole};
use crate::gix_hash_prefix::read;
use crate::well_known::{BLOB, BLOB_256, BLOB_ID, id};
use gix_hash::{Kind, ObjectId, Prefix, oid};
use std::io::{self, Write};
use std::process::Abort;
use test_devices::{FAILED, Fault, KINDS, Writer};

#[test]
fn options_have_no_effect(rt: HostRuntime) {
    expect_whole(&rt, BLOB_ID, BLOB);
    expect_whole(&rt, read(&rt, "e69d0"), "e69d0");
    expect_whole(&rt, Kind::Sha256, "sha256");
}

// What writes its lowercase hex digits.
#[derive(Clone, Copy)]
enum Named<'a> {
    View(oid<'a>),
    Id(ObjectId),
    Prefix(Prefix),
}

impl Named<'_> {
    fn write_hex_to<W: Write>(&self, out: &mut W) -> io::Result<()> {
        match self {
            Named::View(view) => view.write_hex_to(out),
            Named::Id(id) => id.write_hex_to(out),
            Named::Prefix(prefix) => prefix.write_hex_to(out),
        }
    }
}

// The error's text, or "" if there is none.
fn expect_end(rt: &(impl Abort + AllocGlobal), outcome: io::Result<()>, want: &str) {
    match outcome {
        Ok(()) => expect!(rt; want.is_empty(), want),
        Err(error) => expect_text(rt, error, want),
    }
}

// Writes to a writer that takes at most `chunk` bytes a call, and compares the error, or "" if
// there is none, what was written, and the number of calls.
fn expect_written(
    rt: &(impl Abort + AllocGlobal),
    named: &Named<'_>,
    (chunk, fault): (usize, Fault),
    error: &str,
    written: &[u8],
    calls: usize,
) {
    let mut out = Writer::new(rt.alloc(), chunk, fault);
    expect_end(rt, named.write_hex_to(&mut out), error);
    expect!(rt; out.bytes.as_slice() == written, calls);
    expect!(rt; (out.calls, out.flushes) == (calls, 0), calls);
}

const ALL: usize = usize::MAX;

// Writers, the error, or "" if there is none, how many of five digits or more are taken, and in how
// many calls: one for each digit at `ALL`.
const WRITERS: [(usize, Fault, &str, usize, usize); 6] = [
    (ALL, Fault::Never, "", ALL, 1),
    (1, Fault::Never, "", ALL, ALL),
    (ALL, Fault::InterruptedAt(1), "", ALL, 2),
    (2, Fault::AtCall(3), FAILED, 4, 3),
    (0, Fault::Never, "failed to write whole buffer", 0, 1),
    (ALL, Fault::AfterBytes(3), FAILED, 3, 2),
];

// The digits are written by `write_all`: in one write where there is room, else in several, with
// another try after an interruption, and until the writer fails.
fn expect_all_written(rt: &(impl Abort + AllocGlobal), named: &Named<'_>, text: &str) {
    for &(chunk, fault, error, taken, calls) in &WRITERS {
        let written = &text.as_bytes()[..taken.min(text.len())];
        let calls = calls.min(text.len());
        expect_written(rt, named, (chunk, fault), error, written, calls);
    }
    for &kind in &KINDS {
        if kind != io::ErrorKind::Interrupted {
            expect_failed(rt, named, kind);
        }
    }
}

// The first write fails, with an error of that kind, and there is no other.
fn expect_failed(rt: &(impl Abort + AllocGlobal), named: &Named<'_>, kind: io::ErrorKind) {
    let mut out = Writer::new(rt.alloc(), 9, Fault::Always(kind));
    expect_kind(rt, named.write_hex_to(&mut out), kind);
    expect!(rt; (out.calls, out.flushes) == (1, 0), kind);
}

#[test]
fn digits_are_written(rt: HostRuntime) {
    for &text in &[BLOB, BLOB_256] {
        let id = id(&rt, text);
        expect_all_written(&rt, &Named::View(id.as_oid()), text);
        expect_all_written(&rt, &Named::Id(id), text);
        expect_all_written(&rt, &Named::Prefix(Prefix::from(id)), text);
    }
    expect_all_written(&rt, &Named::Prefix(read(&rt, "e69d0")), "e69d0");
    // No digits make no write.
    let none = Named::Prefix(id(&rt, BLOB).to_prefix(0..0));
    let failing = (0, Fault::Always(io::ErrorKind::Other));
    expect_written(&rt, &none, failing, "", b"", 0);
}

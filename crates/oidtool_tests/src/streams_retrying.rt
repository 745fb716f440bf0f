//! Calls that a signal interrupts are made again, and no others are.

use crate::expecting::expect;
use std::io::{ErrorKind, Read, Write};
use std::process::Abort;
use streams::Retrying;
use test_devices::{Fault, KINDS, Reader, Writer};

// How an interrupted call is tried again: when the device fails, and how often it is called then.
const TRIED: [(Fault, usize); 3] = [
    (Fault::Never, 1),
    (Fault::InterruptedAt(1), 2),
    (Fault::InterruptedAt(2), 1),
];

// One read gives three bytes, after this many calls.
fn expect_read(rt: &impl Abort, fault: Fault, calls: usize) {
    let mut reader = Reader::new(b"abcd", 3, fault);
    let mut buf = [0; 4];
    let outcome = Retrying::new(&mut reader).read(&mut buf);
    expect!(rt; matches!(outcome, Ok(3)) && buf == *b"abc\0", calls);
    expect!(rt; reader.calls == calls, calls);
}

// One write takes three bytes, after this many calls.
fn expect_write(rt: &(impl Abort + AllocGlobal), fault: Fault, calls: usize) {
    let mut writer = Writer::new(rt.alloc(), 3, fault);
    let outcome = Retrying::new(&mut writer).write(b"abcd");
    expect!(rt; matches!(outcome, Ok(3)) && writer.bytes.as_slice() == b"abc".as_slice(), calls);
    expect!(rt; (writer.calls, writer.flushes) == (calls, 0), calls);
}

// A flush succeeds, after this many flushes of the writer.
fn expect_flush(rt: &(impl Abort + AllocGlobal), fault: Fault, flushes: usize) {
    let mut writer = Writer::new(rt.alloc(), 3, fault);
    let outcome = Retrying::new(&mut writer).flush();
    expect!(rt; outcome.is_ok(), flushes);
    expect!(rt; (writer.calls, writer.flushes) == (0, flushes), flushes);
}

#[test]
fn interrupted_calls_are_made_again(rt: HostRuntime) {
    for &(fault, calls) in &TRIED {
        expect_read(&rt, fault, calls);
        expect_write(&rt, fault, calls);
        expect_flush(&rt, fault, 1);
    }
    expect_flush(&rt, Fault::FlushInterruptedAt(1), 2);
    expect_flush(&rt, Fault::FlushInterruptedAt(2), 1);
}

// A read that fails is not made again, and the error is the device's.
fn expect_failed_read(rt: &impl Abort, kind: ErrorKind) {
    let mut reader = Reader::new(b"abc", 3, Fault::Always(kind));
    let outcome = Retrying::new(&mut reader).read(&mut [0; 3]);
    expect!(rt; matches!(outcome, Err(error) if error.kind() == kind), kind);
    expect!(rt; reader.calls == 1, kind);
}

// The same of a write, and of a flush.
fn expect_failed_write(rt: &(impl Abort + AllocGlobal), kind: ErrorKind) {
    let mut writer = Writer::new(rt.alloc(), 3, Fault::Always(kind));
    let outcome = Retrying::new(&mut writer).write(b"abc");
    expect!(rt; matches!(outcome, Err(error) if error.kind() == kind), kind);
    let outcome = Retrying::new(&mut writer).flush();
    expect!(rt; matches!(outcome, Err(error) if error.kind() == kind), kind);
    expect!(rt; (writer.calls, writer.flushes) == (1, 1), kind);
}

#[test]
fn other_errors_are_the_devices(rt: HostRuntime) {
    for &kind in &KINDS {
        if kind != ErrorKind::Interrupted {
            expect_failed_read(&rt, kind);
            expect_failed_write(&rt, kind);
        }
    }
}

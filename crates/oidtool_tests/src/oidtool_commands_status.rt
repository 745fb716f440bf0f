//! The words that a program is started with, and what it reports at its end.

use crate::expecting::expect;
use find_calls::FindError;
use oidtool_commands::{WordsError, command_line_args, report};
use std::alloc::Global;
use std::cell::Cell;
use std::env::FillError;
use std::fmt::Display;
use std::io;
use std::process::Abort;
use std::rt::Env;

// The name and the words that a program is started with.
#[derive(Clone, Copy)]
struct Started<'a> {
    words: &'a [&'static [u8]],
}

impl Env for Started<'_> {
    fn arg(&self, i: usize, buf: &mut [u8]) -> Result<usize, FillError> {
        let Some(word) = self.words.get(i) else {
            return Err(FillError::NotPresent);
        };
        let len = word.len();
        if len > buf.len() {
            return Err(FillError::TooLong);
        }
        buf[..len].copy_from_slice(word);
        Ok(len)
    }

    fn var(&self, _name: &str, _buf: &mut [u8]) -> Result<usize, FillError> {
        Err(FillError::NotPresent)
    }

    fn var_at(&self, _i: usize, _buf: &mut [u8]) -> Result<usize, FillError> {
        Err(FillError::NotPresent)
    }
}

// A word that does not fit into the library's first buffer.
const LONG: &[u8] = &[b'a'; 300];

// A name, and words: some are empty, some are the same, one is not ASCII, and one is long.
const STARTED: [&[u8]; 9] = [
    b"name",
    b"find",
    b"",
    b"4b82",
    b"4b82",
    b"\xc3\xa9",
    LONG,
    b"--help",
    b"",
];

// The words after the name are these, in order.
fn expect_words(rt: &(impl Abort + AllocGlobal), started: &[&'static [u8]]) {
    let words = command_line_args(&(Started { words: &*started }, rt.alloc())).expect(
        rt, "no words",
    );
    let mut want = started.iter();
    want.next();
    expect!(rt; words.len() == want.len(), started.len());
    for (word, want) in words.iter().zip(want) {
        expect!(rt; word.as_bytes() == *want, started.len());
    }
}

#[test]
fn gives_each_word_after_the_name(rt: HostRuntime) {
    for count in 0..=STARTED.len() {
        expect_words(&rt, &STARTED[..count]);
    }
}

#[test]
fn rejects_words_that_are_no_text(rt: HostRuntime) {
    for at in 0..4 {
        let mut words: [&'static [u8]; 4] = [b"name", b"find", b"4b82", b""];
        words[at] = b"\xff";
        let outcome = command_line_args(&(Started { words: &words }, rt.alloc()));
        expect!(&rt; matches!(outcome, Err(WordsError::NotText)), at);
    }
}

// The text that is to be reported, how often it was, and whether another was.
#[derive(Drop)]
struct Listener<'a> {
    alloc: Global,
    want: &'a str,
    is_closed: bool,
    times: Cell<usize>,
    is_other: Cell<bool>,
}

impl Eprint for Listener<'_> {
    fn eprint<D: Display + Drop>(&self, _value: D) -> io::Result<()> {
        self.is_other.set(true);
        Ok(())
    }

    fn eprintln<D: Display + Drop>(&self, value: D) -> io::Result<()> {
        let text = format!(in self.alloc; "{value}")?;
        if text.as_str() != self.want {
            self.is_other.set(true);
        }
        self.times.set(self.times.get().saturating_add(1));
        if self.is_closed {
            return Err(io::Error::from(io::ErrorKind::BrokenPipe));
        }
        Ok(())
    }
}

// This text is reported that many times, and no other.
fn expect_reported(
    rt: &(impl Abort + AllocGlobal),
    count: Option<usize>,
    want: &str,
    times: usize,
) {
    for &is_closed in &[false, true] {
        let listener = Listener {
            alloc: rt.alloc(),
            want,
            is_closed,
            times: Cell::new(0),
            is_other: Cell::new(false),
        };
        let outcome = count.ok_or(FindError::Unsorted { line: 3 });
        let _status = report(&listener, outcome);
        expect!(rt; listener.times.get() == times, count);
        expect!(rt; !listener.is_other.get(), count);
    }
}

#[test]
fn reports_an_error_once(rt: HostRuntime) {
    expect_reported(&rt, None, "line 3: below the line before it", 1);
    expect_reported(&rt, Some(0), "", 0);
    expect_reported(&rt, Some(2), "", 0)
}

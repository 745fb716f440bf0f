//! Assertions that are calls, and print their condition.

use gix_hash::ObjectId;
use gix_hash::io::Error;
use std::alloc::AllocError;
use std::cmp::Ordering;
use std::fmt::{Debug, Display};
use std::hash::{DefaultHasher, Hash, Hasher};
use std::io;
use std::process::Abort;
use std::str::FromStr;
pub use test_devices::expect;

/// The condition holds, for the row of a table, or for `()`.
pub fn expect<T: Debug>(rt: &impl Abort, holds: bool, condition: &str, row: &T) {
    assert!(rt; holds, "assertion failed for {row:?}: {condition}");
}

/// The text was made, and is this one.
pub fn expect_made(rt: &impl Abort, text: Result<String, AllocError>, want: &str) {
    let text = text.expect(rt, "no memory for a text");
    expect!(rt; text.as_str() == want, want);
}

/// The value's text.
pub fn expect_text<T: Display + Drop>(rt: &(impl Abort + AllocGlobal), value: T, want: &str) {
    let text: Result<_, _> = format!(in rt.alloc(); "{value}");
    expect_made(rt, text, want);
}

/// The value's text, whatever width, fill and precision are asked for.
pub fn expect_whole<T: Display + Drop>(rt: &(impl Abort + AllocGlobal), value: T, want: &str) {
    let wide: Result<_, _> = format!(in rt.alloc(); "{value:>70}");
    expect_made(rt, wide, want);
    let filled: Result<_, _> = format!(in rt.alloc(); "{value:*^70}");
    expect_made(rt, filled, want);
    let cut: Result<_, _> = format!(in rt.alloc(); "{value:.3}");
    expect_made(rt, cut, want);
}

/// The value's Debug text.
pub fn expect_debug<T: Debug + Drop>(rt: &(impl Abort + AllocGlobal), value: T, want: &str) {
    let text: Result<_, _> = format!(in rt.alloc(); "{value:?}");
    expect_made(rt, text, want);
}

/// The value's Debug text is not empty.
pub fn expect_shown<T: Debug>(rt: &(impl Abort + AllocGlobal), value: &T) {
    let shown = format!(in rt.alloc(); "{value:?}").expect(rt, "no memory for a text");
    expect!(rt; !shown.is_empty());
}

/// The error's text; its Debug text is not empty.
pub fn expect_error<E: std::error::Error + Drop>(
    rt: &(impl Abort + AllocGlobal),
    error: E,
    want: &str,
) {
    expect_shown(rt, &error);
    expect_text(rt, error, want);
}

/// The device's error has that kind.
pub fn expect_kind<T: Drop>(rt: &impl Abort, outcome: io::Result<T>, kind: io::ErrorKind) {
    expect!(rt; matches!(outcome, Err(error) if error.kind() == kind), kind);
}

/// Reading failed with a device's error of that kind.
pub fn expect_io(rt: &impl Abort, outcome: Result<ObjectId, Error>, kind: io::ErrorKind) {
    expect!(rt; matches!(outcome, Err(Error::Io(error)) if error.kind() == kind), kind);
}

/// The text of the value or of the error; no error has the text of a value.
pub fn expect_outcome<T: Display + Drop, E: Display + Drop>(
    rt: &(impl Abort + AllocGlobal),
    outcome: Result<T, E>,
    want: &str,
) {
    match outcome {
        Ok(value) => expect_text(rt, value, want),
        Err(error) => expect_text(rt, error, want),
    }
}

pub fn parsed<T: FromStr>(text: &str) -> Result<T, T::Err> {
    text.parse()
}

pub fn tried<S, T: TryFrom<S>>(source: S) -> Result<T, T::Error> {
    T::try_from(source)
}

pub fn converted<S: Into<T>, T>(source: S) -> T {
    source.into()
}

/// The first is below the second. By the laws of `Ord` no other comparing trait says otherwise.
pub fn expect_below<T: Ord>(rt: &impl Abort, lower: &T, upper: &T) {
    expect!(rt; lower.partial_cmp(upper) == Some(Ordering::Less));
}

/// They are the same. By the laws of `Ord` they are equal, and by those of `Hash` feed the same.
pub fn expect_same<T: Ord>(rt: &impl Abort, one: &T, other: &T) {
    expect!(rt; one.cmp(other) == Ordering::Equal);
}

/// The value feeds these bytes to a hash. Its clause says by which writes.
pub fn expect_fed<T: Hash>(rt: &impl Abort, value: &T, writes: &[&[u8]]) {
    let mut fed = DefaultHasher::new();
    value.hash(&mut fed);
    let mut want = DefaultHasher::new();
    for write in writes {
        want.write(write);
    }
    expect!(rt; fed.finish() == want.finish());
}

//! Assertions that are calls, and print their condition.

use std::fmt::{Debug, Display};
use std::process::Abort;
pub use test_devices::expect;

/// The condition holds, for the row of a table, or for `()`.
pub fn expect<T: Debug>(rt: &impl Abort, holds: bool, condition: &str, row: &T) {
    assert!(rt; holds, "assertion failed for {row:?}: {condition}");
}

/// The value's Debug text.
pub fn shown<T: Debug + Drop>(rt: &(impl Abort + AllocGlobal), value: T) -> String {
    format!(in rt.alloc(); "{value:?}").expect(rt, "no memory for a text")
}

/// The text is this one, of a row of a table.
pub fn expect_text<T: Debug>(rt: &impl Abort, text: &str, want: &str, row: &T) {
    assert!(rt; text == want, "{text} for {row:?}");
}

/// The value's Debug text, of a row of a table.
pub fn expect_shown<T: Debug + Drop, U: Debug>(
    rt: &(impl Abort + AllocGlobal),
    value: T,
    want: &str,
    row: &U,
) {
    expect_text(rt, shown(rt, value).as_str(), want, row)
}

/// The value prints so.
pub fn expect_printed<T: Display>(rt: &(impl Abort + AllocGlobal), value: &T, want: &str) {
    let text = format!(in rt.alloc(); "{value}").expect(rt, "no memory for a text");
    expect_text(rt, text.as_str(), want, &want)
}

/// The bytes are those of the text, of a row of a table.
pub fn expect_bytes<T: Debug>(rt: &impl Abort, bytes: &[u8], want: &[u8], row: &T) {
    assert!(rt; bytes == want, "{bytes:?} for {row:?}");
}

//! Assertions that are calls, and texts.

use std::fmt::{Debug, Display};
use std::process::Abort;
use std::test::Fail;
pub use test_devices::expect;

/// The condition holds, for the row of a table, or for `()`.
pub fn expect<T: Debug>(rt: &impl Abort, holds: bool, condition: &str, row: &T) {
    assert!(rt; holds, "assertion failed for {row:?}: {condition}");
}

/// The text is this one.
pub fn expect_text(rt: &impl Abort, text: &str, want: &str) {
    assert!(rt; text == want, "{text} and not {want}");
}

/// What a value prints.
pub fn text_of<T: Display + Drop>(rt: &impl AllocGlobal, value: T) -> Result<String, Fail> {
    Ok(format!(in rt.alloc(); "{value}")?)
}

/// The value prints so.
pub fn expect_printed<T: Display + Drop>(rt: &(impl Abort + AllocGlobal), value: T, want: &str) {
    let text = format!(in rt.alloc(); "{value}").expect(rt, "no memory for a text");
    expect_text(rt, text.as_str(), want);
}

/// The bytes are these, of a row of a table.
pub fn expect_bytes<T: Debug>(rt: &impl Abort, bytes: &[u8], want: &[u8], row: &T) {
    assert!(rt; bytes == want, "{bytes:?} for {row:?}");
}

//! Assertions that are calls, and print their condition.

use gix_hash::ObjectId;
use std::fmt::{Debug, Display};
use std::process::Abort;
pub use test_devices::expect;

/// The condition holds, for the row of a table, or for `()`.
pub fn expect<T: Debug>(rt: &impl Abort, holds: bool, condition: &str, row: &T) {
    assert!(rt; holds, "assertion failed for {row:?}: {condition}");
}

/// The value prints so.
pub fn expect_printed<T: Display + Drop>(rt: &(impl Abort + AllocGlobal), value: T, want: &str) {
    let text = format!(in rt.alloc(); "{value}").expect(rt, "no memory for a text");
    assert!(rt; text.as_str() == want, "{text} and not {want}");
}

/// The ids are those of the texts.
pub fn expect_ids(rt: &impl Abort, found: &[ObjectId], want: &[&str]) {
    expect!(rt; found.len() == want.len());
    for (id, text) in found.iter().zip(want) {
        expect!(rt; id.eq_str(text), text);
    }
}

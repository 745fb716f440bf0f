//! The well-known ids, a line each, and what tests of searches over them share.

use crate::expecting::{expect, expect_bytes};
use std::alloc::{AllocError, Global};
use std::fmt::Debug;
use std::process::Abort;

/// The empty blob and the empty tree, of SHA-1 and of SHA-256, a line each.
pub const BLOB: &str = "e69de29bb2d1d6434b8b29ae775ad8c2e48c5391\n";

pub const TREE: &str = "4b825dc642cb6eb9a060e54bf8d69288fbee4904\n";

pub const BLOB_256: &str = "473a0f4c3be8a93681a267e3b1e9a7dcda1185436fe141f7749120a303721813\n";

pub const TREE_256: &str = "6ef19b41225c5369f1c104d45d8d85efa9b057b53b14b4b9b939dd74decc5321\n";

/// The text of the four in the order of ids.
pub const ALL: &str = "473a0f4c3be8a93681a267e3b1e9a7dcda1185436fe141f7749120a303721813
4b825dc642cb6eb9a060e54bf8d69288fbee4904
6ef19b41225c5369f1c104d45d8d85efa9b057b53b14b4b9b939dd74decc5321
e69de29bb2d1d6434b8b29ae775ad8c2e48c5391
";

/// The text of the two of SHA-1, in order and out of order.
pub const TREE_BLOB: &str = "4b825dc642cb6eb9a060e54bf8d69288fbee4904
e69de29bb2d1d6434b8b29ae775ad8c2e48c5391
";

pub const BLOB_TREE: &str = "e69de29bb2d1d6434b8b29ae775ad8c2e48c5391
4b825dc642cb6eb9a060e54bf8d69288fbee4904
";

/// The two of SHA-1 in the letters of change ids.
pub const BLOB_LETTERS: &str = "ltqmlxqooxmymtvwvoroxqplssupmrnxlvrnuwqy\n";

pub const TREE_LETTERS: &str = "vorxumntvxnotloqpztzluvokrmtqxrrkollvqzv\n";

pub const NO_MATCH: &str = "";

fn joined(alloc: Global, parts: &[&str]) -> Result<String, AllocError> {
    let mut text = String::new(alloc);
    for part in parts {
        text.push_str(part)?;
    }
    Ok(text)
}

pub fn text_of(rt: &(impl Abort + AllocGlobal), parts: &[&str]) -> String {
    joined(rt.alloc(), parts).expect(rt, "no memory for a text")
}

/// A search that had memory found one id and wrote its line, and one that had none wrote nothing:
/// whether it had memory. The outcome is the Debug text of the result.
pub fn expect_granted<T: Debug>(
    rt: &impl Abort,
    outcome: &str,
    written: &[u8],
    line: &str,
    search: &T,
) -> bool {
    let is_granted = outcome != "Err(Memory)";
    let want = if is_granted { line } else { NO_MATCH };
    expect_bytes(rt, written, want.as_bytes(), search);
    expect!(rt; !is_granted || outcome == "Ok(1)", search);
    is_granted
}

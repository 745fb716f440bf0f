//! Texts of errors.

use crate::expecting::expect_printed;
use packtool_commands::{FileError, StoreError};

// Those that `packtool` does not print.
#[test]
fn texts_of_errors(rt: HostRuntime) {
    expect_printed(&rt, FileError::Memory, "out of memory");
    expect_printed(&rt, FileError::Input, "cannot read");
    expect_printed(&rt, FileError::Output, "cannot write");
    expect_printed(&rt, StoreError::Output, "cannot write");
}

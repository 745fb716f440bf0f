//! Texts of errors that `packtool` does not print.

use crate::expecting::expect_printed;
use repositories::Error;
use repositories::config::ConfigError;
use std::alloc::AllocError;

#[test]
fn texts_of_errors(rt: HostRuntime) {
    expect_printed(&rt, ConfigError::Memory(AllocError), "out of memory");
    expect_printed(&rt, Error::Memory(AllocError), "out of memory");
}

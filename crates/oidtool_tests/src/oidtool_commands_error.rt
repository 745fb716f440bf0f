//! The texts of errors.

use crate::expecting::expect_printed;
use find_calls::{FindError, FindFromError, FindInError, SearchError};
use gix_hash::prefix::from_hex;
use gix_hash::{Kind, decode};
use oidtool_commands::CommandError;
use streams::PipeError;

// The texts of errors that several types have.
const NO_HEX: &str = "prefix: Invalid hex character";

const BAD_LINE: &str = "line 2: A hash sized 2 hexadecimal characters is invalid";

const BELOW: &str = "line 3: below the line before it";

const TOO_LONG: &str = "prefix of 41 digits, but an id of the list has only 40";

const OTHER_KIND: &str = "line 7: an id of the other kind";

const NOT_ABOVE: &str = "line 3: not above the line before it";

const NO_MEMORY: &str = "out of memory";

const NOT_WRITTEN: &str = "cannot write";

const NOT_READ: &str = "cannot read";

const TOO_MUCH: &str = "too much input";

const TOO_SHORT: decode::Error = decode::Error::InvalidHexEncodingLength(2);

// The texts of errors that no run of the program shows in `tools/runs.table`, or only in part.
#[test]
fn prints_errors_of_texts(rt: HostRuntime) {
    for (error, text) in &[
        (FindError::Prefix(from_hex::Error::Invalid), NO_HEX),
        (
            FindError::BadLine {
                line: 2,
                error: TOO_SHORT,
            },
            BAD_LINE,
        ),
        (FindError::Unsorted { line: 3 }, BELOW),
        (
            FindError::PrefixTooLong {
                hex_len: 41,
                min: 40,
            },
            TOO_LONG,
        ),
        (FindError::Memory, NO_MEMORY),
        (FindError::Output, NOT_WRITTEN),
    ] {
        expect_printed(&rt, error, text);
    }
}

#[test]
fn prints_errors_of_texts_of_one_kind(rt: HostRuntime) {
    for (error, text) in &[
        (FindInError::Prefix(from_hex::Error::Invalid), NO_HEX),
        (
            FindInError::OtherKind { kind: Kind::Sha1 },
            "prefix of kind sha1",
        ),
        (
            FindInError::BadLine {
                line: 2,
                error: TOO_SHORT,
            },
            BAD_LINE,
        ),
        (FindInError::WrongKind { line: 7 }, OTHER_KIND),
        (FindInError::NotRising { line: 3 }, NOT_ABOVE),
        (FindInError::Memory, NO_MEMORY),
        (FindInError::Output, NOT_WRITTEN),
    ] {
        expect_printed(&rt, error, text);
    }
}

#[test]
fn prints_errors_of_sources(rt: HostRuntime) {
    for (error, text) in &[
        (FindFromError::Prefix(from_hex::Error::Invalid), NO_HEX),
        (
            FindFromError::BadLine {
                line: 2,
                error: TOO_SHORT,
            },
            BAD_LINE,
        ),
        (FindFromError::Unsorted { line: 3 }, BELOW),
        (
            FindFromError::PrefixTooLong {
                hex_len: 41,
                min: 40,
            },
            TOO_LONG,
        ),
        (FindFromError::Memory, NO_MEMORY),
        (FindFromError::Output, NOT_WRITTEN),
        (FindFromError::Input, NOT_READ),
        (FindFromError::TooMuch, TOO_MUCH),
    ] {
        expect_printed(&rt, error, text);
    }
    for (error, text) in &[
        (SearchError::Memory, NO_MEMORY),
        (SearchError::Output, NOT_WRITTEN),
        (SearchError::Input, NOT_READ),
        (SearchError::TooMuch, TOO_MUCH),
    ] {
        expect_printed(&rt, error, text);
    }
}

#[test]
fn prints_errors_of_pipes(rt: HostRuntime) {
    for (error, text) in &[
        (PipeError::Input, NOT_READ),
        (PipeError::Output, NOT_WRITTEN),
        (PipeError::TooMuch, TOO_MUCH),
    ] {
        expect_printed(&rt, error, text);
    }
    expect_printed(&rt, &CommandError::TooMuch, TOO_MUCH);
}

//! Why a text is not a prefix.

use thiserror::Error as ThisError;

/// The error of reading a prefix from a text, which is not the digits of one.
///
/// ```
/// let why = Prefix::from_hex("4b8");
/// assert!(rt; matches!(why, Err(prefix::from_hex::Error::TooShort { hex_len: 3 })));
/// ```
#[derive(Debug, PartialEq, Eq, Drop, ThisError)]
pub enum Error {
    /// The text has fewer bytes than the call accepts: fewer than 4, or none if the call accepts
    /// 1 digit.
    #[error("The minimum hex length of a short object id is 4, got {hex_len}")]
    TooShort {
        /// The length of the text, in bytes.
        hex_len: usize,
    },
    /// The text has more bytes than an id has digits: any id, or for
    /// [`Prefix::from_hex_in`](super::Prefix::from_hex_in) one of the kind that was asked for.
    #[error("An id cannot be larger than 64 chars in hex, but {hex_len} was requested")]
    TooLong {
        /// The length of the text, in bytes.
        hex_len: usize,
    },
    /// Some byte of the text is not a digit of the alphabet.
    #[error("Invalid hex character")]
    Invalid,
}

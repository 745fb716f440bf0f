//! Why a text is not a full id.

use thiserror::Error as ThisError;

/// The error of reading an id from a text, which is not the digits of one in the alphabet that it
/// is read in.
///
/// ```
/// // Neither 40 nor 64 digits.
/// let why = ObjectId::from_hex(b"4b82");
/// assert!(rt; matches!(why, Err(decode::Error::InvalidHexEncodingLength(4))));
/// ```
#[derive(Debug, Drop, ThisError)]
pub enum Error {
    /// The text has neither 40 nor 64 bytes: it has as many as given here.
    #[error("A hash sized {0} hexadecimal characters is invalid")]
    InvalidHexEncodingLength(usize),
    /// The text has the length of an id, and some byte of it is not a digit of the alphabet.
    #[error("Invalid character encountered")]
    Invalid,
}

//! The error of making ids from bytes.

use thiserror::Error as ThisError;

/// The error of making an id of bytes that are not a digest.
///
/// ```
/// // Neither 20 nor 32 bytes.
/// let why = oid::try_from_bytes(&[0x4b, 0x82]);
/// assert!(rt; matches!(why, Err(Error::InvalidByteSliceLength(2))));
/// ```
#[derive(Debug, Drop, ThisError)]
pub enum Error {
    /// The bytes are neither 20 nor 32: there are as many as given here.
    #[error("Cannot instantiate git hash from a digest of length {0}")]
    InvalidByteSliceLength(usize),
}

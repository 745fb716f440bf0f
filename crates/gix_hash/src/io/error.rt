//! The error of streams and files.

use crate::hashing;
use thiserror::Error as ThisError;

/// Why a stream or a file gave no digest.
///
/// ```
/// match bytes(&mut reader, 41, Kind::Sha1, &mut NoProgress, &mut Never) {
///     Ok(id) => println!(rt; "{id}")?,
///     Err(io::Error::Io(why)) => println!(rt; "not 41 bytes: {why}")?,
///     Err(why) => println!(rt; "{why}")?,
/// }
/// ```
#[derive(Debug, Drop, ThisError)]
pub enum Error {
    /// A file could not be opened, or a reader failed or ended too early.
    #[error(transparent)]
    Io(#[from] std::io::Error),
    /// The hasher gave no digest. No call of this crate returns it, since its hashers never fail.
    #[error("Failed to hash data")]
    Hasher(#[from] hashing::Error),
    /// `should_interrupt` returned true.
    #[error("Interrupted")]
    Interrupted,
}

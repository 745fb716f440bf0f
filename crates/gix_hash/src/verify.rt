//! Comparing a computed id with the one that was expected.

use crate::object_id::ObjectId;
use thiserror::Error as ThisError;

/// The error of `verify`: two ids that should have been equal.
///
/// ```
/// if let Err(why) = id.as_oid().verify(expected.as_oid()) {
///     println!(rt; "{} is not {}", why.actual, why.expected)?;
/// }
/// ```
#[derive(Debug, Drop, ThisError)]
#[error("Hash was {actual}, but should have been {expected}")]
pub struct Error {
    /// The id that was verified.
    pub actual: ObjectId,
    /// The id that it should have been.
    pub expected: ObjectId,
}

//! Computing ids: why a hasher may give none.

pub(crate) mod ending;
pub(crate) mod start;
pub(crate) mod state;

use crate::object_id::ObjectId;
use thiserror::Error as ThisError;

/// The error of [`Hasher::try_finalize`](crate::Hasher::try_finalize). No hasher of this crate
/// returns it, since none looks for collisions.
///
/// ```
/// match hasher(Kind::Sha1).try_finalize() {
///     Ok(id) => println!(rt; "{id}")?,
///     Err(hashing::Error::CollisionAttack { digest }) => println!(rt; "no digest but {digest}")?,
/// }
/// ```
#[derive(Debug, Drop, ThisError)]
pub enum Error {
    /// The message looks as if it were made to have the SHA-1 digest of another one.
    #[error("Detected SHA-1 collision attack with digest {digest}")]
    CollisionAttack {
        /// The digest of the message.
        digest: ObjectId,
    },
}

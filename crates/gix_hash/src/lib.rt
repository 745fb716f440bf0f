//! The types by which Git tools name objects: hash kinds, ids, prefixes of ids.
//!
//! An id is a SHA-1 digest of 20 bytes or a SHA-256 digest of 32 bytes, and contracts see it as a
//! [`Kind`] and a list of 40 or 64 digits. [`ObjectId`] owns its bytes, [`oid`] borrows them, and a
//! [`Prefix`] is a beginning of an id's digits. A [`ChangeId`] is an id in Jujutsu's letters. A
//! [`Hasher`] computes ids from bytes in chunks, [`digest_of`] from one slice, and [`bytes`],
//! [`bytes_of_file`] and [`io::Write`] from what is read and written. [`ends_in_digest`] tests the
//! bytes of a pack or an index.
#![tactic(auto)]

mod alphabet;
mod ascii;
mod borrowed;
/// Ids in the letters by which Jujutsu spells change ids.
pub mod change_id;
/// Reading ids from text.
pub mod decode;
mod display;
mod error;
/// Computing ids from bytes.
pub mod hashing;
/// Laws of hashing that hold across calls.
pub mod hashing_laws;
/// Digests of streams and files.
pub mod io;
mod kind;
/// Laws that hold across calls.
pub mod laws;
mod object_id;
/// Beginnings of ids.
pub mod prefix;
/// Comparing a computed id with the one that was expected.
pub mod verify;

pub use alphabet::Alphabet;
pub use borrowed::oid;
pub use change_id::ChangeId;
pub use display::HexDisplay;
pub use error::Error;
pub use hashing::ending::ends_in_digest;
pub use hashing::start::{digest_of, hasher};
pub use hashing::state::Hasher;
pub use io::file::bytes_of_file;
pub use io::stream::{bytes, bytes_with_hasher};
pub use kind::Kind;
pub use object_id::ObjectId;
pub use prefix::Prefix;

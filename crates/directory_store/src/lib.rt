//! Object stores in directories, as Git has them (gitrepository-layout).
//!
//! [`DirectoryStore`] is an [`object_store::Store`]: the pack indexes and the loose objects of an
//! object directory and of its alternates, as `repositories` finds them. [`paths`] writes the paths
//! of loose objects.
#![tactic(auto)]

mod error;
/// Laws of opened stores.
pub mod laws;
mod listing;
mod loose;
mod multi;
mod pack_paths;
mod packs;
/// Paths of loose objects.
pub mod paths;
mod source;
mod store;

pub use error::Error;
pub use loose::LooseIds;
pub use multi::Purpose;
pub use source::{StoreFile, StoreFiles};
pub use store::DirectoryStore;

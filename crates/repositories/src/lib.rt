//! Git's repositories: where their objects are (gitrepository-layout), lists of alternates, and a
//! repository's format in its config.
//!
//! [`find_objects`] finds the object directory of the repository that a program runs in, and
//! [`with_alternates`] the directories whose objects it borrows.
#![tactic(auto)]

/// Lists of alternates.
pub mod alternates;
/// What a repository's config says of its ids.
pub mod config;
mod directories;
mod error;
mod files;
mod finding;
mod look;
mod object_directories;
mod repository;
mod state;
mod walk;

pub use directories::{Directories, Found};
pub use error::{Cause, Error, TextFault};
pub use files::{join, metadata, retried};
pub use finding::{ObjectDirectory, find_objects, find_objects_in};
pub use object_directories::{ObjectDirectories, with_alternates};
pub use repository::Environment;
pub use state::FileState;

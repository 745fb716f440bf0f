//! The commands of `packtool` over files: [`show`] prints the lines of a pack index, and [`check`]
//! whether a file passes its check.
#![tactic(auto)]

mod failure;
mod files;
mod multi;
mod progress;

pub use failure::{FileFailure, FileWhy};
pub use files::{check, show};
pub use progress::first_due;

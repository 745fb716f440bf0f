//! The command line of `packtool`: [`command`] says which arguments there are, and [`read_request`]
//! what they ask for.
#![tactic(auto)]

mod arguments;

pub use arguments::{FileCommand, FileRequest, Request, command, read_request};

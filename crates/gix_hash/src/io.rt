//! Digests of what is read from a stream or a file, and of what is written to a stream.

mod error;
pub(crate) mod file;
mod interrupt;
mod progress;
pub(crate) mod stream;
mod write;

pub use error::Error;
pub use interrupt::{Interrupt, Never};
pub use progress::{NoProgress, Progress};
pub use write::Write;

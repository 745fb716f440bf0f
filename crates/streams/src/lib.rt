//! Streams of bytes: readers and writers that remember whether they failed, and what is done
//! between them.
//!
//! A [`Source`] is read from and a [`Sink`] written to. Both know whether a call failed, so that a
//! contract can say that an error is returned if and only if one of them failed. [`FromSlice`] and
//! [`IntoSlice`] are a source and a sink over slices, and [`Plain`] is either over a reader or
//! writer of `std`, such as a [`Retrying`]. A source is read in chunks ([`next_chunk`]), and ids
//! are written as lines. A stream is hashed ([`hash_all`]), sealed with its digest ([`seal`]) or
//! checked to be sealed ([`check_seal`], [`check_either`]).
#![tactic(auto)]

mod checking;
mod chunks;
mod from_slice;
mod into_slice;
mod pipe;
mod plain;
mod printing;
mod read_at;
mod retrying;
mod sink;
mod source;

pub use checking::{Ending, check_either, check_seal};
pub use chunks::next_chunk;
pub use from_slice::FromSlice;
pub use into_slice::IntoSlice;
pub use pipe::{PipeError, hash_all, seal};
pub use plain::Plain;
pub use printing::{write_id, write_ids};
pub use read_at::ReadAt;
pub use retrying::Retrying;
pub use sink::{BufferedSink, Sink, WriteFailed, write_all};
pub use source::{CHUNK_LEN, MAX_LEN, Source};

//! The tables of an index whose bytes were not checked whole, or were checked before: each function
//! says which parts of the format the caller must ensure.
//!
//! Each takes the bytes of the index from its first on, and at least [`IDS_START`] of them. What
//! it returns is a number of objects, a position among these, or a number of bytes from the start
//! of the index. `crc_in` and `offset_in` require that [`check_tables`] accepted the bytes.
//!
//! ```
//! let ids = match check_tables(content, Kind::Sha1) {
//!     Ok(()) => &content[IDS_START..crc_table_start(content, Kind::Sha1)],
//!     Err(error) => return Err(error.into()),
//! };
//! ```
//!
//! This prints the offsets and CRCs of the objects whose ids begin with `4b`:
//!
//! ```
//! check_tables(content, Kind::Sha1)?;
//! let run = bucket_range(content, 0x4b, 0x4b);
//! for at in run.start..run.end.min(num_objects(content) as usize) {
//!     if has_offset(content, Kind::Sha1, at) {
//!         let offset = offset_in(content, Kind::Sha1, at);
//!         println!(rt; "{offset} {:08x}", crc_in(content, Kind::Sha1, at))?;
//!     }
//! }
//! ```

pub use crate::checks::{check_tables, has_offset};
pub use crate::words::{
    IDS_START, bucket_range, crc_in, crc_table_start, fan_out_entry, num_objects, offset_in,
};

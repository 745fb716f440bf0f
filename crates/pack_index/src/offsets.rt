//! What is checked of the offsets of a pack index.

ghost use Rattle.std.specs.Prelude.{◌≡◌, ◌^◌, ◌<◌, IfErr, IfOk, MatchOption, OnOk};
ghost use Rattle.pack_index.specs.Format.{Each, HasIds, HasOffset, HasOffsets, HasTables, IsFault, IsFirstNot, IsNextLong, IsPastHeader, IsSigned, longs_before, num_objects};

use crate::checks::first_without_offset;
use crate::error::Error;
use crate::words::{LONG, long_table_start, num_objects, offset_in, offset_word, tables_end};
use gix_hash::Kind;

// The length of a pack's header.
const PACK_HEADER_LEN: u64 = 12;

// The smallest number that is not a signed one of 64 bits.
const UNSIGNED: u64 = 0x8000_0000_0000_0000;

// Whether each object has an offset in the pack, and the 8-byte ones are used in the order of
// objects.
pub(crate) fn check_offsets(bytes: &[u8], kind: Kind) -> Result<(), Error>
    requires { HasIds kind bytes.now }
    ensures offsets { OnOk result (HasOffsets kind bytes.now) }
    ensures err { IfErr result (IsFault kind bytes.now) }
{
    if let Some(at) = first_without_offset(bytes, kind) {
        return Err(Error::NoOffset(at));
    }
    let longs = match count_longs(bytes, kind) {
        Ok(longs) => longs,
        Err(at) => return Err(Error::LongOutOfOrder(at)),
    };
    if long_table_start(bytes, kind) + 8 * longs < tables_end(bytes, kind) {
        return Err(Error::SpareLong(longs));
    }
    if let Some(at) = first_in_header(bytes, kind) {
        return Err(Error::OffsetInHeader(at));
    }
    if let Some(at) = first_too_high(bytes, kind) {
        return Err(Error::OffsetTooHigh(at));
    }
    Ok(())
}

// How many objects have 8-byte offsets, or the first whose 8-byte offset is not the next one.
fn count_longs(bytes: &[u8], kind: Kind) -> Result<usize, usize>
    requires { HasTables kind bytes.now }
    ensures count { IfOk result (λ longs. longs
        ≡ longs_before kind bytes.now (num_objects bytes.now)) }
    ensures small { IfOk result (λ longs. longs < 2 ^ 32) }
    ensures order { OnOk result (Each (IsNextLong kind bytes.now) (num_objects bytes.now)) }
    ensures err { IfErr result (IsFirstNot (IsNextLong kind bytes.now) (num_objects bytes.now)) }
{
    let mut longs = 0;
    for at in 0..num_objects(bytes) as usize {
        let word = offset_word(bytes, kind, at);
        if word >= LONG {
            if (word - LONG) as usize != longs {
                return Err(at);
            }
            longs += 1;
        }
    }
    Ok(longs)
}

// The first object whose offset is in the header of the pack.
fn first_in_header(bytes: &[u8], kind: Kind) -> Option<usize>
    requires tables { HasTables kind bytes.now }
    requires offsets { Each (HasOffset kind bytes.now) (num_objects bytes.now) }
    ensures { MatchOption result (Each (IsPastHeader kind bytes.now) (num_objects bytes.now))
        (IsFirstNot (IsPastHeader kind bytes.now) (num_objects bytes.now)) }
{
    for at in 0..num_objects(bytes) as usize {
        if offset_in(bytes, kind, at) < PACK_HEADER_LEN {
            return Some(at);
        }
    }
    None
}

// The first object whose offset is not a signed number.
fn first_too_high(bytes: &[u8], kind: Kind) -> Option<usize>
    requires tables { HasTables kind bytes.now }
    requires offsets { Each (HasOffset kind bytes.now) (num_objects bytes.now) }
    ensures { MatchOption result (Each (IsSigned kind bytes.now) (num_objects bytes.now))
        (IsFirstNot (IsSigned kind bytes.now) (num_objects bytes.now)) }
{
    for at in 0..num_objects(bytes) as usize {
        if offset_in(bytes, kind, at) >= UNSIGNED {
            return Some(at);
        }
    }
    None
}

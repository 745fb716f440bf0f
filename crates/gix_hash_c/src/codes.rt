//! The codes that functions return. Definitions of clauses, the header and the bindings have the
//! same numbers.

ghost use Rattle.std.specs.Prelude.{◌≡◌};
ghost use Rattle.gix_hash_c.specs.Face.{kind_of_number, order_number};

use gix_hash::Kind;
use std::cmp::Ordering;

pub(crate) const OK: u32 = 0;

pub(crate) const BAD_LENGTH: u32 = 1;

pub(crate) const BAD_DIGIT: u32 = 2;

pub(crate) const BAD_KIND: u32 = 3;

pub(crate) const NO_ROOM: u32 = 4;

pub(crate) const PREFIX_TOO_LONG: u32 = 5;

pub(crate) const OUT_OF_RANGE: u32 = 6;

pub(crate) const UNSORTED: u32 = 7;

pub(crate) const NOT_UNIQUE: u32 = 8;

pub(crate) const BAD_TYPE: u32 = 9;

pub(crate) const INDEX_TOO_SHORT: u32 = 16;

pub(crate) const VERSION_1: u32 = 17;

pub(crate) const BAD_MAGIC: u32 = 18;

pub(crate) const BAD_VERSION: u32 = 19;

pub(crate) const WRONG_LENGTH: u32 = 20;

pub(crate) const NAMES_FALL: u32 = 21;

pub(crate) const WRONG_COUNT: u32 = 22;

pub(crate) const NO_OFFSET: u32 = 23;

pub(crate) const LONG_OUT_OF_ORDER: u32 = 24;

pub(crate) const SPARE_LONG: u32 = 25;

pub(crate) const OFFSET_IN_HEADER: u32 = 26;

pub(crate) const OFFSET_TOO_HIGH: u32 = 27;

pub(crate) const WRONG_CHECKSUM: u32 = 28;

pub(crate) const OTHER_KIND: u32 = 29;

pub(crate) const NO_ORDER: i32 = 2;

// The kind that a number names.
pub(crate) fn kind_of(number: u32) -> Option<Kind>
    ensures { result ≡ kind_of_number number }
{
    match number {
        1 => Some(Kind::Sha1),
        2 => Some(Kind::Sha256),
        _ => None,
    }
}

// The number of an order.
pub(crate) fn order_of(order: Ordering) -> i32
    ensures { result ≡ order_number order }
{
    match order {
        Ordering::Less => -1,
        Ordering::Equal => 0,
        Ordering::Greater => 1,
    }
}

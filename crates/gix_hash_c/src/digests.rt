//! Digests of bytes, for C.

ghost use Rattle.std.specs.Prelude.{option_map};
ghost use Rattle.id_lookup.specs.Words.{digest, whole_of};
ghost use Rattle.gix_hash_c.specs.Face.{KindIdAnswer, kind_of_number};

use crate::codes::{BAD_KIND, OK, kind_of};
use crate::ids::{Id, to_c};
use gix_hash::digest_of;

/// The digest of some bytes. `BAD_KIND` leaves `id` as it was.
#[unsafe(no_mangle)]
pub extern "C" fn gix_hash_digest(kind: u32, bytes: &[u8], id: &mut Id) -> u32
    ensures { KindIdAnswer (option_map (λ kind. whole_of (digest kind bytes.now))
        (kind_of_number kind)) result id.old id.new }
{
    let Some(kind) = kind_of(kind) else {
        return BAD_KIND;
    };
    *id = to_c(&digest_of(kind, bytes));
    OK
}

//! The ids that a user may mean by the first digits that were typed.

ghost use Rattle.std.specs.Prelude.{◌≡◌, IfErr, IfOk, Err, Ok, map};
ghost use Rattle.gix_hash.specs.Words.{KindDigits, hex_letter, id_digits, prefix_read_in};
ghost use Rattle.id_lookup.specs.Words.{matches};

use gix_hash::prefix::from_hex::Error;
use gix_hash::{ObjectId, Prefix};
use id_lookup::IdIndex;

/// The ids of an index that begin with the hex digits that were typed, in order.
pub fn candidates<'a>(index: &IdIndex<'a>, typed: &str) -> Result<&'a [ObjectId], Error>
    ensures ok { IfOk result (λ ids. (prefix : KindDigits)
        × (prefix_read_in index.now.kind hex_letter typed.now ≡ Ok prefix)
        × (map id_digits ids.now ≡ matches prefix.digits index.now.ids)) }
    ensures err { IfErr result (λ e.
        prefix_read_in index.now.kind hex_letter typed.now ≡ Err e) }
{
    let prefix = Prefix::from_hex_in(index.kind(), typed)?;
    Ok(index.matches(&prefix))
}

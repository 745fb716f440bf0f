//! What a name that was typed means in a pack.

ghost use Rattle.std.specs.Prelude.{◌≡◌, ◌↔◌, ℕ, IfSome, IsNone};
ghost use Rattle.pack_index.specs.Format.{offset_in};
ghost use Rattle.callers.specs.Offsets.{IsOnlyMatch};

use gix_hash::{Kind, Prefix};
use id_lookup::Answer;
use pack_index::File;

/// The offset in the pack of the only object whose id begins with what was typed, in hex digits of
/// the index's kind. It is `None` if and only if the text is not a prefix in that kind, the bytes
/// are not a pack index of that kind, or none or more than one of its ids begins with the prefix.
pub fn typed_offset(bytes: &[u8], kind: Kind, typed: &str) -> Option<u64>
    ensures offset { IfSome result (λ offset. (at : ℕ) × IsOnlyMatch kind bytes.now typed.now at
        × (offset ≡ offset_in kind bytes.now at)) }
    ensures none { IsNone result ↔ ((at : ℕ) → ¬ IsOnlyMatch kind bytes.now typed.now at) }
{
    let Ok(prefix) = Prefix::from_hex_in(kind, typed) else {
        return None;
    };
    let Ok(file) = File::try_new(bytes, kind) else {
        return None;
    };
    match file.lookup_prefix(&prefix) {
        Answer::One(at) => Some(file.pack_offset_at_index(at)),
        Answer::None | Answer::Many(_) => None,
    }
}

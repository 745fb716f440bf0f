//! Ids that are verified and printed.

ghost use Rattle.std.specs.Prelude.{◌≡◌, ◌↔◌, ◌∷◌, ◌++◌, [], IfErr, IfOk, IsOk, OnOk, codes, string_bytes};
ghost use Rattle.std.specs.Io.KnownBytes.{Appends};
ghost use Rattle.gix_hash.specs.Words.{hex_letter, id_digits, oid_digits, spelling};

use gix_hash::{ObjectId, oid, verify};
use std::alloc::{AllocError, Global};
use std::io;

/// The id that was computed, if it is the expected one.
pub fn verified(id: ObjectId, expected: oid<'_>) -> Result<ObjectId, verify::Error>
    ensures ok { IfOk result (λ same. same ≡ id) }
    ensures equal { IsOk result ↔ (id_digits id ≡ oid_digits expected.entry) }
    ensures err { IfErr result (λ e. (id_digits e.actual ≡ id_digits id)
        × (id_digits e.expected ≡ oid_digits expected.entry)) }
{
    id.verify(expected)?;
    Ok(id)
}

/// Writes an id's line, with its line feed.
pub fn write_line<W: io::Write>(id: oid<'_>, out: &mut W) -> io::Result<()>
    ensures { OnOk result (Appends (W.contents out.old) (W.contents out.new)
        (spelling hex_letter (oid_digits id.entry) ++ 10 ∷ [])) }
{
    id.write_hex_to(out)?;
    out.write_all(b"\n")?;
    Ok(())
}

/// The name that Git gives to a pack: its digest in hex, between `pack-` and `.pack`.
pub fn pack_name(alloc: Global, digest: oid<'_>) -> Result<String, AllocError>
    ensures { IfOk result (λ name. string_bytes name
        ≡ codes "pack-" ++ spelling hex_letter (oid_digits digest.entry) ++ codes ".pack") }
{
    format!(in alloc; "pack-{}.pack", digest.to_hex())
}

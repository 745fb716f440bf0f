//! Where loose objects lie below the directory `objects` (gitrepository-layout): in a directory of
//! their first two digits.

ghost use Rattle.std.specs.Prelude.{OnOk};
ghost use Rattle.std.specs.Io.KnownBytes.{Appends};
ghost use Rattle.gix_hash.specs.Words.{id_digits};
ghost use Rattle.directory_store.specs.Paths.{loose_path};

use gix_hash::ObjectId;
use std::io;

/// Writes `4b/825dc6..`, the path of a loose object below the object directory, in lowercase and
/// with no line feed. The error is the writer's.
pub fn write_loose_path<W: io::Write>(id: &ObjectId, out: &mut W) -> io::Result<()>
    ensures { OnOk result (Appends (W.contents out.old) (W.contents out.new)
        (loose_path (id_digits id.now))) }
{
    let mut digits = [0; 64];
    id.put_hex(&mut digits);
    out.write_all(&digits[..2])?;
    out.write_all(b"/")?;
    out.write_all(&digits[2..id.kind().len_in_hex()])?;
    Ok(())
}

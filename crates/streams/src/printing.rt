//! Writing ids, a line for each.

ghost use Rattle.std.specs.Prelude.{◌≡◌, ◌≤◌, false, map, length, take};
ghost use Rattle.gix_hash.specs.Words.{id_digits, letter_of};
ghost use Rattle.streams.specs.Streams.{Wrote, line_of, printed};

use crate::{Sink, WriteFailed, write_all};
use gix_hash::{Alphabet, ObjectId};

// The length of the longest line: 64 digits and a line feed.
const MAX_LINE_LEN: usize = 65;

/// Writes a line for each id: its digits and a line feed.
///
/// It stops at the first write that fails, after a proper prefix of the lines. The sink must not
/// have failed before.
pub fn write_ids<W: Sink>(
    alphabet: Alphabet,
    ids: &[ObjectId],
    out: &mut W,
) -> Result<(), WriteFailed>
    requires { W.has_failed out.old ≡ false }
    ensures { Wrote W.taken W.has_failed out.old out.new result
        (printed (letter_of alphabet) (map id_digits ids.now)) }
{
    for id in ids {
        write_id(alphabet, id, out)?;
    }
    Ok(())
}

/// Writes the line of an id: its digits and a line feed. After an error a proper prefix of the line
/// was written. The sink must not have failed before.
pub fn write_id<W: Sink>(alphabet: Alphabet, id: &ObjectId, out: &mut W) -> Result<(), WriteFailed>
    requires { W.has_failed out.old ≡ false }
    ensures { Wrote W.taken W.has_failed out.old out.new result
        (line_of (letter_of alphabet) (id_digits id.now)) }
{
    let mut line = [0; MAX_LINE_LEN];
    let len = put_id_line(alphabet, id, &mut line);
    write_all(out, &line[..len])
}

// Puts the id's digits and a line feed at the start of the buffer, and returns their length.
fn put_id_line(alphabet: Alphabet, id: &ObjectId, line: &mut [u8]) -> usize
    requires { length line.old ≡ MAX_LINE_LEN }
    ensures len { result ≤ MAX_LINE_LEN }
    ensures text { take result line.new ≡ line_of (letter_of alphabet) (id_digits id.now) }
{
    let digits = id.kind().len_in_hex();
    alphabet.put_id(id.as_oid(), line);
    line[digits] = b'\n';
    digits + 1
}

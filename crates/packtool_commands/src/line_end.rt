//! The ends of lines, each after the name of a file.

ghost use Rattle.std.specs.Prelude.{◌≡◌, ◌+◌, ◌≤◌, ◌++◌, decimal, length};
ghost use Rattle.arrayvec.specs.ArrayVec.{array_vec_len};
ghost use Rattle.packtool_commands.specs.Files.{hex_of};

use arrayvec::ArrayVec;
use gix_hash::{Kind, ObjectId};
use itoa::Buffer;

// The length of the longest end: two ids of 64 digits, and 61 bytes around them.
const MAX_LEN: usize = 189;

/// What is after the name of a file in its line.
pub(crate) type LineEnd = ArrayVec<u8, MAX_LEN>;

/// Adds an id after a text.
pub(crate) fn push_digest(line: &mut LineEnd, text: &[u8], id: &ObjectId)
    requires { array_vec_len line.old + length text.now + 64 ≤ MAX_LEN }
    ensures text { line.new.items ≡ line.old.items ++ text.now ++ hex_of id.now }
    ensures len { array_vec_len line.new ≤ array_vec_len line.old + length text.now + 64 }
{
    push(line, text);
    push(line, id.hex_to_buf(&mut Kind::hex_buf()).as_bytes());
}

/// Adds a number after a text.
pub(crate) fn push_number(line: &mut LineEnd, text: &[u8], number: u64)
    requires { array_vec_len line.old + length text.now + 20 ≤ MAX_LEN }
    ensures text { line.new.items ≡ line.old.items ++ text.now ++ decimal number }
    ensures len { array_vec_len line.new ≤ array_vec_len line.old + length text.now + 20 }
{
    push(line, text);
    push(line, Buffer::new().format(number).as_bytes());
}

/// Adds bytes, for which there is room.
pub(crate) fn push<const N: usize>(line: &mut ArrayVec<u8, N>, bytes: &[u8])
    requires { array_vec_len line.old + length bytes.now ≤ N }
    ensures { line.new.items ≡ line.old.items ++ bytes.now }
{
    line.try_extend_from_slice(bytes).unwrap();
}

//! The path of a loose object, read (gitrepository-layout).

ghost use Rattle.std.specs.Prelude.{◌≡◌, ◌≢◌, ◌≤◌, ◌+◌, ◌++◌, take, ℕ, List, MatchOption, length};
ghost use Rattle.gix_hash.specs.Words.{AreIdDigits, id_digits, id_kind};
ghost use Rattle.directory_store.specs.Paths.{loose_path};

use crate::printed::{after_key, read_printed};
use gix_hash::{Kind, ObjectId};

/// The id of the loose object at a path, which is relative to the object directory, in lowercase
/// and with `/`; or `None` if the path is that of no id of the kind.
pub fn read_loose_path(kind: Kind, path: &[u8]) -> Option<ObjectId>
    ensures { MatchOption result ((digits : List ℕ) → AreIdDigits kind digits
        → path.now ≢ loose_path digits)
        (λ id. (id_kind id ≡ kind) × (path.now ≡ loose_path (id_digits id))) }
{
    if path.len() < 3 || path.len() > 65 {
        return None;
    }
    let (directory, rest) = path.split_at(2);
    let file = after_key(b"/", rest)?;
    let mut digits = [0; 64];
    put_both(directory, file, &mut digits);
    read_printed(kind, &digits[..directory.len() + file.len()])
}

// Writes two slices to the front of a buffer, one after the other.
fn put_both(first: &[u8], second: &[u8], buffer: &mut [u8])
    requires { length first.now + length second.now ≤ length buffer.old }
    ensures { take (length first.now + length second.now) buffer.new ≡ first.now ++ second.now }
{
    let len = first.len() + second.len();
    buffer[..first.len()].copy_from_slice(first);
    buffer[first.len()..len].copy_from_slice(second);
}

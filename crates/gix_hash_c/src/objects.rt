//! Ids of Git's objects, from their types and contents.

ghost use Rattle.std.specs.Prelude.{◌≡◌, MatchOption, Some, None};
ghost use Rattle.gix_hash_c.specs.Face.{kind_of_number};
ghost use Rattle.gix_hash_c.specs.Hashers.{HoldsMessage, ObjectAnswer, ObjectHasherAnswer, object_header, type_name};

use crate::codes::{BAD_KIND, BAD_TYPE, OK, kind_of};
use crate::hashers::{Hasher, gix_hash_hasher_finish, gix_hash_hasher_update, new_hasher};
use crate::ids::Id;
use gix_hash::Kind;
use itoa::Buffer;

/// The id of an object: the digest of the name of its type, a space, the number of its bytes in
/// decimal, a zero, and the bytes. The types are 1 for a commit, 2 for a tree, 3 for a blob and 4
/// for a tag. An error leaves `id` as it was: `BAD_KIND`, or else `BAD_TYPE`.
#[unsafe(no_mangle)]
pub extern "C" fn gix_hash_object_id(kind: u32, object_type: u32, bytes: &[u8], id: &mut Id) -> u32
    ensures { ObjectAnswer (kind_of_number kind) (type_name object_type) bytes.now result
        id.old id.new }
{
    let Some(kind) = kind_of(kind) else {
        return BAD_KIND;
    };
    let Some(name) = type_name(object_type) else {
        return BAD_TYPE;
    };
    let mut hasher = object_hasher(kind, name, bytes.len() as u64);
    gix_hash_hasher_update(&mut hasher, bytes);
    gix_hash_hasher_finish(&hasher, id)
}

/// Makes a hasher of an object whose `len` bytes are to be fed: its message is what
/// `gix_hash_object_id` hashes before them. An error leaves `hasher` as it was: `BAD_KIND`, or else
/// `BAD_TYPE`.
#[unsafe(no_mangle)]
pub extern "C" fn gix_hash_object_hasher(
    kind: u32,
    object_type: u32,
    len: u64,
    hasher: &mut Hasher,
) -> u32
    ensures { ObjectHasherAnswer (kind_of_number kind) (type_name object_type) len result
        hasher.old hasher.new }
{
    let Some(kind) = kind_of(kind) else {
        return BAD_KIND;
    };
    let Some(name) = type_name(object_type) else {
        return BAD_TYPE;
    };
    *hasher = object_hasher(kind, name, len);
    OK
}

// The name of a type.
fn type_name(number: u32) -> Option<&'static [u8]>
    ensures { MatchOption result (type_name number ≡ None)
        (λ name. type_name number ≡ Some name.now) }
{
    match number {
        1 => Some(b"commit"),
        2 => Some(b"tree"),
        3 => Some(b"blob"),
        4 => Some(b"tag"),
        _ => None,
    }
}

// The hasher that was fed the header of an object of `len` bytes, whose type has that name.
fn object_hasher(kind: Kind, name: &[u8], len: u64) -> Hasher
    ensures { HoldsMessage kind result (object_header name.now len) }
{
    let mut buffer = Buffer::new();
    let mut hasher = new_hasher(kind);
    gix_hash_hasher_update(&mut hasher, name);
    gix_hash_hasher_update(&mut hasher, b" ");
    gix_hash_hasher_update(&mut hasher, buffer.format(len).as_bytes());
    gix_hash_hasher_update(&mut hasher, b"\0");
    hasher
}

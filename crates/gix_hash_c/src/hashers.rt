//! Hashers that C keeps, and feeds in chunks.

ghost use Rattle.std.specs.Prelude.{[], ◌≡◌};
ghost use Rattle.gix_hash_c.specs.Face.{kind_of_number};
ghost use Rattle.gix_hash_c.specs.Hashers.{FinishAnswer, HoldsMessage, NewAnswer, UpdateAnswer, sha1_in, sha256_in};

use crate::codes::{BAD_KIND, OK, kind_of};
use crate::ids::{Id, to_c};
use crate::states::{
    CoreFields, Sha1Fields, Sha256Fields, sha1_fields, sha1_of, sha256_fields, sha256_of,
};
use gix_hash::{Kind, ObjectId};
use sha1::Sha1;
use sha2::{Digest, Sha256};

/// A hash function at work on a message. Any values are safe.
#[repr(C)]
#[derive(Clone, Copy)]
pub struct Hasher {
    /// 1 for SHA-1, and 2 for SHA-256.
    pub kind: u32,
    /// The hash value so far, of 5 or 8 words. The words after the 5 of SHA-1 are not read, and are
    /// written as zeros.
    pub words: [u32; 8],
    /// The number of bytes so far.
    pub count: u64,
    /// The bytes after the last whole block, and others after them.
    pub block: [u8; 64],
}

/// Makes a hasher of an empty message. `BAD_KIND` leaves `hasher` as it was.
#[unsafe(no_mangle)]
pub extern "C" fn gix_hash_hasher_new(kind: u32, hasher: &mut Hasher) -> u32
    ensures { NewAnswer (kind_of_number kind) result hasher.old hasher.new }
{
    let Some(kind) = kind_of(kind) else {
        return BAD_KIND;
    };
    *hasher = new_hasher(kind);
    OK
}

// A hasher of an empty message.
pub(crate) fn new_hasher(kind: Kind) -> Hasher
    ensures { HoldsMessage kind result [] }
{
    match kind {
        Kind::Sha1 => sha1_to_c(Sha1::new()),
        Kind::Sha256 => sha256_to_c(Sha256::new()),
    }
}

/// Appends bytes to the message. `BAD_KIND` leaves `hasher` as it was.
#[unsafe(no_mangle)]
pub extern "C" fn gix_hash_hasher_update(hasher: &mut Hasher, bytes: &[u8]) -> u32
    ensures { UpdateAnswer (kind_of_number hasher.old.kind) bytes.now result hasher.old hasher.new }
{
    match kind_of(hasher.kind) {
        Some(Kind::Sha1) => {
            let mut state = sha1_in(hasher);
            state.update(bytes);
            *hasher = sha1_to_c(state);
            OK
        }
        Some(Kind::Sha256) => {
            let mut state = sha256_in(hasher);
            state.update(bytes);
            *hasher = sha256_to_c(state);
            OK
        }
        None => BAD_KIND,
    }
}

/// The digest of the message so far. The hasher stays as it is. `BAD_KIND` leaves `id` as it was.
#[unsafe(no_mangle)]
pub extern "C" fn gix_hash_hasher_finish(hasher: &Hasher, id: &mut Id) -> u32
    ensures { FinishAnswer (kind_of_number hasher.now.kind) hasher.now result id.old id.new }
{
    let digest = match kind_of(hasher.kind) {
        Some(Kind::Sha1) => ObjectId::Sha1(sha1_in(hasher).finalize()),
        Some(Kind::Sha256) => ObjectId::Sha256(sha256_in(hasher).finalize()),
        None => return BAD_KIND,
    };
    *id = to_c(&digest);
    OK
}

// The state of SHA-1 in a hasher.
fn sha1_in(hasher: &Hasher) -> Sha1
    ensures { result ≡ sha1_in hasher.now }
{
    let mut h = [0; 5];
    h.copy_from_slice(&hasher.words[..5]);
    sha1_of(Sha1Fields {
        h,
        buffer: hasher.block,
        total: hasher.count,
    })
}

// The hasher with a state of SHA-1.
fn sha1_to_c(state: Sha1) -> Hasher
    ensures kind { result.kind ≡ 1 }
    ensures state { state ≡ sha1_in result }
{
    let fields = sha1_fields(state);
    let mut words = [0; 8];
    words[..5].copy_from_slice(&fields.h);
    Hasher {
        kind: 1,
        words,
        count: fields.total,
        block: fields.buffer,
    }
}

// The state of SHA-256 in a hasher.
fn sha256_in(hasher: &Hasher) -> Sha256
    ensures { result ≡ sha256_in hasher.now }
{
    sha256_of(Sha256Fields {
        core: CoreFields {
            h: hasher.words,
            buffer: hasher.block,
            total: hasher.count,
        },
    })
}

// The hasher with a state of SHA-256.
fn sha256_to_c(state: Sha256) -> Hasher
    ensures kind { result.kind ≡ 2 }
    ensures state { state ≡ sha256_in result }
{
    let core = sha256_fields(state).core;
    let words = core.h;
    let block = core.buffer;
    Hasher {
        kind: 2,
        words,
        count: core.total,
        block,
    }
}

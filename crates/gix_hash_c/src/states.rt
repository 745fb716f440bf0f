//! The states of the kit's hash functions as numbers, which C can keep.
//!
//! The fields of `sha1::Sha1` and `sha2::Sha256` are private. The structs here have fields of the
//! same types in the same order, so that a state can be read as such a struct, and the other way
//! round. That both lie in memory in the same way is proved.

ghost use Rattle.std.specs.Prelude.{◌≡◌};
ghost use Rattle.gix_hash_c.specs.Hashers.{sha1_of, sha256_of};

use sha1::Sha1;
use sha2::Sha256;

/// The fields of a `Sha1`.
#[derive(Clone, Copy)]
pub(crate) struct Sha1Fields {
    pub(crate) h: [u32; 5],
    pub(crate) buffer: [u8; 64],
    pub(crate) total: u64,
}

/// The fields of the one field of a `Sha256`.
#[derive(Clone, Copy)]
pub(crate) struct CoreFields {
    pub(crate) h: [u32; 8],
    pub(crate) buffer: [u8; 64],
    pub(crate) total: u64,
}

/// The field of a `Sha256`.
#[derive(Clone, Copy)]
pub(crate) struct Sha256Fields {
    pub(crate) core: CoreFields,
}

// The state with these fields.
pub(crate) fn sha1_of(fields: Sha1Fields) -> Sha1
    ensures { result ≡ sha1_of fields }
{
    let at = &raw const fields as *const Sha1;
    unsafe { std::ptr::read(at) }
}

// The fields of a state.
pub(crate) fn sha1_fields(state: Sha1) -> Sha1Fields
    ensures { sha1_of result ≡ state }
{
    let at = &raw const state as *const Sha1Fields;
    unsafe { std::ptr::read(at) }
}

// The state with these fields.
pub(crate) fn sha256_of(fields: Sha256Fields) -> Sha256
    ensures { result ≡ sha256_of fields }
{
    let at = &raw const fields as *const Sha256;
    unsafe { std::ptr::read(at) }
}

// The fields of a state.
pub(crate) fn sha256_fields(state: Sha256) -> Sha256Fields
    ensures { sha256_of result ≡ state }
{
    let at = &raw const state as *const Sha256Fields;
    unsafe { std::ptr::read(at) }
}

//! The kinds of digest by which objects are named.

ghost use Rattle.std.proofs.Common.{◌≡◌, ◌∷◌, [], Some, MatchResult, replicate, nat_eq, rules};
ghost use Rattle.std.specs.Cmp.{partial_order_from_own_ties};
ghost use Rattle.std.specs.Cmp.Rules.{comparing, hashing};
ghost use Rattle.std.specs.Hash as fed;
ghost use Rattle.std.specs.Ordering.{nat_cmp, on, as_partial_cmp};
ghost use Rattle.gix_hash.specs.Kinds.{number_of, hex_len_of, byte_len_of, kind_of_hex_len, name_of, IsNameOf, IsNoName};

use crate::borrowed::oid;
use crate::object_id::ObjectId;
use std::cmp::Ordering;
use std::fmt;
use std::hash::{Hash, Hasher};

/// The kind of digest that an id is.
///
/// ```
/// let kind = Kind::Sha256;
/// println!(rt; "{kind} has {} digits", kind.len_in_hex())?;
/// ```
#[derive(Clone, Copy, Debug)]
pub enum Kind {
    /// SHA-1, a digest of 20 bytes (FIPS 180-4).
    Sha1 = 1,
    /// SHA-256, a digest of 32 bytes (FIPS 180-4).
    Sha256 = 2,
}

impl Kind {
    /// The number of hex digits of an id of this kind: 40 or 64.
    pub const fn len_in_hex(&self) -> usize
        ensures { result ≡ hex_len_of self.now }
    {
        match self {
            Kind::Sha1 => 40,
            Kind::Sha256 => 64,
        }
    }

    /// The number of bytes of a digest of this kind: 20 or 32.
    pub const fn len_in_bytes(&self) -> usize
        ensures { result ≡ byte_len_of self.now }
    {
        match self {
            Kind::Sha1 => 20,
            Kind::Sha256 => 32,
        }
    }

    /// The kind with the shortest ids of at least `hex_len` digits: SHA-1 for 0 to 40, SHA-256 for
    /// 41 to 64, both ends included, and `None` above.
    pub const fn from_hex_len(hex_len: usize) -> Option<Kind>
        ensures { result ≡ kind_of_hex_len hex_len }
    {
        match hex_len {
            0..=40 => Some(Kind::Sha1),
            41..=64 => Some(Kind::Sha256),
            _ => None,
        }
    }

    /// The kind with the shortest ids.
    pub const fn shortest() -> Kind
        ensures { result ≡ Kind.Sha1 }
    {
        Kind::Sha1
    }

    /// The kind with the longest ids.
    pub const fn longest() -> Kind
        ensures { result ≡ Kind.Sha256 }
    {
        Kind::Sha256
    }

    /// A buffer of zeros with room for the hex digits of an id of any kind.
    pub const fn hex_buf() -> [u8; 64]
        ensures { result ≡ replicate 64 0 }
    {
        [0; 64]
    }

    /// A buffer of zeros with room for the digest of any kind, in bytes.
    pub const fn buf() -> [u8; 32]
        ensures { result ≡ replicate 32 0 }
    {
        [0; 32]
    }

    /// Every kind, the shortest first.
    pub fn all() -> &'static [Kind]
        ensures { result.now ≡ Kind.Sha1 ∷ Kind.Sha256 ∷ [] }
    {
        &[Kind::Sha1, Kind::Sha256]
    }

    /// Reads the name of a kind: `sha1`, `SHA1`, `SHA-1`, `sha256`, `SHA256` or `SHA-256`. Any
    /// other text is returned as the error.
    pub fn from_str(name: &str) -> Result<Kind, &str>
        ensures { MatchResult result (IsNameOf name.now)
            (λ refused. (refused.now ≡ name.now) × IsNoName name.now) }
    {
        match name {
            "sha1" | "SHA1" | "SHA-1" => Ok(Kind::Sha1),
            "sha256" | "SHA256" | "SHA-256" => Ok(Kind::Sha256),
            _ => Err(name),
        }
    }
}

// The ids that Git names without an object at hand.
#[tactic(auto, // The check computes their digits.
unfolding(id_digits::specs::Digits::digit_below, id_digits::specs::Digits::digits_of))]
impl Kind {
    ghost use Rattle.gix_hash.specs.Ids.{empty_blob_digits, empty_tree_digits, id_digits, id_kind, null_digits, oid_digits, oid_kind};

    /// The id whose digits are all zero.
    pub fn null(&self) -> ObjectId
        ensures kind { id_kind result ≡ self.now }
        ensures digits { id_digits result ≡ null_digits self.now }
    {
        match self {
            Kind::Sha1 => ObjectId::Sha1([0; 20]),
            Kind::Sha256 => ObjectId::Sha256([0; 32]),
        }
    }

    /// The id whose digits are all zero, as a view.
    pub fn null_ref(&self) -> oid<'static>
        ensures kind { oid_kind result ≡ self.now }
        ensures digits { oid_digits result ≡ null_digits self.now }
    {
        match self {
            Kind::Sha1 => oid::from_bytes_unchecked(&[0; 20]),
            Kind::Sha256 => oid::from_bytes_unchecked(&[0; 32]),
        }
    }

    /// The id of the empty blob: the digest of `blob 0` and a NUL byte.
    pub fn empty_blob(&self) -> ObjectId
        ensures kind { id_kind result ≡ self.now }
        ensures digits { id_digits result ≡ empty_blob_digits self.now }
    {
        match self {
            Kind::Sha1 => ObjectId::Sha1(EMPTY_BLOB_SHA1),
            Kind::Sha256 => ObjectId::Sha256(EMPTY_BLOB_SHA256),
        }
    }

    /// The id of the empty tree: the digest of `tree 0` and a NUL byte.
    pub fn empty_tree(&self) -> ObjectId
        ensures kind { id_kind result ≡ self.now }
        ensures digits { id_digits result ≡ empty_tree_digits self.now }
    {
        match self {
            Kind::Sha1 => ObjectId::Sha1(EMPTY_TREE_SHA1),
            Kind::Sha256 => ObjectId::Sha256(EMPTY_TREE_SHA256),
        }
    }
}

const EMPTY_BLOB_SHA1: [u8; 20] =
    *b"\xe6\x9d\xe2\x9b\xb2\xd1\xd6\x43\x4b\x8b\x29\xae\x77\x5a\xd8\xc2\xe4\x8c\x53\x91";

const EMPTY_BLOB_SHA256: [u8; 32] = *b"\
    \x47\x3a\x0f\x4c\x3b\xe8\xa9\x36\x81\xa2\x67\xe3\xb1\xe9\xa7\xdc\
    \xda\x11\x85\x43\x6f\xe1\x41\xf7\x74\x91\x20\xa3\x03\x72\x18\x13";

const EMPTY_TREE_SHA1: [u8; 20] =
    *b"\x4b\x82\x5d\xc6\x42\xcb\x6e\xb9\xa0\x60\xe5\x4b\xf8\xd6\x92\x88\xfb\xee\x49\x04";

const EMPTY_TREE_SHA256: [u8; 32] = *b"\
    \x6e\xf1\x9b\x41\x22\x5c\x53\x69\xf1\xc1\x04\xd4\x5d\x8d\x85\xef\
    \xa9\xb0\x57\xb5\x3b\x14\xb4\xb9\xb9\x39\xdd\x74\xde\xcc\x53\x21";

impl Default for Kind {
    ghost use Rattle.gix_hash.specs.declared.kind.Kind.TheVariants.{Sha1};

    ghost is_default = { λ kind. kind ≡ Sha1 };

    fn default() -> Self {
        Kind::Sha1
    }
}

impl PartialEq for Kind {
    ghost eq = { on number_of nat_eq };

    ghost laws = { Prim.search (comparing, rules) };

    fn eq(&self, other: &Self) -> bool {
        *self as u8 == *other as u8
    }
}

impl Eq for Kind {
    ghost laws = { Prim.search (comparing, rules) };
}

impl Hash for Kind {
    ghost hash_input = { λ kind. fed.u8 (number_of kind) };

    ghost respects_eq = { Prim.search (hashing, rules) };

    fn hash<H: Hasher>(&self, state: &mut H) {
        state.write_u8(*self as u8);
    }
}

impl PartialOrd for Kind {
    ghost partial_cmp = { as_partial_cmp (on number_of nat_cmp) };

    ghost laws = { partial_order_from_own_ties (Prim.search (comparing, rules))
        (Prim.search (comparing, rules)) };

    fn partial_cmp(&self, other: &Self) -> Option<Ordering> {
        Some(self.cmp(other))
    }
}

impl Ord for Kind {
    ghost cmp = { on number_of nat_cmp };

    ghost total = { Prim.search (comparing, rules) };

    ghost matches_partial_cmp = { Prim.search (comparing, rules) };

    ghost matches_eq = { Prim.search (comparing, rules) };

    fn cmp(&self, other: &Self) -> Ordering {
        (*self as u8).cmp(&(*other as u8))
    }
}

/// Reads the number of a kind: 1 for SHA-1, 2 for SHA-256, as the versions of the hash function in
/// Git's multi-pack-index and commit-graph. Any other number is the error.
impl TryFrom<u8> for Kind {
    ghost use Rattle.gix_hash.specs.Kinds.{IsNoNumber};

    type Error = u8;

    ghost try_from_gives = { λ number answer. MatchResult answer
        (λ kind. number_of kind ≡ number) (λ refused. (refused ≡ number) × IsNoNumber number) };

    fn try_from(number: u8) -> Result<Kind, u8> {
        match number {
            1 => Ok(Kind::Sha1),
            2 => Ok(Kind::Sha256),
            _ => Err(number),
        }
    }
}

/// Prints `sha1` or `sha256`, whatever width, fill and precision are asked for.
impl fmt::Display for Kind {
    ghost output = { λ kind. Some (name_of kind) };

    ghost styled_output = { λ kind _. Some (name_of kind) };

    fn fmt<W: fmt::Write>(&self, f: &mut fmt::Formatter<W>) -> fmt::Result {
        f.write_str(match self {
            Kind::Sha1 => "sha1",
            Kind::Sha256 => "sha256",
        })
    }
}

//! Prefixes of ids.

ghost use Rattle.std.specs.Prelude.{◌≡◌, ◌≤◌, ◌<◌, length, take, IfOk, All};
ghost use Rattle.std.specs.declared.cmp.Ordering.{Ordering};
ghost use Rattle.id_digits.specs.Digits.{first_byte_of, hex_letter, padded, place, reverse_letter};
ghost use Rattle.gix_hash.specs.Kinds.{hex_len_of};
ghost use Rattle.gix_hash.specs.Reading.{prefix_read, prefix_read_in};

use crate::alphabet::Alphabet;
use crate::borrowed::oid;
use crate::kind::Kind;
use crate::object_id::ObjectId;
use id_digits::Words;
use std::cmp::Ordering;
use std::marker::Model;
use thiserror::Error as ThisError;

pub mod from_hex;
mod order;
mod packing;
mod printing;

/// The error of [`Prefix::new`]: why an id has no prefix of the number of digits that was asked
/// for.
///
/// ```
/// // No id has 65 digits.
/// let why = Prefix::new(id.as_oid(), 65);
/// assert!(rt; matches!(why, Err(prefix::Error::TooLong { .. })));
/// ```
#[derive(Debug, Drop, ThisError)]
pub enum Error {
    /// Fewer than 4 digits were asked for.
    #[error("The minimum hex length of a short object id is 4, got {hex_len}")]
    TooShort {
        /// The number of digits that was asked for.
        hex_len: usize,
    },
    /// More digits were asked for than the id has.
    #[error("An object of kind {object_kind} cannot be larger than {most} in hex, but {hex_len} was requested", most = .object_kind.len_in_hex())]
    TooLong {
        /// The kind of the id.
        object_kind: Kind,
        /// The number of digits that was asked for.
        hex_len: usize,
    },
}

/// A prefix of an id: a kind, and 0 to 40 or 0 to 64 digits.
///
/// It stores the bytes of its digits with zeros after them, as many as the kind's digest has, and
/// the same digits again as two numbers of 128 bits, by which it compares.
///
/// Reading one from a text takes any letter case. The kind is given, or else SHA-1 up to 40 digits
/// and SHA-256 above:
///
/// | Call | Letters | Digits | Kind |
/// |---|---|---|---|
/// | [`Prefix::from_hex`] | hex | 4 to 64 | by length |
/// | [`Prefix::from_hex_nonempty`] | hex | 1 to 64 | by length |
/// | [`Prefix::from_hex_in`] | hex | 1 to those of the kind | given |
/// | [`Prefix::from_reverse_hex`] | `z` to `k` | 4 to 64 | by length |
/// | [`Prefix::from_reverse_hex_nonempty`] | `z` to `k` | 1 to 64 | by length |
/// | [`Alphabet::read_prefix`] | either | 4 to 64 | by length |
/// | [`Alphabet::read_prefix_nonempty`] | either | 1 to 64 | by length |
/// | [`Alphabet::read_prefix_in`] | either | 0 to those of the kind, as a condition | given |
///
/// ```
/// let prefix = Prefix::from_hex("4b825dc")?;
/// if prefix.cmp_oid(id.as_oid()).is_eq() {
///     println!(rt; "{id} begins with {prefix}")?;
/// }
/// ```
#[derive(Clone, Copy)]
pub struct Prefix {
    bytes: ObjectId,
    hex_len: usize,
    words: Words,
}

impl Model for Prefix {
    ghost use Rattle.gix_hash.specs.Prefixes.{KindDigits};

    ghost Value = { KindDigits };

    ghost use Rattle.gix_hash.specs.PrefixBytes.{IsPacked, stored, viewed, stored-viewed};

    ghost view = { viewed };

    ghost invariant = { IsPacked };

    ghost inverse = { stored };

    ghost inverse_ok = { stored-viewed };
}

impl Prefix {
    ghost use Rattle.gix_hash.specs.Ids.{oid_kind, oid_digits};

    /// The minimum number of digits for [`Prefix::new`] and [`Prefix::from_hex`].
    pub const MIN_HEX_LEN: usize = 4;

    /// The prefix of the first `hex_len` digits of an id, and of the id's kind.
    ///
    /// Returns [`Error::TooLong`] if the id has fewer digits, and otherwise [`Error::TooShort`] if
    /// `hex_len` is below 4.
    pub fn new(id: oid<'_>, hex_len: usize) -> Result<Prefix, Error>
        ensures too_long { hex_len_of (oid_kind id.entry) < hex_len
            → result ≡ Err (Error.TooLong (oid_kind id.entry) hex_len) }
        ensures too_short { hex_len < 4 → result ≡ Err (Error.TooShort hex_len) }
        ensures ok { 4 ≤ hex_len → hex_len ≤ hex_len_of (oid_kind id.entry) →
            result ≡ Ok (record {
              kind = oid_kind id.entry;
              digits = take hex_len (oid_digits id.entry);
            }) }
        ensures matches { IfOk result (λ prefix. place prefix.digits (oid_digits id.entry)
            ≡ Ordering.Equal) }
    {
        let object_kind = id.kind();
        if hex_len > object_kind.len_in_hex() {
            return Err(Error::TooLong {
                object_kind,
                hex_len,
            });
        }
        if hex_len < Prefix::MIN_HEX_LEN {
            return Err(Error::TooShort { hex_len });
        }
        Ok(Prefix::packed(object_kind, id.as_bytes(), hex_len))
    }

    /// Reads 4 to 64 hex digits, in any letter case. The kind is SHA-1 up to 40 digits, and SHA-256
    /// above.
    ///
    /// Returns [`from_hex::Error::TooShort`] for fewer bytes, [`from_hex::Error::TooLong`] for
    /// more, and otherwise [`from_hex::Error::Invalid`] if some byte is not a digit.
    pub fn from_hex(text: &str) -> Result<Prefix, from_hex::Error>
        ensures { result ≡ prefix_read hex_letter 4 text.now }
    {
        Alphabet::Hex.read_prefix(text)
    }

    /// Reads 1 to 64 hex digits, in any letter case. The kind is SHA-1 up to 40 digits, and SHA-256
    /// above.
    ///
    /// Returns [`from_hex::Error::TooShort`] for an empty text, [`from_hex::Error::TooLong`] for
    /// more bytes, and otherwise [`from_hex::Error::Invalid`] if some byte is not a digit.
    pub fn from_hex_nonempty(text: &str) -> Result<Prefix, from_hex::Error>
        ensures { result ≡ prefix_read hex_letter 1 text.now }
    {
        Alphabet::Hex.read_prefix_nonempty(text)
    }

    /// Does the same as [`Prefix::from_hex`], in the letters `z` to `k`.
    pub fn from_reverse_hex(text: &str) -> Result<Prefix, from_hex::Error>
        ensures { result ≡ prefix_read reverse_letter 4 text.now }
    {
        Alphabet::Reverse.read_prefix(text)
    }

    /// Does the same as [`Prefix::from_hex_nonempty`], in the letters `z` to `k`.
    pub fn from_reverse_hex_nonempty(text: &str) -> Result<Prefix, from_hex::Error>
        ensures { result ≡ prefix_read reverse_letter 1 text.now }
    {
        Alphabet::Reverse.read_prefix_nonempty(text)
    }

    /// Reads 1 hex digit up to as many as ids of the given kind have, in any letter case, as a
    /// prefix of that kind.
    ///
    /// Returns [`from_hex::Error::TooShort`] for an empty text, [`from_hex::Error::TooLong`] for
    /// more bytes, and otherwise [`from_hex::Error::Invalid`] if some byte is not a digit.
    pub fn from_hex_in(kind: Kind, text: &str) -> Result<Prefix, from_hex::Error>
        ensures read { result ≡ prefix_read_in kind hex_letter text.now }
        ensures kind { IfOk result (λ prefix. prefix.kind ≡ kind) }
    {
        if text.len() > kind.len_in_hex() {
            return Err(from_hex::Error::TooLong {
                hex_len: text.len(),
            });
        }
        if text.is_empty() {
            return Err(from_hex::Error::TooShort { hex_len: 0 });
        }
        Alphabet::Hex.read_prefix_in(kind, text.as_bytes())
    }

    /// The digits with zeros after them, as an id of the prefix's kind.
    pub fn as_oid(&self) -> oid<'_>
        ensures kind { oid_kind result ≡ self.now.kind }
        ensures digits { oid_digits result ≡ padded (hex_len_of self.now.kind) self.now.digits }
    {
        self.bytes.as_oid()
    }

    /// The first byte of [`Prefix::as_oid`]: that of each id that begins with the prefix, if it has
    /// 2 digits or more.
    pub fn first_byte(&self) -> u8
        ensures { result ≡ first_byte_of self.now.digits }
    {
        self.as_oid().first_byte()
    }

    /// The number of digits.
    pub fn hex_len(&self) -> usize
        ensures value { result ≡ length self.now.digits }
        ensures at_most_kind { result ≤ hex_len_of self.now.kind }
        ensures most { result ≤ 64 }
        ensures digits_in_range { All (λ d. d < 16) self.now.digits }
    {
        self.hex_len
    }

    /// Compares the prefix with as many first digits of `candidate`: `Equal` if the id begins with
    /// the prefix, `Less` if the prefix sorts before it, `Greater` if after. Kinds are ignored.
    ///
    /// The caller must ensure that the candidate has at least as many digits as the prefix.
    pub fn cmp_oid(&self, candidate: oid<'_>) -> Ordering
        requires { length self.now.digits ≤ hex_len_of (oid_kind candidate) }
        ensures { result ≡ place self.now.digits (oid_digits candidate.entry) }
    {
        self.words.place(self.hex_len, candidate.as_bytes())
    }
}

/// All digits of the id.
impl From<ObjectId> for Prefix {
    ghost use Rattle.gix_hash.specs.Ids.{id_kind, id_digits};

    ghost from_gives = { λ id prefix. prefix
        ≡ record { kind = id_kind id; digits = id_digits id } };

    fn from(id: ObjectId) -> Prefix {
        Prefix::padded(id, id.kind().len_in_hex())
    }
}

/// Reads as [`Prefix::from_hex`] does.
impl<'a> TryFrom<&'a str> for Prefix {
    type Error = from_hex::Error;

    ghost try_from_gives = { λ text answer. answer ≡ prefix_read hex_letter 4 text.now };

    fn try_from(text: &'a str) -> Result<Prefix, from_hex::Error> {
        Prefix::from_hex(text)
    }
}

//! The alphabets in which digits are spelled and read.

ghost use Rattle.std.specs.Prelude.{◌≡◌, ◌≤◌, ◌*◌, ◌++◌, Some, None, IsTrue, if◌then◌else◌, length, drop, replicate, ok_or, option_map};
ghost use Rattle.std.specs.Result.{result_ok};
ghost use Rattle.id_digits.specs.Digits.{digits_of, digits_read, hex_letter, is_digest_len, padded, reverse_letter, spelling};
ghost use Rattle.gix_hash.specs.Kinds.{hex_len_of};
ghost use Rattle.gix_hash.specs.Prefixes.{kind_digits};
ghost use Rattle.gix_hash.specs.Reading.{letter_of, prefix_read};
ghost use Rattle.gix_hash.specs.declared.prefix.from_hex.Error as from_hex;

use crate::borrowed::oid;
use crate::decode;
use crate::kind::Kind;
use crate::object_id::ObjectId;
use crate::prefix::{Prefix, from_hex};
use id_digits::{read_digest, spell_digest, to_hex_letters, to_reverse_letters};

/// An alphabet of sixteen letters for the digits 0 to 15. Texts are read in any letter case, and
/// spelled in lowercase.
///
/// ```
/// // The prefix 4b82, as Jujutsu spells it.
/// let prefix = Alphabet::Reverse.read_prefix("vorx")?;
/// ```
#[derive(Clone, Copy, Debug, PartialEq, Eq)]
pub enum Alphabet {
    /// `0` to `9` and `a` to `f`.
    Hex,
    /// `z` down to `k`, in which Jujutsu spells change ids, so that they differ from other ids.
    Reverse,
}

impl Alphabet {
    ghost use Rattle.gix_hash.specs.Reading.{full_read, result_digits, whole_of};
    ghost use Rattle.gix_hash.specs.Ids.{oid_digits, oid_kind};

    /// Reads a prefix of 4 to 64 digits. Its kind is SHA-1 up to 40 digits, and SHA-256 above.
    ///
    /// Returns [`from_hex::Error::TooShort`] for fewer bytes, [`from_hex::Error::TooLong`] for
    /// more, both with their number, and otherwise [`from_hex::Error::Invalid`] if some byte is not
    /// a letter.
    pub fn read_prefix(self, text: &str) -> Result<Prefix, from_hex::Error>
        ensures { result ≡ prefix_read (letter_of self) 4 text.now }
    {
        if text.len() < Prefix::MIN_HEX_LEN {
            return Err(from_hex::Error::TooShort {
                hex_len: text.len(),
            });
        }
        self.read_prefix_nonempty(text)
    }

    /// Does the same as [`Alphabet::read_prefix`], from 1 digit on: only the empty text is too
    /// short.
    pub fn read_prefix_nonempty(self, text: &str) -> Result<Prefix, from_hex::Error>
        ensures { result ≡ prefix_read (letter_of self) 1 text.now }
    {
        if text.is_empty() {
            return Err(from_hex::Error::TooShort { hex_len: 0 });
        }
        match Kind::from_hex_len(text.len()) {
            Some(kind) => self.read_prefix_in(kind, text.as_bytes()),
            None => Err(from_hex::Error::TooLong {
                hex_len: text.len(),
            }),
        }
    }

    /// Reads a prefix of a kind, of any number of digits up to that of the kind's ids, which may be
    /// 0. The only error is [`from_hex::Error::Invalid`], for a byte that is not a letter.
    ///
    /// The caller must ensure that the text is no longer than the spelling of an id of the kind.
    pub fn read_prefix_in(self, kind: Kind, text: &[u8]) -> Result<Prefix, from_hex::Error>
        requires { length text.now ≤ hex_len_of kind }
        ensures { result ≡ ok_or (option_map (kind_digits kind)
            (digits_read (letter_of self) text.now)) from_hex.Error.Invalid }
    {
        match kind {
            Kind::Sha1 => {
                let mut bytes = [0; 20];
                if self.decode(text, &mut bytes) {
                    Ok(Prefix::padded(ObjectId::Sha1(bytes), text.len()))
                } else {
                    Err(from_hex::Error::Invalid)
                }
            }
            Kind::Sha256 => {
                let mut bytes = [0; 32];
                if self.decode(text, &mut bytes) {
                    Ok(Prefix::padded(ObjectId::Sha256(bytes), text.len()))
                } else {
                    Err(from_hex::Error::Invalid)
                }
            }
        }
    }

    /// Reads 40 or 64 digits as an id of SHA-1 or SHA-256.
    ///
    /// Returns [`decode::Error::InvalidHexEncodingLength`], with the length in bytes, for a text of
    /// another length, and otherwise [`decode::Error::Invalid`] if some byte is not a letter.
    #[inline(always)]
    pub fn read_id(self, text: &[u8]) -> Result<ObjectId, decode::Error>
        ensures { result_digits result ≡ full_read (letter_of self) text.now }
    {
        match self.read_id_opt(text) {
            Some(id) => Ok(id),
            None => match text.len() {
                40 | 64 => Err(decode::Error::Invalid),
                len => Err(decode::Error::InvalidHexEncodingLength(len)),
            },
        }
    }

    /// Reads 40 or 64 digits as [`Alphabet::read_id`] does, and returns `None` if that fails.
    /// A list has an id on each line, and an `Option` of it takes fewer steps than a `Result`.
    #[inline(always)]
    pub fn read_id_opt(self, text: &[u8]) -> Option<ObjectId>
        ensures { option_map whole_of result ≡ result_ok (full_read (letter_of self) text.now) }
    {
        match text.len() {
            40 => {
                let mut bytes = [0; 20];
                if self.decode_digest(text, &mut bytes) {
                    Some(ObjectId::Sha1(bytes))
                } else {
                    None
                }
            }
            64 => {
                let mut bytes = [0; 32];
                if self.decode_digest(text, &mut bytes) {
                    Some(ObjectId::Sha256(bytes))
                } else {
                    None
                }
            }
            _ => None,
        }
    }

    // Whether a text of two letters a byte reads as a digest of 20 or 32 bytes, which is then
    // written. Both alphabets are read by lanes. The crate `hex` reads one letter at a time, which
    // takes six times as long. With its loop in one branch, LLVM would also copy each id of a list
    // twice more on the stack, in the other branch too.
    #[inline(always)]
    fn decode_digest(self, text: &[u8], bytes: &mut [u8]) -> bool
        requires digest { IsTrue (is_digest_len (length bytes.old)) }
        requires two_a_byte { length text.now ≡ 2 * length bytes.old }
        ensures { digits_read (letter_of self) text.now ≡ (if result then Some (digits_of bytes.new)
            else None) }
    {
        match self {
            Alphabet::Hex => read_digest(text, bytes),
            Alphabet::Reverse => {
                let mut letters = Kind::hex_buf();
                read_digest(in_hex(text, &mut letters), bytes)
            }
        }
    }

    // Whether each byte of a text is a letter. Then the digits are written into the front of zeros,
    // two a byte, and the last of an odd number as the high half of one more.
    #[inline(always)]
    fn decode(self, text: &[u8], zeros: &mut [u8]) -> bool
        requires zeros { zeros.old ≡ replicate (length zeros.old) 0 }
        requires room { length text.now ≤ 2 * length zeros.old }
        requires most { length text.now ≤ 64 }
        ensures { option_map (padded (2 * length zeros.old)) (digits_read (letter_of self) text.now)
            ≡ (if result then Some (digits_of zeros.new) else None) }
    {
        match self {
            Alphabet::Hex => decode_hex(text, zeros),
            Alphabet::Reverse => {
                let mut letters = Kind::hex_buf();
                decode_hex(in_hex(text, &mut letters), zeros)
            }
        }
    }

    /// Spells all digits of an id into the front of `buffer`, as many as its kind's length in
    /// digits; the bytes after them stay. The caller must ensure that the buffer has room.
    ///
    /// It spells sixteen bytes at a time, for lists of many ids; [`oid::put_hex`] spells one at a
    /// time, by the crate `hex`.
    pub fn put_id(self, id: oid<'_>, buffer: &mut [u8])
        requires { hex_len_of (oid_kind id) ≤ length buffer.old }
        ensures value { buffer.new ≡ spelling (letter_of self) (oid_digits id.entry) ++ drop
            (hex_len_of (oid_kind id.entry)) buffer.old }
        ensures len { length (oid_digits id.entry) ≡ hex_len_of (oid_kind id.entry) }
    {
        let bytes = id.as_bytes();
        spell_digest(bytes, &mut buffer[..2 * bytes.len()]);
        if let Alphabet::Reverse = self {
            to_reverse_letters(&mut buffer[..2 * bytes.len()]);
        }
    }
}

// Does the same as `Alphabet::decode`, in the letters of hex.
#[inline(always)]
fn decode_hex(text: &[u8], zeros: &mut [u8]) -> bool
    requires zeros { zeros.old ≡ replicate (length zeros.old) 0 }
    requires room { length text.now ≤ 2 * length zeros.old }
    ensures { option_map (padded (2 * length zeros.old)) (digits_read hex_letter text.now)
        ≡ (if result then Some (digits_of zeros.new) else None) }
{
    let whole = text.len() / 2;
    let reads = decode_pairs(&text[..2 * whole], &mut zeros[..whole]);
    if text.len() % 2 == 0 {
        return reads;
    }
    // The digit 0 fills up the last byte.
    let mut last = [0];
    let last_reads = decode_pairs(&[text[2 * whole], b'0'], &mut last);
    zeros[whole] = last[0];
    reads & last_reads
}

// Whether a text of two hex letters a byte reads as bytes, which are then written.
#[inline(always)]
fn decode_pairs(text: &[u8], bytes: &mut [u8]) -> bool
    requires { length text.now ≡ 2 * length bytes.old }
    ensures { digits_read hex_letter text.now ≡ (if result then Some (digits_of bytes.new)
        else None) }
{
    hex::decode_to_slice(text, bytes).is_ok()
}

// Spells the digits of bytes in lowercase hex letters, two for each byte.
#[inline(always)]
pub(crate) fn spell_pairs(bytes: &[u8], text: &mut [u8])
    requires { length text.old ≡ 2 * length bytes.now }
    ensures { text.new ≡ spelling hex_letter (digits_of bytes.now) }
{
    hex::encode_to_slice(bytes, text).unwrap();
}

// Puts the hex letters for a text in the reverse alphabet into the front of `letters`, and lends
// them.
#[tactic(auto, using(id_digits::proofs::ReverseLetters::digits_of_reverse))]
fn in_hex<'a>(text: &[u8], letters: &'a mut [u8; 64]) -> &'a [u8]
    requires { length text.now ≤ 64 }
    ensures len { length result.now ≡ length text.now }
    ensures digits { digits_read hex_letter result.now ≡ digits_read reverse_letter text.now }
{
    let letters = &mut letters[..text.len()];
    letters.copy_from_slice(text);
    to_hex_letters(letters);
    letters
}

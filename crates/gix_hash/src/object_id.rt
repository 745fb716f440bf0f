//! Ids that own their bytes.

ghost use Rattle.gix_hash.specs.Ids.{asked_len, cut_kind, empty_blob_digits, empty_tree_digits, id_bytes, id_digits, id_kind, null_digits, oid_digits, oid_kind, shown_digits, whole_digits};
ghost use Rattle.gix_hash.specs.Reading.{full_read, result_digits};
ghost use Rattle.gix_hash.specs.Kinds.{byte_len_of, hex_len_of, kind_of_byte_len, IsLengthRefusal};
ghost use Rattle.id_digits.specs.Digits.{digits_of, first_byte_of, hex_letter, is_digest_len, spelling};
ghost use Rattle.std.proofs.Common.{◌≡◌, ◌≤◌, ◌<◌, ◌*◌, All, length, slice_range, ◌↔◌, ◌++◌, ℕ, List, IsTrue, IsOk, IfErr, OnOk, IsAscii, drop, nat_eq, Some, MatchResult};

mod order;

use crate::alphabet::Alphabet;
use crate::borrowed::oid;
use crate::display::HexDisplay;
use crate::error::Error;
use crate::kind::Kind;
use crate::prefix::Prefix;
use crate::{decode, verify};
use std::ops::Range;
use std::str::FromStr;
use std::{fmt, io};

/// The id of a Git object: the digest of its header and content.
///
/// Ids are ordered by kind, and then by digits. A sorted list for look-ups needs the order of
/// digits alone, into which `id_lookup::sort_ids` sorts.
///
/// ```
/// let id = ObjectId::from_hex(b"4b825dc642cb6eb9a060e54bf8d69288fbee4904")?;
/// println!(rt; "{}", id.to_hex_with_len(7))?;
/// ```
#[derive(Clone, Copy)]
pub enum ObjectId {
    /// A SHA-1 digest.
    Sha1([u8; 20]),
    /// A SHA-256 digest.
    Sha256([u8; 32]),
}

impl ObjectId {
    ghost use Rattle.std.specs.Borrow.{sem};
    ghost use Rattle.gix_hash.specs.Loans.{IsLeftAs, LendsDigest};
    ghost use Rattle.std.specs.Io.KnownBytes.{Appends};
    ghost use Rattle.std.specs.List.{common_prefix_len};
    ghost use Rattle.gix_hash.specs.Prefixes.{IsCommonLen};

    /// Reads 40 or 64 hex digits, in any letter case, as an id of SHA-1 or SHA-256.
    ///
    /// Returns [`decode::Error::InvalidHexEncodingLength`], with the length in bytes, for a text of
    /// another length, and otherwise [`decode::Error::Invalid`] if some byte is not a hex digit.
    #[inline(always)]
    pub fn from_hex(text: &[u8]) -> Result<ObjectId, decode::Error>
        ensures { result_digits result ≡ full_read hex_letter text.now }
    {
        Alphabet::Hex.read_id(text)
    }

    /// The kind of the digest.
    #[tactic(auto, using(crate::proofs::IdFacts::digits_of_id))]
    pub const fn kind(&self) -> Kind
        ensures value { result ≡ id_kind self.now }
        ensures len { length (id_digits self.now) ≡ hex_len_of (id_kind self.now) }
        ensures digits_in_range { All (λ d. d < 16) (id_digits self.now) }
    {
        // The contract of this call says the digest's length and the range of its bytes.
        let _bytes = self.as_slice();
        match self {
            ObjectId::Sha1(_) => Kind::Sha1,
            ObjectId::Sha256(_) => Kind::Sha256,
        }
    }

    /// The id whose digits are all zero, as [`Kind::null`].
    pub fn null(kind: Kind) -> ObjectId
        ensures kind { id_kind result ≡ kind }
        ensures digits { id_digits result ≡ null_digits kind }
    {
        kind.null()
    }

    /// The id of the empty blob, as [`Kind::empty_blob`].
    pub fn empty_blob(kind: Kind) -> ObjectId
        ensures kind { id_kind result ≡ kind }
        ensures digits { id_digits result ≡ empty_blob_digits kind }
    {
        kind.empty_blob()
    }

    /// The id of the empty tree, as [`Kind::empty_tree`].
    pub fn empty_tree(kind: Kind) -> ObjectId
        ensures kind { id_kind result ≡ kind }
        ensures digits { id_digits result ≡ empty_tree_digits kind }
    {
        kind.empty_tree()
    }

    /// Copies a digest. The caller must ensure that it has 20 or 32 bytes; nothing panics, in spite
    /// of the name, which is that of the Rust crate.
    pub fn from_bytes_or_panic(bytes: &[u8]) -> ObjectId
        requires { IsTrue (is_digest_len (length bytes.now)) }
        ensures kind { id_kind result ≡ kind_of_byte_len (length bytes.now) }
        ensures digits { id_digits result ≡ digits_of bytes.now }
    {
        oid::from_bytes_unchecked(bytes).to_owned()
    }

    /// The bytes of the digest, as many as the kind's length in bytes.
    #[inline(always)]
    pub const fn as_slice(&self) -> &[u8]
        ensures value { result.now ≡ id_bytes self.now }
        ensures len { length result.now ≡ byte_len_of (id_kind self.now) }
        ensures bytes_in_range { All (λ b. b < 256) result.now }
    {
        match self {
            ObjectId::Sha1(bytes) => in_byte_range(bytes),
            ObjectId::Sha256(bytes) => in_byte_range(bytes),
        }
    }

    /// The id as a view of its bytes.
    #[inline(always)]
    #[tactic(auto, using(crate::proofs::IdFacts::digits_of_id))]
    pub fn as_oid(&self) -> oid<'_>
        ensures kind { oid_kind result ≡ id_kind self.now }
        ensures digits { oid_digits result ≡ id_digits self.now }
        ensures len { length (id_digits self.now) ≡ hex_len_of (id_kind self.now) }
        ensures digits_in_range { All (λ d. d < 16) (id_digits self.now) }
    {
        oid::from_bytes_unchecked(self.as_slice())
    }

    /// Does the same as [`ObjectId::as_slice`].
    pub fn as_bytes(&self) -> &[u8]
        ensures value { result.now ≡ id_bytes self.now }
        ensures len { length result.now ≡ byte_len_of (id_kind self.now) }
        ensures bytes_in_range { All (λ b. b < 256) result.now }
    {
        self.as_slice()
    }

    /// The bytes of the digest, to be written: what is written there is the digest afterwards, and
    /// the kind stays.
    pub fn as_mut_slice(&mut self) -> &mut [u8]
        ensures* lends { sem 𝓛 (LendsDigest self.entry result) }
        ensures value { result.now ≡ id_bytes self.old }
        ensures len { length result.now ≡ byte_len_of (id_kind self.old) }
    {
        // The contract of this call says the digest's length.
        let _len = self.as_slice().len();
        match self {
            ObjectId::Sha1(bytes) => bytes.as_mut_slice(),
            ObjectId::Sha256(bytes) => bytes.as_mut_slice(),
        }
    }

    /// The first byte of the digest.
    pub fn first_byte(&self) -> u8
        ensures { result ≡ first_byte_of (id_digits self.now) }
    {
        self.as_oid().first_byte()
    }

    /// Whether all digits are zero.
    pub fn is_null(&self) -> bool
        ensures { IsTrue result ↔ (id_digits self.now ≡ null_digits (id_kind self.now)) }
    {
        self.as_oid().is_null()
    }

    /// Whether this is the id of the empty blob, of its kind.
    pub fn is_empty_blob(&self) -> bool
        ensures { IsTrue result ↔ (id_digits self.now ≡ empty_blob_digits (id_kind self.now)) }
    {
        self.as_oid().is_empty_blob()
    }

    /// Whether this is the id of the empty tree, of its kind.
    pub fn is_empty_tree(&self) -> bool
        ensures { IsTrue result ↔ (id_digits self.now ≡ empty_tree_digits (id_kind self.now)) }
    {
        self.as_oid().is_empty_tree()
    }

    /// Whether the digits are those of a borrowed id.
    pub fn eq_oid(&self, other: oid<'_>) -> bool
        ensures { IsTrue result ↔ (id_digits self.now ≡ oid_digits other.entry) }
    {
        self.as_oid() == other
    }

    /// Does the same as [`oid::common_hex_len`].
    pub fn common_hex_len(&self, other: oid<'_>) -> usize
        ensures value { result ≡ common_prefix_len nat_eq (id_digits self.now)
            (oid_digits other.entry) }
        ensures longest { IsCommonLen (id_digits self.now) (oid_digits other.entry) result }
    {
        self.as_oid().common_hex_len(other)
    }

    /// Whether `text` is exactly the lowercase hex digits.
    pub fn eq_str(&self, text: &str) -> bool
        ensures { IsTrue result ↔ (text.now ≡ spelling hex_letter (id_digits self.now)) }
    {
        self.as_oid().eq_str(text)
    }

    /// Whether `text` is exactly the lowercase hex digits.
    pub fn eq_bstr(&self, text: &[u8]) -> bool
        ensures { IsTrue result ↔ (text.now ≡ spelling hex_letter (id_digits self.now)) }
    {
        let mut buffer = Kind::hex_buf();
        self.put_hex(&mut buffer);
        self.front_text(&buffer).as_bytes() == text
    }

    /// The id for printing in full.
    pub fn to_hex(&self) -> HexDisplay<'_>
        ensures id { whole_digits result ≡ id_digits self.now }
        ensures kind { cut_kind result ≡ id_kind self.now }
        ensures hex_len { asked_len result ≡ hex_len_of (id_kind self.now) }
        ensures shown { shown_digits result ≡ id_digits self.now }
    {
        self.as_oid().to_hex()
    }

    /// The id for printing its first `hex_len` digits, or all if it has fewer.
    pub fn to_hex_with_len(&self, hex_len: usize) -> HexDisplay<'_>
        ensures id { whole_digits result ≡ id_digits self.now }
        ensures kind { cut_kind result ≡ id_kind self.now }
        ensures hex_len { asked_len result ≡ hex_len }
    {
        self.as_oid().to_hex_with_len(hex_len)
    }

    /// Does the same as [`oid::put_hex`].
    pub fn put_hex(&self, buffer: &mut [u8])
        requires { hex_len_of (id_kind self.now) ≤ length buffer.old }
        ensures value { buffer.new ≡ spelling hex_letter (id_digits self.now) ++ drop
            (hex_len_of (id_kind self.now)) buffer.old }
        ensures len { length (id_digits self.now) ≡ hex_len_of (id_kind self.now) }
    {
        self.as_oid().put_hex(buffer);
    }

    /// Does the same as [`oid::hex_to_buf`].
    pub fn hex_to_buf<'b>(&self, buffer: &'b mut [u8]) -> &'b str
        requires { hex_len_of (id_kind self.now) ≤ length buffer.old }
        ensures* after { sem 𝓛 (IsLeftAs buffer.entry
            (spelling hex_letter (id_digits self.now) ++ drop
            (hex_len_of (id_kind self.now)) buffer.old)) }
        ensures text { result.now ≡ spelling hex_letter (id_digits self.now) }
        ensures ascii { IsAscii result.now }
        ensures len { length result.now ≡ hex_len_of (id_kind self.now) }
    {
        self.front_text(self.with_digits(buffer))
    }

    // The same buffer, with the digits in its front.
    fn with_digits<'b>(&self, buffer: &'b mut [u8]) -> &'b mut [u8]
        requires { hex_len_of (id_kind self.now) ≤ length buffer.old }
        ensures same { result.ghost_name ≡ buffer.entry.ghost_name }
        ensures value { result.now ≡ spelling hex_letter (id_digits self.now) ++ drop
            (hex_len_of (id_kind self.now)) buffer.old }
    {
        self.as_oid().with_digits(buffer)
    }

    // The digits in front of a buffer, as text.
    fn front_text<'b>(&self, buffer: &'b [u8]) -> &'b str
        requires { (rest : List ℕ)
            × (buffer.now ≡ spelling hex_letter (id_digits self.now) ++ rest) }
        ensures text { result.now ≡ spelling hex_letter (id_digits self.now) }
        ensures ascii { IsAscii result.now }
        ensures len { length result.now ≡ hex_len_of (id_kind self.now) }
    {
        self.as_oid().front_text(buffer)
    }

    /// Does the same as [`oid::write_hex_to`].
    pub fn write_hex_to<W: io::Write>(&self, out: &mut W) -> io::Result<()>
        ensures { OnOk result (Appends (W.contents out.old) (W.contents out.new)
            (spelling hex_letter (id_digits self.now))) }
    {
        self.as_oid().write_hex_to(out)
    }

    /// Does the same as [`oid::verify`].
    pub fn verify(&self, expected: oid<'_>) -> Result<(), verify::Error>
        ensures equal { IsOk result ↔ (id_digits self.now ≡ oid_digits expected.entry) }
        ensures actual { IfErr result (λ e. (id_kind e.actual ≡ id_kind self.now)
            × (id_digits e.actual ≡ id_digits self.now)) }
        ensures expected { IfErr result (λ e. (id_kind e.expected ≡ oid_kind expected.entry)
            × (id_digits e.expected ≡ oid_digits expected.entry)) }
    {
        self.as_oid().verify(expected)
    }

    /// Does the same as [`oid::to_prefix`].
    pub fn to_prefix(&self, range: Range<usize>) -> Prefix
        requires ordered { range.start ≤ range.end }
        requires within { range.end ≤ byte_len_of (id_kind self.now) }
        ensures kind { result.kind ≡ id_kind self.now }
        ensures digits { result.digits ≡ slice_range (id_digits self.now) (2 * range.start)
            (2 * range.end) }
    {
        self.as_oid().to_prefix(range)
    }
}

// Returns the bytes as they are. A parameter that is a slice is known to hold bytes, but an array
// in a variant is not.
const fn in_byte_range(bytes: &[u8]) -> &[u8]
    ensures value { result.now ≡ bytes.now }
    ensures bytes_in_range { All (λ b. b < 256) result.now }
{
    bytes
}

/// Prints the same as the Display of [`oid`].
impl fmt::Display for ObjectId {
    ghost output = { λ id. Some (spelling hex_letter (id_digits id)) };

    ghost styled_output = { λ id _. Some (spelling hex_letter (id_digits id)) };

    fn fmt<W: fmt::Write>(&self, f: &mut fmt::Formatter<W>) -> fmt::Result {
        self.as_oid().fmt(f)
    }
}

impl fmt::Debug for ObjectId {
    fn fmt<W: fmt::Write>(&self, f: &mut fmt::Formatter<W>) -> fmt::Result {
        self.as_oid().fmt(f)
    }
}

/// Does the same as [`ObjectId::from_hex`].
impl FromStr for ObjectId {
    type Err = decode::Error;

    ghost from_str_gives = { λ text answer. result_digits answer ≡ full_read hex_letter text };

    fn from_str(text: &str) -> Result<ObjectId, decode::Error> {
        ObjectId::from_hex(text.as_bytes())
    }
}

impl From<[u8; 20]> for ObjectId {
    ghost use Rattle.gix_hash.specs.declared.object_id.ObjectId.TheVariants.{Sha1};

    ghost from_gives = { λ bytes id. id ≡ Sha1 bytes };

    fn from(bytes: [u8; 20]) -> ObjectId {
        ObjectId::Sha1(bytes)
    }
}

impl From<[u8; 32]> for ObjectId {
    ghost use Rattle.gix_hash.specs.declared.object_id.ObjectId.TheVariants.{Sha256};

    ghost from_gives = { λ bytes id. id ≡ Sha256 bytes };

    fn from(bytes: [u8; 32]) -> ObjectId {
        ObjectId::Sha256(bytes)
    }
}

impl<'a> From<oid<'a>> for ObjectId {
    ghost from_gives = { λ id owned. (id_kind owned ≡ oid_kind id)
        × (id_digits owned ≡ oid_digits id) };

    fn from(id: oid<'a>) -> ObjectId {
        id.to_owned()
    }
}

/// Returns [`Error::InvalidByteSliceLength`], with the number of bytes, if that is neither 20 nor
/// 32.
impl<'a> TryFrom<&'a [u8]> for ObjectId {
    type Error = Error;

    ghost try_from_gives = { λ bytes answer. MatchResult answer
        (λ id. (id_digits id ≡ digits_of bytes.now)
        × (id_kind id ≡ kind_of_byte_len (length bytes.now)))
        (IsLengthRefusal bytes.now) };

    fn try_from(bytes: &'a [u8]) -> Result<ObjectId, Error> {
        match bytes.len() {
            20 | 32 => Ok(ObjectId::from_bytes_or_panic(bytes)),
            len => Err(Error::InvalidByteSliceLength(len)),
        }
    }
}

//! Ids that borrow their bytes.

ghost use Rattle.std.proofs.Common.{IsOk, IfOk, IfErr, OnOk, ◌≡◌, ◌≤◌, ◌<◌, ◌↔◌, ◌++◌, ◌*◌, ℕ, List, IsTrue, IsAscii, All, length, drop, slice_range, nat_eq, Some, MatchResult, rules};
ghost use Rattle.std.specs.Cmp.{partial_order_from_own_ties};
ghost use Rattle.std.specs.Cmp.Rules.{comparing};
ghost use Rattle.std.specs.Ordering.{as_partial_cmp};
ghost use Rattle.id_digits.specs.Digits.{first_byte_of, hex_letter, is_digest_len, spelling};
ghost use Rattle.gix_hash.specs.Kinds.{hex_len_of};

use crate::alphabet::spell_pairs;
use crate::ascii::ascii_text;
use crate::display::HexDisplay;
use crate::error::Error;
use crate::kind::Kind;
use crate::object_id::ObjectId;
use crate::prefix::Prefix;
use crate::verify;
use id_digits::{common_digits, digest_cmp};
use std::cmp::Ordering;
use std::hash::{Hash, Hasher};
use std::ops::Range;
use std::{fmt, io};

/// A view of the digest of an id, of 20 or 32 bytes.
///
/// It compares by its digits in dictionary order, a shorter beginning first, whatever the kinds.
///
/// ```
/// let id = oid::try_from_bytes(digest)?;
/// println!(rt; "{} begins with the byte {}", id, id.first_byte())?;
/// ```
#[derive(Clone, Copy)]
pub struct oid<'a> {
    bytes: &'a [u8],
    pub ghost length_known: { IsTrue (is_digest_len (length bytes.now)) },
    pub ghost bytes_in_range: { All (λ b. b < 256) bytes.now },
}

impl<'a> oid<'a> {
    ghost use Rattle.gix_hash.specs.Ids.{cut_of, empty_blob_digits, empty_tree_digits, id_digits, id_kind, null_digits, oid_bytes, oid_digits, oid_kind, shown_digits};
    ghost use Rattle.std.specs.Io.KnownBytes.{Appends};
    ghost use Rattle.std.specs.Borrow.{sem};
    ghost use Rattle.gix_hash.specs.Loans.{IsLeftAs};
    ghost use Rattle.std.specs.List.{common_prefix_len};
    ghost use Rattle.gix_hash.specs.Prefixes.{IsCommonLen};

    /// A view of a digest. The caller must ensure that it has 20 or 32 bytes.
    pub fn from_bytes_unchecked(bytes: &'a [u8]) -> Self
        requires { IsTrue (is_digest_len (length bytes.now)) }
        ensures { oid_bytes result ≡ bytes.now }
    {
        oid { bytes }
    }

    /// A view of a digest of 20 or 32 bytes. For any other number it returns
    /// [`Error::InvalidByteSliceLength`] with that number.
    pub fn try_from_bytes(bytes: &'a [u8]) -> Result<Self, Error>
        ensures ok { IfOk result (λ id. oid_bytes id ≡ bytes.now) }
        ensures accepted { IsOk result ↔ IsTrue (is_digest_len (length bytes.now)) }
        ensures err { IfErr result (λ e. e ≡ Error.InvalidByteSliceLength (length bytes.now)) }
    {
        match bytes.len() {
            20 | 32 => Ok(oid::from_bytes_unchecked(bytes)),
            len => Err(Error::InvalidByteSliceLength(len)),
        }
    }

    /// The kind of the id, by its length.
    #[tactic(auto, using(crate::proofs::IdFacts::digits_of_view))]
    pub fn kind(&self) -> Kind
        ensures value { result ≡ oid_kind self.now }
        ensures len { length (oid_digits self.now) ≡ hex_len_of (oid_kind self.now) }
        ensures digits_in_range { All (λ d. d < 16) (oid_digits self.now) }
    {
        if self.bytes.len() == 20 {
            Kind::Sha1
        } else {
            Kind::Sha256
        }
    }

    /// The bytes of the digest, 20 or 32 of them.
    pub fn as_bytes(&self) -> &'a [u8]
        ensures value { result.now ≡ oid_bytes self.now }
        ensures bytes_in_range { All (λ b. b < 256) result.now }
    {
        self.bytes
    }

    /// The first byte of the digest.
    pub fn first_byte(&self) -> u8
        ensures { result ≡ first_byte_of (oid_digits self.now) }
    {
        self.bytes[0]
    }

    /// The id with bytes of its own.
    pub fn to_owned(&self) -> ObjectId
        ensures kind { id_kind result ≡ oid_kind self.now }
        ensures digits { id_digits result ≡ oid_digits self.now }
    {
        match self.kind() {
            Kind::Sha1 => {
                let mut bytes = [0; 20];
                bytes.copy_from_slice(self.bytes);
                ObjectId::Sha1(bytes)
            }
            Kind::Sha256 => {
                let mut bytes = [0; 32];
                bytes.copy_from_slice(self.bytes);
                ObjectId::Sha256(bytes)
            }
        }
    }

    /// Whether all digits are zero.
    pub fn is_null(&self) -> bool
        ensures { IsTrue result ↔ (oid_digits self.now ≡ null_digits (oid_kind self.now)) }
    {
        *self == self.kind().null_ref()
    }

    /// Whether this is the id of the empty blob, of its kind.
    pub fn is_empty_blob(&self) -> bool
        ensures { IsTrue result ↔ (oid_digits self.now ≡ empty_blob_digits (oid_kind self.now)) }
    {
        self.eq_oid(&self.kind().empty_blob())
    }

    /// Whether this is the id of the empty tree, of its kind.
    pub fn is_empty_tree(&self) -> bool
        ensures { IsTrue result ↔ (oid_digits self.now ≡ empty_tree_digits (oid_kind self.now)) }
    {
        self.eq_oid(&self.kind().empty_tree())
    }

    /// Whether the digits are those of an owned id.
    pub fn eq_oid(&self, other: &ObjectId) -> bool
        ensures { IsTrue result ↔ (oid_digits self.now ≡ id_digits other.now) }
    {
        *self == other.as_oid()
    }

    /// Whether `text` is exactly the lowercase hex digits.
    pub fn eq_str(&self, text: &str) -> bool
        ensures { IsTrue result ↔ (text.now ≡ spelling hex_letter (oid_digits self.now)) }
    {
        let mut buffer = Kind::hex_buf();
        self.put_hex(&mut buffer);
        self.front_text(&buffer) == text
    }

    /// The number of digits that two ids share: those before the first that differs, or all of the
    /// shorter id's if none does. Kinds are ignored.
    #[tactic(auto, using(crate::proofs::CommonBeginnings::longest_common))]
    pub fn common_hex_len(&self, other: oid<'_>) -> usize
        ensures value { result ≡ common_prefix_len nat_eq (oid_digits self.now)
            (oid_digits other.entry) }
        ensures longest { IsCommonLen (oid_digits self.now) (oid_digits other.entry) result }
    {
        common_digits(self.bytes, other.bytes)
    }

    /// The id for printing in full.
    pub fn to_hex(&self) -> HexDisplay<'a>
        ensures value { result ≡ cut_of self.now (hex_len_of (oid_kind self.now)) }
        ensures shown { shown_digits result ≡ oid_digits self.now }
    {
        HexDisplay::new(*self, self.kind().len_in_hex())
    }

    /// The id for printing its first `hex_len` digits, or all if it has fewer.
    pub fn to_hex_with_len(&self, hex_len: usize) -> HexDisplay<'a>
        ensures { result ≡ cut_of self.now hex_len }
    {
        HexDisplay::new(*self, hex_len)
    }

    /// Writes the lowercase hex digits to `out`. The error is the writer's; how many digits were
    /// written before it is not specified.
    pub fn write_hex_to<W: io::Write>(&self, out: &mut W) -> io::Result<()>
        ensures { OnOk result (Appends (W.contents out.old) (W.contents out.new)
            (spelling hex_letter (oid_digits self.now))) }
    {
        let mut buffer = Kind::hex_buf();
        self.put_hex(&mut buffer);
        out.write_all(&buffer[..self.kind().len_in_hex()])
    }

    /// Ok if the digits are those of the expected id, and otherwise an error that contains both.
    pub fn verify(&self, expected: oid<'_>) -> Result<(), verify::Error>
        ensures equal { IsOk result ↔ (oid_digits self.now ≡ oid_digits expected.entry) }
        ensures actual { IfErr result (λ e. (id_kind e.actual ≡ oid_kind self.now)
            × (id_digits e.actual ≡ oid_digits self.now)) }
        ensures expected { IfErr result (λ e. (id_kind e.expected ≡ oid_kind expected.entry)
            × (id_digits e.expected ≡ oid_digits expected.entry)) }
    {
        if *self == expected {
            Ok(())
        } else {
            Err(verify::Error {
                actual: self.to_owned(),
                expected: expected.to_owned(),
            })
        }
    }

    /// Writes the lowercase hex digits into the front of `buffer`, as many as the kind's length in
    /// digits; the bytes after them stay. The caller must ensure that the buffer has room.
    pub fn put_hex(&self, buffer: &mut [u8])
        requires { hex_len_of (oid_kind self.now) ≤ length buffer.old }
        ensures value { buffer.new ≡ spelling hex_letter (oid_digits self.now) ++ drop
            (hex_len_of (oid_kind self.now)) buffer.old }
        ensures len { length (oid_digits self.now) ≡ hex_len_of (oid_kind self.now) }
    {
        spell_pairs(self.bytes, &mut buffer[..2 * self.bytes.len()]);
    }

    /// Writes the lowercase hex digits into the front of `buffer` as [`oid::put_hex`] does, and
    /// lends them as text. The caller must ensure that the buffer has room.
    ///
    /// The starred clause says what the buffer holds once the borrow ends. Only a caller that is
    /// proved by hand can use it: it reborrows the buffer for a lifetime of its own, and gets it
    /// back as the clause says. [`oid::put_hex`] says the same of the buffer to every caller.
    pub fn hex_to_buf<'b>(&self, buffer: &'b mut [u8]) -> &'b str
        requires { hex_len_of (oid_kind self.now) ≤ length buffer.old }
        ensures* after { sem 𝓛 (IsLeftAs buffer.entry
            (spelling hex_letter (oid_digits self.now) ++ drop
            (hex_len_of (oid_kind self.now)) buffer.old)) }
        ensures text { result.now ≡ spelling hex_letter (oid_digits self.now) }
        ensures ascii { IsAscii result.now }
        ensures len { length result.now ≡ hex_len_of (oid_kind self.now) }
    {
        self.front_text(self.with_digits(buffer))
    }

    // The same buffer, with the digits in its front.
    pub(crate) fn with_digits<'b>(&self, buffer: &'b mut [u8]) -> &'b mut [u8]
        requires { hex_len_of (oid_kind self.now) ≤ length buffer.old }
        ensures same { result.ghost_name ≡ buffer.entry.ghost_name }
        ensures value { result.now ≡ spelling hex_letter (oid_digits self.now) ++ drop
            (hex_len_of (oid_kind self.now)) buffer.old }
    {
        self.put_hex(buffer);
        buffer
    }

    // The digits in front of a buffer, as text.
    pub(crate) fn front_text<'b>(&self, buffer: &'b [u8]) -> &'b str
        requires { (rest : List ℕ)
            × (buffer.now ≡ spelling hex_letter (oid_digits self.now) ++ rest) }
        ensures text { result.now ≡ spelling hex_letter (oid_digits self.now) }
        ensures ascii { IsAscii result.now }
        ensures len { length result.now ≡ hex_len_of (oid_kind self.now) }
    {
        ascii_text(&buffer[..self.kind().len_in_hex()])
    }

    /// The bytes of the range as the beginning of a prefix of the same kind, two digits a byte.
    ///
    /// The range counts bytes. The caller must ensure that it is within the digest.
    pub fn to_prefix(&self, range: Range<usize>) -> Prefix
        requires ordered { range.start ≤ range.end }
        requires within { range.end ≤ length (oid_bytes self.now) }
        ensures kind { result.kind ≡ oid_kind self.now }
        ensures digits { result.digits ≡ slice_range (oid_digits self.now) (2 * range.start)
            (2 * range.end) }
    {
        let hex_len = 2 * (range.end - range.start);
        Prefix::packed(self.kind(), &self.bytes[range.start..range.end], hex_len)
    }
}

impl PartialEq for oid<'_> {
    ghost use Rattle.gix_hash.specs.Ids.{oid_eq};

    ghost eq = { oid_eq };

    ghost laws = { Prim.search (comparing, rules) };

    #[tactic(auto, using(id_digits::proofs::DigitOrder::to_digits))]
    fn eq(&self, other: &Self) -> bool {
        self.bytes == other.bytes
    }
}

impl Eq for oid<'_> {
    ghost laws = { Prim.search (comparing, rules) };
}

impl PartialOrd for oid<'_> {
    ghost use Rattle.gix_hash.specs.Ids.{oid_cmp};

    ghost partial_cmp = { as_partial_cmp oid_cmp };

    ghost laws = { partial_order_from_own_ties (Prim.search (comparing, rules))
        (Prim.search (comparing, rules)) };

    fn partial_cmp(&self, other: &Self) -> Option<Ordering> {
        Some(self.cmp(other))
    }
}

impl Ord for oid<'_> {
    ghost use Rattle.gix_hash.specs.Ids.{oid_cmp};

    ghost cmp = { oid_cmp };

    ghost total = { Prim.search (comparing, rules) };

    ghost matches_partial_cmp = { Prim.search (comparing, rules) };

    ghost matches_eq = { Prim.search (comparing, rules) };

    #[inline(always)]
    fn cmp(&self, other: &Self) -> Ordering {
        digest_cmp(self.bytes, other.bytes)
    }
}

/// Prints the digits in lowercase hex, whatever width, fill and precision are asked for.
impl fmt::Display for oid<'_> {
    ghost use Rattle.gix_hash.specs.Ids.{oid_digits};

    ghost output = { λ id. Some (spelling hex_letter (oid_digits id)) };

    ghost styled_output = { λ id _. Some (spelling hex_letter (oid_digits id)) };

    fn fmt<W: fmt::Write>(&self, f: &mut fmt::Formatter<W>) -> fmt::Result {
        let mut buffer = Kind::hex_buf();
        self.put_hex(&mut buffer);
        f.write_str(self.front_text(&buffer))
    }
}

impl fmt::Debug for oid<'_> {
    fn fmt<W: fmt::Write>(&self, f: &mut fmt::Formatter<W>) -> fmt::Result {
        match self.kind() {
            Kind::Sha1 => write!(f, "Sha1({self})"),
            Kind::Sha256 => write!(f, "Sha256({self})"),
        }
    }
}

/// Feeds the bytes of the digest in one write, without a length.
impl Hash for oid<'_> {
    ghost use Rattle.gix_hash.specs.Ids.{oid_hash_input, same_oid_input};

    ghost hash_input = { oid_hash_input };

    ghost respects_eq = { same_oid_input };

    fn hash<H: Hasher>(&self, state: &mut H) {
        state.write(self.bytes);
    }
}

/// Does the same as [`oid::try_from_bytes`].
impl<'a> TryFrom<&'a [u8]> for oid<'a> {
    ghost use Rattle.gix_hash.specs.Ids.{oid_bytes};
    ghost use Rattle.gix_hash.specs.Kinds.{IsLengthRefusal};

    type Error = Error;

    ghost try_from_gives = { λ bytes answer. MatchResult answer
        (λ id. oid_bytes id ≡ bytes.now) (IsLengthRefusal bytes.now) };

    fn try_from(bytes: &'a [u8]) -> Result<Self, Error> {
        oid::try_from_bytes(bytes)
    }
}

impl<'a> From<&'a [u8; 20]> for oid<'a> {
    ghost use Rattle.gix_hash.specs.Ids.{oid_bytes};

    ghost from_gives = { λ bytes id. oid_bytes id ≡ bytes.now };

    fn from(bytes: &'a [u8; 20]) -> Self {
        oid::from_bytes_unchecked(bytes)
    }
}

impl<'a> From<&'a [u8; 32]> for oid<'a> {
    ghost use Rattle.gix_hash.specs.Ids.{oid_bytes};

    ghost from_gives = { λ bytes id. oid_bytes id ≡ bytes.now };

    fn from(bytes: &'a [u8; 32]) -> Self {
        oid::from_bytes_unchecked(bytes)
    }
}

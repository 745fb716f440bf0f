//! Prefixes as text.

ghost use Rattle.std.specs.Prelude.{◌≡◌, ◌≤◌, ◌↔◌, ◌++◌, ℕ, List, length, drop, IsTrue, IsAscii, OnOk, Some};
ghost use Rattle.std.specs.Borrow.{sem};
ghost use Rattle.std.specs.Io.KnownBytes.{Appends};
ghost use Rattle.gix_hash.specs.Ids.{asked_len, cut_kind, shown_digits, whole_digits};
ghost use Rattle.id_digits.specs.Digits.{hex_letter, padded, spelling};
ghost use Rattle.gix_hash.specs.Kinds.{hex_len_of};
ghost use Rattle.gix_hash.specs.Loans.{IsLeftAs};

use super::Prefix;
use crate::alphabet::Alphabet;
use crate::ascii::ascii_text;
use crate::display::{CutId, ReverseHexDisplay};
use crate::kind::Kind;
use std::{fmt, io};

impl Prefix {
    // The prefix as a cut id.
    fn cut(&self) -> CutId<'_>
        ensures { shown_digits result ≡ self.now.digits }
    {
        CutId::new(self.as_oid(), self.hex_len)
    }

    /// Writes the lowercase hex digits into the front of `buffer`; the bytes after them stay. The
    /// caller must ensure that the buffer has room.
    pub fn put_hex(&self, buffer: &mut [u8])
        requires { length self.now.digits ≤ length buffer.old }
        ensures { buffer.new ≡ spelling hex_letter self.now.digits ++ drop
            (length self.now.digits) buffer.old }
    {
        // Ids are spelled whole, for which the buffer may have no room.
        let mut whole = Kind::hex_buf();
        let letters = self.cut().letters(Alphabet::Hex, &mut whole);
        buffer[..letters.len()].copy_from_slice(letters);
    }

    /// Writes the lowercase hex digits into the front of `buffer` as [`Prefix::put_hex`] does, and
    /// lends them as text. The caller must ensure that the buffer has room.
    ///
    /// The starred clause says what the buffer holds once the borrow ends. Only a caller that is
    /// proved by hand can use it: it reborrows the buffer for a lifetime of its own, and gets it
    /// back as the clause says. [`Prefix::put_hex`] says the same of the buffer to every caller.
    pub fn hex_to_buf<'b>(&self, buffer: &'b mut [u8]) -> &'b str
        requires { length self.now.digits ≤ length buffer.old }
        ensures* after { sem 𝓛 (IsLeftAs buffer.entry
            (spelling hex_letter self.now.digits ++ drop (length self.now.digits) buffer.old)) }
        ensures text { result.now ≡ spelling hex_letter self.now.digits }
        ensures ascii { IsAscii result.now }
        ensures len { length result.now ≡ length self.now.digits }
    {
        self.front_text(self.with_digits(buffer))
    }

    // The same buffer, with the digits in its front.
    fn with_digits<'b>(&self, buffer: &'b mut [u8]) -> &'b mut [u8]
        requires { length self.now.digits ≤ length buffer.old }
        ensures same { result.ghost_name ≡ buffer.entry.ghost_name }
        ensures value { result.now ≡ spelling hex_letter self.now.digits ++ drop
            (length self.now.digits) buffer.old }
    {
        self.put_hex(buffer);
        buffer
    }

    // The digits in front of a buffer, as text.
    fn front_text<'b>(&self, buffer: &'b [u8]) -> &'b str
        requires { (rest : List ℕ) × (buffer.now ≡ spelling hex_letter self.now.digits ++ rest) }
        ensures text { result.now ≡ spelling hex_letter self.now.digits }
        ensures ascii { IsAscii result.now }
        ensures len { length result.now ≡ length self.now.digits }
    {
        ascii_text(&buffer[..self.hex_len])
    }

    /// Writes the lowercase hex digits to `out`. The error is the writer's; how many digits were
    /// written before it is not specified.
    pub fn write_hex_to<W: io::Write>(&self, out: &mut W) -> io::Result<()>
        ensures { OnOk result (Appends (W.contents out.old) (W.contents out.new)
            (spelling hex_letter self.now.digits)) }
    {
        let mut buffer = Kind::hex_buf();
        out.write_all(self.cut().letters(Alphabet::Hex, &mut buffer))
    }

    /// The prefix for printing in the letters `z` to `k`.
    pub fn to_reverse_hex(&self) -> ReverseHexDisplay<'_>
        ensures id { whole_digits result ≡ padded (hex_len_of self.now.kind) self.now.digits }
        ensures kind { cut_kind result ≡ self.now.kind }
        ensures hex_len { asked_len result ≡ length self.now.digits }
        ensures shown { shown_digits result ≡ self.now.digits }
    {
        ReverseHexDisplay::new(self.as_oid(), self.hex_len)
    }

    /// Whether `text` is exactly the lowercase hex digits.
    pub fn eq_str(&self, text: &str) -> bool
        ensures { IsTrue result ↔ (text.now ≡ spelling hex_letter self.now.digits) }
    {
        let mut buffer = Kind::hex_buf();
        self.cut().text(Alphabet::Hex, &mut buffer) == text
    }
}

/// Prints the digits in lowercase hex, whatever width, fill and precision are asked for.
impl fmt::Display for Prefix {
    ghost output = { λ prefix. Some (spelling hex_letter prefix.digits) };

    ghost styled_output = { λ prefix _. Some (spelling hex_letter prefix.digits) };

    fn fmt<W: fmt::Write>(&self, f: &mut fmt::Formatter<W>) -> fmt::Result {
        let mut buffer = Kind::hex_buf();
        f.write_str(self.cut().text(Alphabet::Hex, &mut buffer))
    }
}

impl fmt::Debug for Prefix {
    fn fmt<W: fmt::Write>(&self, f: &mut fmt::Formatter<W>) -> fmt::Result {
        write!(f, "Prefix({self})")
    }
}

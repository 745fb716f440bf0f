//! Ids cut to a number of digits, for printing.

ghost use Rattle.std.specs.Prelude.{◌≡◌, ◌≤◌, ◌↔◌, IsTrue, IsAscii, length, Some};
ghost use Rattle.id_digits.specs.Digits.{spelling, hex_letter, reverse_letter};
ghost use Rattle.gix_hash.specs.Reading.{letter_of};

use crate::alphabet::{Alphabet, spell_pairs};
use crate::ascii::ascii_text;
use crate::borrowed::oid;
use crate::kind::Kind;
use id_digits::to_reverse_letters;
use std::fmt;
use std::marker::Model;

/// An id, and how many of its digits are to be printed: all if it has fewer.
#[derive(PartialEq, Eq, PartialOrd, Ord, Hash, Drop)]
pub struct CutId<'a> {
    inner: oid<'a>,
    hex_len: usize,
}

impl<'a> CutId<'a> {
    ghost use Rattle.gix_hash.specs.Ids.{cut_of, shown_digits};

    // The first `hex_len` digits of an id.
    pub(crate) fn new(inner: oid<'a>, hex_len: usize) -> CutId<'a>
        ensures { result ≡ cut_of inner.entry hex_len }
    {
        CutId { inner, hex_len }
    }

    // The letters that are printed in an alphabet, in the front of a buffer with room for those of
    // any id.
    pub(crate) fn letters<'b>(&self, alphabet: Alphabet, buffer: &'b mut [u8]) -> &'b [u8]
        requires { 64 ≤ length buffer.old }
        ensures value { result.now ≡ spelling (letter_of alphabet) (shown_digits self.now) }
        ensures ascii { IsAscii result.now }
    {
        let bytes = self.inner.as_bytes();
        let len = self.hex_len.min(2 * bytes.len());
        let whole = len.div_ceil(2);
        spell_pairs(&bytes[..whole], &mut buffer[..2 * whole]);
        let letters = &mut buffer[..len];
        if let Alphabet::Reverse = alphabet {
            to_reverse_letters(letters);
        }
        letters
    }

    // The same as text.
    pub(crate) fn text<'b>(&self, alphabet: Alphabet, buffer: &'b mut [u8]) -> &'b str
        requires { 64 ≤ length buffer.old }
        ensures { result.now ≡ spelling (letter_of alphabet) (shown_digits self.now) }
    {
        ascii_text(self.letters(alphabet, buffer))
    }
}

/// An id that prints its first digits in lowercase hex: as many as were asked for, or all if it has
/// fewer.
///
/// Two of them are equal if both the ids and the numbers asked for are, and ordered by the ids
/// first.
///
/// ```
/// // Prints 4b825dc, of the empty tree.
/// println!(rt; "{}", id.to_hex_with_len(7))?;
/// ```
#[derive(PartialEq, Eq, PartialOrd, Ord, Hash, Drop)]
pub struct HexDisplay<'a>(CutId<'a>);

impl<'a> Model for HexDisplay<'a> {
    ghost use Rattle.gix_hash.specs.declared.display.CutId.{CutId};

    ghost Value = { CutId };

    ghost view = { λ display. display.0 };

    ghost inverse = { λ cut. record { 0 = cut } };
}

impl<'a> HexDisplay<'a> {
    ghost use Rattle.gix_hash.specs.Ids.{cut_of, shown_digits};

    // A display of the first `hex_len` digits of an id.
    pub(crate) fn new(id: oid<'a>, hex_len: usize) -> HexDisplay<'a>
        ensures { result ≡ cut_of id.entry hex_len }
    {
        HexDisplay(CutId::new(id, hex_len))
    }

    /// Whether `text` is exactly what is printed.
    pub fn eq_str(&self, text: &str) -> bool
        ensures { IsTrue result ↔ (text.now ≡ spelling hex_letter (shown_digits self.now)) }
    {
        let mut buffer = Kind::hex_buf();
        self.0.text(Alphabet::Hex, &mut buffer) == text
    }
}

/// Prints the first digits in lowercase hex, whatever width, fill and precision are asked for.
impl fmt::Display for HexDisplay<'_> {
    ghost use Rattle.gix_hash.specs.Ids.{shown_digits};

    ghost output = { λ display. Some (spelling hex_letter (shown_digits display)) };

    ghost styled_output = { λ display _. Some (spelling hex_letter (shown_digits display)) };

    fn fmt<W: fmt::Write>(&self, f: &mut fmt::Formatter<W>) -> fmt::Result {
        let mut buffer = Kind::hex_buf();
        f.write_str(self.0.text(Alphabet::Hex, &mut buffer))
    }
}

/// An id that prints its first digits in the letters `z` to `k`: as many as were asked for, or all
/// if it has fewer.
///
/// Two of them are equal if both the ids and the numbers asked for are, and ordered by the ids
/// first.
///
/// ```
/// // Prints vorx, of the empty tree.
/// println!(rt; "{}", change.to_reverse_hex_with_len(4))?;
/// ```
#[derive(PartialEq, Eq, PartialOrd, Ord, Hash, Drop)]
pub struct ReverseHexDisplay<'a>(CutId<'a>);

impl<'a> Model for ReverseHexDisplay<'a> {
    ghost use Rattle.gix_hash.specs.declared.display.CutId.{CutId};

    ghost Value = { CutId };

    ghost view = { λ display. display.0 };

    ghost inverse = { λ cut. record { 0 = cut } };
}

impl<'a> ReverseHexDisplay<'a> {
    ghost use Rattle.gix_hash.specs.Ids.{cut_of, shown_digits};

    /// The id for printing its first `hex_len` digits in the letters `z` to `k`, or all if it has
    /// fewer.
    pub fn new(id: oid<'a>, hex_len: usize) -> ReverseHexDisplay<'a>
        ensures { result ≡ cut_of id.entry hex_len }
    {
        ReverseHexDisplay(CutId::new(id, hex_len))
    }

    /// Whether `text` is exactly what is printed.
    pub fn eq_str(&self, text: &str) -> bool
        ensures { IsTrue result ↔ (text.now ≡ spelling reverse_letter (shown_digits self.now)) }
    {
        let mut buffer = Kind::hex_buf();
        self.0.text(Alphabet::Reverse, &mut buffer) == text
    }
}

/// Prints the first digits in the letters `z` to `k`, whatever width, fill and precision are asked
/// for.
impl fmt::Display for ReverseHexDisplay<'_> {
    ghost use Rattle.gix_hash.specs.Ids.{shown_digits};

    ghost output = { λ display. Some (spelling reverse_letter (shown_digits display)) };

    ghost styled_output = { λ display _. Some (spelling reverse_letter (shown_digits display)) };

    fn fmt<W: fmt::Write>(&self, f: &mut fmt::Formatter<W>) -> fmt::Result {
        let mut buffer = Kind::hex_buf();
        f.write_str(self.0.text(Alphabet::Reverse, &mut buffer))
    }
}

//! The lines of a text as prefixes.

ghost use Rattle.std.specs.Prelude.{◌≡◌, ◌-◌, ◌<◌, ◌≤◌, ◌∷◌, IfOk, length, map};
ghost use Rattle.std.specs.List.{after_first, before_first, position};
ghost use Rattle.packtool_commands.specs.Stores.{marked, prefix_of, prefixes_of};
ghost use Rattle.streams.specs.Streams.{is_line_feed, lines_of};

use gix_hash::{Alphabet, Kind, Prefix};
use std::alloc::{AllocError, Allocator};

/// The lines of a text, with the prefixes of a kind among them.
///
/// A line ends in a line feed, which the last may lack. It is a prefix if it has 2 hex digits or
/// more, in either letter case, at most as many as ids of the kind, and no other byte.
///
/// ```
/// let lines = PrefixLines::read(rt.alloc(), Kind::Sha1, b"4b8\n4b9\n")?;
/// println!(rt; "{}", lines.prefixes().len())?;
/// ```
#[derive(Drop)]
pub struct PrefixLines<'a, A: Allocator> {
    pub(crate) text: &'a [u8],
    pub(crate) kind: Kind,
    pub(crate) lines: Vec<Line<'a>, A>,
    pub(crate) prefixes: Vec<Prefix, A>,
    ghost are_lines: { map (λ line. (line.text.now, line.is_prefix)) lines.items
        ≡ marked kind (lines_of text.now) },
    ghost are_read: { prefixes.items ≡ prefixes_of kind (lines_of text.now) },
}

/// A line without its line feed, and whether it is a prefix.
#[derive(Drop)]
pub(crate) struct Line<'a> {
    pub(crate) text: &'a [u8],
    pub(crate) is_prefix: bool,
}

impl<'a, A: Allocator + Copy> PrefixLines<'a, A> {
    /// Reads the lines of a text.
    pub fn read(alloc: A, kind: Kind, text: &'a [u8]) -> Result<PrefixLines<'a, A>, AllocError>
        ensures text { IfOk result (λ lines. lines.text.now ≡ text.now) }
        ensures kind { IfOk result (λ lines. lines.kind ≡ kind) }
    {
        let mut lines = Vec::new(alloc);
        let mut prefixes = Vec::new(alloc);
        let mut rest = text;
        while !rest.is_empty() {
            let (line, after) = first_line(rest);
            let prefix = prefix_in(kind, line);
            lines.push(Line {
                text: line,
                is_prefix: prefix.is_some(),
            })?;
            if let Some(prefix) = prefix {
                prefixes.push(prefix)?;
            }
            rest = after;
        }
        Ok(PrefixLines {
            text,
            kind,
            lines,
            prefixes,
        })
    }

    /// The prefixes, in the order of the lines.
    pub fn prefixes(&self) -> &[Prefix]
        ensures items { result.now ≡ self.now.prefixes.items }
        ensures are { result.now ≡ prefixes_of self.now.kind (lines_of self.now.text.now) }
    {
        &self.prefixes
    }
}

// The first line of a text that is not empty, and what is after its line feed.
fn first_line(text: &[u8]) -> (&[u8], &[u8])
    requires { 0 < length text.now }
    ensures lines { lines_of text.now ≡ result.0.now ∷ lines_of result.1.now }
    ensures fewer { length result.1.now < length text.now }
{
    let (line, rest) = split_line(text);
    (line, rest)
}

// What is before the first line feed, and after it.
fn split_line(text: &[u8]) -> (&[u8], &[u8])
    ensures line { result.0.now ≡ before_first is_line_feed text.now }
    ensures rest { result.1.now ≡ after_first is_line_feed text.now }
    ensures fewer { length result.1.now ≤ length text.now - 1 }
{
    match line_feed_in(text) {
        Some(at) => (&text[..at], &text[at + 1..]),
        None => (text, &[]),
    }
}

// Where the first line feed is.
fn line_feed_in(text: &[u8]) -> Option<usize>
    ensures { result ≡ position is_line_feed text.now }
{
    text.iter().position(|byte| *byte == b'\n')
}

/// The prefix of a kind that a line is, or `None` if the line is not one. [`PrefixLines`] says
/// which lines are prefixes.
///
/// ```
/// if prefix_in(Kind::Sha1, b"4b8").is_some() {
///     println!(rt; "it may be looked up")?;
/// }
/// ```
pub fn prefix_in(kind: Kind, line: &[u8]) -> Option<Prefix>
    ensures { result ≡ prefix_of kind line.now }
{
    if line.len() > kind.len_in_hex() {
        return None;
    }
    match Alphabet::Hex.read_prefix_in(kind, line) {
        Ok(prefix) if prefix.hex_len() >= 2 => Some(prefix),
        _ => None,
    }
}

//! Ids in texts, as Git prints them: in lowercase hex digits.

ghost use Rattle.std.specs.Prelude.{◌≡◌, ◌≢◌, ◌++◌, ℕ, List, MatchOption};
ghost use Rattle.callers.specs.Printed.{IsPrinted, IsNotPrinted, HasLine, HasNoLine};

use gix_hash::{Alphabet, Kind, ObjectId, laws};

/// The id of the kind that the text is, or `None` if it is not one.
pub fn read_printed(kind: Kind, text: &[u8]) -> Option<ObjectId>
    ensures { MatchOption result (IsNotPrinted kind text.now) (IsPrinted kind text.now) }
{
    laws::printed(Alphabet::Hex);
    let Ok(id) = ObjectId::from_hex(text) else {
        return None;
    };
    if id.kind() == kind && id.eq_bstr(text) {
        Some(id)
    } else {
        None
    }
}

/// A line of an id, and the bytes after it.
///
/// ```
/// if let Some(Line { id, rest }) = read_line(Kind::Sha1, text) {
///     println!(rt; "{id}, and {} bytes", rest.len())?;
/// }
/// ```
#[derive(Clone, Copy)]
pub struct Line<'a> {
    /// The id.
    pub id: ObjectId,
    /// The bytes after the line feed.
    pub rest: &'a [u8],
}

/// Reads a line of an id of the kind from the front of a text, or returns `None` if there is none.
pub fn read_line(kind: Kind, text: &[u8]) -> Option<Line<'_>>
    ensures { MatchOption result (HasNoLine kind text.now)
        (λ line. HasLine kind text.now line.id line.rest.now) }
{
    let len = kind.len_in_hex();
    if text.len() <= len || text[len] != b'\n' {
        return None;
    }
    let id = read_printed(kind, &text[..len])?;
    Some(Line {
        id,
        rest: &text[len + 1..],
    })
}

/// The bytes after a key, or `None` if the text does not begin with it.
pub fn after_key<'a>(key: &[u8], text: &'a [u8]) -> Option<&'a [u8]>
    ensures { MatchOption result ((rest : List ℕ) → text.now ≢ key.now ++ rest)
        (λ rest. text.now ≡ key.now ++ rest.now) }
{
    text.strip_prefix(key)
}

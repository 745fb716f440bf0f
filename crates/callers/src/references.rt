//! What the file of a reference says: an id, or `ref: ` and the name of another reference, and a
//! line feed (gitrepository-layout, git-symbolic-ref).

ghost use Rattle.std.specs.Prelude.{◌≡◌, ◌≢◌, ◌++◌, ◌∷◌, ◌↔◌, [], ℕ, List, IsTrue, MatchOption, OnOk};
ghost use Rattle.std.specs.Io.KnownBytes.{Appends};
ghost use Rattle.std.specs.List.{list_all};
ghost use Rattle.callers.specs.References.{is_reference_byte, reference_text, IsName, IsReference, IsNoReference};

use crate::printed::{Line, after_key, read_line};
use gix_hash::{Kind, ObjectId};
use std::io;

/// What a reference points to.
///
/// ```
/// if let Some(Reference::Id(id)) = read_reference(Kind::Sha1, text) {
///     println!(rt; "{id}")?;
/// }
/// ```
#[derive(Clone, Copy)]
pub enum Reference<'a> {
    /// An object.
    Id(ObjectId),
    /// Another reference, by its name.
    Symbolic(&'a [u8]),
}

/// Reads the file of a reference, or returns `None` if it is not one that Git writes.
///
/// It tests that a name is not empty, and the rules of git-check-ref-format on single bytes, by
/// [`is_reference_byte`].
pub fn read_reference(kind: Kind, text: &[u8]) -> Option<Reference<'_>>
    ensures { MatchOption result (IsNoReference kind text.now) (IsReference kind text.now) }
{
    if let Some(Line { id, rest: [] }) = read_line(kind, text) {
        return Some(Reference::Id(id));
    }
    let name = line_in(after_key(b"ref: ", text)?)?;
    if is_name(name) {
        Some(Reference::Symbolic(name))
    } else {
        None
    }
}

/// Writes the file of a reference.
pub fn write_reference<W: io::Write>(reference: &Reference<'_>, out: &mut W) -> io::Result<()>
    ensures { OnOk result (Appends (W.contents out.old) (W.contents out.new)
        (reference_text reference.now)) }
{
    match reference {
        Reference::Id(id) => id.write_hex_to(out)?,
        Reference::Symbolic(name) => {
            out.write_all(b"ref: ")?;
            out.write_all(name)?;
        }
    }
    out.write_all(b"\n")?;
    Ok(())
}

/// Whether a name may have the byte: no control character, no space, and none of `~^:?*[\`
/// (git-check-ref-format).
pub fn is_reference_byte(byte: u8) -> bool
    ensures { result ≡ is_reference_byte byte }
{
    byte > b' ' && byte != 0x7f && !b"~^:?*[\\".contains(&byte)
}

// Whether the bytes may be a name.
fn is_name(name: &[u8]) -> bool
    ensures { IsTrue result ↔ IsName name.now }
{
    !name.is_empty() && has_name_bytes(name)
}

// Whether a name may have each of the bytes.
fn has_name_bytes(name: &[u8]) -> bool
    ensures { result ≡ list_all is_reference_byte name.now }
{
    name.iter().all(|byte| is_reference_byte(*byte))
}

// A line without its line feed, if the text ends in one.
fn line_in(text: &[u8]) -> Option<&[u8]>
    ensures { MatchOption result ((line : List ℕ) → text.now ≢ line ++ 10 ∷ [])
        (λ line. text.now ≡ line.now ++ 10 ∷ []) }
{
    match text {
        [line @ .., b'\n'] => Some(line),
        _ => None,
    }
}

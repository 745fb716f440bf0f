//! Abbreviations that a user types and is shown: the first digits of an id (gitrevisions).

ghost use Rattle.std.specs.Prelude.{◌≡◌, ◌<◌, ◌∷◌, ◌++◌, [], ℕ, List, OnOk, IfOk, IfErr, Err, length};
ghost use Rattle.std.specs.Io.KnownBytes.{Appends};
ghost use Rattle.gix_hash.specs.Words.{hex_letter, prefix_read_in, spelling};
ghost use Rattle.id_lookup.specs.Words.{IsShortestAbbreviation};
ghost use Rattle.callers.specs.Abbreviations.{Resolves};

use gix_hash::{ObjectId, Prefix, prefix};
use id_lookup::IdIndex;
use std::io;

/// What a typed abbreviation means.
///
/// ```
/// match resolve(&index, "4b82")? {
///     Resolved::Unknown => println!(rt; "no such id")?,
///     Resolved::Id(id) => println!(rt; "{id}")?,
///     Resolved::Ambiguous(ids) => println!(rt; "{} ids", ids.len())?,
/// }
/// ```
#[derive(Clone, Copy)]
pub enum Resolved<'a> {
    /// No id begins with it.
    Unknown,
    /// Only this id begins with it.
    Id(ObjectId),
    /// These ids, two or more, begin with it, in order.
    Ambiguous(&'a [ObjectId]),
}

/// What a typed abbreviation means among the ids of an index: a prefix in the index's kind, of 1
/// digit or more in any letter case. Any other text is refused, with the error of
/// [`Prefix::from_hex_in`].
pub fn resolve<'a>(index: &IdIndex<'a>, text: &str) -> Result<Resolved<'a>, prefix::from_hex::Error>
    ensures ok { IfOk result (Resolves index.now.kind index.now.ids text.now) }
    ensures err { IfErr result (λ error. prefix_read_in index.now.kind hex_letter text.now
        ≡ Err error) }
{
    let prefix = Prefix::from_hex_in(index.kind(), text)?;
    match index.matches(&prefix) {
        [] => Ok(Resolved::Unknown),
        [id] => Ok(Resolved::Id(*id)),
        candidates => Ok(Resolved::Ambiguous(candidates)),
    }
}

/// Writes the abbreviation of an id of an index, and a line feed.
pub fn write_abbreviation<W: io::Write>(
    index: &IdIndex<'_>,
    at: usize,
    out: &mut W,
) -> io::Result<()>
    requires { at < length index.now.ids }
    ensures { OnOk result ((prefix : List ℕ) × IsShortestAbbreviation index.now.ids at prefix
        × Appends (W.contents out.old) (W.contents out.new)
        (spelling hex_letter prefix ++ 10 ∷ [])) }
{
    index.abbreviate(at).write_hex_to(out)?;
    out.write_all(b"\n")?;
    Ok(())
}

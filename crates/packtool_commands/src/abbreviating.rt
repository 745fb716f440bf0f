//! The abbreviations of the ids of a store.

ghost use Rattle.std.specs.Prelude.{◌≡◌, ◌≢◌, ◌↔◌, ◌⊎◌, ◌<◌, ◌≤◌, ℕ, [], false, true, flat_map, length, IfErr, IfOk, IsErrOf, IsTrue};
ghost use Rattle.id_lookup.specs.Words.{hex_len_of};
ghost use Rattle.object_store.specs.Several.{AreAbbreviated, IsAbbreviated, id_count};
ghost use Rattle.object_store.specs.Stores.{HaveMore, IsFaultOfOne, IsListed, IsReopened, IsStoreFault};
ghost use Rattle.packtool_commands.specs.Stores.{AreListed, HasAbbreviatedAtMost, HasAbbreviatedBelow, HasAbbreviatedEach, HasBegunAbbreviatedEach, IsFaultOf, IsWalkFault, abbreviation_text, abbreviated_line, no_abbreviation};
ghost use Rattle.packtool_commands.specs.declared.error.StoreError.{StoreError};
ghost use Rattle.streams.specs.Streams.{Wrote, lines_of};

use crate::error::StoreError;
use crate::line_buffer::{LINES_LEN, next_line_at, put_abbreviated_line};
use crate::prefixes::PrefixLines;
use crate::printing::{AnswerForm, NoAnswer, write_answers, write_two};
use crate::reopening::{look_up_again, look_up_lines};
use gix_hash::{Kind, Prefix};
use object_store::{AbbreviatedId, Abbreviating, Abbreviation, Reopen, abbreviate_part};
use std::alloc::Allocator;
use streams::{Sink, WriteFailed, write_all};

// The number of first bytes.
const BYTES: usize = 256;

/// Writes a line for each id of a store, in order: its abbreviation in the whole store, of at least
/// `least` digits, from 4 up to all of the kind; a space; the id; and a line feed. Returns whether
/// there is one.
///
/// The ids with a first byte are written before those with the next are read, and no abbreviation
/// depends on ids with another. If a pack index is gone, the store is opened again for the bytes
/// that are left; so the ids with one first byte are those of the store as it was at one time.
/// After an error, a beginning of the right lines was written. [`StoreError::Output`] is returned
/// if and only if a write fails. All loose objects must be listed, and the sink must not have
/// failed before.
///
/// ```
/// if !abbreviate_all(rt.alloc(), &mut store, 7, &mut out)? {
///     println!(rt; "the store is empty")?;
/// }
/// ```
pub fn abbreviate_all<S: Reopen, A: Allocator + Copy, W: Sink>(
    alloc: A,
    store: &mut S,
    least: usize,
    out: &mut W,
) -> Result<bool, StoreError>
    requires has { S.had store.old store.old (S.view store.old) }
    requires listed { (byte : ℕ) → IsListed (S.view store.old) byte }
    requires enough { 4 ≤ least }
    requires fits { least ≤ hex_len_of (S.view store.old).kind }
    requires output { W.has_failed out.old ≡ false }
    ensures reopened { IsReopened S.had S.view store.old store.new }
    ensures abbreviated { IfOk result (λ any. HasAbbreviatedBelow 256 least
        (S.had store.old store.new) any (W.taken out.old) (W.taken out.new)) }
    ensures refused { IfErr result (IsFaultOf (IsWalkFault
        (S.had store.old store.new) (S.view store.new))) }
    ensures few { IfErr result (λ e. e ≢ StoreError.TooMany) }
    ensures output { IsErrOf result StoreError.Output ↔ (W.has_failed out.new ≡ true) }
    ensures part { IfErr result (λ _. HasAbbreviatedAtMost least
        (S.had store.old store.new) (W.taken out.old) (W.taken out.new)) }
{
    let mut any = false;
    for byte in 0..BYTES {
        let abbreviated = abbreviated_of(alloc, store, byte as u8, least)?;
        write_abbreviated(&abbreviated, out)?;
        any = is_any(any, &abbreviated);
    }
    Ok(any)
}

// The ids of a store with a first byte, with their abbreviations.
fn abbreviated_of<S: Reopen, A: Allocator + Copy>(
    alloc: A,
    store: &mut S,
    byte: u8,
    least: usize,
) -> Result<Vec<AbbreviatedId, A>, object_store::Error>
    requires listed { IsListed (S.view store.old) byte }
    requires enough { 4 ≤ least }
    requires fits { least ≤ hex_len_of (S.view store.old).kind }
    ensures reopened { IsReopened S.had S.view store.old store.new }
    ensures abbreviated { IfOk result (λ abbreviated. AreAbbreviated least (S.view store.new) byte
        abbreviated.items) }
    ensures err { IfErr result (IsStoreFault (S.view store.new) byte) }
{
    look_up_again(
        store,
        |store: &mut S|
            requires listed { IsListed (S.view store.old) byte }
            requires enough { 4 ≤ least }
            requires fits { least ≤ hex_len_of (S.view store.old).kind }
        { abbreviate_part(alloc, store, byte, least) },
    )
}

// Whether there is one of these ids or of those before.
fn is_any(before: bool, abbreviated: &[AbbreviatedId]) -> bool
    ensures { IsTrue result ↔ (IsTrue before ⊎ (abbreviated.now ≢ [])) }
{
    before || !abbreviated.is_empty()
}

/// Writes a line for each id, in their order, as [`abbreviate_all`] does: its abbreviation, a
/// space, the id, and a line feed.
///
/// It stops at the first write that fails, after a proper beginning of the lines. The sink must not
/// have failed before.
///
/// ```
/// let abbreviated = object_store::abbreviate_part(rt.alloc(), &mut store, 0x4b, 7)?;
/// if write_abbreviated(&abbreviated, &mut out).is_err() {
///     println!(rt; "the lines are not written whole")?;
/// }
/// ```
#[inline(never)]
pub fn write_abbreviated<W: Sink>(
    abbreviated: &[AbbreviatedId],
    out: &mut W,
) -> Result<(), WriteFailed>
    requires { W.has_failed out.old ≡ false }
    ensures { Wrote W.taken W.has_failed out.old out.new result
        (flat_map abbreviated_line abbreviated.now) }
{
    let mut lines = [0; LINES_LEN];
    let mut end = 0;
    for id in abbreviated {
        let at = next_line_at(&lines, end, out)?;
        end = put_abbreviated_line(&mut lines, at, id);
    }
    write_all(out, &lines[..end])
}

/// Writes for each of some lines, in order, the abbreviation of the only id of a store that begins
/// with it, of at least `least` digits, from 4 up to all of the kind; and a line feed. Returns why
/// the first line that is not a prefix of exactly one id is not, or `None` if each line is one.
/// `git rev-parse --short` prints the same abbreviation.
///
/// The lines are of the store's kind. For a line that is not a prefix, the line and ` bad` are
/// written, for a prefix of no id the line and ` missing`, and for a prefix of several ids the line
/// and ` ambiguous`.
///
/// The ids of a pack index with a first byte are read once. If they were found in order before,
/// only some of them are read, for each line. Nothing is written before all ids are found; if a
/// pack index is gone by then, the store is opened again. If there are several prefixes, and ids
/// begin with more than `most` of them, then nothing is written, and [`StoreError::TooMany`] is
/// returned. [`StoreError::Output`] is returned if and only if a write fails, after a proper
/// beginning of the text. The sink must not have failed before.
///
/// ```
/// let lines = PrefixLines::read(rt.alloc(), Kind::Sha1, b"4b8\n4b9\n")?;
/// let why = abbreviate_each(rt.alloc(), &mut store, &lines, 7, 65_536, &mut out)?;
/// println!(rt; "each of the two is one id: {}", why.is_none())?;
/// ```
pub fn abbreviate_each<S: Reopen, A: Allocator + Copy, W: Sink>(
    alloc: A,
    store: &mut S,
    lines: &PrefixLines<'_, A>,
    least: usize,
    most: usize,
    out: &mut W,
) -> Result<Option<NoAnswer>, StoreError>
    requires kind { lines.now.kind ≡ (S.view store.old).kind }
    requires listed { AreListed (S.view store.old) lines.now.prefixes.items }
    requires enough { 4 ≤ least }
    requires fits { least ≤ hex_len_of (S.view store.old).kind }
    requires output { W.has_failed out.old ≡ false }
    ensures reopened { IsReopened S.had S.view store.old store.new }
    ensures abbreviated { IfOk result (λ why. HasAbbreviatedEach least (S.view store.new)
        (lines_of lines.now.text.now) why (W.taken out.old) (W.taken out.new)) }
    ensures refused { IfErr result (IsFaultOf (IsFaultOfOne (S.view store.new)
        lines.now.prefixes.items)) }
    ensures several { IsErrOf result StoreError.TooMany → 1 < length lines.now.prefixes.items }
    ensures more { IsErrOf result StoreError.TooMany → HaveMore
        (IsAbbreviated least (S.view store.new)) id_count most lines.now.prefixes.items }
    ensures untouched { IfErr result (λ e. e ≢ StoreError.Output → out.new ≡ out.old) }
    ensures output { IsErrOf result StoreError.Output ↔ (W.has_failed out.new ≡ true) }
    ensures part { IsErrOf result StoreError.Output → HasBegunAbbreviatedEach least
        (S.view store.new) (lines_of lines.now.text.now) (W.taken out.old) (W.taken out.new) }
{
    let abbreviated = look_up_lines(alloc, store, lines, most, &Abbreviating { least })?;
    Ok(write_answers(lines, &abbreviated, &AbbreviationForm, out)?)
}

// How the abbreviation of the only id that begins with a prefix is printed.
struct AbbreviationForm;

impl AnswerForm<Abbreviation> for AbbreviationForm {
    ghost text = { λ _ line found. abbreviation_text line found };

    ghost no_answer = { λ _ found. no_abbreviation found };

    fn write<W: Sink>(
        &self,
        line: &[u8],
        found: Option<&Abbreviation>,
        out: &mut W,
    ) -> Result<(), WriteFailed> {
        match found {
            None => write_two(line, b" bad\n", out),
            Some(Abbreviation::Missing) => write_two(line, b" missing\n", out),
            Some(Abbreviation::Ambiguous) => write_two(line, b" ambiguous\n", out),
            Some(Abbreviation::Unique(abbreviated)) => {
                let prefix = &abbreviated.abbreviation;
                // The contract of this call says how many digits the prefix has at most.
                let _hex_len = prefix.hex_len();
                let mut digits = Kind::hex_buf();
                write_two(prefix.hex_to_buf(&mut digits).as_bytes(), b"\n", out)
            }
        }
    }

    fn no_answer(&self, found: Option<&Abbreviation>) -> Option<NoAnswer> {
        match found {
            None => Some(NoAnswer::Bad),
            Some(Abbreviation::Missing) => Some(NoAnswer::Missing),
            Some(Abbreviation::Ambiguous) => Some(NoAnswer::Ambiguous),
            Some(Abbreviation::Unique(_)) => None,
        }
    }
}

//! The ids of a store that begin with each line of a text.

ghost use Rattle.std.specs.Prelude.{◌≡◌, ◌≢◌, ◌↔◌, ◌<◌, false, true, length, IfErr, IfOk, IsErrOf};
ghost use Rattle.id_lookup.specs.Words.{id_digits};
ghost use Rattle.object_store.specs.Stores.{HaveMoreMatches, IsFaultOfOne, IsReopened};
ghost use Rattle.packtool_commands.specs.Stores.{AreListed, HasAnsweredMatches, HasBegunMatches, IsFaultOf, id_line};
ghost use Rattle.packtool_commands.specs.declared.error.StoreError.{StoreError};
ghost use Rattle.streams.specs.Streams.{lines_of};

use crate::error::StoreError;
use crate::prefixes::PrefixLines;
use crate::printing::{
    Front, ItemForm, ListForm, NoAnswer, Wanted, limit_for, write_answers, write_two,
};
use crate::reopening::look_up_lines;
use gix_hash::{Alphabet, ObjectId};
use object_store::{Matching, Reopen};
use std::alloc::Allocator;
use streams::{Sink, WriteFailed, write_id};

/// Writes for each of some lines, in order, the ids of a store that begin with it. Returns why the
/// first line that has no answer has none, or `None` if each has one. [`Wanted`] says what an
/// answer is, and how it is written.
///
/// The lines are of the store's kind. For a line that is not a prefix, the line and ` bad` are
/// written. For a prefix of no id, [`Wanted::All`] and [`Wanted::One`] write the line and
/// ` missing`, and for a prefix of several ids, [`Wanted::One`] writes the line and ` ambiguous`.
/// [`Wanted::Bare`] and [`Wanted::BareOne`] write nothing there.
///
/// The ids of a pack index with a first byte are read once. If they were found in order before,
/// only some of them are read, for each line. If one id is asked for, the first two of a prefix are
/// enough. Nothing is written before all ids are found; if a pack index is gone by then, the store
/// is opened again. If the ids are more than `most`, and there are several prefixes, then
/// nothing is written, and [`StoreError::TooMany`] is returned.
/// [`StoreError::Output`] is returned if and only if a write fails, after a proper beginning of the
/// text. The sink must not have failed before.
///
/// ```
/// let lines = PrefixLines::read(rt.alloc(), Kind::Sha1, b"4b8\n4b9\n")?;
/// let why = find_each(rt.alloc(), &mut store, &lines, Wanted::One, 65_536, &mut out)?;
/// println!(rt; "each of the two is one id: {}", why.is_none())?;
/// ```
pub fn find_each<S: Reopen, A: Allocator + Copy, W: Sink>(
    alloc: A,
    store: &mut S,
    lines: &PrefixLines<'_, A>,
    wanted: Wanted,
    most: usize,
    out: &mut W,
) -> Result<Option<NoAnswer>, StoreError>
    requires kind { lines.now.kind ≡ (S.view store.old).kind }
    requires listed { AreListed (S.view store.old) lines.now.prefixes.items }
    requires output { W.has_failed out.old ≡ false }
    ensures reopened { IsReopened S.had S.view store.old store.new }
    ensures found { IfOk result (λ why. HasAnsweredMatches A wanted (S.view store.new)
        (lines_of lines.now.text.now) why (W.taken out.old) (W.taken out.new)) }
    ensures refused { IfErr result (IsFaultOf (IsFaultOfOne (S.view store.new)
        lines.now.prefixes.items)) }
    ensures several { IsErrOf result StoreError.TooMany → 1 < length lines.now.prefixes.items }
    ensures more { IsErrOf result StoreError.TooMany → HaveMoreMatches A (S.view store.new) most
        lines.now.prefixes.items }
    ensures untouched { IfErr result (λ e. e ≢ StoreError.Output → out.new ≡ out.old) }
    ensures output { IsErrOf result StoreError.Output ↔ (W.has_failed out.new ≡ true) }
    ensures part { IsErrOf result StoreError.Output → HasBegunMatches A wanted
        (S.view store.new) (lines_of lines.now.text.now) (W.taken out.old) (W.taken out.new) }
{
    let matching = Matching {
        limit: limit_for(wanted),
    };
    let found = look_up_lines(alloc, store, lines, most, &matching)?;
    let form = ListForm {
        wanted,
        item: IdForm,
    };
    Ok(write_answers(lines, &found, &form, out)?)
}

// How an id is printed.
#[derive(Drop)]
struct IdForm;

impl ItemForm<ObjectId> for IdForm {
    ghost text = { λ _ front id. id_line front (id_digits id) };

    fn write_after<W: Sink>(
        &self,
        front: &Front<'_>,
        id: &ObjectId,
        out: &mut W,
    ) -> Result<(), WriteFailed> {
        write_two(front.line, front.space, out)?;
        write_id(Alphabet::Hex, id, out)
    }
}

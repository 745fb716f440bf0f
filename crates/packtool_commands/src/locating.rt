//! The locations of the objects of a store, a line for each.

ghost use Rattle.std.specs.Prelude.{◌≡◌, ◌≢◌, ◌↔◌, ◌<◌, ◌≤◌, [], ◌∷◌, ◌++◌, false, true, length, take, IfErr, IfOk, IsErrOf};
ghost use Rattle.id_lookup.specs.Words.{hex_letter, id_digits, spelling};
ghost use Rattle.object_store.specs.Several.{HaveMoreLocations, IsLocationsFaultOfOne};
ghost use Rattle.object_store.specs.Stores.{IsReopened};
ghost use Rattle.packtool_commands.specs.Stores.{AreListed, HasLocatedEach, HasBegunLocatedEach, IsFaultOf, limit_for, lines_at_after, located_lines, location_end, location_line};
ghost use Rattle.packtool_commands.specs.declared.error.StoreError.{StoreError};
ghost use Rattle.streams.specs.Streams.{Wrote, lines_of};

use crate::error::StoreError;
use crate::escaping::{write_before, write_mark};
use crate::line_buffer::{put, put_id};
use crate::line_end::push;
use crate::prefixes::PrefixLines;
use crate::printing::{
    Front, ItemForm, ListForm, NoAnswer, Wanted, limit_for, write_answers, write_two,
};
use crate::reopening::look_up_lines;
use arrayvec::ArrayVec;
use gix_hash::ObjectId;
use itoa::Buffer;
use object_store::{LocatedId, Locating, Location, Reopen, StorePaths};
use std::alloc::Allocator;
use streams::{Sink, WriteFailed, write_all};

// The length of the longest part of a line before the path: 64 digits and a space.
const MAX_START_LEN: usize = 65;

// What is after the path: at most a space, an offset of 20 digits and a line feed.
type End = ArrayVec<u8, 22>;

/// Writes for each of some lines, in order, the locations of the ids of a store that begin with
/// it. Returns why the first line that has no answer has none, or `None` if each has one.
///
/// For each location of an id a line is written: the id, a space, the path of the file that has it,
/// and, for a pack, a space and the offset in the pack, in bytes. The ids are in order, each once,
/// and the locations of each id are in the order of [`Parts::locate`](object_store::Parts::locate).
/// A loose object has a line for each file. Paths are escaped as by
/// [`write_named`](crate::write_named), so none looks like a further line; the backslash of an
/// escaped path is the first byte, before all else.
/// [`find_each`](crate::find_each) says what is written for a line that has no answer.
///
/// The ids of a pack index with a first byte are read once. If they were found in order before,
/// only some of them are read, for each line. If one id is asked for, only the first two of a
/// prefix are located: if a further one has no offset, that is no error. Nothing is written before
/// all locations are found; if a pack index is gone by then, the store is opened again. If the
/// locations are more than `most`, and there are several prefixes, then nothing is written, and
/// [`StoreError::TooMany`] is returned. [`StoreError::Output`] is returned if and only if a write
/// fails, after a proper beginning of the text. The sink must not have failed before.
///
/// ```
/// let lines = PrefixLines::read(rt.alloc(), Kind::Sha1, b"4b8\n4b9\n")?;
/// let why = locate_each(rt.alloc(), &mut store, &lines, Wanted::One, 65_536, &mut out)?;
/// println!(rt; "each of the two is one id: {}", why.is_none())?;
/// ```
pub fn locate_each<S: Reopen + StorePaths, A: Allocator + Copy, W: Sink>(
    alloc: A,
    store: &mut S,
    lines: &PrefixLines<'_, A>,
    wanted: Wanted,
    most: usize,
    out: &mut W,
) -> Result<Option<NoAnswer>, StoreError>
    requires kind { lines.now.kind ≡ (S.view store.old).kind }
    requires listed { AreListed (S.view store.old) lines.now.prefixes.items }
    requires output { W.has_failed out.old ≡ false }
    ensures reopened { IsReopened S.had S.view store.old store.new }
    ensures located { IfOk result (λ why. HasLocatedEach A wanted (S.pack_path store.new)
        (S.loose_paths store.new) (S.view store.new) (lines_of lines.now.text.now) why
        (W.taken out.old) (W.taken out.new)) }
    ensures refused { IfErr result (IsFaultOf (IsLocationsFaultOfOne (limit_for wanted)
        (S.view store.new) lines.now.prefixes.items)) }
    ensures several { IsErrOf result StoreError.TooMany → 1 < length lines.now.prefixes.items }
    ensures more { IsErrOf result StoreError.TooMany → HaveMoreLocations A (limit_for wanted)
        (S.view store.new) (S.loose_paths store.new) most lines.now.prefixes.items }
    ensures untouched { IfErr result (λ e. e ≢ StoreError.Output → out.new ≡ out.old) }
    ensures output { IsErrOf result StoreError.Output ↔ (W.has_failed out.new ≡ true) }
    ensures part { IsErrOf result StoreError.Output → HasBegunLocatedEach A wanted
        (S.pack_path store.new) (S.loose_paths store.new) (S.view store.new)
        (lines_of lines.now.text.now) (W.taken out.old) (W.taken out.new) }
{
    let locating = Locating {
        limit: limit_for(wanted),
    };
    let located = look_up_lines(alloc, store, lines, most, &locating)?;
    let form = ListForm {
        wanted,
        item: LocationsForm { store: &*store },
    };
    Ok(write_answers(lines, &located, &form, out)?)
}

// How an id is printed with its locations in a store: a line for each.
#[derive(Drop)]
struct LocationsForm<'s, S> {
    store: &'s S,
}

impl<S: StorePaths, A: Allocator> ItemForm<LocatedId<A>> for LocationsForm<'_, S> {
    ghost text = { λ form front located. located_lines (S.pack_path form.store.now) front located };

    fn write_after<W: Sink>(
        &self,
        front: &Front<'_>,
        located: &LocatedId<A>,
        out: &mut W,
    ) -> Result<(), WriteFailed> {
        for location in &located.locations {
            write_lines_at(self.store, front, located, location, out)?;
        }
        Ok(())
    }
}

// Writes the lines of an object's location: one of a pack, or one of each file of a loose object.
fn write_lines_at<S: StorePaths, A: Allocator, W: Sink>(
    store: &S,
    front: &Front<'_>,
    located: &LocatedId<A>,
    location: &Location,
    out: &mut W,
) -> Result<(), WriteFailed>
    requires { W.has_failed out.old ≡ false }
    ensures { Wrote W.taken W.has_failed out.old out.new result
        (lines_at_after (S.pack_path store.now) (front.now.line.now ++ front.now.space.now)
        located.now location.now) }
{
    match location {
        Location::Packed { pack, offset } => {
            let path = store.pack_path(*pack);
            write_location(front, &located.id, path, Some(*offset), out)
        }
        Location::Loose => {
            for path in &located.loose_paths {
                write_location(front, &located.id, path.as_str(), None, out)?;
            }
            Ok(())
        }
    }
}

// Writes the line of a location of an object, with a front before its id.
fn write_location<W: Sink>(
    front: &Front<'_>,
    id: &ObjectId,
    path: &str,
    offset: Option<u64>,
    out: &mut W,
) -> Result<(), WriteFailed>
    requires { W.has_failed out.old ≡ false }
    ensures { Wrote W.taken W.has_failed out.old out.new result
        (location_line (front.now.line.now ++ front.now.space.now) (id_digits id.now) path.now
        offset) }
{
    let mut start = [0; MAX_START_LEN];
    let start_len = put_start(id, &mut start);
    write_mark(path, out)?;
    write_two(front.line, front.space, out)?;
    write_all(out, &start[..start_len])?;
    write_before(path, location_end(offset).as_slice(), out)
}

// Writes an id and a space to the start of the buffer, and returns their length.
fn put_start(id: &ObjectId, line: &mut [u8]) -> usize
    requires { length line.old ≡ MAX_START_LEN }
    ensures len { result ≤ MAX_START_LEN }
    ensures text { take result line.new ≡ spelling hex_letter (id_digits id.now) ++ 32 ∷ [] }
{
    let id_end = put_id(line, 0, id.as_oid());
    put(line, id_end, b" ")
}

// What is after the path of a location.
fn location_end(offset: Option<u64>) -> End
    ensures { result.items ≡ location_end offset }
{
    let mut end = End::new();
    if let Some(offset) = offset {
        push(&mut end, b" ");
        push(&mut end, Buffer::new().format(offset).as_bytes());
    }
    push(&mut end, b"\n");
    end
}

//! The pack indexes in object directories.

ghost use Rattle.std.specs.Prelude.{◌≡◌, ◌⊎◌, ◌↔◌, ◌+◌, ◌++◌, ℕ, All, IfErr, IfOk, if◌then◌else◌, IsNone, IsSomeAnd, IsTrue, List, OnOk, [], flat_map, length, map, not, string_bytes, true, vec_len};
ghost use Rattle.std.specs.List.{count_by, filter, sum_by};
ghost use Rattle.std.specs.Path.{path_join};
ghost use Rattle.std.specs.Str.{is_utf8};
ghost use Rattle.pack_index.specs.Lazy.{seen};
ghost use Rattle.pack_index.specs.declared.lazy_error.LazyError.{LazyError};
ghost use Rattle.pack_index.specs.declared.lazy_error.LazyError.TheVariants as errors;
ghost use Rattle.repositories.specs.Answers.{IfKnown};
ghost use Rattle.repositories.specs.States.{IsSettled};
ghost use Rattle.directory_store.specs.Multi.{AreCoveredOrDamaged, AreRead};
ghost use Rattle.directory_store.specs.Packs.{AreIndexNames, AreIndexes, AreIndexesIn, AreOpenOrDamaged, ArePacks, IsDamagedAt, has_pack, index_in, packs_of, split_names, tables_at, tables_seen, unnamed_in};
ghost use Rattle.directory_store.specs.declared.multi.Purpose.TheVariants.{Ids};
ghost use Rattle.directory_store.specs.Stores.{AreStatesOf, IsListedPack, IsIndexError, IsUnread, index_path, is_damage};

use crate::error::Error;
use crate::listing::{are_settled, expect_states, list_names, states_of};
use crate::multi::{Covering, Purpose, cover, has_multi};
use crate::pack_paths::PackPaths;
use crate::source::{StoreFiles, most_kept_of};
use gix_hash::Kind;
use pack_index::{LazyError, LazyFile};
use repositories::{Directories, FileState, join};
use std::alloc::{AllocError, Global};
use std::time::SystemTime;
use std::{io, str};
use streams::ReadAt;

// How many pack indexes stay open at most. The others are opened again to be read, so that a store
// of any number of packs is read with few open files.
const MAX_OPEN: usize = 512;

// How many stay open if the process may not open that many.
const FEW_OPEN: usize = 64;

// How many bytes of pack indexes are kept at most. Each index has an equal share of what those
// before it have left, and is kept whole if it fits. (Beyond 16,384 indexes each keeps 4096 bytes.)
const MAX_KEPT: u64 = 1 << 26;

// The largest share. A longer index gains little, since a look-up reads some 4096 bytes of it.
pub(crate) const MAX_KEPT_OF_ONE: u64 = 1 << 22;

// The directories of packs in object directories, in order, each with its state before it was
// listed.
#[derive(Drop)]
pub(crate) struct PackDirectories {
    pub(crate) paths: Vec<String>,
    states: Vec<FileState>,
    // The states of the object directories, as far as they are compared with the alternates.
    above: Vec<Option<FileState>>,
    // The object directories that have them, if there are several. Where one is missing, its state
    // is that of the object directory.
    pub(crate) with_packs: Vec<String>,
    ghost as_many: { vec_len states ≡ vec_len paths },
}

impl PackDirectories {
    // Those in object directories, as they are now. One may be missing. The states of the object
    // directories may be known, if they are compared with the alternates.
    pub(crate) fn of<R: Directories>(
        rt: &R,
        objects: &[String],
        above: &[Option<FileState>],
    ) -> Result<PackDirectories, Error>
        ensures { IfOk result (λ packs. map string_bytes packs.paths.items
            ≡ map (λ path. packs_of (string_bytes path)) objects.now) }
    {
        let mut paths = Vec::new(rt.alloc());
        for directory in objects {
            paths.push(join(rt, directory, "pack")?)?;
        }
        let states = states_of(rt, &paths, above)?;
        let with_packs = with_packs(rt.alloc(), objects, &states)?;
        Ok(PackDirectories {
            paths,
            states,
            above: above.to_vec(rt.alloc())?,
            with_packs,
        })
    }

    // The pack indexes in them, with or without packs.
    pub(crate) fn list<R: Directories>(&self, rt: &R) -> Result<PackIndexes, Error>
        ensures all { IfOk result (λ listed. listed.are_all ≡ true) }
        ensures indexes { IfOk result (λ listed. IfKnown (λ at. AreIndexes at
            (map string_bytes self.now.paths.items) (map index_path listed.paths.items))
            (R.answers rt.now)) }
        ensures skipped { IfOk result (λ listed. IfKnown (λ at. vec_len listed.skipped
            ≡ sum_by (λ path. unnamed_in at (string_bytes path)) self.now.paths.items)
            (R.answers rt.now)) }
    {
        let mut indexes = PackIndexes {
            paths: Vec::new(rt.alloc()),
            skipped: Vec::new(rt.alloc()),
            are_all: true,
        };
        for directory in &self.paths {
            push_indexes(rt, directory, &mut indexes)?;
        }
        Ok(indexes)
    }

    // The pack indexes in them whose packs are there, by an earlier list if each later change of a
    // directory leaves another state. Fails if one of that list is gone, or if a directory has
    // changed.
    pub(crate) fn list_again<R: Directories>(
        &self,
        rt: &R,
        earlier: PackIndexes,
        now: Option<SystemTime>,
    ) -> Result<PackIndexes, Error>
        requires indexes { IfKnown (λ at. AreIndexes at (map string_bytes self.now.paths.items)
            (map index_path earlier.paths.items)) (R.answers rt.now) }
        requires skipped { IfKnown (λ at. vec_len earlier.skipped
            ≡ sum_by (λ path. unnamed_in at (string_bytes path)) self.now.paths.items)
            (R.answers rt.now) }
        ensures earlier { IfOk result (λ listed. listed.are_all ≡ true
            → All (IsListedPack listed.paths.items) earlier.paths.items) }
        ensures packs { IfOk result (λ listed. IfKnown (λ at. ArePacks at
            (map string_bytes self.now.paths.items) listed.paths.items) (R.answers rt.now)) }
        ensures skipped { IfOk result (λ listed. IfKnown (λ at. vec_len listed.skipped
            ≡ sum_by (λ path. unnamed_in at (string_bytes path)) self.now.paths.items)
            (R.answers rt.now)) }
    {
        let listed = self.list_after(rt, earlier, now)?;
        let listed = listed.with_packs(rt)?;
        self.expect_unchanged(rt)?;
        Ok(listed)
    }

    // The pack indexes in them, with or without packs, by an earlier list if each later change
    // leaves another state. Fails if one of that list is gone.
    fn list_after<R: Directories>(
        &self,
        rt: &R,
        earlier: PackIndexes,
        now: Option<SystemTime>,
    ) -> Result<PackIndexes, Error>
        requires indexes { IfKnown (λ at. AreIndexes at (map string_bytes self.now.paths.items)
            (map index_path earlier.paths.items)) (R.answers rt.now) }
        requires skipped { IfKnown (λ at. vec_len earlier.skipped
            ≡ sum_by (λ path. unnamed_in at (string_bytes path)) self.now.paths.items)
            (R.answers rt.now) }
        ensures earlier { IfOk result (λ listed. All (IsListedPack listed.paths.items)
            earlier.paths.items) }
        ensures indexes { IfOk result (λ listed. IfKnown (λ at. AreIndexes at
            (map string_bytes self.now.paths.items) (map index_path listed.paths.items))
            (R.answers rt.now)) }
        ensures skipped { IfOk result (λ listed. IfKnown (λ at. vec_len listed.skipped
            ≡ sum_by (λ path. unnamed_in at (string_bytes path)) self.now.paths.items)
            (R.answers rt.now)) }
    {
        if self.are_settled(now) {
            return Ok(earlier);
        }
        let listed = self.list(rt)?;
        listed.expect_all(rt.alloc(), &earlier)?;
        Ok(listed)
    }

    // Whether each later change of one of them leaves another state, if the time before is given.
    pub(crate) fn are_settled(&self, now: Option<SystemTime>) -> bool
        ensures { IsTrue result ↔ IsSomeAnd now (λ now. All (IsSettled now) self.now.states.items) }
    {
        now.is_some_and(|now| are_settled(&self.states, now))
    }

    // Fails if one of them has changed.
    pub(crate) fn expect_unchanged<R: Directories>(&self, rt: &R) -> Result<(), Error>
        ensures { OnOk result (IfKnown (AreStatesOf (map string_bytes self.now.paths.items)
            self.now.states.items) (R.answers rt.now)) }
    {
        expect_states(rt, &self.paths, &self.above, &self.states)
    }
}

// Those of several object directories whose directories of packs are there, by the states of these.
fn with_packs(
    alloc: Global,
    objects: &[String],
    states: &[FileState],
) -> Result<Vec<String>, AllocError> {
    let mut kept = Vec::new(alloc);
    for (path, state) in objects.iter().zip(states) {
        if objects.len() > 1 && !state.is_missing() {
            kept.push(path.clone()?)?;
        }
    }
    Ok(kept)
}

// The pack indexes that object directories had as they were listed.
#[derive(Drop)]
pub(crate) struct PackIndexes {
    // Their paths, in the order of the directories, and by path.
    pub(crate) paths: Vec<PackPaths>,
    // Why others are skipped.
    pub(crate) skipped: Vec<Error>,
    // Whether none is left out since its pack is missing.
    pub(crate) are_all: bool,
    ghost are_unread: { ∥ All IsUnread skipped.items ∥₁ },
}

impl PackIndexes {
    // Fails if one of those of an earlier list is not among them, since it was removed.
    pub(crate) fn expect_all(&self, alloc: Global, earlier: &PackIndexes) -> Result<(), Error>
        ensures { OnOk result (All (IsListedPack self.now.paths.items) earlier.now.paths.items) }
    {
        let Some(gone) = first_gone(&earlier.paths, &self.paths) else {
            return Ok(());
        };
        let path = String::from_str(alloc, &gone.index)?;
        Err(Error::Index(object_store::Error::Gone { path }))
    }

    // Those whose packs are there. Fails if an index was removed with its pack.
    pub(crate) fn with_packs<R: Directories>(self, rt: &R) -> Result<PackIndexes, Error>
        ensures all { IfOk result (λ kept. kept.are_all ≡ true
            → kept.paths.items ≡ self.paths.items) }
        ensures skipped { IfOk result (λ kept. kept.skipped ≡ self.skipped) }
        ensures packs { IfOk result (λ kept. IfKnown (λ at. kept.paths.items
            ≡ filter (has_pack at) self.paths.items) (R.answers rt.now)) }
    {
        let mut paths = Vec::new(rt.alloc());
        let mut are_all = self.are_all;
        for one in self.paths {
            if has_pack(rt, &one)? {
                paths.push(one)?;
            } else {
                are_all = false;
            }
        }
        Ok(PackIndexes {
            paths,
            skipped: self.skipped,
            are_all,
        })
    }
}

// The first pack index of an earlier list that is not in this one, which is in the same order.
fn first_gone<'a>(earlier: &'a [PackPaths], listed: &[PackPaths]) -> Option<&'a PackPaths>
    ensures { IsNone result → All (IsListedPack listed.now) earlier.now }
{
    let mut left = earlier;
    for paths in listed {
        let (next, rest) = left.split_first()?;
        if next.index == paths.index {
            left = rest;
        }
    }
    left.first()
}

// Adds the pack indexes in a directory of packs, in the order of their names. One is skipped if its
// name is not UTF-8, as paths are.
fn push_indexes<R: Directories>(
    rt: &R,
    directory: &str,
    indexes: &mut PackIndexes,
) -> Result<(), Error>
    ensures all { indexes.new.are_all ≡ indexes.old.are_all }
    ensures indexes { OnOk result (IfKnown (λ at. (paths : List (List ℕ))
        × AreIndexesIn at directory.now paths × (map index_path indexes.new.paths.items
        ≡ map index_path indexes.old.paths.items ++ paths)) (R.answers rt.now)) }
    ensures skipped { OnOk result (IfKnown (λ at. vec_len indexes.new.skipped
        ≡ vec_len indexes.old.skipped + unnamed_in at directory.now) (R.answers rt.now)) }
{
    let listed = list_names(rt, directory)?;
    let names = index_names(rt.alloc(), &listed)?;
    push_names(rt, directory, &names, indexes)?;
    Ok(())
}

// Adds the pack indexes of these names in a directory.
fn push_names(
    rt: &impl AllocGlobal,
    directory: &str,
    names: &[&[u8]],
    indexes: &mut PackIndexes,
) -> Result<(), AllocError>
    ensures all { indexes.new.are_all ≡ indexes.old.are_all }
    ensures indexes { OnOk result (map index_path indexes.new.paths.items
        ≡ map index_path indexes.old.paths.items
        ++ flat_map (index_in directory.now) (map (λ name. name.now) names.now)) }
    ensures skipped { OnOk result (vec_len indexes.new.skipped ≡ vec_len indexes.old.skipped
        + count_by (λ name. not (is_utf8 name)) (map (λ name. name.now) names.now)) }
{
    for name in names {
        push_index(rt, directory, name, indexes)?;
    }
    Ok(())
}

// The names of pack indexes among names that are each ended by a NUL, in the order of their bytes.
fn index_names(alloc: Global, names: &[u8]) -> Result<Vec<&[u8]>, AllocError>
    ensures { IfOk result (λ sorted. AreIndexNames (split_names names.now)
        (map (λ name. name.now) sorted.items)) }
{
    let names = names.split(|byte| *byte == 0);
    let mut names: Vec<&[u8]> = names.filter(|name| name.ends_with(b".idx")).collect(alloc)?;
    names.sort_unstable();
    Ok(names)
}

// Adds the pack index of this name in a directory, or why it is skipped.
fn push_index(
    rt: &impl AllocGlobal,
    directory: &str,
    name: &[u8],
    indexes: &mut PackIndexes,
) -> Result<(), AllocError>
    ensures all { indexes.new.are_all ≡ indexes.old.are_all }
    ensures skipped { OnOk result (vec_len indexes.new.skipped
        ≡ vec_len indexes.old.skipped + (if not (is_utf8 name.now) then 1 else 0)) }
    ensures index { OnOk result (map index_path indexes.new.paths.items
        ≡ map index_path indexes.old.paths.items ++ index_in directory.now name.now) }
{
    match str::from_utf8(name) {
        Ok(name) => indexes.paths.push(paths_of(rt, directory, name)?)?,
        Err(_) => {
            let why = repositories::TextFault::PackIndexNotText;
            let error = repositories::Error::text(rt.alloc(), directory, why);
            indexes.skipped.push(Error::from(error))?;
        }
    }
    Ok(())
}

// The paths of the pack index of this name in a directory, and of its pack.
pub(crate) fn paths_of(
    rt: &impl AllocGlobal,
    directory: &str,
    name: &str,
) -> Result<PackPaths, AllocError>
    ensures { IfOk result (λ paths. index_path paths ≡ path_join directory.now name.now) }
{
    let index = join(rt, directory, name)?;
    let stem = index.strip_suffix(".idx").unwrap_or(&index);
    let pack = format!(in rt.alloc(); "{stem}.pack")?;
    Ok(PackPaths { index, pack })
}

// Whether the pack of a pack index is there. Fails if neither is, or if it cannot be known.
fn has_pack<R: Directories>(rt: &R, paths: &PackPaths) -> Result<bool, Error>
    ensures { IfOk result (λ has. IfKnown (λ at. has ≡ has_pack at paths.now) (R.answers rt.now)) }
{
    match rt.look(&paths.pack) {
        Ok(found) if found.is_file => return Ok(true),
        Ok(_) => {}
        Err(error) if error.kind() == io::ErrorKind::NotFound => {}
        Err(error) => return Err(Error::file(rt.alloc(), &paths.pack, error)),
    }
    match rt.look_at_link(&paths.index) {
        Ok(_) => Ok(false),
        Err(error) => Err(Error::index(rt.alloc(), &paths.index, LazyError::Read(error))),
    }
}

// The pack indexes that were opened, and the multi-pack-indexes that are read in place of others.
#[derive(Drop)]
pub(crate) struct OpenIndexes<R: StoreFiles> {
    // Their paths, in order.
    pub(crate) paths: Vec<PackPaths>,
    pub(crate) indexes: Vec<LazyFile<R::Source>>,
    // Why others are skipped: they are no pack indexes of version 2 and of the kind, or their
    // counts fall.
    pub(crate) skipped: Vec<Error>,
    ghost of_paths: { map index_path paths.items ≡ map (λ index. index.path) indexes.items },
}

// Opens what is read for a purpose of the pack indexes that are listed in directories of packs, and
// whose names are of a kind. If too many files are open, none stays open.
pub(crate) fn open_indexes<R: StoreFiles>(
    rt: &R,
    purpose: Purpose,
    directories: &[String],
    listed: &[PackPaths],
    kind: Kind,
) -> Result<OpenIndexes<R>, Error>
    ensures kinds { IfOk result (λ opened. All (λ index. index.kind ≡ kind)
        opened.indexes.items) }
    ensures read { IfOk result (λ opened. opened.skipped.items ≡ [] → IfKnown (λ at. AreRead at
        purpose kind (map string_bytes directories.now) (map index_path listed.now)
        (map index_path opened.paths.items) (tables_seen opened.indexes.items))
        (R.answers rt.now)) }
    ensures skipped { IfOk result (λ opened. IfKnown (λ at. AreCoveredOrDamaged at purpose kind
        (map string_bytes directories.now) (map index_path listed.now)
        (map index_path opened.paths.items) opened.skipped.items) (R.answers rt.now)) }
{
    let is_covered = match purpose {
        Purpose::Ids => has_multi(rt, directories, listed)?,
        Purpose::Locations => false,
    };
    for most_open in [MAX_OPEN, FEW_OPEN] {
        let opened = if is_covered {
            open_covered(rt, directories, listed, most_open, kind)
        } else {
            open_all(rt, listed, most_open, MAX_KEPT, kind)
        };
        if !matches!(&opened, Err(error) if error.is_too_many_open()) {
            return opened;
        }
    }
    open_all(rt, listed, 0, MAX_KEPT, kind)
}

// Opens multi-pack-indexes in directories of packs, and the pack indexes that are listed there and
// that none of these names. The first ones stay open.
fn open_covered<R: StoreFiles>(
    rt: &R,
    directories: &[String],
    listed: &[PackPaths],
    most_open: usize,
    kind: Kind,
) -> Result<OpenIndexes<R>, Error>
    ensures kinds { IfOk result (λ opened. All (λ index. index.kind ≡ kind)
        opened.indexes.items) }
    ensures read { IfOk result (λ opened. opened.skipped.items ≡ [] → IfKnown (λ at. AreRead at
        Ids kind (map string_bytes directories.now) (map index_path listed.now)
        (map index_path opened.paths.items) (tables_seen opened.indexes.items))
        (R.answers rt.now)) }
    ensures skipped { IfOk result (λ opened. IfKnown (λ at. AreCoveredOrDamaged at Ids kind
        (map string_bytes directories.now) (map index_path listed.now)
        (map index_path opened.paths.items) opened.skipped.items) (R.answers rt.now)) }
{
    let mut kept = MAX_KEPT;
    let covering = cover(rt, directories, listed, most_open, &mut kept, kind)?;
    let Covering {
        mut paths,
        multis: mut indexes,
        left,
    } = covering;
    let few_open = most_open.saturating_sub(indexes.len());
    let others = open_all(rt, &left, few_open, kept, kind)?;
    let OpenIndexes {
        paths: mut other_paths,
        indexes: mut other_indexes,
        skipped,
    } = others;
    paths.append(&mut other_paths)?;
    indexes.append(&mut other_indexes)?;
    Ok(OpenIndexes {
        paths,
        indexes,
        skipped,
    })
}

// Opens pack indexes, of which the first ones stay open, and of which so many bytes may be kept.
// One is skipped if it is none of version 2 and of the kind, or its fan-out entries fall.
fn open_all<R: StoreFiles>(
    rt: &R,
    listed: &[PackPaths],
    most_open: usize,
    mut left: u64,
    kind: Kind,
) -> Result<OpenIndexes<R>, Error>
    ensures kinds { IfOk result (λ opened. All (λ index. index.kind ≡ kind)
        opened.indexes.items) }
    ensures tables { IfOk result (λ opened. IfKnown (λ at. tables_seen opened.indexes.items
        ≡ map (tables_at at kind) (map index_path opened.paths.items)) (R.answers rt.now)) }
    ensures all { IfOk result (λ opened. vec_len opened.indexes + vec_len opened.skipped
        ≡ length listed.now) }
    ensures paths { IfOk result (λ opened. opened.skipped.items ≡ []
        → map index_path opened.paths.items ≡ map index_path listed.now) }
    ensures skipped { IfOk result (λ opened. IfKnown (λ at. AreOpenOrDamaged at kind
        (map index_path listed.now) (map index_path opened.paths.items) opened.skipped.items)
        (R.answers rt.now)) }
{
    let mut paths = Vec::with_capacity(rt.alloc(), listed.len())?;
    let mut indexes = Vec::with_capacity(rt.alloc(), listed.len())?;
    let mut skipped = Vec::new(rt.alloc());
    for (at, one) in listed.iter().enumerate() {
        let share = (left / (listed.len() - at) as u64).min(MAX_KEPT_OF_ONE);
        match open_pack_index(rt, &one.index, at < most_open, share, &mut left, kind) {
            Ok(index) => {
                paths.push(one.copy()?)?;
                indexes.push(index)?;
            }
            Err(error) if error.is_damage() => skipped.push(error)?,
            Err(error) => return Err(error),
        }
    }
    Ok(OpenIndexes {
        paths,
        indexes,
        skipped,
    })
}

// Opens a pack index, to stay open or to be opened again for each read of what is not kept.
fn open_pack_index<R: StoreFiles>(
    rt: &R,
    path: &str,
    stays_open: bool,
    most_kept: u64,
    left: &mut u64,
    kind: Kind,
) -> Result<LazyFile<R::Source>, Error>
    ensures kind { IfOk result (λ index. index.kind ≡ kind) }
    ensures path { IfOk result (λ index. index.path ≡ path.now) }
    ensures tables { IfOk result (λ index. IfKnown (λ at. (seen index).tables
        ≡ tables_at at kind path.now) (R.answers rt.now)) }
    ensures err { IfErr result (λ error. IsUnread error
        ⊎ ((fault : LazyError) × IsIndexError path.now fault error)) }
    ensures damage { IfErr result (λ error. is_damage error ≡ true
        → IfKnown (λ at. IsDamagedAt at kind path.now error) (R.answers rt.now)) }
{
    let source = match rt.open_source(path, stays_open, most_kept) {
        Ok(source) => source,
        Err(error) => return Err(not_opened(rt, path, error)),
    };
    let len = source.len().unwrap_or(u64::MAX);
    *left = left.saturating_sub(most_kept_of(len, stays_open, most_kept));
    match LazyFile::open(source, kind) {
        Ok(index) => Ok(index),
        Err(LazyError::Read(error)) => Err(not_opened(rt, path, error)),
        Err(error) => Err(Error::index(rt.alloc(), path, error)),
    }
}

// Why a pack index cannot be opened. One that is not found was removed, and may have come back,
// except for a link to nothing, which is there.
fn not_opened<R: Directories>(rt: &R, path: &str, error: io::Error) -> Error
    ensures { IsUnread result ⊎ IsIndexError path.now (errors.Read error) result }
{
    if error.kind() == io::ErrorKind::NotFound
        && !rt.look_at_link(path).is_ok_and(|found| !found.is_file)
    {
        return Error::index(rt.alloc(), path, LazyError::Read(error));
    }
    Error::file(rt.alloc(), path, error)
}

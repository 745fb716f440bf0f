//! Multi-pack-indexes, which are read in place of the pack indexes that they name.

ghost use Rattle.std.specs.Prelude.{◌≡◌, ◌++◌, ◌∷◌, ◌≤◌, [], All, IfOk, IfSome, IsOk, OnOk, length, map, string_bytes};
ghost use Rattle.pack_index.specs.Lazy.{seen};
ghost use Rattle.repositories.specs.Answers.{IfKnown};
ghost use Rattle.directory_store.specs.Multi.{AreInstead, AreSplit, named_in, pack_names};
ghost use Rattle.directory_store.specs.Packs.{bytes_at, tables_seen};
ghost use Rattle.directory_store.specs.Stores.{index_path};

use crate::error::Error;
use crate::pack_paths::PackPaths;
use crate::packs::{MAX_KEPT_OF_ONE, paths_of};
use crate::source::{StoreFiles, most_kept_of};
use gix_hash::Kind;
use pack_index::{LazyError, LazyFile};
use repositories::Directories;
use std::alloc::{AllocError, Global};
use std::str;
use streams::ReadAt;

// The name of a multi-pack-index in its directory of packs.
const NAME: &str = "multi-pack-index";

// How many more NULs Git writes at most after the names of packs, each of which ends in one.
const PADDING: u64 = 3;

/// What is asked of a store.
///
/// ```
/// let now = SystemTime::now(rt)?;
/// let store = DirectoryStore::open_for_refresh(rt, &directory, Purpose::Ids, LooseIds::All, now)?;
/// ```
#[derive(Clone, Copy, Debug, PartialEq, Eq)]
pub enum Purpose {
    /// Which ids there are. A multi-pack-index is read in place of the pack indexes that it names.
    Ids,
    /// Also where objects are. Each pack index is read, since a multi-pack-index has one location
    /// of each object only.
    Locations,
}

// The multi-pack-indexes that are read in place of pack indexes.
#[derive(Drop)]
pub(crate) struct Covering<R: StoreFiles> {
    // Their paths. No pack is beside them.
    pub(crate) paths: Vec<PackPaths>,
    pub(crate) multis: Vec<LazyFile<R::Source>>,
    // The pack indexes that none of them names.
    pub(crate) left: Vec<PackPaths>,
    ghost of_paths: { map index_path paths.items ≡ map (λ multi. multi.path) multis.items },
}

// A multi-pack-index that is open.
#[derive(Drop)]
struct OpenMulti<R: StoreFiles> {
    paths: PackPaths,
    ids: LazyFile<R::Source>,
    // The pack indexes in its directory that it does not name.
    left: Vec<PackPaths>,
    ghost of_path: { index_path paths ≡ ids.path },
}

// Whether one of the directories of packs in which pack indexes are listed has a file with the name
// of a multi-pack-index.
pub(crate) fn has_multi<R: Directories>(
    rt: &R,
    directories: &[String],
    listed: &[PackPaths],
) -> Result<bool, AllocError> {
    let mut rest = listed;
    for directory in directories {
        let (here, after) = rest.split_at(count_in(directory, rest));
        rest = after;
        if !here.is_empty() && is_file(rt, &paths_of(rt, directory, NAME)?) {
            return Ok(true);
        }
    }
    Ok(false)
}

// Whether there is a file at the first of these paths.
fn is_file<R: Directories>(rt: &R, paths: &PackPaths) -> bool {
    rt.look(&paths.index).is_ok_and(|found| found.is_file)
}

// Opens the multi-pack-indexes in directories of packs, at most as many as may stay open. One is
// left out if it cannot be read, or if it names a pack index that is not listed: git may have
// removed that pack since. What is kept of them is taken from the bytes that may be kept.
pub(crate) fn cover<R: StoreFiles>(
    rt: &R,
    directories: &[String],
    listed: &[PackPaths],
    most_open: usize,
    kept: &mut u64,
    kind: Kind,
) -> Result<Covering<R>, Error>
    ensures kinds { IfOk result (λ covering. All (λ multi. multi.kind ≡ kind)
        covering.multis.items) }
    ensures instead { IfOk result (λ covering. IfKnown (λ at. AreInstead at kind
        (map string_bytes directories.now) (map index_path listed.now)
        (map index_path covering.paths.items) (map index_path covering.left.items)
        (tables_seen covering.multis.items)) (R.answers rt.now)) }
{
    let mut paths = Vec::new(rt.alloc());
    let mut multis = Vec::new(rt.alloc());
    let mut left = Vec::new(rt.alloc());
    let mut rest = listed;
    for directory in directories {
        let (here, after) = rest.split_at(count_in(directory, rest));
        rest = after;
        let may_open = multis.len() < most_open;
        match open_at(rt, directory, here, may_open, kept, kind)? {
            Some(multi) => {
                let mut others = multi.left;
                left.append(&mut others)?;
                paths.push(multi.paths)?;
                multis.push(multi.ids)?;
            }
            None => push_copies(here, &mut left)?,
        }
    }
    push_copies(rest, &mut left)?;
    Ok(Covering {
        paths,
        multis,
        left,
    })
}

// How many paths at the beginning of a list are in a directory.
fn count_in(directory: &str, listed: &[PackPaths]) -> usize
    ensures { result ≤ length listed.now }
{
    for (at, paths) in listed.iter().enumerate() {
        // (`x/packs` begins with `x/pack`, too)
        let name = paths.index.strip_prefix(directory).unwrap_or("");
        if !name.starts_with('/') {
            return at;
        }
    }
    listed.len()
}

// Opens the multi-pack-index in a directory of packs in which these pack indexes are listed, if
// another file may stay open. `None` if there is none, if it cannot be read, or if it names one
// that is not listed. Anything but a regular file is not opened: a pipe would wait for a writer.
fn open_at<R: StoreFiles>(
    rt: &R,
    directory: &str,
    listed: &[PackPaths],
    may_open: bool,
    kept: &mut u64,
    kind: Kind,
) -> Result<Option<OpenMulti<R>>, Error>
    ensures kind { IfOk result (λ found. IfSome found (λ multi. multi.ids.kind ≡ kind)) }
    ensures instead { IfOk result (λ found. IfSome found (λ multi. IfKnown (λ at. AreInstead at kind
        (directory.now ∷ []) (map index_path listed.now) (index_path multi.paths ∷ [])
        (map index_path multi.left.items) ((seen multi.ids).tables ∷ [])) (R.answers rt.now))) }
{
    if !may_open || listed.is_empty() {
        return Ok(None);
    }
    let paths = paths_of(rt, directory, NAME)?;
    if !is_file(rt, &paths) {
        return Ok(None);
    }
    let Some(source) = open_source(rt, &paths.index, kept)? else {
        return Ok(None);
    };
    let most = most_names(directory, listed);
    let multi = match LazyFile::open_multi(rt.alloc(), source, kind, most) {
        Ok(Some(multi)) => multi,
        Ok(None) | Err(LazyError::Read(_)) => return Ok(None),
        Err(error) => return Err(Error::index(rt.alloc(), &paths.index, error)),
    };
    let Some(named) = named_in(rt, directory, &multi.names)? else {
        return Ok(None);
    };
    let Some(left) = split(rt.alloc(), listed, &named)? else {
        return Ok(None);
    };
    Ok(Some(OpenMulti {
        paths,
        ids: multi.ids,
        left,
    }))
}

// What a multi-pack-index is read from, which stays open. `None` if it cannot be opened, but too
// many open files are an error.
fn open_source<R: StoreFiles>(
    rt: &R,
    path: &str,
    kept: &mut u64,
) -> Result<Option<R::Source>, Error>
    ensures path { IfOk result (λ found. IfSome found (λ source.
        R.Source.path source ≡ path.now)) }
    ensures content { IfOk result (λ found. IfSome found (λ source. IfKnown (λ at.
        R.Source.content source ≡ bytes_at at path.now) (R.answers rt.now))) }
    ensures read { IfOk result (λ found. IfSome found (λ source. IfKnown (λ at.
        IsOk (at.bytes path.now)) (R.answers rt.now))) }
{
    let most_kept = (*kept).min(MAX_KEPT_OF_ONE);
    let source = match rt.open_source(path, true, most_kept) {
        Ok(source) => source,
        Err(error) => {
            let error = Error::file(rt.alloc(), path, error);
            return if error.is_too_many_open() {
                Err(error)
            } else {
                Ok(None)
            };
        }
    };
    let len = source.len().unwrap_or(u64::MAX);
    *kept = kept.saturating_sub(most_kept_of(len, true, most_kept));
    Ok(Some(source))
}

// How many bytes a multi-pack-index takes at most for the names of the pack indexes that are listed
// in its directory of packs, with a NUL after each.
fn most_names(directory: &str, listed: &[PackPaths]) -> u64 {
    let mut most = PADDING;
    for paths in listed {
        // (before the name is the directory and a slash)
        let len = paths.index.len().saturating_sub(directory.len());
        most = most.saturating_add(len as u64);
    }
    most
}

// The paths of the pack indexes that a multi-pack-index in a directory of packs names, and of their
// packs. `None` if a name is not UTF-8.
fn named_in(
    rt: &impl AllocGlobal,
    directory: &str,
    names: &[u8],
) -> Result<Option<Vec<PackPaths>>, AllocError>
    ensures { IfOk result (λ found. IfSome found (λ named.
        map index_path named.items ≡ named_in directory.now names.now)) }
{
    let found = names_of(rt.alloc(), names)?;
    let mut named = Vec::new(rt.alloc());
    for name in &found {
        let Ok(name) = str::from_utf8(name) else {
            return Ok(None);
        };
        named.push(paths_of(rt, directory, name)?)?;
    }
    Ok(Some(named))
}

// The names among those that each end in a NUL, which more may follow.
fn names_of(alloc: Global, names: &[u8]) -> Result<Vec<&[u8]>, AllocError>
    ensures { IfOk result (λ found. map (λ name. name.now) found.items ≡ pack_names names.now) }
{
    let names = names.split(|byte| *byte == 0);
    names.filter(|name| !name.is_empty()).collect(alloc)
}

// Those of the pack indexes that are listed which are not named. `None` if one is named that is not
// listed. Both lists are in the order of their paths.
fn split(
    alloc: Global,
    listed: &[PackPaths],
    named: &[PackPaths],
) -> Result<Option<Vec<PackPaths>>, AllocError>
    ensures { IfOk result (λ found. IfSome found (λ left. AreSplit (map index_path listed.now)
        (map index_path named.now) (map index_path left.items))) }
{
    let mut left = Vec::new(alloc);
    let mut rest = named;
    for paths in listed {
        if let Some((next, others)) = rest.split_first()
            && next.index == paths.index
        {
            rest = others;
        } else {
            left.push(paths.copy()?)?;
        }
    }
    Ok(if rest.is_empty() { Some(left) } else { None })
}

// Adds copies of paths.
fn push_copies(from: &[PackPaths], to: &mut Vec<PackPaths>) -> Result<(), AllocError>
    ensures { OnOk result (map index_path to.new.items
        ≡ map index_path to.old.items ++ map index_path from.now) }
{
    for paths in from {
        to.push(paths.copy()?)?;
    }
    Ok(())
}

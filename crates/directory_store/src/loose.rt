//! The loose objects in object directories, by the names of their files.

ghost use Rattle.std.specs.Prelude.{◌≡◌, ◌≢◌, ◌<◌, ◌++◌, ◌∷◌, ◌==◌, All, Contains, IfOk, IfSome, IsNone, None, OnOk, false, length, map, string_bytes, true, vec_len};
ghost use Rattle.std.specs.List.{range_with_len, slice_split};
ghost use Rattle.gix_hash.specs.Words.{hex_letter, id_digits, id_kind};
ghost use Rattle.repositories.specs.Answers.{Answers, IfKnown};
ghost use Rattle.repositories.specs.Stores.{byte_hex};
ghost use Rattle.directory_store.specs.Loose.{AreLoose, AreLooseIn, AreNamesIn, HasAllLoose, HasNamesAt, ListsIfThere, bytes_asked, fan_out_in, fan_outs_in, listed_in};
ghost use Rattle.directory_store.specs.Stores.{AppendsLooseIds, AreAllOf, AreSettled, AreStatesOf, IsIdText, IsLooseId, path_in, paths_in};

use crate::error::Error;
use crate::listing::{
    are_settled, expect_state, expect_states, list_names, state_if_there, states_of,
};
use crate::paths::write_loose_path;
use gix_hash::{Alphabet, Kind, ObjectId, laws};
use object_store::LooseTable;
use repositories::{Directories, FileState};
use std::alloc::{AllocError, Global};
use std::io;
use std::time::SystemTime;

// How often the fan-out directories of a first byte are listed that change meanwhile.
const MAX_TRIES: usize = 100;

/// Which loose objects of a store are listed as it is opened: those that will be asked for.
///
/// ```
/// let loose = LooseIds::WithFirstByte(prefix.first_byte());
/// let store = DirectoryStore::open(rt, &find_objects(rt)?, loose)?;
/// ```
#[derive(Clone, Copy, PartialEq, Eq, Debug)]
pub enum LooseIds {
    /// All of them.
    All,
    /// Those whose ids have a first byte. A look-up of another byte finds no loose object.
    WithFirstByte(u8),
}

// An object directory, and the ids of its loose objects.
#[derive(Drop)]
pub(crate) struct LooseDirectory {
    pub(crate) path: String,
    pub(crate) table: LooseTable,
}

// The loose objects that were listed.
#[derive(Drop)]
pub(crate) struct LooseObjects {
    pub(crate) which: LooseIds,
    pub(crate) kind: Kind,
    pub(crate) directories: Vec<LooseDirectory>,
    // The ids of all of them.
    pub(crate) table: LooseTable,
    // The states of the fan-out directories before they were listed, if each later change leaves
    // others.
    states: Option<Vec<FileState>>,
    ghost of_kind: { table.kind ≡ kind },
    ghost directories_of_kind: { All (λ directory. directory.table.kind ≡ kind) directories.items },
    ghost all: { AreAllOf directories.items table.ids },
}

impl LooseObjects {
    // Whether they are what a listing of these object directories would give now.
    pub(crate) fn are_unchanged<R: Directories>(
        &self,
        rt: &R,
        paths: &[String],
    ) -> Result<bool, Error>
        ensures none { self.now.states ≡ None → IfOk result (λ same. same ≡ false) }
        ensures same { IfOk result (λ same. same ≡ true → IfSome self.now.states (λ states.
            IfKnown (AreStatesOf (fan_outs_in self.now.which paths.now) states.items)
            (R.answers rt.now))) }
    {
        match &self.states {
            Some(states) => {
                let places = Places {
                    rt,
                    paths,
                    must_stay: &[],
                };
                Ok(places.states(self.which)? == *states)
            }
            None => Ok(false),
        }
    }
}

// Takes from listed loose objects of a kind those that were asked for so, if they are there.
pub(crate) fn take_loose(
    listed: &mut Vec<LooseObjects>,
    which: LooseIds,
    kind: Kind,
) -> Option<LooseObjects>
    requires { All (λ loose. loose.kind ≡ kind) listed.old.items }
    ensures which { IfSome result (λ loose. loose.which ≡ which) }
    ensures none { IsNone result → All (λ loose. loose.which ≢ which) listed.old.items }
    ensures kind { IfSome result (λ loose. loose.kind ≡ kind) }
    ensures rest { All (λ loose. loose.kind ≡ kind) listed.new.items }
    ensures taken { IfSome result (Contains listed.old.items) }
    ensures left { All (Contains listed.old.items) listed.new.items }
{
    let at = listed.iter().position(|loose| loose.which == which)?;
    Some(listed.remove(at))
}

// The fan-out directories of a first byte, and the names in that of each object directory, each
// ended by a NUL.
#[derive(Drop)]
struct FanOutNames {
    byte: u8,
    names: Vec<Vec<u8>>,
}

// A fan-out directory.
#[derive(Drop)]
struct FanOut {
    path: String,
    // Its state before it is listed, if it must not have changed then.
    state: Option<FileState>,
    // Whether it is missing, if that is known.
    is_missing: bool,
}

impl FanOut {
    // One at a path, with its state if it must not change.
    fn at<R: Directories>(rt: &R, path: String, must_stay: bool) -> Result<FanOut, Error>
        ensures path { IfOk result (λ fan_out. fan_out.path ≡ path) }
        ensures missing { IfOk result (λ fan_out. IfKnown (λ at. ListsIfThere at fan_out)
            (R.answers rt.now)) }
    {
        if !must_stay {
            return Ok(FanOut {
                path,
                state: None,
                is_missing: false,
            });
        }
        let state = state_if_there(rt, &path)?;
        Ok(FanOut {
            is_missing: state.is_none(),
            path,
            state,
        })
    }

    // Lists the names. Fails if it has changed.
    #[tactic(auto, using(crate::proofs::Listed::listed_of))]
    fn list<R: Directories>(&self, rt: &R) -> Result<Vec<u8>, Error>
        requires { IfKnown (λ at. ListsIfThere at self.now) (R.answers rt.now) }
        ensures { IfOk result (λ names. IfKnown (λ at.
            names.items ≡ listed_in (string_bytes self.now.path) at) (R.answers rt.now)) }
    {
        if self.is_missing {
            return Ok(Vec::new(rt.alloc()));
        }
        let names = list_names(rt, &self.path)?;
        if let Some(state) = &self.state {
            expect_state(rt, &self.path, None, state)?;
        }
        Ok(names)
    }
}

// Lists the loose objects in object directories. In some of them no fan-out directory may come or
// go meanwhile. If the time before is given, it is also looked at what these may be compared by
// later.
pub(crate) fn list_loose<R: Directories>(
    rt: &R,
    paths: &[String],
    must_stay: &[String],
    kind: Kind,
    which: LooseIds,
    now: Option<SystemTime>,
) -> Result<LooseObjects, Error>
    ensures kind { IfOk result (λ loose. loose.kind ≡ kind) }
    ensures which { IfOk result (λ loose. loose.which ≡ which) }
    ensures settled { IfOk result (λ loose. IfSome loose.states (λ states.
        AreSettled now states.items)) }
    ensures loose { IfOk result (λ loose. IfKnown (λ at. AreLoose at kind which
        (map string_bytes paths.now) loose.directories.items) (R.answers rt.now)) }
{
    let places = Places {
        rt,
        paths,
        must_stay,
    };
    let states = places.settled_states(which, now)?;
    let directories = places.list_directories(kind, which)?;
    let table = table_of(rt.alloc(), &directories, kind)?;
    Ok(LooseObjects {
        which,
        kind,
        directories,
        table,
        states,
    })
}

// The ids of all loose objects in object directories.
fn table_of(
    alloc: Global,
    directories: &[LooseDirectory],
    kind: Kind,
) -> Result<LooseTable, AllocError>
    requires { All (λ directory. directory.table.kind ≡ kind) directories.now }
    ensures kind { IfOk result (λ table. table.kind ≡ kind) }
    ensures all { IfOk result (λ table. AreAllOf directories.now table.ids) }
{
    let mut ids = Vec::new(alloc);
    for directory in directories {
        ids.extend_from_slice(directory.table.ids())?;
    }
    Ok(LooseTable::new(ids, kind))
}

// Object directories.
#[derive(Drop)]
struct Places<'a, R> {
    rt: &'a R,
    paths: &'a [String],
    // Those in which no fan-out directory may come or go while they are listed.
    must_stay: &'a [String],
}

impl<R: Directories> Places<'_, R> {
    // The states of the fan-out directories that are asked for, if the time before is given, and
    // each later change leaves others.
    fn settled_states(
        &self,
        which: LooseIds,
        now: Option<SystemTime>,
    ) -> Result<Option<Vec<FileState>>, Error>
        ensures { IfOk result (λ states. IfSome states (λ states. AreSettled now states.items)) }
    {
        let Some(now) = now else {
            return Ok(None);
        };
        let states = self.states(which)?;
        Ok(are_settled(&states, now).then_some(states))
    }

    // The states of the fan-out directories that are asked for.
    fn states(&self, which: LooseIds) -> Result<Vec<FileState>, Error>
        ensures as_many { IfOk result (λ states. vec_len states
            ≡ length (fan_outs_in which self.now.paths.now)) }
        ensures states { IfOk result (λ states. IfKnown (AreStatesOf
            (fan_outs_in which self.now.paths.now) states.items) (R.answers self.now.rt.now)) }
    {
        states_of(self.rt, &self.fan_out_paths(which)?, &[])
    }

    // The paths of the fan-out directories that are asked for.
    fn fan_out_paths(&self, which: LooseIds) -> Result<Vec<String>, AllocError>
        ensures { IfOk result (λ paths. map string_bytes paths.items
            ≡ fan_outs_in which self.now.paths.now) }
    {
        let bytes = bytes_of(self.rt.alloc(), which)?;
        let mut paths = Vec::new(self.rt.alloc());
        for path in self.paths {
            for byte in &bytes {
                paths.push(fan_out(self.rt, path, *byte)?)?;
            }
        }
        Ok(paths)
    }

    // The loose objects in each of the directories.
    fn list_directories(&self, kind: Kind, which: LooseIds) -> Result<Vec<LooseDirectory>, Error>
        ensures kinds { IfOk result (λ directories.
            All (λ directory. directory.table.kind ≡ kind) directories.items) }
        ensures paths { IfOk result (λ directories. map (λ directory. string_bytes directory.path)
            directories.items ≡ map string_bytes self.now.paths.now) }
        ensures loose { IfOk result (λ directories. IfKnown (λ at. All (HasAllLoose at kind which)
            directories.items) (R.answers self.now.rt.now)) }
    {
        let parts = self.list_parts(which)?;
        let mut directories = Vec::new(self.rt.alloc());
        for (index, path) in self.paths.iter().enumerate() {
            directories.push(directory_of(self.rt, path, kind, index, &parts)?)?;
        }
        Ok(directories)
    }

    // Lists the fan-out directories, one first byte after the other. Fails if one comes or goes
    // where none may, or if one changes each time that it is listed.
    fn list_parts(&self, which: LooseIds) -> Result<Vec<FanOutNames>, Error>
        ensures as_many { IfOk result (λ parts. All (λ part. vec_len part.names
            ≡ length self.now.paths.now) parts.items) }
        ensures bytes { IfOk result (λ parts. map (λ part. part.byte) parts.items
            ≡ bytes_asked which) }
        ensures names { IfOk result (λ parts. IfKnown (λ at. All (λ part. AreNamesIn at part.byte
            self.now.paths.now part.names.items) parts.items) (R.answers self.now.rt.now)) }
    {
        let bytes = bytes_of(self.rt.alloc(), which)?;
        let before = states_of(self.rt, self.must_stay, &[])?;
        let mut parts = Vec::new(self.rt.alloc());
        for byte in &bytes {
            let names = self.names_with(*byte)?;
            parts.push(FanOutNames { byte: *byte, names })?;
        }
        expect_states(self.rt, self.must_stay, &[], &before)?;
        Ok(parts)
    }

    // Lists the names in the fan-out directory of a first byte, for each object directory. Those
    // of several were there at one time: else an object that is moved from one into another might
    // be in neither. Fails if one of them changes each time.
    fn names_with(&self, byte: u8) -> Result<Vec<Vec<u8>>, Error>
        ensures as_many { IfOk result (λ names. vec_len names ≡ length self.now.paths.now) }
        ensures names { IfOk result (λ names. IfKnown (λ at. AreNamesIn at byte self.now.paths.now
            names.items) (R.answers self.now.rt.now)) }
    {
        for _ in 1..MAX_TRIES {
            let listed = self.names_if_unchanged(byte);
            if !matches!(&listed, Err(error) if error.is_change()) {
                return listed;
            }
        }
        self.names_if_unchanged(byte)
    }

    // Lists these names. Fails if there are several object directories, and a fan-out directory in
    // one of them has changed since all were there.
    fn names_if_unchanged(&self, byte: u8) -> Result<Vec<Vec<u8>>, Error>
        ensures as_many { IfOk result (λ names. vec_len names ≡ length self.now.paths.now) }
        ensures names { IfOk result (λ names. IfKnown (λ at. AreNamesIn at byte self.now.paths.now
            names.items) (R.answers self.now.rt.now)) }
    {
        let fan_outs = self.fan_outs(byte)?;
        let mut names = Vec::new(self.rt.alloc());
        for fan_out in &fan_outs {
            names.push(fan_out.list(self.rt)?)?;
        }
        Ok(names)
    }

    // The fan-out directories of a first byte, with their states if there are several object
    // directories.
    fn fan_outs(&self, byte: u8) -> Result<Vec<FanOut>, Error>
        ensures paths { IfOk result (λ fan_outs. map (λ fan_out. string_bytes fan_out.path)
            fan_outs.items ≡ map (fan_out_in byte) self.now.paths.now) }
        ensures missing { IfOk result (λ fan_outs. IfKnown (λ at. All (ListsIfThere at)
            fan_outs.items) (R.answers self.now.rt.now)) }
    {
        let mut fan_outs = Vec::new(self.rt.alloc());
        for path in self.paths {
            let path = fan_out(self.rt, path, byte)?;
            fan_outs.push(FanOut::at(self.rt, path, self.paths.len() > 1)?)?;
        }
        Ok(fan_outs)
    }
}

// The first bytes that are asked for, in order.
#[tactic(auto, unfolding(crate::specs::Loose::bytes_asked))]
fn bytes_of(alloc: Global, which: LooseIds) -> Result<Vec<u8>, AllocError>
    ensures { IfOk result (λ bytes. bytes.items ≡ bytes_asked which) }
{
    match which {
        LooseIds::All => all_bytes(alloc),
        LooseIds::WithFirstByte(byte) => [byte].to_vec(alloc),
    }
}

// All bytes, in order.
fn all_bytes(alloc: Global) -> Result<Vec<u8>, AllocError>
    ensures { IfOk result (λ bytes. bytes.items ≡ range_with_len 0 256) }
{
    let mut bytes = Vec::new(alloc);
    for byte in 0u16..256 {
        bytes.push(byte as u8)?;
    }
    Ok(bytes)
}

// The path of the fan-out directory of a first byte.
fn fan_out(rt: &impl AllocGlobal, path: &str, byte: u8) -> Result<String, AllocError>
    ensures { IfOk result (λ directory. string_bytes directory ≡ path.now ++ 47 ∷ byte_hex byte) }
{
    format!(in rt.alloc(); "{path}/{byte:02x}")
}

// The loose objects in the object directory at a position. Names that are no loose object's are
// skipped, as those of temporary files and names in capitals.
fn directory_of(
    rt: &impl AllocGlobal,
    path: &str,
    kind: Kind,
    index: usize,
    parts: &[FanOutNames],
) -> Result<LooseDirectory, Error>
    requires { All (λ part. index < vec_len part.names) parts.now }
    ensures path { IfOk result (λ directory. string_bytes directory.path ≡ path.now) }
    ensures kind { IfOk result (λ directory. directory.table.kind ≡ kind) }
    ensures loose { IfOk result (λ directory. (at : Answers) → All (HasNamesAt at index path.now)
        parts.now → AreLooseIn at kind (map (λ part. part.byte) parts.now) path.now
        directory.table.ids) }
{
    let mut ids = Vec::new(rt.alloc());
    for part in parts {
        push_ids(kind, part.byte, &part.names[index], &mut ids)?;
    }
    let path = String::from_str(rt.alloc(), path)?;
    let table = LooseTable::new(ids, kind);
    Ok(LooseDirectory { path, table })
}

// Adds the ids of the loose objects whose files have these names, each ended by a NUL, in the
// directory of a first byte.
fn push_ids(kind: Kind, byte: u8, names: &[u8], ids: &mut Vec<ObjectId>) -> Result<(), AllocError>
    ensures kinds { OnOk result (All (λ id. id_kind id ≡ kind) ids.old.items
        → All (λ id. id_kind id ≡ kind) ids.new.items) }
    ensures ids { OnOk result (AppendsLooseIds kind byte
        (slice_split (λ byte. byte == 0) names.now) ids.old.items ids.new.items) }
{
    for name in names.split(|byte| *byte == 0) {
        let Some(id) = loose_id(kind, byte, name) else {
            continue;
        };
        ids.push(id)?;
    }
    Ok(())
}

// The id of the loose object whose file has this name, in the directory of a first byte.
fn loose_id(kind: Kind, byte: u8, name: &[u8]) -> Option<ObjectId>
    ensures { IsLooseId kind byte name.now result }
{
    let mut text = [0; 64];
    if name.len() > 62 {
        return None;
    }
    let len = 2 + name.len();
    text[0] = letter(byte / 16);
    text[1] = letter(byte % 16);
    text[2..len].copy_from_slice(name);
    read_id(kind, &text[..len])
}

// The id of the kind that the text is, in lowercase, or `None` if it is not one.
fn read_id(kind: Kind, text: &[u8]) -> Option<ObjectId>
    ensures { IsIdText kind text.now result }
{
    laws::printed(Alphabet::Hex);
    let Ok(id) = ObjectId::from_hex(text) else {
        return None;
    };
    if id.kind() == kind && id.eq_bstr(text) {
        Some(id)
    } else {
        None
    }
}

// The letter of a hex digit.
fn letter(digit: u8) -> u8
    requires { digit < 16 }
    ensures { result ≡ hex_letter digit }
{
    match digit {
        0..10 => b'0' + digit,
        _ => b'a' - 10 + digit,
    }
}

// Adds the path of the file of a loose object in an object directory, if it is there.
pub(crate) fn push_path(
    alloc: Global,
    directory: &LooseDirectory,
    id: &ObjectId,
    paths: &mut Vec<String>,
) -> Result<(), AllocError>
    ensures { OnOk result (map string_bytes paths.new.items ≡ map string_bytes paths.old.items
        ++ paths_in (string_bytes directory.now.path) directory.now.table.ids (id_digits id.now)) }
{
    if directory.table.contains(id) {
        paths.push(loose_path(alloc, &directory.path, id)?)?;
    }
    Ok(())
}

// The path of the file of a loose object in an object directory.
pub(crate) fn loose_path(
    alloc: Global,
    directory: &str,
    id: &ObjectId,
) -> Result<String, AllocError>
    ensures { IfOk result (λ path. string_bytes path ≡ path_in directory.now (id_digits id.now)) }
{
    let mut path = directory.as_bytes().to_vec(alloc)?;
    path.push(b'/')?;
    let Ok(()) = write_loose_path(id, &mut path) else {
        return Err(AllocError);
    };
    // It is UTF-8, as the directory's and the digits are.
    match String::from_utf8(path) {
        Ok(path) => Ok(path),
        Err(_) => Err(AllocError),
    }
}

// Checks the file of a loose object in an object directory.
pub(crate) fn check_loose_file<R: Directories>(
    rt: &R,
    directory: &str,
    id: &ObjectId,
) -> Result<(), Error> {
    let path = loose_path(rt.alloc(), directory, id)?;
    let Err(error) = rt.look(&path) else {
        return Ok(());
    };
    let is_missing = error.kind() == io::ErrorKind::NotFound;
    match rt.look_at_link(&path) {
        // (one that has come back)
        Ok(found) if is_missing && found.is_file => Ok(()),
        Err(gone) if gone.kind() == io::ErrorKind::NotFound => Ok(()),
        _ => Err(Error::file(rt.alloc(), &path, error)),
    }
}

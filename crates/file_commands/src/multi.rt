//! Checks of multi-pack-indexes.

ghost use Rattle.std.specs.Prelude.{◌≡◌, All, Contains, IfOk, IsNone, length, string_bytes};
ghost use Rattle.std.specs.Option.{ForSome};
ghost use Rattle.file_commands.specs.Verdicts.{IsMulti, why_of};

use crate::failure::{FileFailure, FileWhy};
use crate::files::open_regular;
use gix_hash::{Kind, ObjectId, Prefix};
use pack_index::{Error, LazyError, LazyFile};
use std::alloc::{AllocError, Global};
use std::path::Path;
use std::{io, str};
use streams::ReadAt;

// The directory of the layers of a chain, each of which has no ids of those below it.
const LAYERS: &str = "multi-pack-index.d";

/// Why a multi-pack-index that ends with its digest is wrong.
#[derive(Drop)]
pub(crate) enum Fault {
    Chunks,
    OtherKind(Kind),
    FanOut,
    Order,
    Lacks(ObjectId, String),
    InNoPack(ObjectId),
}

/// What is printed of a fault.
pub(crate) fn why_of(alloc: Global, fault: &Fault) -> Result<String, AllocError>
    ensures { IfOk result (λ why. string_bytes why ≡ why_of fault.now) }
{
    match fault {
        Fault::Chunks => {
            String::from_str(alloc, "its header, its table of chunks or a chunk is wrong")
        }
        Fault::OtherKind(kind) => format!(in alloc; "its ids are of the kind {kind}"),
        Fault::FanOut => String::from_str(alloc, "its fan-out table is wrong"),
        Fault::Order => String::from_str(alloc, "its ids are not in order"),
        Fault::Lacks(id, name) => format!(in alloc; "it lacks {id} of {name}"),
        Fault::InNoPack(id) => format!(in alloc; "{id} is in none of its packs"),
    }
}

/// The kind of the ids of a multi-pack-index by its header, or else the other one that is given.
pub(crate) fn kind_of<S: ReadAt>(source: &S, other: Option<Kind>) -> Option<Kind> {
    let mut header = [0; 6];
    match source.read_exact_at(&mut header, 0) {
        Ok(()) => Kind::try_from(header[5]).ok().or(other),
        Err(_) => other,
    }
}

// The kind of the ids, and the number of packs, by the header. It is `None` for another kind, and
// if the chunks do not begin after their table and end where the digest begins.
fn header_of<S: ReadAt>(source: &S) -> io::Result<Option<(Kind, u32)>> {
    let mut header = [0; 12];
    source.read_exact_at(&mut header, 0)?;
    let (kind, chunks) = (header[5], header[6]);
    let Ok(kind) = Kind::try_from(kind) else {
        return Ok(None);
    };
    let packs = u32::from_be_bytes([header[8], header[9], header[10], header[11]]);
    let table_end = 24 + 12 * u64::from(chunks);
    let end = source.len()?.checked_sub(kind.len_in_bytes() as u64);
    let is_filled = number_at(source, 16)? == table_end
        && number_at(source, table_end - 12)? >> 32 == 0
        && Some(number_at(source, table_end - 8)?) == end;
    Ok(is_filled.then_some((kind, packs)))
}

// The number that is written in eight bytes.
fn number_at<S: ReadAt>(source: &S, at: u64) -> io::Result<u64> {
    let mut bytes = [0; 8];
    source.read_exact_at(&mut bytes, at)?;
    Ok(u64::from_be_bytes(bytes))
}

/// What is wrong with a multi-pack-index that ends with its digest, if anything. Its ids must be
/// those of the pack indexes beside it that it names, unless it is a layer of a chain or standard
/// input. No offset is compared.
pub(crate) fn fault_in<S: ReadAt + Drop>(
    rt: &HostRuntime,
    path: &str,
    source: S,
    kind: Option<Kind>,
) -> Result<Option<Fault>, FileFailure>
    ensures { IfOk result (λ fault. IsNone fault → ForSome (S.content source) IsMulti) }
{
    let (own, packs) = match header_of(&source) {
        Ok(Some(header)) => header,
        Err(e) if e.kind() != io::ErrorKind::UnexpectedEof => return Err(unread(
            rt,
            path,
            e.into(),
        )),
        _ => return Ok(Some(Fault::Chunks)),
    };
    if kind.is_some_and(|kind| kind != own) {
        return Ok(Some(Fault::OtherKind(own)));
    }
    let mut multi = match LazyFile::open_multi(rt.alloc(), source, own, u64::MAX) {
        Ok(Some(multi)) => multi,
        Ok(None) => return Ok(Some(Fault::Chunks)),
        Err(error) => return Err(unread(rt, path, error)),
    };
    let names = str::from_utf8(&multi.names).unwrap_or("/");
    let is_odd = names.contains(|c: char| c == '/' || c != '\0' && c.is_control());
    if is_odd || names.split('\0').filter(|name| !name.is_empty()).count() != packs as usize {
        return Ok(Some(Fault::Chunks));
    }
    let directory = Path::new(path).parent();
    let is_layer = directory.is_some_and(|it| it.file_name() == Some(LAYERS));
    let names = (path != "-" && !is_layer).then_some(names);
    for byte in 0..=255 {
        if let Some(fault) = fault_at(rt, path, &mut multi.ids, names, byte)? {
            return Ok(Some(fault));
        }
    }
    Ok(None)
}

// What is wrong with the ids with a first byte. The names are those of the pack indexes that they
// are compared with, if they are.
fn fault_at<S: ReadAt + Drop>(
    rt: &HostRuntime,
    path: &str,
    index: &mut LazyFile<S>,
    names: Option<&str>,
    byte: u8,
) -> Result<Option<Fault>, FileFailure> {
    let own = match ids_with(rt.alloc(), index, byte) {
        Ok(own) => own,
        Err(LazyError::WrongCount(_)) => return Ok(Some(Fault::FanOut)),
        Err(error) => return Err(unread(rt, path, error)),
    };
    if !own.is_sorted_by(|before, id| before < id) {
        return Ok(Some(Fault::Order));
    }
    let Some(names) = names else {
        return Ok(None);
    };
    let mut found = vec![in rt.alloc(); false; own.len()]?;
    let mut lacks: Option<(ObjectId, &str)> = None;
    for name in names.split('\0') {
        if name.is_empty() {
            continue;
        }
        let beside = Path::new(path)
            .with_file_name(rt.alloc(), name)?
            .into_string();
        let file = open_regular(rt, &beside).map_err(|why| FileFailure::at(rt, &beside, why))?;
        let ids = LazyFile::open(file, index.object_hash())
            .and_then(|mut it| ids_with(rt.alloc(), &mut it, byte))
            .map_err(|error| unread(rt, &beside, error))?;
        let first = first_lacking(&ids, &own, &mut found);
        lacks = first.map(|id| (id, name)).into_iter().chain(lacks).min();
    }
    if let Some((id, name)) = lacks {
        return Ok(Some(Fault::Lacks(id, String::from_str(rt.alloc(), name)?)));
    }
    let spare = found.iter().position(|found| !*found);
    Ok(spare.map(|at| Fault::InNoPack(own[at])))
}

// The ids with a first byte, as they are stored.
fn ids_with<S: ReadAt + Drop>(
    alloc: Global,
    index: &mut LazyFile<S>,
    byte: u8,
) -> Result<Vec<ObjectId>, LazyError> {
    let prefix = Prefix::from_packed_digits(index.object_hash(), &[byte], 2).unwrap();
    let mut ids = Vec::new(alloc);
    index
        .part(alloc, &prefix, 0)?
        .push_matches(&prefix, &mut ids)?;
    Ok(ids)
}

// The first of some ids that a sorted list lacks. Those before it are marked in the list.
fn first_lacking(ids: &[ObjectId], own: &[ObjectId], found: &mut [bool]) -> Option<ObjectId>
    requires { length found.old ≡ length own.now }
    ensures len { length found.new ≡ length found.old }
    ensures none { IsNone result → All (Contains own.now) ids.now }
{
    for id in ids {
        match own.binary_search(id) {
            Ok(at) => found[at] = true,
            Err(_) => return Some(*id),
        }
    }
    None
}

// The failure of an index that cannot be read, or is damaged.
fn unread(rt: &HostRuntime, path: &str, error: LazyError) -> FileFailure {
    let why = match error {
        LazyError::Memory(error) => return FileFailure::Memory(error),
        LazyError::Read(error) => FileWhy::Read(error),
        LazyError::Head(error) => FileWhy::Index(error),
        LazyError::CountsFall(byte) | LazyError::WrongCount(byte) => {
            FileWhy::Index(Error::WrongCount(byte))
        }
        LazyError::NoOffset(at) => FileWhy::Index(Error::NoOffset(at)),
    };
    FileFailure::at(rt, path, why)
}

//! Commands over files.

ghost use Rattle.std.specs.Prelude.{◌≡◌, ◌≢◌, ◌↔◌, ◌+◌, ◌*◌, ◌≤◌, ◌++◌, ◌∷◌, ◌⊎◌, ℕ, [], List, Ok, Some, codes, false, length, take, true, IfOk, IfSome, IsTrue, MatchOption, OnOk, string_bytes};
ghost use Rattle.std.specs.Io.{StartsWith};
ghost use Rattle.std.specs.Option.{ForSome};
ghost use Rattle.std.specs.Path.{path_file_name};
ghost use Rattle.pack_index.specs.Format.{ids_start, num_objects};
ghost use Rattle.file_commands.specs.Failures.{IsAt};
ghost use Rattle.file_commands.specs.Verdicts.{HasWrittenVerdict, IsChecked, IsEndingFor, IsRight, IsVerdictOn, IsVerdictOnSome};
ghost use Rattle.file_commands.specs.declared.failure.FileWhy.{FileWhy};
ghost use Rattle.streams.specs.Devices.{plain_error, plain_failed, plain_inner};
ghost use Rattle.streams.specs.Streams.{HasReadAll, IsReadAt};
ghost use Rattle.streams.specs.declared.checking.Ending.{Ending};

use crate::failure::{FileFailure, FileWhy, expect_text};
use crate::multi::{Fault, fault_in, kind_of, why_of};
use crate::progress::Watched;
use gix_hash::Kind;
use pack_index::tables::{IDS_START, num_objects};
use packtool_commands::{
    FileError, Pairing, open_index, pair, show as show_input, write_ending, write_named,
    write_pairing,
};
use repositories::{metadata, retried};
use std::alloc::{AllocError, Global};
use std::fs::File;
use std::io::{self, Cursor, Read, Seek, SeekFrom};
use std::path::Path;
use std::time::Instant;
use streams::{Ending, PipeError, Plain, ReadAt, Retrying, Source, check_either, check_seal};

// How a pack index begins, of version 2 and later.
const MAGIC: [u8; 4] = *b"\xfftOc";

// How a multi-pack-index begins, and its name.
const MULTI_MAGIC: [u8; 4] = *b"MIDX";

const MULTI_NAME: &str = "multi-pack-index";

// How the names of pack indexes end, and of packs.
const INDEX_END: &str = ".idx";

const PACK_END: &str = ".pack";

// How the names of files end that Git writes without a digest: marks of packs, and the lists of the
// files of a chain.
const KEEP_END: &str = ".keep";

const PROMISOR_END: &str = ".promisor";

const CHAIN_END: &str = "-chain";

// The directory of a chain of indexes, which Git keeps among the packs.
const CHAIN_DIRECTORY: &str = "multi-pack-index.d";

/// Prints the lines of a pack index, and returns whether there is a line. If no kind is given, the
/// length of the index says its kind.
pub fn show<W: io::Write>(
    rt: &HostRuntime,
    path: &str,
    kind: Option<Kind>,
    out: &mut Plain<W>,
) -> Result<bool, FileFailure>
    ensures { OnOk result (plain_failed out.new ≡ false) }
{
    if path == "-" {
        show_from(rt, path, kind, rt.reader(), out)
    } else {
        show_from(rt, path, kind, open(rt, path)?, out)
    }
}

// Prints the lines of a pack index from a reader.
fn show_from<R: io::Read + Drop, W: io::Write>(
    rt: &HostRuntime,
    path: &str,
    kind: Option<Kind>,
    reader: R,
    out: &mut Plain<W>,
) -> Result<bool, FileFailure>
    ensures { OnOk result (plain_failed out.new ≡ false) }
{
    if out.failed() {
        return Err(FileFailure::of_output(out));
    }
    let mut input = Plain::new(Retrying::new(reader));
    match show_input(rt.alloc(), kind, &mut input, out) {
        Ok(any) => Ok(any),
        Err(FileError::Index(error)) => Err(FileFailure::at(rt, path, FileWhy::Index(error))),
        Err(FileError::Memory) => Err(AllocError.into()),
        Err(FileError::Input) => Err(unread(rt, path, &input)),
        Err(FileError::Output) => Err(FileFailure::of_output(out)),
    }
}

// The verdict on a checked file.
#[derive(Drop)]
enum Verdict {
    // It is not checked, since Git writes it without a digest.
    Skipped,
    // It is not a pack index, and ends in this way.
    Ends(Ending),
    // It is a multi-pack-index that ends with its digest, and is wrong for this reason.
    FaultyMulti(Fault),
    // It is a pack index that is not sound, for this reason.
    Faulty(pack_index::Error),
    // It is a sound pack index, and there is no pack beside it.
    Alone,
    // It is a sound pack index, and this is its relation to the pack beside it.
    Paired(Pairing),
}

/// Prints whether a file passes its check, and returns the same. A pack index has to be sound and
/// to belong to the pack beside it, and any other file has to end with its digest. A file that Git
/// writes without a digest is skipped, and passes. If the output failed before, nothing is printed.
/// A multi-pack-index also has to be sound, and to have the ids of the pack indexes that it names.
///
/// If no kind is given, a file may end with the digest of either kind, and the length of a pack
/// index says its kind. A file that does not end with its SHA-1 is read twice, and standard input
/// once. How much was read is shown from a time on, if one is given, and cleared at the end.
pub fn check<W: io::Write>(
    rt: &HostRuntime,
    path: &str,
    kind: Option<Kind>,
    due: Option<Instant>,
    out: &mut Plain<W>,
) -> Result<bool, FileFailure>
    ensures { IfOk result (λ is_right. plain_failed out.new ≡ false → IsChecked path.now is_right
        (W.contents (plain_inner out.old)) (W.contents (plain_inner out.new))) }
{
    let verdict = if path == "-" {
        verdict_of_input(rt, kind, due)?
    } else {
        verdict_of_file(rt, path, kind, due)?
    };
    if !out.failed() {
        write_verdict(rt, path, &verdict, out)?;
    }
    Ok(is_right(&verdict))
}

// Whether a file passed its check, or was skipped.
fn is_right(verdict: &Verdict) -> bool
    ensures { IsTrue result ↔ IsRight verdict.now }
{
    match verdict {
        Verdict::Skipped | Verdict::Alone | Verdict::Paired(Pairing::Same) => true,
        Verdict::Ends(ending) => is_sealed(ending),
        Verdict::Faulty(_) | Verdict::FaultyMulti(_) | Verdict::Paired(_) => false,
    }
}

// Writes the line of a file. The output knows whether a write failed.
fn write_verdict<W: io::Write>(
    rt: &HostRuntime,
    path: &str,
    verdict: &Verdict,
    out: &mut Plain<W>,
) -> Result<(), FileFailure>
    requires { plain_failed out.old ≡ false }
    ensures { OnOk result (plain_failed out.new ≡ false → HasWrittenVerdict verdict.now path.now
        (W.contents (plain_inner out.old)) (W.contents (plain_inner out.new))) }
{
    let _ = match verdict {
        Verdict::Skipped => write_named(path, b": SKIPPED: it has no digest\n", out),
        Verdict::Ends(ending) => write_ending(path, ending, out),
        Verdict::Faulty(error) => {
            let end = fault_end(rt.alloc(), &format!(in rt.alloc(); "{error}")?)?;
            write_named(path, end.as_bytes(), out)
        }
        Verdict::FaultyMulti(fault) => {
            let end = fault_end(rt.alloc(), &why_of(rt.alloc(), fault)?)?;
            write_named(path, end.as_bytes(), out)
        }
        Verdict::Alone => write_named(path, b": OK\n", out),
        Verdict::Paired(pairing) => write_pairing(path, pairing, out),
    };
    Ok(())
}

// What is printed after the name of a file that failed its check.
fn fault_end(alloc: Global, why: &str) -> Result<String, AllocError>
    ensures { IfOk result (λ end. string_bytes end ≡ codes ": FAILED: " ++ why.now ++ 10 ∷ []) }
{
    let mut end = String::from_str(alloc, ": FAILED: ")?;
    end.push_str(why)?;
    end.push('\n')?;
    Ok(end)
}

// The verdict on standard input. Its first bytes decide whether it is a pack index. No more of a
// pack index is read than its counts allow.
fn verdict_of_input(
    rt: &HostRuntime,
    kind: Option<Kind>,
    due: Option<Instant>,
) -> Result<Verdict, FileFailure>
    ensures { IfOk result (IsVerdictOnSome kind) }
{
    let path = "-";
    let mut reader = Watched::new(rt, path, 0, due, rt.reader());
    let mut bytes = Vec::new(rt.alloc());
    read_more(rt, path, &mut reader, IDS_START as u64, &mut bytes)?;
    if is_multi(rt, &&bytes[..], path)? {
        read_more(rt, path, &mut reader, u64::MAX, &mut bytes)?;
        let read = kind_of(&&bytes[..], kind);
        let ending = ending_of(rt, &mut &bytes[..], path, read)?;
        return verdict_of_multi(rt, path, &bytes[..], kind, ending);
    }
    if !is_index(rt, &&bytes[..], path)? {
        let mut input = Cursor::new(&bytes[..]).chain(reader);
        return Ok(Verdict::Ends(ending_of(rt, &mut input, path, kind)?));
    }
    let rest = most_after(&bytes).saturating_add(1);
    read_more(rt, path, &mut reader, rest, &mut bytes)?;
    verdict_of_index(rt, path, &bytes, kind)
}

// The verdict on a multi-pack-index, which ends in this way.
fn verdict_of_multi<S: ReadAt + Drop>(
    rt: &HostRuntime,
    path: &str,
    source: S,
    kind: Option<Kind>,
    ending: Ending,
) -> Result<Verdict, FileFailure>
    requires { (bytes : List ℕ) × (read : _) × IsEndingFor read bytes ending }
    ensures { IfOk result (IsVerdictOnSome kind) }
{
    if !is_sealed(&ending) {
        return Ok(Verdict::Ends(ending));
    }
    match fault_in(rt, path, source, kind)? {
        Some(fault) => Ok(Verdict::FaultyMulti(fault)),
        None => Ok(Verdict::Ends(ending)),
    }
}

// Reads at most so many bytes, and appends them to those that were read before.
fn read_more<R: io::Read>(
    rt: &HostRuntime,
    path: &str,
    reader: &mut R,
    most: u64,
    bytes: &mut Vec<u8>,
) -> Result<(), FileFailure>
    ensures kept { StartsWith bytes.new.items bytes.old.items }
    ensures read { OnOk result (IfSome (R.remaining reader.old)
        (λ rest. bytes.new.items ≡ bytes.old.items ++ take most rest)) }
{
    match reader.take(most).read_to_end(bytes) {
        Ok(_) => Ok(()),
        Err(error) if error.kind() == io::ErrorKind::OutOfMemory => Err(AllocError.into()),
        Err(error) => Err(FileFailure::at(rt, path, FileWhy::Read(error))),
    }
}

// How many bytes a pack index of version 2 may have after its fan-out table, with which these bytes
// end. For each object these are at most 32 of its id, 4 of its CRC and 12 of its offset, and then
// there are two digests.
fn most_after(head: &[u8]) -> u64
    ensures { ids_start ≤ length head.now → result ≡ 48 * num_objects head.now + 64 }
{
    if head.len() < IDS_START {
        return 0;
    }
    48 * u64::from(num_objects(head)) + 64
}

// The verdict on a file.
fn verdict_of_file(
    rt: &HostRuntime,
    path: &str,
    kind: Option<Kind>,
    due: Option<Instant>,
) -> Result<Verdict, FileFailure>
    ensures { IfOk result (IsVerdictOnSome kind) }
{
    if is_chain_directory(rt, path) {
        return Ok(Verdict::Skipped);
    }
    let file = open(rt, path)?;
    if has_no_digest(path) {
        return Ok(Verdict::Skipped);
    }
    let len = due.and_then(|_| file.len().ok()).unwrap_or(0);
    let mut reader = Watched::new(rt, path, len, due, &file);
    if is_multi(rt, &file, path)? {
        let ending = ending_in(rt, &mut reader, path, kind_of(&file, kind))?;
        drop(reader);
        return verdict_of_multi(rt, path, file, kind, ending);
    }
    if !is_index(rt, &file, path)? {
        return Ok(Verdict::Ends(ending_in(rt, &mut reader, path, kind)?));
    }
    let mut bytes = Vec::new(rt.alloc());
    read_more(rt, path, &mut reader, u64::MAX, &mut bytes)?;
    verdict_of_index(rt, path, &bytes, kind)
}

// The verdict on the bytes of a pack index, and on its relation to the pack beside it, if there is
// one.
fn verdict_of_index(
    rt: &HostRuntime,
    path: &str,
    bytes: &[u8],
    kind: Option<Kind>,
) -> Result<Verdict, FileFailure>
    ensures { IfOk result (IsVerdictOn kind bytes.now) }
{
    let index = match open_index(bytes, kind) {
        Ok(index) => index,
        // Such an index may be sound.
        Err(error @ pack_index::Error::Version1) => {
            return Err(FileFailure::at(rt, path, FileWhy::Index(error)));
        }
        Err(error) => return Ok(Verdict::Faulty(error)),
    };
    let Some((pack_path, pack)) = pack_beside(rt, path)? else {
        return Ok(Verdict::Alone);
    };
    match retried(|| pair(&index, &pack)) {
        Ok(pairing) => Ok(Verdict::Paired(pairing)),
        Err(error) => Err(FileFailure::at(rt, &pack_path, FileWhy::Read(error))),
    }
}

// Whether Git writes files of this name without a digest.
fn has_no_digest(path: &str) -> bool
    ensures { IsTrue result ↔ ((stem : List ℕ) × (path.now ≡ stem ++ KEEP_END.now))
        ⊎ (((stem : List ℕ) × (path.now ≡ stem ++ PROMISOR_END.now))
        ⊎ ((stem : List ℕ) × (path.now ≡ stem ++ CHAIN_END.now))) }
{
    path.ends_with(KEEP_END) || path.ends_with(PROMISOR_END) || path.ends_with(CHAIN_END)
}

// Whether this is Git's directory of a chain of indexes.
fn is_chain_directory(rt: &HostRuntime, path: &str) -> bool
    ensures { IsTrue result → (stem : List ℕ) × (path.now ≡ stem ++ CHAIN_DIRECTORY.now) }
{
    path.ends_with(CHAIN_DIRECTORY) && metadata(rt, path).is_ok_and(|found| found.is_dir())
}

// Whether the name is that of a pack index, or the bytes begin as one of version 2. Fails if they
// cannot be read, except for bytes that are too few.
fn is_index<S: ReadAt>(rt: &HostRuntime, source: &S, path: &str) -> Result<bool, FileFailure>
    ensures named { (stem : List ℕ) → path.now ≡ stem ++ INDEX_END.now → result ≡ Ok true }
    ensures begun { (bytes : List ℕ) → S.content source.now ≡ Some bytes → result ≡ Ok true
        → ((stem : List ℕ) × (path.now ≡ stem ++ INDEX_END.now)) ⊎ IsReadAt bytes 0 MAGIC }
    ensures found { (bytes : List ℕ) → S.content source.now ≡ Some bytes
        → S.can_fail source.now ≡ false → IsReadAt bytes 0 MAGIC → result ≡ Ok true }
{
    if path.ends_with(INDEX_END) {
        return Ok(true);
    }
    let mut magic = [0; MAGIC.len()];
    match source.read_exact_at(&mut magic, 0) {
        Ok(()) => Ok(magic == MAGIC),
        Err(error) if error.kind() == io::ErrorKind::UnexpectedEof => Ok(false),
        Err(error) => Err(FileFailure::at(rt, path, FileWhy::Read(error))),
    }
}

// Whether the name is that of a multi-pack-index, or the bytes begin as one under another name than
// that of a pack index.
fn is_multi<S: ReadAt>(rt: &HostRuntime, source: &S, path: &str) -> Result<bool, FileFailure>
    ensures { (bytes : List ℕ) → S.content source.now ≡ Some bytes → result ≡ Ok true
        → (path_file_name path.now ≡ Some MULTI_NAME.now) ⊎ IsReadAt bytes 0 MULTI_MAGIC }
{
    let mut magic = [0; MULTI_MAGIC.len()];
    match source.read_exact_at(&mut magic, 0) {
        Ok(()) if magic == MULTI_MAGIC && !path.ends_with(INDEX_END) => Ok(true),
        Err(error) if error.kind() != io::ErrorKind::UnexpectedEof => {
            Err(FileFailure::at(rt, path, FileWhy::Read(error)))
        }
        _ => Ok(Path::new(path).file_name() == Some(MULTI_NAME)),
    }
}

// How a file ends: for the kind that is given or, if none is, for the kind whose digest it ends
// with, if there is one. A file that ends with its SHA-1 is hashed once, and any other file is read
// again for its SHA-256.
fn ending_in<R: io::Read + Seek>(
    rt: &HostRuntime,
    reader: &mut R,
    path: &str,
    kind: Option<Kind>,
) -> Result<Ending, FileFailure>
    ensures { IfOk result (λ ending. (bytes : List ℕ) × (read : _)
        × IsEndingFor read bytes ending) }
{
    let ending = ending_of(rt, reader, path, kind.or(Some(Kind::Sha1)))?;
    if kind.is_some() || is_sealed(&ending) {
        return Ok(ending);
    }
    if let Err(error) = reader.seek(SeekFrom::Start(0)) {
        return Err(FileFailure::at(rt, path, FileWhy::Read(error)));
    }
    let other = ending_of(rt, reader, path, Some(Kind::Sha256))?;
    Ok(if is_sealed(&other) { other } else { ending })
}

// Whether a file ends with its digest.
fn is_sealed(ending: &Ending) -> bool
    ensures { IsTrue result ↔ (id : _) × (ending.now ≡ Ending.Sealed id) }
{
    matches!(ending, Ending::Sealed(_))
}

// How the rest of a file ends: for the kind that is given or, if none is, for the kind whose digest
// it ends with.
fn ending_of<R: io::Read>(
    rt: &HostRuntime,
    reader: &mut R,
    path: &str,
    kind: Option<Kind>,
) -> Result<Ending, FileFailure>
    ensures { IfOk result (λ ending. (bytes : List ℕ) × IsEndingFor kind bytes ending) }
{
    let mut input = Plain::new(Retrying::new(reader));
    match check_as(&mut input, kind) {
        Ok(ending) => Ok(ending),
        Err(PipeError::TooMuch) => Err(FileFailure::at(rt, path, FileWhy::TooMuch)),
        Err(_) => Err(unread(rt, path, &input)),
    }
}

// How a source ends, for a kind or for either.
fn check_as<R: Source>(input: &mut R, kind: Option<Kind>) -> Result<Ending, PipeError>
    requires { R.has_failed input.old ≡ false }
    ensures { IfOk result (λ ending. (bytes : List ℕ)
        × HasReadAll (R.remaining input.old) (R.remaining input.new) bytes
        × IsEndingFor kind bytes ending) }
{
    match kind {
        Some(kind) => check_seal(input, kind),
        None => check_either(input),
    }
}

// The pack of a pack index, or `None` if there is none, or the file is not named as an index.
fn pack_beside(rt: &HostRuntime, path: &str) -> Result<Option<(String, File)>, FileFailure>
    ensures { IfOk result (λ pack. ForSome pack (λ found. (stem : List ℕ)
        × (path.now ≡ stem ++ INDEX_END.now) × (string_bytes found.0 ≡ stem ++ PACK_END.now))) }
{
    let Some(pack_path) = pack_path_of(rt.alloc(), path)? else {
        return Ok(None);
    };
    match open_regular(rt, &pack_path) {
        Ok(pack) => Ok(Some((pack_path, pack))),
        Err(FileWhy::Read(error)) if error.kind() == io::ErrorKind::NotFound => Ok(None),
        Err(why) => Err(FileFailure::at(rt, &pack_path, why)),
    }
}

// The path of the pack of a pack index, or `None` if the file is not named as an index.
fn pack_path_of(alloc: Global, path: &str) -> Result<Option<String>, AllocError>
    ensures { IfOk result (λ pack. MatchOption pack
        ((stem : List ℕ) → path.now ≢ stem ++ INDEX_END.now)
        (λ pack. (stem : List ℕ) × (path.now ≡ stem ++ INDEX_END.now)
        × (string_bytes pack ≡ stem ++ PACK_END.now))) }
{
    let Some(stem) = path.strip_suffix(INDEX_END) else {
        return Ok(None);
    };
    let mut pack = String::from_str(alloc, stem)?;
    pack.push_str(PACK_END)?;
    Ok(Some(pack))
}

// Opens a file, whose name is UTF-8.
fn open(rt: &HostRuntime, path: &str) -> Result<File, FileFailure>
    ensures { OnOk result ((text : List ℕ) → path.now ≢ text ++ (0 ∷ [])) }
{
    expect_text(rt, path)?;
    match open_regular(rt, path) {
        Ok(file) => Ok(file),
        Err(why) => Err(FileFailure::at(rt, path, why)),
    }
}

/// Opens a regular file, and nothing else: opening a pipe would wait for a writer.
pub(crate) fn open_regular(rt: &HostRuntime, path: &str) -> Result<File, FileWhy> {
    if !metadata(rt, path)?.is_file() {
        return Err(FileWhy::NotRegular);
    }
    Ok(File::open(rt, path)?)
}

// The failure of a file that cannot be read, by what its reads returned.
fn unread<R: io::Read>(rt: &HostRuntime, path: &str, input: &Plain<R>) -> FileFailure
    ensures { (error : _) → plain_error input.now ≡ Some error
        → IsAt (FileWhy.Read error) path.now result }
{
    let error = input.error().unwrap_or(io::ErrorKind::UnexpectedEof.into());
    FileFailure::at(rt, path, FileWhy::Read(error))
}

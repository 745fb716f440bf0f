//! The lines of a pack index, as `git show-index` prints them.

ghost use Rattle.std.specs.Prelude.{◌≡◌, ◌≢◌, ◌↔◌, ◌⊎◌, [], false, true, IfErr, IfOk, IfSome, IsErrOf, IsTrue, OnOk};
ghost use Rattle.std.specs.Io.KnownBytes.{Consumes, IsAtEnd};
ghost use Rattle.streams.specs.Streams.{Wrote};
ghost use Rattle.pack_index.specs.Format.{ids_in};
ghost use Rattle.packtool_commands.specs.Files.{HasShown, HasBegunShowing, IsFileRefusal, IsKindByLength, IsOpenedAs, IsRefusalAs, index_lines};
ghost use Rattle.packtool_commands.specs.declared.error.FileError.{FileError};

use crate::error::FileError;
use crate::line_buffer::{LINES_LEN, next_line_at, put_index_line};
use gix_hash::Kind;
use pack_index::File;
use pack_index::tables::check_tables;
use std::alloc::Allocator;
use streams::{CHUNK_LEN, Sink, Source, WriteFailed, write_all};

/// Reads a pack index of version 2 to its end, and writes a line for each of its ids, in their
/// order, as `git show-index` does: the object's offset in the pack, in decimal; a space; the id in
/// hex; a space; the CRC-32 of the packed object as eight hex digits in parentheses; and a line
/// feed. Returns whether there is one. If no kind is given, the ids may be of either.
///
/// Nothing is written before the input is known to be an index. [`FileError::Input`] is returned if
/// and only if a read fails, and [`FileError::Output`] if and only if a write fails, after a proper
/// beginning of the lines. Input and sink must not have failed before.
///
/// ```
/// let any = show(rt.alloc(), None, &mut input, &mut out)?;
/// println!(rt; "{any}")?;
/// ```
pub fn show<A: Allocator, R: Source, W: Sink>(
    alloc: A,
    kind: Option<Kind>,
    input: &mut R,
    out: &mut W,
) -> Result<bool, FileError>
    requires input { R.has_failed input.old ≡ false }
    requires output { W.has_failed out.old ≡ false }
    ensures shown { IfOk result (λ any. IfSome (R.remaining input.old) (λ bytes.
        HasShown kind bytes any (W.taken out.old) (W.taken out.new))) }
    ensures refused { IfErr result (λ e. IfSome (R.remaining input.old) (λ bytes.
        IsFileRefusal kind bytes e)) }
    ensures untouched { IfErr result (λ e. e ≢ FileError.Output → out.new ≡ out.old) }
    ensures input { IsErrOf result FileError.Input ↔ (R.has_failed input.new ≡ true) }
    ensures output { IsErrOf result FileError.Output ↔ (W.has_failed out.new ≡ true) }
    ensures part { IsErrOf result FileError.Output → IfSome (R.remaining input.old) (λ bytes.
        HasBegunShowing kind bytes (W.taken out.old) (W.taken out.new)) }
{
    let bytes = read_all(alloc, input)?;
    let file = open_index(&bytes, kind)?;
    write_lines(&file, out)?;
    Ok(has_names(&file))
}

// Whether an index has an id.
fn has_names(file: &File<'_>) -> bool
    ensures { IsTrue result ↔ (ids_in file.now.kind file.now.bytes ≢ []) }
{
    file.num_objects() > 0
}

/// Takes the bytes as a pack index of version 2 with ids of a kind. If no kind is given, the ids
/// may be of either. The error is then that of an index with ids of SHA-256 if the bytes are as
/// many as such an index has, and otherwise that of an index with ids of SHA-1.
///
/// ```
/// let file = open_index(content, None)?;
/// println!(rt; "{} ids of the kind {}", file.num_objects(), file.object_hash())?;
/// ```
pub fn open_index(bytes: &[u8], kind: Option<Kind>) -> Result<File<'_>, pack_index::Error>
    ensures ok { IfOk result (IsOpenedAs kind bytes.now) }
    ensures err { IfErr result (IsRefusalAs kind bytes.now) }
{
    match kind {
        Some(kind) => File::try_new(bytes, kind),
        None => match File::try_new(bytes, kind_by_length(bytes)) {
            Err(pack_index::Error::OtherKind(kind)) => File::try_new(bytes, kind),
            opened => opened,
        },
    }
}

// The kind of the ids of an index, by its length.
fn kind_by_length(bytes: &[u8]) -> Kind
    ensures { IsKindByLength bytes.now result }
{
    match check_tables(bytes, Kind::Sha256) {
        Ok(()) | Err(pack_index::Error::Version1) => Kind::Sha256,
        Err(_) => Kind::Sha1,
    }
}

// Writes the lines of an index. This function is not inlined, so that they are on the stack only
// while it runs.
#[inline(never)]
fn write_lines<W: Sink>(file: &File<'_>, out: &mut W) -> Result<(), WriteFailed>
    requires { W.has_failed out.old ≡ false }
    ensures { Wrote W.taken W.has_failed out.old out.new result
        (index_lines file.now.kind file.now.bytes) }
{
    let mut lines = [0; LINES_LEN];
    let mut end = 0;
    let count = file.num_objects();
    for index in 0..count {
        let at = next_line_at(&lines, end, out)?;
        end = put_index_line(&mut lines, at, file, index);
    }
    write_all(out, &lines[..end])
}

// Reads the source to its end. This function is not inlined, so that the chunk is on the stack only
// while it runs.
#[inline(never)]
fn read_all<A: Allocator, R: Source>(alloc: A, input: &mut R) -> Result<Vec<u8, A>, FileError>
    requires { R.has_failed input.old ≡ false }
    ensures all { IfOk result (λ text. Consumes (R.remaining input.old)
        (R.remaining input.new) text.items) }
    ensures end { OnOk result (IsAtEnd (R.remaining input.new)) }
    ensures refused { IfErr result (λ e. (e ≡ FileError.Memory) ⊎ (e ≡ FileError.Input)) }
    ensures memory { IsErrOf result FileError.Memory
        → IfSome (R.remaining input.old) (λ bytes. bytes ≢ []) }
    ensures input { IsErrOf result FileError.Input ↔ (R.has_failed input.new ≡ true) }
{
    let mut text = Vec::new(alloc);
    let mut chunk = [0; CHUNK_LEN];
    'chunks: loop {
        let Ok(count) = input.read(&mut chunk) else {
            return Err(FileError::Input);
        };
        if count == 0 {
            return Ok(text);
        }
        text.extend_from_slice(&chunk[..count])?;
    }
}

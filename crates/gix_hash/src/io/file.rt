//! The digest of the first bytes of a file.

ghost use Rattle.std.specs.Prelude.{◌≡◌, ℕ, List, length, IfOk, OnOk, IfErr};
ghost use Rattle.gix_hash.specs.Hashing.{FileStopsWith, Reaches, all_false, chunks, digest, heard_all};
ghost use Rattle.gix_hash.specs.Ids.{id_kind};

use super::stream::bytes;
use super::{Error, Interrupt, Progress};
use crate::kind::Kind;
use crate::object_id::ObjectId;
use std::fs;
use std::path::Path;
use std::rt::Files;

/// The digest of the first `num_bytes_from_start` bytes of the file at `path`, which are read as
/// [`bytes`](crate::bytes) reads them.
///
/// The file is opened first. If that fails, neither `progress` nor `should_interrupt` is called,
/// and [`Error::Io`] is returned, as it is if the file has fewer bytes or can't be read. Opening
/// may allocate.
pub fn bytes_of_file<F: Files, P: Progress, I: Interrupt>(
    rt: &F,
    path: Path<'_>,
    num_bytes_from_start: u64,
    kind: Kind,
    progress: &mut P,
    should_interrupt: &mut I,
) -> Result<ObjectId, Error>
    ensures digest { IfOk result (λ id. (bytes : List ℕ) × (length bytes ≡ num_bytes_from_start)
        × (id ≡ digest kind bytes)) }
    ensures kind { IfOk result (λ id. id_kind id ≡ kind) }
    ensures heard { OnOk result (Reaches P.hears progress.old
        (heard_all num_bytes_from_start) progress.new) }
    ensures asked { OnOk result (Reaches I.answers should_interrupt.old
        (all_false (length (chunks num_bytes_from_start))) should_interrupt.new) }
    ensures err { IfErr result (λ e. FileStopsWith e num_bytes_from_start
        (λ calls. Reaches P.hears progress.old calls progress.new)
        (λ answers. Reaches I.answers should_interrupt.old answers should_interrupt.new)) }
{
    let mut file = fs::open(rt, path).map_err(Error::Io)?;
    bytes(
        &mut file,
        num_bytes_from_start,
        kind,
        progress,
        should_interrupt,
    )
}

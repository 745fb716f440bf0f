//! A pack index over its bytes.

ghost use Rattle.std.specs.Prelude.{◌≡◌, ◌≢◌, ◌↔◌, ◌+◌, ◌<◌, ℕ, [], Err, IfErr, IfOk, IsOk, MatchOption, length, slice_index_or, slice_range, IfSome, IsNone, List, OnOk, HoldsAt};
ghost use Rattle.id_lookup.specs.Words.{IsAnswer, IsRun, IsShortestAbbreviation, oid_bytes, oid_digits};
ghost use Rattle.pack_index.specs.Format.{IsFault, IsFirstIndexOf, IsPackIndex, IsRefusal, crc_in, digest_at, ids_in, offset_in, other_than, tables_end};

use crate::checks::{check_tables, first_wrong_count, other_than};
use crate::digests::{SortedDigests, all_digits};
use crate::error::Error;
use crate::offsets::check_offsets;
use crate::words::{IDS_START, crc_in, crc_table_start, digest_at, offset_in, tables_end};
use gix_hash::{Kind, Prefix, ends_in_digest, oid};
use id_lookup::{Answer, FanOut, Run, laws};
use std::marker::Model;

/// A pack index of Git, of version 2 (gitformat-pack), over its bytes.
///
/// ```
/// let file = File::try_new(content, Kind::Sha1)?;
/// if let Some(at) = file.lookup(id.as_oid()) {
///     println!(rt; "at byte {} of the pack", file.pack_offset_at_index(at))?;
/// }
/// ```
#[derive(Drop)]
pub struct File<'a> {
    bytes: &'a [u8],
    kind: Kind,
    ids: SortedDigests<'a>,
    // The file's own counts.
    fan_out: FanOut,
}

impl<'a> Model for File<'a> {
    ghost use Rattle.std.specs.Prelude.{◌≡◌};
    ghost use Rattle.id_lookup.specs.Words.{IsFanOut};
    ghost use Rattle.pack_index.specs.Format.{IndexFile, IsPackIndex, list_of, ids_in};

    ghost Value = { IndexFile };

    ghost view = { λ file. record { kind = file.kind; bytes = file.bytes.now } };

    ghost invariant = { λ file. IsPackIndex file.kind file.bytes.now
        × (list_of file.ids ≡ ids_in file.kind file.bytes.now)
        × IsFanOut file.fan_out (ids_in file.kind file.bytes.now) };
}

impl<'a> File<'a> {
    /// Checks `bytes` as a pack index of version 2 with ids of `kind`, whole: header, lengths,
    /// order, fan-out table, offsets and checksum. Returns the first [`Error`] that applies,
    /// `OtherKind` before all.
    ///
    /// It reads and hashes all bytes, and once more for the other kind if they are no index of this
    /// one.
    pub fn try_new(bytes: &'a [u8], kind: Kind) -> Result<File<'a>, Error>
        ensures ok { IfOk result (λ file. file ≡ record { kind = kind; bytes = bytes.now }) }
        ensures accepted { IsOk result ↔ IsPackIndex kind bytes.now }
        ensures other_kind { result ≡ Err (Error.OtherKind (other_than kind))
            ↔ ¬ IsPackIndex kind bytes.now × IsPackIndex (other_than kind) bytes.now }
        ensures err { IfErr result (IsRefusal kind bytes.now) }
    {
        match File::checked(bytes, kind) {
            Ok(file) => Ok(file),
            Err(error) => Err(error_or_other(bytes, kind, error)),
        }
    }

    // As `try_new`, but without a test of whether the bytes are an index of the other kind.
    fn checked(bytes: &'a [u8], kind: Kind) -> Result<File<'a>, Error>
        ensures ok { IfOk result (λ file. file ≡ record { kind = kind; bytes = bytes.now }) }
        ensures index { OnOk result (IsPackIndex kind bytes.now) }
        ensures err { IfErr result (IsFault kind bytes.now) }
    {
        check_tables(bytes, kind)?;
        let table = &bytes[IDS_START..crc_table_start(bytes, kind)];
        let ids = match SortedDigests::try_new(table, kind) {
            Ok(ids) => ids,
            Err(unsorted) => return Err(Error::IdsFall(unsorted.at)),
        };
        let fan_out = ids.fan_out();
        if let Some(byte) = first_wrong_count(bytes, &fan_out, kind) {
            return Err(Error::WrongCount(byte));
        }
        check_offsets(bytes, kind)?;
        if !ends_in_digest(kind, bytes) {
            return Err(Error::WrongChecksum);
        }
        Ok(File {
            bytes,
            kind,
            ids,
            fan_out,
        })
    }

    /// The kind of the ids.
    pub fn object_hash(&self) -> Kind
        ensures kind { result ≡ self.now.kind }
        ensures index { IsPackIndex self.now.kind self.now.bytes }
    {
        self.kind
    }

    /// The number of objects.
    pub fn num_objects(&self) -> usize
        ensures { result ≡ length (ids_in self.now.kind self.now.bytes) }
    {
        self.ids.len()
    }

    /// The id of object `at`, which must be below `num_objects()`.
    pub fn oid_at_index(&self, at: usize) -> oid<'_>
        requires { at < length (ids_in self.now.kind self.now.bytes) }
        ensures { HoldsAt (λ id. oid_digits result ≡ id)
            (ids_in self.now.kind self.now.bytes) at }
    {
        self.ids.get(at)
    }

    /// The offset of object `at` in the pack, in bytes. `at` must be below `num_objects()`.
    pub fn pack_offset_at_index(&self, at: usize) -> u64
        requires { at < length (ids_in self.now.kind self.now.bytes) }
        ensures { result ≡ offset_in self.now.kind self.now.bytes at }
    {
        offset_in(self.bytes, self.kind, at)
    }

    /// The CRC-32 of object `at`, as stored in the pack. `at` must be below `num_objects()`.
    pub fn crc32_at_index(&self, at: usize) -> u32
        requires { at < length (ids_in self.now.kind self.now.bytes) }
        ensures { result ≡ crc_in self.now.kind self.now.bytes at }
    {
        crc_in(self.bytes, self.kind, at)
    }

    /// The run of exactly the ids that begin with a prefix, by [`lookup_in`](id_lookup::lookup_in)
    /// over the file's own fan-out table.
    ///
    /// The prefix must have the index's kind. An id that occurs twice is two members of the run. No
    /// clause says how many ids are compared, here and by the calls that look up in this run.
    ///
    /// ```
    /// let file = File::try_new(content, prefix.as_oid().kind())?;
    /// let run = file.find_prefix(&prefix);
    /// for at in run.start..run.end {
    ///     println!(rt; "{}", file.oid_at_index(at))?;
    /// }
    /// ```
    pub fn find_prefix(&self, prefix: &Prefix) -> Run
        requires { prefix.now.kind ≡ self.now.kind }
        ensures { IsRun prefix.now (ids_in self.now.kind self.now.bytes) result }
    {
        // Its contract says that the prefix has at most as many digits as its kind.
        let _hex_len = prefix.hex_len();
        self.ids.find(&self.fan_out, prefix)
    }

    /// Which ids begin with a prefix: none, one, or a run of more. The prefix must have the index's
    /// kind.
    ///
    /// ```
    /// let file = File::try_new(content, prefix.as_oid().kind())?;
    /// match file.lookup_prefix(&prefix) {
    ///     id_lookup::Answer::None => println!(rt; "missing")?,
    ///     id_lookup::Answer::One(at) => println!(rt; "{}", file.oid_at_index(at))?,
    ///     id_lookup::Answer::Many(_) => println!(rt; "ambiguous")?,
    /// }
    /// ```
    pub fn lookup_prefix(&self, prefix: &Prefix) -> Answer
        requires { prefix.now.kind ≡ self.now.kind }
        ensures { IsAnswer prefix.now (ids_in self.now.kind self.now.bytes) result }
    {
        let run = self.find_prefix(prefix);
        match run.end - run.start {
            0 => Answer::None,
            1 => Answer::One(run.start),
            _ => Answer::Many(run),
        }
    }

    /// The position of an id, the first one if it occurs more than once, or `None` if it does not
    /// occur.
    pub fn lookup(&self, id: oid<'_>) -> Option<usize>
        ensures { let ids = ids_in self.now.kind self.now.bytes in
            MatchOption result ((k : ℕ) → k < length ids
            → slice_index_or ids k [] ≢ oid_digits id.entry)
            (IsFirstIndexOf ids (oid_digits id.entry)) }
    {
        if id.kind() != self.kind {
            return None;
        }
        let prefix = all_digits(id);
        laws::beginnings(&prefix);
        let run = self.find_prefix(&prefix);
        if run.start == run.end {
            return None;
        }
        Some(run.start)
    }

    /// The abbreviation of object `at`, which must be below `num_objects()`: its shortest prefix of
    /// at least 4 digits that no other id begins with. An id that occurs twice has none.
    ///
    /// ```
    /// let file = File::try_new(content, Kind::Sha1)?;
    /// for at in 0..file.num_objects() {
    ///     if let Some(short) = file.abbreviate(at) {
    ///         println!(rt; "{short} {}", file.oid_at_index(at))?;
    ///     }
    /// }
    /// ```
    pub fn abbreviate(&self, at: usize) -> Option<Prefix>
        requires { at < length (ids_in self.now.kind self.now.bytes) }
        ensures kind { IfSome result (λ short. short.kind ≡ self.now.kind) }
        ensures abbreviation { IfSome result (λ short. IsShortestAbbreviation
            (ids_in self.now.kind self.now.bytes) at short.digits) }
        ensures run { IfSome result (λ short. IsRun short (ids_in self.now.kind self.now.bytes)
            (record { start = at; end = at + 1 })) }
        ensures none { IsNone result → (short : List ℕ)
            → ¬ IsShortestAbbreviation (ids_in self.now.kind self.now.bytes) at short }
    {
        self.ids.abbreviate(at)
    }

    /// The digest of the pack, as it is stored in the index.
    pub fn pack_checksum(&self) -> oid<'a>
        ensures { oid_bytes result ≡ slice_range self.now.bytes
            (tables_end self.now.kind self.now.bytes) (digest_at self.now.kind self.now.bytes) }
    {
        let kind = self.kind;
        let bytes = self.bytes;
        oid::from_bytes_unchecked(&bytes[tables_end(bytes, kind)..digest_at(bytes, kind)])
    }
}

// Why bytes that are not an index of a kind are rejected: as one of the other kind, or by the
// error.
fn error_or_other(bytes: &[u8], kind: Kind, error: Error) -> Error
    requires { IsFault kind bytes.now error }
    ensures { IsRefusal kind bytes.now result }
{
    let other = other_than(kind);
    match File::checked(bytes, other) {
        Ok(_) => Error::OtherKind(other),
        Err(_) => error,
    }
}

//! The ids of a pack index, which are of one kind.

ghost use Rattle.std.specs.Prelude.{◌≡◌, ◌↔◌, ◌+◌, ◌<◌, ◌≤◌, ℕ, [], List, IfErr, IfOk, IfSome, IsNone, IsOk, length, slice_index_or, HoldsAt};
ghost use Rattle.id_lookup.specs.Words.{IsFanOut, IsFirstUnsorted, IsRun, IsShortestAbbreviation, IsSortedIds, hex_len_of, least_hex_len, oid_digits, oid_kind};
ghost use Rattle.pack_index.specs.Format.{digests_in, list_of};

use gix_hash::{Kind, Prefix, oid};
use id_lookup::{FanOut, Id, Probes, Run, SortedIds, Unsorted, lookup_in};

// A sorted list of digests of a kind.
#[derive(Drop)]
pub(crate) enum SortedDigests<'a> {
    Sha1(SortedIds<'a, [u8; 20]>),
    Sha256(SortedIds<'a, [u8; 32]>),
}

impl<'a> SortedDigests<'a> {
    // The digests of a kind that the bytes contain, one after the other.
    pub(crate) fn try_new(bytes: &'a [u8], kind: Kind) -> Result<SortedDigests<'a>, Unsorted>
        ensures list { IfOk result (λ ids. list_of ids ≡ digests_in kind bytes.now) }
        ensures sorted { IsOk result ↔ IsSortedIds (digests_in kind bytes.now) }
        ensures err { IfErr result (λ e. IsFirstUnsorted (digests_in kind bytes.now) e.at) }
    {
        match kind {
            Kind::Sha1 => Ok(SortedDigests::Sha1(SortedIds::try_new(bytes.as_chunks().0)?)),
            Kind::Sha256 => Ok(SortedDigests::Sha256(SortedIds::try_new(bytes.as_chunks().0)?)),
        }
    }

    pub(crate) fn len(&self) -> usize
        ensures { result ≡ length (list_of self.now) }
    {
        match self {
            SortedDigests::Sha1(ids) => ids.len(),
            SortedDigests::Sha256(ids) => ids.len(),
        }
    }

    pub(crate) fn get(&self, at: usize) -> oid<'_>
        requires { at < length (list_of self.now) }
        ensures { HoldsAt (λ id. oid_digits result ≡ id) (list_of self.now) at }
    {
        match self {
            SortedDigests::Sha1(ids) => ids.get(at).as_oid(),
            SortedDigests::Sha256(ids) => ids.get(at).as_oid(),
        }
    }

    pub(crate) fn fan_out(&self) -> FanOut
        ensures { IsFanOut result (list_of self.now) }
    {
        match self {
            SortedDigests::Sha1(ids) => FanOut::of(ids.members()),
            SortedDigests::Sha256(ids) => FanOut::of(ids.members()),
        }
    }

    // The abbreviation of the member at a position, if it has one.
    pub(crate) fn abbreviate(&self, at: usize) -> Option<Prefix>
        requires { at < length (list_of self.now) }
        ensures kind { IfSome result (λ short. hex_len_of short.kind
            ≡ length (slice_index_or (list_of self.now) at [])) }
        ensures abbreviation { IfSome result (λ short. IsShortestAbbreviation (list_of self.now) at
            short.digits) }
        ensures run { IfSome result (λ short. IsRun short (list_of self.now)
            (record { start = at; end = at + 1 })) }
        ensures none { IsNone result → (short : List ℕ)
            → ¬ IsShortestAbbreviation (list_of self.now) at short }
    {
        match self {
            SortedDigests::Sha1(ids) => ids.abbreviate_from(at, Prefix::MIN_HEX_LEN),
            SortedDigests::Sha256(ids) => ids.abbreviate_from(at, Prefix::MIN_HEX_LEN),
        }
    }

    // The run of a prefix, among the ids with its first byte.
    pub(crate) fn find(&self, fan_out: &FanOut, prefix: &Prefix) -> Run
        requires fan_out { IsFanOut fan_out.now (list_of self.now) }
        requires enough_digits { length prefix.now.digits ≤ least_hex_len (list_of self.now) }
        ensures { IsRun prefix.now (list_of self.now) result }
    {
        match self {
            SortedDigests::Sha1(ids) => lookup_in(fan_out, &mut Probes::new(ids, *prefix)),
            SortedDigests::Sha256(ids) => lookup_in(fan_out, &mut Probes::new(ids, *prefix)),
        }
    }
}

// The prefix of all digits of an id.
pub(crate) fn all_digits(id: oid<'_>) -> Prefix
    ensures { result ≡ record { kind = oid_kind id.entry; digits = oid_digits id.entry } }
{
    let kind = id.kind();
    Prefix::new(id, kind.len_in_hex()).unwrap()
}

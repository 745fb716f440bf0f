//! Lists of ids of one kind in strictly increasing order.

ghost use Rattle.std.specs.Prelude.{◌≡◌, ◌↔◌, ◌+◌, ◌-◌, ◌<◌, ◌≤◌, [], All, AllPairs, IfOk, IfErr, IsOk, IsTrue, length, map, slice_get, slice_index_or};
ghost use Rattle.std.specs.Cmp.Lexicographic.{slice_cmp};
ghost use Rattle.std.specs.Ordering.{nat_cmp};
ghost use Rattle.std.specs.declared.cmp.Ordering.{Ordering};
ghost use Rattle.gix_hash.specs.Words.{hex_len_of};
ghost use Rattle.id_lookup.specs.Runs.{IsFanOut, IsRun, matches};
ghost use Rattle.id_lookup.specs.Indexes.{IsAnswer, IsFirstIndexError, IsIndex, IsShortestAbbreviation, IsShortestAbbreviationFrom};

use crate::abbreviations::shortest_abbreviation;
use crate::fan_out::FanOut;
use crate::ids::{Id, id_at};
use crate::probes::Probes;
use crate::search::{Run, lookup_in};
use gix_hash::{Kind, ObjectId, Prefix};
use std::error::Error;
use std::fmt;
use std::marker::Model;

/// A list of ids of one kind in strictly increasing order, with its fan-out table.
///
/// It does not allocate. It contains the table of 256 numbers, so it takes more than 2 KiB by
/// value.
///
/// ```
/// let index = IdIndex::try_new(&list, Kind::Sha1)?;
/// println!(rt; "the first id is {} for short", index.abbreviate(0))?;
/// ```
#[derive(Drop)]
pub struct IdIndex<'a, I: Id = ObjectId> {
    ids: &'a [I],
    kind: Kind,
    fan_out: FanOut,
}

impl<'a, I: Id> Model for IdIndex<'a, I> {
    ghost use Rattle.std.specs.Prelude.{◌≡◌, All, map};
    ghost use Rattle.id_lookup.specs.Runs.{IsFanOut};
    ghost use Rattle.id_lookup.specs.Indexes.{Index, IsIndex};

    ghost Value = { Index };

    ghost view = { λ index. record { kind = index.kind; ids = map I.digits index.ids.now } };

    ghost invariant = { λ index. IsIndex index.kind (map I.digits index.ids.now)
        × IsFanOut index.fan_out (map I.digits index.ids.now)
        × All (λ id. I.kind id ≡ index.kind) index.ids.now };
}

impl<'a, I: Id> IdIndex<'a, I> {
    /// Makes an index of a list of ids of `kind`, and looks at each of them. The error has the
    /// position of the first id that is of the other kind ([`IndexError::WrongKind`]), or of the
    /// kind but not above the previous one ([`IndexError::NotRising`]).
    pub fn try_new(ids: &'a [I], kind: Kind) -> Result<IdIndex<'a, I>, IndexError>
        ensures ok { IfOk result (λ index. index
            ≡ record { kind = kind; ids = map I.digits ids.now }) }
        ensures index { IsOk result ↔ IsIndex kind (map I.digits ids.now) }
        ensures err { IfErr result (IsFirstIndexError kind (map I.digits ids.now)) }
    {
        for at in 0..ids.len() {
            if id_at(ids, at).kind() != kind {
                return Err(IndexError::WrongKind { at });
            }
            if !is_above_previous(ids, at) {
                return Err(IndexError::NotRising { at });
            }
        }
        Ok(IdIndex {
            ids,
            kind,
            fan_out: FanOut::of(ids),
        })
    }

    /// The kind of each id.
    pub fn kind(&self) -> Kind
        ensures { result ≡ self.now.kind }
    {
        self.kind
    }

    /// The number of ids. Each is above all before it.
    pub fn len(&self) -> usize
        ensures value { result ≡ length self.now.ids }
        ensures index { IsIndex self.now.kind self.now.ids }
        ensures in_order { AllPairs (λ a b. slice_cmp nat_cmp a b ≡ Ordering.Less) self.now.ids }
    {
        self.ids.len()
    }

    /// Whether there is no id.
    pub fn is_empty(&self) -> bool
        ensures { IsTrue result ↔ (length self.now.ids ≡ 0) }
    {
        self.ids.is_empty()
    }

    /// The id at position `at`, which must be below `len()`.
    pub fn get(&self, at: usize) -> &I
        requires { at < length self.now.ids }
        ensures value { slice_get self.now.ids at ≡ Some (I.digits result.now) }
        ensures kind { I.kind result.now ≡ self.now.kind }
    {
        let ids = self.ids;
        &ids[at]
    }

    /// The ids, in order.
    pub fn members(&self) -> &'a [I]
        ensures value { map I.digits result.now ≡ self.now.ids }
        ensures kinds { All (λ id. I.kind id ≡ self.now.kind) result.now }
    {
        self.ids
    }

    /// The fan-out table: for each byte, how many ids have at most that first byte.
    pub fn fan_out(&self) -> &FanOut
        ensures { IsFanOut result.now self.now.ids }
    {
        &self.fan_out
    }

    /// New probes of the list by a prefix, which must have the index's kind.
    pub fn probes(&self, prefix: &Prefix) -> Probes<'a, I>
        requires { prefix.now.kind ≡ self.now.kind }
        ensures { result ≡ record { ids = self.now.ids; prefix = prefix.now; asked = 0 } }
    {
        // Its contract says that the prefix has at most as many digits as its kind.
        let _hex_len = prefix.hex_len();
        Probes::over(self.ids, *prefix)
    }

    /// Which members begin with a prefix: none, one, or a run of more.
    ///
    /// The prefix must have the index's kind.
    pub fn find(&self, prefix: &Prefix) -> Answer
        requires { prefix.now.kind ≡ self.now.kind }
        ensures { IsAnswer prefix.now self.now.ids result }
    {
        let run = lookup_in(&self.fan_out, &mut self.probes(prefix));
        match run.end - run.start {
            0 => Answer::None,
            1 => Answer::One(run.start),
            _ => Answer::Many(run),
        }
    }

    /// Exactly the members that begin with a prefix, in the list's order.
    ///
    /// The prefix must have the index's kind.
    pub fn matches(&self, prefix: &Prefix) -> &'a [I]
        requires { prefix.now.kind ≡ self.now.kind }
        ensures value { map I.digits result.now ≡ matches prefix.now.digits self.now.ids }
        ensures kinds { All (λ id. I.kind id ≡ self.now.kind) result.now }
    {
        let run = lookup_in(&self.fan_out, &mut self.probes(prefix));
        let ids = self.ids;
        &ids[run.start..run.end]
    }

    /// The abbreviation of the member at position `at`, which must be below `len()`: its shortest
    /// prefix of at least 4 digits that no other member begins with. Only its two neighbours are
    /// compared with it.
    pub fn abbreviate(&self, at: usize) -> Prefix
        requires { at < length self.now.ids }
        ensures kind { result.kind ≡ self.now.kind }
        ensures abbreviation { IsShortestAbbreviation self.now.ids at result.digits }
        ensures run { IsRun result self.now.ids (record { start = at; end = at + 1 }) }
    {
        self.abbreviate_from(at, Prefix::MIN_HEX_LEN)
    }

    /// Does the same as [`IdIndex::abbreviate`], for an abbreviation of at least `least` digits.
    /// `least` must be at least 4, and at most as many as an id of the kind has.
    #[inline(always)]
    pub fn abbreviate_from(&self, at: usize, least: usize) -> Prefix
        requires in_range { at < length self.now.ids }
        requires enough { 4 ≤ least }
        requires fits { least ≤ hex_len_of self.now.kind }
        ensures kind { result.kind ≡ self.now.kind }
        ensures abbreviation { IsShortestAbbreviationFrom least self.now.ids at result.digits }
        ensures run { IsRun result self.now.ids (record { start = at; end = at + 1 }) }
    {
        abbreviate_in(self.ids, self.kind, at, least)
    }
}

/// The abbreviation of the member at position `at` of a list, which must be below its length, as
/// [`IdIndex::abbreviate_from`] returns it. The list must be an index of the kind, as
/// [`sort_unique`] makes one; only the member and its two neighbours are looked at.
///
/// [`sort_unique`]: crate::sort_unique
///
/// ```
/// sort_unique(&mut ids);
/// let run = find_assuming_sorted(&ids, &prefix);
/// if run.start < run.end {
///     println!(rt; "{}", abbreviate_in(&ids, kind, run.start, 4))?;
/// }
/// ```
#[inline(always)]
pub fn abbreviate_in<I: Id>(ids: &[I], kind: Kind, at: usize, least: usize) -> Prefix
    requires in_range { at < length ids.now }
    requires index { IsIndex kind (map I.digits ids.now) }
    requires enough { 4 ≤ least }
    requires fits { least ≤ hex_len_of kind }
    ensures kind { result.kind ≡ kind }
    ensures abbreviation { IsShortestAbbreviationFrom least (map I.digits ids.now) at
        result.digits }
{
    shortest_abbreviation(ids, at, least).unwrap()
}

// Whether the id at a position is above the previous one, if there is one.
fn is_above_previous<I: Id>(ids: &[I], at: usize) -> bool
    requires { at < length ids.now }
    ensures { let digits = map I.digits ids.now in
        IsTrue result ↔ (0 < at → slice_cmp nat_cmp (slice_index_or digits (at - 1) [])
        (slice_index_or digits at []) ≡ Ordering.Less) }
{
    at == 0 || id_at(ids, at - 1) < id_at(ids, at)
}

/// Why a list is not an index of a kind.
///
/// ```
/// // No id is above itself.
/// let twice = [id, id];
/// let why = IdIndex::try_new(&twice, id.kind());
/// assert!(rt; matches!(why, Err(IndexError::NotRising { at: 1 })));
/// ```
#[derive(Clone, Copy, PartialEq, Eq, Debug)]
pub enum IndexError {
    /// An id is of the other kind.
    WrongKind {
        /// The position of that id, the first that is rejected.
        at: usize,
    },
    /// An id is not above the previous one.
    NotRising {
        /// The position of that id, the first that is rejected.
        at: usize,
    },
}

impl fmt::Display for IndexError {
    fn fmt<W: fmt::Write>(&self, f: &mut fmt::Formatter<W>) -> fmt::Result {
        match *self {
            IndexError::WrongKind { at } => {
                write!(f, "the id at position {at} is of the other kind")
            }
            IndexError::NotRising { at } => {
                write!(f, "the id at position {at} is not above the one before it")
            }
        }
    }
}

impl Error for IndexError {}

/// Which members of an index begin with a prefix.
///
/// ```
/// match index.find(&prefix) {
///     Answer::None => println!(rt; "no id")?,
///     Answer::One(at) => println!(rt; "{}", list[at])?,
///     Answer::Many(run) => println!(rt; "{} ids", run.end - run.start)?,
/// }
/// ```
#[derive(Clone, Copy, PartialEq, Eq, Debug)]
pub enum Answer {
    /// No member.
    None,
    /// Only the member at this position.
    One(usize),
    /// The members of a run of two or more.
    Many(Run),
}

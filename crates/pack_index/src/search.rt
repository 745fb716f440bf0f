//! A search among the ids of a pack index that reads only those that it compares.

ghost use Rattle.std.specs.Prelude.{◌≡◌, ◌^◌, ◌<◌, ◌≤◌, ℕ, List, Some, [], IfOk, IfSome, IsTrue, OnErr, length, slice_index_or, take};
ghost use Rattle.id_lookup.specs.Words.{hex_len_of, place};
ghost use Rattle.pack_index.specs.Lazy.{AreFront, AreWithin, end_of, ids_of};

use crate::front::Front;
use crate::layout::IdTable;
use gix_hash::{Kind, Prefix};
use id_lookup::{Id, Run};
use std::cmp::Ordering;
use std::io;
use streams::ReadAt;

// A part is narrowed further on a side of the ids that begin with the prefix only if it has more
// ids than this there.
const FEW_IDS: usize = 4;

// At most this many ids are compared.
const MAX_TURNS: usize = 128;

/// A part of a run that has all ids of it that begin with a prefix, if the run is sorted. It has no
/// others if none begins with it, and otherwise a few, if so many comparisons suffice.
pub(crate) fn narrowed<S: ReadAt>(
    source: &S,
    ids: IdTable,
    prefix: &Prefix,
    run: Run,
) -> io::Result<Run>
    requires fits { length prefix.now.digits ≤ hex_len_of ids.kind }
    requires inside { run.end ≤ ids.count }
    requires room { end_of ids < 2 ^ 64 }
    requires in_order { run.start ≤ run.end }
    requires known { (bytes : List ℕ) → S.content source.now ≡ Some bytes
        → end_of ids ≤ length bytes }
    ensures from { IfOk result (λ part. run.start ≤ part.start) }
    ensures in_order { IfOk result (λ part. part.start ≤ part.end) }
    ensures to { IfOk result (λ part. part.end ≤ run.end) }
    ensures all { IfOk result (λ part. (bytes : List ℕ) → S.content source.now ≡ Some bytes
        → AreWithin (ids_of ids bytes) prefix.now.digits run.start run.end part.start part.end) }
    ensures err { OnErr result ((bytes : List ℕ) → S.content source.now ≡ Some bytes
        → IsTrue (S.can_fail source.now)) }
{
    let front = Front::of(prefix);
    let mut positions = Positions::around(&front, &run);
    let mut part = run;
    for _turn in 0..MAX_TURNS {
        let Some(at) = positions.next(&part) else {
            break;
        };
        match place_at(source, ids, prefix, &front, at)? {
            Ordering::Greater => part.start = at + 1,
            Ordering::Less => part.end = at,
            Ordering::Equal => positions.found(at),
        }
    }
    Ok(part)
}

// How a prefix compares with the id at a position. The whole id is read only if its first 8 bytes
// do not decide.
fn place_at<S: ReadAt>(
    source: &S,
    ids: IdTable,
    prefix: &Prefix,
    front: &Front,
    at: usize,
) -> io::Result<Ordering>
    requires front { AreFront (take 16 prefix.now.digits) front.now }
    requires fits { length prefix.now.digits ≤ hex_len_of ids.kind }
    requires inside { at < ids.count }
    requires room { end_of ids < 2 ^ 64 }
    requires known { (bytes : List ℕ) → S.content source.now ≡ Some bytes
        → end_of ids ≤ length bytes }
    ensures place { IfOk result (λ o. (bytes : List ℕ) → S.content source.now ≡ Some bytes
        → o ≡ place prefix.now.digits (slice_index_or (ids_of ids bytes) at [])) }
    ensures err { OnErr result ((bytes : List ℕ) → S.content source.now ≡ Some bytes
        → IsTrue (S.can_fail source.now)) }
{
    let start = ids.start_of(at);
    let mut first = [0; 8];
    source.read_exact_at(&mut first, start)?;
    match front.place(&first) {
        Ordering::Equal => match ids.kind {
            Kind::Sha1 => {
                let mut id = [0; 20];
                source.read_exact_at(&mut id, start)?;
                Ok(prefix.cmp_oid(Id::as_oid(&id)))
            }
            Kind::Sha256 => {
                let mut id = [0; 32];
                source.read_exact_at(&mut id, start)?;
                Ok(prefix.cmp_oid(Id::as_oid(&id)))
            }
        },
        order => Ok(order),
    }
}

// Which positions of a run are compared: first the one where the prefix is expected, then those
// before or after it, each time twice as far away as before, and then the middle of what is left.
#[derive(Drop)]
struct Positions {
    // The next positions before and after the expected one, and how far the next step goes.
    low: usize,
    high: usize,
    step: usize,
    // The first and the last position at which an id was found that begins with the prefix.
    found: Option<(usize, usize)>,
}

impl Positions {
    // Those around the position that the prefix has if the ids of the run are spread evenly. It is
    // then some half of the square root of their number away, which is the first step.
    fn around(front: &Front, run: &Run) -> Positions {
        let count = run.end.saturating_sub(run.start);
        let expected = run.start.saturating_add(front.count_before(count));
        let root = 1 << (count.max(1).ilog2() / 2);
        let step = (root / 2).max(1);
        Positions {
            low: expected,
            high: expected.saturating_add(step),
            step,
            found: None,
        }
    }

    // Notes that the id at a position begins with the prefix.
    fn found(&mut self, at: usize) {
        let (first, last) = self.found.unwrap_or((at, at));
        self.found = Some((first.min(at), last.max(at)));
    }

    // The next position of a part to compare. `None` if the part has no ids, or if ids were found
    // that begin with the prefix and the part has few others on each side of them.
    fn next(&mut self, part: &Run) -> Option<usize>
        requires { part.now.start ≤ part.now.end }
        ensures { IfSome result (λ at. (part.now.start ≤ at) × (at < part.now.end)) }
    {
        if let Some((first, last)) = self.found {
            return beside(part, first, last);
        }
        if part.start == part.end {
            return None;
        }
        let (low, high) = (self.low, self.high);
        if part.start <= low && low < part.end {
            self.low = low.saturating_sub(self.step);
            self.step = self.step.saturating_mul(2);
            return Some(low);
        }
        if part.start <= high && high < part.end {
            self.high = high.saturating_add(self.step);
            self.step = self.step.saturating_mul(2);
            return Some(high);
        }
        Some(part.start + (part.end - part.start) / 2)
    }
}

// The middle of what a part has before the first or after the last of some positions, if that is
// more than a few ids.
fn beside(part: &Run, first: usize, last: usize) -> Option<usize>
    requires { part.now.start ≤ part.now.end }
    ensures { IfSome result (λ at. (part.now.start ≤ at) × (at < part.now.end)) }
{
    if first <= part.end && first.saturating_sub(part.start) > FEW_IDS {
        return Some(part.start + (first - part.start) / 2);
    }
    if part.start <= last && part.end.saturating_sub(last) > FEW_IDS + 1 {
        return Some(last + 1 + (part.end - last - 1) / 2);
    }
    None
}

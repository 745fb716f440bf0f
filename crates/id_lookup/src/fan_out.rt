//! Fan-out tables: how many ids of a list have at most a given first byte.

ghost use Rattle.std.specs.Prelude.{◌≡◌, ℕ, ◌<◌, ◌^◌, All, List, count_by, length, map, slice_index};
ghost use Rattle.id_lookup.specs.Runs.{IsFanOut, has_first_byte, is_below, is_up_to};

use crate::ids::{Id, id_at};
use std::marker::Model;

/// For each byte, how many ids of a list have at most that first byte, as in Git's pack indexes.
///
/// [`IdIndex::fan_out`](crate::IdIndex::fan_out) is that of an index, and [`FanOut::of`] makes that
/// of any list.
///
/// ```
/// let fan_out = index.fan_out();
/// println!(rt; "{} ids begin with at most 4b", fan_out.up_to(0x4b))?;
/// ```
#[derive(Drop)]
pub struct FanOut {
    counts: [usize; 256],
}

impl Model for FanOut {
    ghost use Rattle.std.specs.Prelude.{ℕ, List};

    ghost Value = { List ℕ };

    ghost view = { λ fan_out. fan_out.counts };
}

impl FanOut {
    /// The fan-out table of a list, whatever the order of its ids.
    pub fn of<I: Id>(ids: &[I]) -> FanOut
        ensures { IsFanOut result (map I.digits ids.now) }
    {
        let mut counts = first_bytes(ids);
        for byte in 1..256 {
            counts[byte] += counts[byte - 1];
        }
        FanOut { counts }
    }

    /// The number of ids of the list whose first byte is at most the given one.
    pub fn up_to(&self, byte: u8) -> usize
        ensures value { result ≡ slice_index self.now byte }
        ensures count { (ids : List (List ℕ)) → IsFanOut self.now ids
            → result ≡ count_by (is_up_to byte) ids }
    {
        self.counts[usize::from(byte)]
    }

    // The number of ids of the list whose first byte is below the given one.
    pub(crate) fn below(&self, byte: u8) -> usize
        ensures { (ids : List (List ℕ)) → IsFanOut self.now ids
            → result ≡ count_by (is_below byte) ids }
    {
        if byte == 0 { 0 } else { self.up_to(byte - 1) }
    }
}

// For each byte, the number of ids that have it as their first.
fn first_bytes<I: Id>(ids: &[I]) -> [usize; 256]
    ensures counts { (b : ℕ) → b < 256
        → slice_index result b ≡ count_by (has_first_byte b) (map I.digits ids.now) }
    ensures digits { All (λ id. All (λ d. d < 16) id) (map I.digits ids.now) }
    ensures few { length ids.now < 2 ^ 64 }
{
    let mut counts = [0; 256];
    for at in 0..ids.len() {
        counts[usize::from(id_at(ids, at).first_byte())] += 1;
    }
    counts
}

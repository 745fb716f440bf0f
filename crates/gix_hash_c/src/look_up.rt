//! Prefixes looked up in tables of digests. A table may be in any order: if it is sorted, the
//! result is the run of the prefix.

ghost use Rattle.std.specs.Prelude.{◌≤◌, IfSome, IsNone, length};
ghost use Rattle.id_lookup.specs.Words.{IsFirstUnsorted, IsSortedIds, hex_len_of};
ghost use Rattle.pack_index.specs.Format.{digests_in};
ghost use Rattle.gix_hash_c.specs.Face.{kind_of_number, prefix_in};
ghost use Rattle.gix_hash_c.specs.LookUps.{FindAnswer, IsRunIfSorted, SortedAnswer};

use crate::codes::{BAD_KIND, BAD_LENGTH, OK, PREFIX_TOO_LONG, UNSORTED, kind_of};
use crate::prefixes::{Prefix, prefix_of};
use gix_hash::Kind;
use id_lookup::{SortedIds, Unsorted, find_assuming_sorted_near};

/// The positions from `start` up to `end`.
#[repr(C)]
#[derive(Clone, Copy)]
pub struct Run {
    /// The first position.
    pub start: usize,
    /// The position after the last one.
    pub end: usize,
}

/// Tests that the digests of a kind in a table, one after the other, are sorted. An error is
/// `BAD_KIND`, or `UNSORTED` with the first position whose digest is below the one before it.
#[unsafe(no_mangle)]
pub extern "C" fn gix_hash_check_sorted(kind: u32, table: &[u8], at: &mut usize) -> u32
    ensures { SortedAnswer (kind_of_number kind) table.now result at.old at.new }
{
    match kind_of(kind) {
        Some(kind) => match fall_in(kind, table) {
            None => OK,
            Some(fall) => {
                *at = fall.at;
                UNSORTED
            }
        },
        None => BAD_KIND,
    }
}

/// The run of a prefix among the digests of a kind in a table. An error leaves `run` as it was:
/// `BAD_KIND`, `BAD_LENGTH` or else `PREFIX_TOO_LONG`.
#[unsafe(no_mangle)]
pub extern "C" fn gix_hash_find(kind: u32, table: &[u8], prefix: &Prefix, run: &mut Run) -> u32
    ensures { FindAnswer (kind_of_number kind) table.now (prefix_in prefix.now) result
        run.old run.new }
{
    let Some(kind) = kind_of(kind) else {
        return BAD_KIND;
    };
    let Some(prefix) = prefix_of(prefix) else {
        return BAD_LENGTH;
    };
    if prefix.hex_len() > kind.len_in_hex() {
        return PREFIX_TOO_LONG;
    }
    let all = id_lookup::Run {
        start: 0,
        end: table.len() / kind.len_in_bytes(),
    };
    *run = find_in(kind, table, &prefix, all);
    OK
}

// The first position whose digest is below the one before it.
fn fall_in(kind: Kind, table: &[u8]) -> Option<Unsorted>
    ensures none { IsNone result → IsSortedIds (digests_in kind table.now) }
    ensures some { IfSome result (λ fall. IsFirstUnsorted (digests_in kind table.now) fall.at) }
{
    match kind {
        Kind::Sha1 => SortedIds::<[u8; 20]>::try_new(table.as_chunks().0).err(),
        Kind::Sha256 => SortedIds::<[u8; 32]>::try_new(table.as_chunks().0).err(),
    }
}

// The run of a prefix among the digests in a table, which are compared first where it is guessed.
pub(crate) fn find_in(
    kind: Kind,
    table: &[u8],
    prefix: &gix_hash::Prefix,
    guess: id_lookup::Run,
) -> Run
    requires { length prefix.now.digits ≤ hex_len_of kind }
    ensures { IsRunIfSorted prefix.now.digits (digests_in kind table.now) result }
{
    let run = match kind {
        Kind::Sha1 => find_assuming_sorted_near::<[u8; 20]>(table.as_chunks().0, prefix, guess),
        Kind::Sha256 => find_assuming_sorted_near::<[u8; 32]>(table.as_chunks().0, prefix, guess),
    };
    Run {
        start: run.start,
        end: run.end,
    }
}

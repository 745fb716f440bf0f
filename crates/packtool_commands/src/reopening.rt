//! Look-ups in a store that changes.

ghost use Rattle.std.specs.Prelude.{◌≡◌, ◌≢◌, ◌<◌, All, IfErr, IfOk, IsErrOf, length};
ghost use Rattle.std.specs.Fn.{FnOnceReturnsAtMut};
ghost use Rattle.std.specs.List.{AllZip};
ghost use Rattle.id_lookup.specs.Words.{KindDigits};
ghost use Rattle.object_store.specs.Stores.{CanLookUp, HaveMore, IsOfOne, IsReopened, StoreView};
ghost use Rattle.packtool_commands.specs.Stores.{AreListed, IsFaultOf, prefixes_of};
ghost use Rattle.packtool_commands.specs.declared.error.StoreError.{StoreError};
ghost use Rattle.streams.specs.Streams.{lines_of};

use crate::error::StoreError;
use crate::prefixes::PrefixLines;
use object_store::{Error, LookUp, Reopen, look_up_each};
use std::alloc::Allocator;

// How often a look-up begins.
const MAX_TRIES: usize = 10;

/// The result of a look-up in a store, which the look-up leaves as it is. If a pack index that was
/// listed is gone, the store is opened again and the look-up begins again. It begins at most 10
/// times.
pub(crate) fn look_up_again<S: Reopen, T: Drop, F: Fn(&mut S) -> Result<T, Error>>(
    store: &mut S,
    look_up: F,
) -> Result<T, Error>
    requires can { (seen : _) → IsReopened S.had S.view store.old seen.now
        → F.pre look_up seen }
    requires same { (seen left : _) (looked : _) → F.post look_up seen looked left
        → left.now ≡ seen.now }
    ensures reopened { IsReopened S.had S.view store.old store.new }
    ensures found { FnOnceReturnsAtMut F.FnOnce look_up store.new result store.new }
{
    for _try in 1..MAX_TRIES {
        let looked = look_up(store);
        if !matches!(looked, Err(Error::Gone { .. })) {
            return looked;
        }
        if !store.reopen() {
            break;
        }
    }
    look_up(store)
}

/// What is found in a store for each prefix among some lines, which are of its kind. If more than
/// `most` is found for several prefixes, this is [`StoreError::TooMany`].
pub(crate) fn look_up_lines<S: Reopen, A: Allocator + Copy, L: LookUp<S, A>>(
    alloc: A,
    store: &mut S,
    lines: &PrefixLines<'_, A>,
    most: usize,
    look_up: &L,
) -> Result<Vec<L::Found, A>, StoreError>
    requires kind { lines.now.kind ≡ (S.view store.old).kind }
    requires listed { AreListed (S.view store.old) lines.now.prefixes.items }
    requires fits { (seen : StoreView) → seen.kind ≡ (S.view store.old).kind
        → L.fits look_up.now seen }
    ensures reopened { IsReopened S.had S.view store.old store.new }
    ensures found { IfOk result (λ found. AllZip
        (λ (prefix : KindDigits) one. L.finds look_up.now store.new prefix.digits one)
        (prefixes_of (S.view store.new).kind (lines_of lines.now.text.now)) found.items) }
    ensures refused { IfErr result (IsFaultOf (IsOfOne (L.fails look_up.now (S.view store.new))
        lines.now.prefixes.items)) }
    ensures several { IsErrOf result StoreError.TooMany → 1 < length lines.now.prefixes.items }
    ensures more { IsErrOf result StoreError.TooMany → HaveMore
        (L.finds look_up.now store.new) L.size most lines.now.prefixes.items }
    ensures unwritten { IfErr result (λ e. e ≢ StoreError.Output) }
{
    let prefixes = lines.prefixes();
    let looked = look_up_again(
        store,
        |store: &mut S|
            requires can { All (CanLookUp (S.view store.old)) prefixes.now }
            requires fits { L.fits look_up.now (S.view store.old) }
        { look_up_each(alloc, store, prefixes, most, look_up) },
    );
    let Some(found) = looked? else {
        return Err(StoreError::TooMany);
    };
    Ok(found)
}

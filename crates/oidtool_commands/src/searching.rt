//! The searches that read the input to its end.

ghost use Rattle.std.specs.Prelude.{◌≡◌, ◌≢◌, ◌↔◌, true, false, IfOk, IfErr, OnOk, IsErrOf};
ghost use Rattle.oidtool_commands.specs.Commands.{IsDrained, SearchToEndFails};
ghost use Rattle.oidtool_commands.specs.declared.error.CommandError.{CommandError};
ghost use Rattle.list_search.specs.Searches.{Succeeds, From};

use crate::error::CommandError;
use list_search::{Search, SearchError, search_from};
use std::alloc::Allocator;
use streams::{CHUNK_LEN, MAX_LEN, PipeError, Sink, Source, next_chunk};

/// Searches the list text of the input as [`search_from`] does, and reads the input to its end also
/// if the search stops at the prefix or at a line.
pub fn search_to_end<A: Allocator, R: Source, W: Sink>(
    alloc: A,
    search: Search,
    prefix: &str,
    input: &mut R,
    out: &mut W,
) -> Result<usize, CommandError>
    requires input { R.has_failed input.old ≡ false }
    requires output { W.has_failed out.old ≡ false }
    ensures done { IfOk result (Succeeds search prefix.now
        (From MAX_LEN (R.remaining input.old) (R.remaining input.new))
        (W.taken out.old) (W.taken out.new)) }
    ensures failed { IfErr result (SearchToEndFails search prefix.now
        (R.remaining input.old) (R.remaining input.new) (W.taken out.old) (W.taken out.new)) }
    ensures untouched { IfErr result (λ e. e ≢ CommandError.Output → out.new ≡ out.old) }
    ensures input { IsErrOf result CommandError.Input ↔ (R.has_failed input.new ≡ true) }
    ensures output { IsErrOf result CommandError.Output ↔ (W.has_failed out.new ≡ true) }
{
    match search_from(alloc, search, prefix, input, MAX_LEN, out) {
        Ok(count) => Ok(count),
        Err(error @ (SearchError::Prefix(_) | SearchError::BadLine { .. })) => {
            drain(input)?;
            Err(CommandError::Find(error))
        }
        Err(error) => Err(CommandError::from(error)),
    }
}

// Reads the source to its end, or to the limit of its length, and keeps nothing. Not inlined, so
// that the buffer is on the stack only while this runs.
#[inline(never)]
fn drain<R: Source>(input: &mut R) -> Result<(), CommandError>
    requires { R.has_failed input.old ≡ false }
    ensures drained { OnOk result (IsDrained (R.remaining input.old) (R.remaining input.new)) }
    ensures not_failed { OnOk result (R.has_failed input.new ≡ false) }
    ensures refused { IfErr result (λ e. (e ≡ CommandError.Input)
        × (R.has_failed input.new ≡ true)) }
{
    let mut total: u64 = 0;
    let mut buf = [0; CHUNK_LEN];
    'chunks: loop {
        match next_chunk(input, &mut total, &mut buf) {
            Ok(0) | Err(PipeError::TooMuch) => return Ok(()),
            Ok(_) => {}
            Err(_) => return Err(CommandError::Input),
        }
    }
}

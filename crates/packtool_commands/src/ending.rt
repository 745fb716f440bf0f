//! The lines of checked files.

ghost use Rattle.std.specs.Prelude.{◌≡◌, false};
ghost use Rattle.packtool_commands.specs.Files.{file_line, verdict};
ghost use Rattle.streams.specs.Streams.{Wrote};

use crate::escaping::write_named;
use crate::line_end::{LineEnd, push, push_digest};
use streams::{Ending, Sink, WriteFailed};

/// Writes the line of a file with this name, whose bytes end in this way: `NAME: OK`, or `NAME:
/// FAILED` and why, with both digests.
///
/// It stops at the first write that fails, after a proper beginning of the line. The sink must not
/// have failed before.
///
/// ```
/// let ending = streams::check_seal(&mut input, Kind::Sha1)?;
/// if write_ending("pack-1.idx", &ending, &mut out).is_err() {
///     println!(rt; "the line is not written whole")?;
/// }
/// ```
pub fn write_ending<W: Sink>(name: &str, ending: &Ending, out: &mut W) -> Result<(), WriteFailed>
    requires { W.has_failed out.old ≡ false }
    ensures { Wrote W.taken W.has_failed out.old out.new result
        (file_line name.now (verdict ending.now)) }
{
    write_named(name, verdict(ending).as_slice(), out)
}

// What is printed after the name of a checked file.
fn verdict(ending: &Ending) -> LineEnd
    ensures { result.items ≡ verdict ending.now }
{
    let mut line = LineEnd::new();
    match ending {
        Ending::Sealed(_) => push(&mut line, b": OK\n"),
        Ending::Unsealed {
            digest,
            last: Some(last),
        } => {
            push_digest(&mut line, b": FAILED: it ends in ", last);
            push_digest(&mut line, b", and the digest of the rest is ", digest);
            push(&mut line, b"\n");
        }
        Ending::Unsealed { last: None, .. } => {
            push(&mut line, b": FAILED: it is shorter than a digest\n");
        }
    }
    line
}

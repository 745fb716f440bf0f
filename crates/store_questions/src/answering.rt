//! Answers what a request asks.

ghost use Rattle.std.specs.Prelude.{◌≡◌, ◌≢◌, ◌<◌, ◌≤◌, ◌++◌, ℕ, IfOk, IfSome, List, None, OnErr, OnOk, false, length, max, string_bytes};
ghost use Rattle.std.specs.Option.{ForSome};
ghost use Rattle.packtool_commands.specs.Stores.{prefix_of};
ghost use Rattle.directory_store.specs.Opened.{AreObjects, AreRight, AreWithAlternates};
ghost use Rattle.directory_store.specs.declared.loose.LooseIds.{LooseIds};
ghost use Rattle.repositories.specs.Answers.{IfKnown};
ghost use Rattle.streams.specs.Devices.{plain_failed, plain_inner};
ghost use Rattle.streams.specs.Streams.{lines_of};
ghost use Rattle.store_questions.specs.Answers.{HasAnsweredParts, IsAnswered, purpose_of};
ghost use Rattle.store_questions.specs.WholeLines.{AreWhole, made_whole};
ghost use Rattle.store_questions.specs.Written.{HasWritten};

use crate::FOUND;
use crate::asked::Asked;
use crate::failure::Failure;
use crate::line_reader::LineReader;
use crate::output::{buffered, flushed, report};
use crate::words::beginning;
use directory_store::StoreFiles;
use gix_hash::Kind;
use packtool_commands::{Ask, StoreRequest, Wanted, lossy_text, prefix_in};
use repositories::{ObjectDirectory, find_objects};
use std::io::{self, BufWriter};
use streams::{Plain, Retrying};

/// Looks up what a request asks for, and returns the status. For the lines of standard input this
/// is the worst of theirs.
pub fn answer<'a>(rt: &HostRuntime, request: &StoreRequest<'a>) -> Result<u8, Failure<'a>> {
    let directory = objects_directory(rt, request)?;
    let input = Retrying::new(rt.reader());
    let mut out = buffered(rt, rt.stdout())?;
    let status = answer_in(rt, rt, &directory, request, input, &mut out)?;
    flushed(status, &mut out)
}

/// Looks up what a request asks for in the store of an object directory, for the lines of this
/// input if it asks for lines, and writes it. `host` has the allocator, the clock and standard
/// error, where what is skipped is reported.
///
/// As long as directories and files answer the same, the fan-out table of each pack index is right,
/// and the ids of each multi-pack-index are those of the packs that it names, a call that returns 0
/// or 1 has written exactly what the objects of the directory and its alternates answer: for `find`
/// the ids that begin with each prefix, and for `abbreviate` the shortest prefix of each id with
/// which no other one begins. Of `locate`, which reads no multi-pack-index, this is so for the ids,
/// and not for their locations.
pub fn answer_in<'a, R: StoreFiles, I: io::Read + Drop, W: io::Write + Drop>(
    host: &HostRuntime,
    rt: &R,
    directory: &ObjectDirectory,
    request: &StoreRequest<'a>,
    input: I,
    out: &mut Plain<BufWriter<W>>,
) -> Result<u8, Failure<'a>>
    requires { plain_failed out.old ≡ false }
    ensures output { OnOk result (plain_failed out.new ≡ false) }
    ensures written { IfOk result (λ status. status ≤ 1 → IfKnown (λ at.
        (directories objects : List (List ℕ)) → AreWithAlternates at directory.now directories
        → AreRight at (purpose_of request.now.question) directory.now.kind directories
        → AreObjects at directory.now.kind LooseIds.All directories objects
        → HasWritten request.now.question (max request.now.least 4) directory.now.kind objects
        (I.remaining input) request.now.ask
        (⟦<BufWriter<W> as io::Write>⟧.contents (plain_inner out.old))
        (⟦<BufWriter<W> as io::Write>⟧.contents (plain_inner out.new))) (R.answers rt.now)) }
{
    let mut asked = Asked::new(host, rt, directory, request)?;
    match request.ask {
        Ask::All => asked.write_all(out),
        Ask::Prefix(text, wanted) => answer_prefix(&mut asked, text, wanted, out),
        Ask::Lines(wanted) => answer_input(&mut asked, wanted, input, out),
    }
}

// Looks lines up, fewer at a time if they find too much, and returns the worst status. A single
// line may find more.
fn answer_lines<'a, R: StoreFiles, W: io::Write>(
    asked: &mut Asked<'_, R>,
    lines: &[u8],
    wanted: Wanted,
    out: &mut Plain<W>,
) -> Result<u8, Failure<'a>>
    requires output { plain_failed out.old ≡ false }
    requires whole { AreWhole lines.now }
    ensures same { asked.new.query ≡ asked.old.query }
    ensures output { OnOk result (plain_failed out.new ≡ false) }
    ensures answered { IfOk result (λ status. (n : ℕ)
        × HasAnsweredParts R.answers asked.old.query wanted n lines.now status
        (W.contents (plain_inner out.old)) (W.contents (plain_inner out.new))) }
{
    let mut rest = lines;
    let mut len = lines.len();
    let mut status = FOUND;
    for _ in 0..u64::MAX {
        if rest.is_empty() {
            return Ok(status);
        }
        let (part, after) = first_lines(rest, len);
        match asked.write_lines(part, wanted, out) {
            Ok(ended) => {
                status = status.max(ended.0);
                rest = after;
            }
            Err(Failure::TooMany) => len = part.len() / 2,
            Err(failure) => return Err(failure),
        }
    }
    Err(Failure::TooMany)
}

// Writes what is found for a prefix, as for a line of standard input. If one id is asked for, and
// there is none, or more than one, it reports which of the two it is.
fn answer_prefix<'a, R: StoreFiles, W: io::Write>(
    asked: &mut Asked<'_, R>,
    text: &'a str,
    wanted: Wanted,
    out: &mut Plain<W>,
) -> Result<u8, Failure<'a>>
    requires { plain_failed out.old ≡ false }
    ensures same { asked.new.query ≡ asked.old.query }
    ensures output { OnOk result (plain_failed out.new ≡ false) }
    ensures prefix { OnOk result
        (prefix_of asked.old.query.directory.now.kind text.now ≢ None) }
    ensures answered { IfOk result (λ status. IsAnswered R.answers asked.old.query wanted
        (lines_of text.now) status
        (W.contents (plain_inner out.old)) (W.contents (plain_inner out.new))) }
{
    expect_prefix(text, asked.query.directory.kind)?;
    let (status, why) = asked.write_lines(text.as_bytes(), wanted, out)?;
    if let (Wanted::BareOne, Some(why)) = (wanted, why) {
        let host = asked.query.host;
        report(host, &format!(in host.alloc(); "{text}: {why}")?, "");
    }
    Ok(status)
}

// Looks the lines of a reader up. A chunk of them is looked up in the store as it is after they
// were read. Its output is written before more is read or an error is reported.
fn answer_input<'a, R: StoreFiles, I: io::Read + Drop, W: io::Write + Drop>(
    asked: &mut Asked<'_, R>,
    wanted: Wanted,
    input: I,
    out: &mut Plain<BufWriter<W>>,
) -> Result<u8, Failure<'a>>
    requires { plain_failed out.old ≡ false }
    ensures same { asked.new.query ≡ asked.old.query }
    ensures output { OnOk result (plain_failed out.new ≡ false) }
    ensures answered { IfOk result (λ status. (text : List ℕ)
        × IfSome (I.remaining input) (λ all. text ≡ made_whole all) × (n : ℕ)
        × HasAnsweredParts R.answers asked.old.query wanted n text status
        (⟦<BufWriter<W> as io::Write>⟧.contents (plain_inner out.old))
        (⟦<BufWriter<W> as io::Write>⟧.contents (plain_inner out.new))) }
{
    let mut reader = LineReader::new(asked.query.host.alloc(), input)?;
    let mut status = FOUND;
    for _ in 0..u64::MAX {
        if !reader.next()? {
            return Ok(status);
        }
        let ran = answer_lines(asked, reader.lines(), wanted, out);
        flushed(FOUND, out)?;
        status = status.max(ran?);
    }
    Err(Failure::TooMany)
}

// The first whole lines of at most this length together, but one at least, and those after them.
fn first_lines(lines: &[u8], len: usize) -> (&[u8], &[u8])
    ensures all { lines.now ≡ result.0.now ++ result.1.now }
    ensures some { 0 < length lines.now → 0 < length result.0.now }
    ensures whole { AreWhole lines.now → AreWhole result.0.now }
{
    let mut end = 0;
    for at in 0..lines.len() {
        if end > 0 && at >= len {
            break;
        }
        if lines[at] == b'\n' {
            end = at + 1;
        }
    }
    if end == 0 {
        end = lines.len();
    }
    lines.split_at(end)
}

// The object directory that was asked for, or else the one that Git would find, with the kind that
// was asked for.
fn objects_directory<'a>(
    rt: &HostRuntime,
    request: &StoreRequest<'a>,
) -> Result<ObjectDirectory, Failure<'a>>
    ensures kind { IfOk result (λ directory.
        ForSome request.now.kind (λ kind. directory.kind ≡ kind)) }
    ensures at { IfOk result (λ directory. ForSome request.now.objects (λ path.
        string_bytes directory.path ≡ path.now)) }
{
    let mut directory = match request.objects {
        Some(path) => {
            if let Some(path) = lossy_text(path) {
                return Err(Failure::PathNotText { path });
            }
            ObjectDirectory::at(rt, path)?
        }
        None => find_objects(rt)?,
    };
    if let Some(kind) = request.kind {
        directory.kind = kind;
    }
    Ok(directory)
}

// Fails if a text is not a prefix.
fn expect_prefix<'a>(text: &'a str, kind: Kind) -> Result<(), Failure<'a>>
    ensures ok { OnOk result (prefix_of kind text.now ≢ None) }
    ensures refused { OnErr result (prefix_of kind text.now ≡ None) }
{
    if prefix_in(kind, text.as_bytes()).is_some() {
        return Ok(());
    }
    let text = beginning(lossy_text(text).unwrap_or(text));
    let most = kind.len_in_hex();
    Err(Failure::Prefix { text, most })
}

//! What is asked of the store of an object directory, which is kept from one request to the next.

ghost use Rattle.std.specs.Prelude.{◌≡◌, ◌↔◌, ◌≤◌, ◌++◌, [], All, Bool, IfOk, IsErrOf, IsSomeAnd, IsTrue, Ok, OnOk, Some, false, if◌then◌else◌, max, true};
ghost use Rattle.std.specs.Global.{Global};
ghost use Rattle.std.proofs.Props.{props};
ghost use Rattle.std.specs.Option.{ForSome};
ghost use Rattle.gix_hash.specs.Words.{KindDigits, first_byte_of, hex_len_of};
ghost use Rattle.object_store.specs.Stores.{IsReopened};
ghost use Rattle.directory_store.specs.Opened.{HasAllOf};
ghost use Rattle.directory_store.specs.Stores.{IsListedBy};
ghost use Rattle.directory_store.specs.declared.loose.LooseIds.{LooseIds};
ghost use Rattle.packtool_commands.specs.Stores.{AreListed, HasAbbreviatedBelow};
ghost use Rattle.packtool_commands.specs.declared.error.StoreError.{StoreError};
ghost use Rattle.repositories.specs.Answers.{IfKnown};
ghost use Rattle.streams.specs.Devices.{plain_failed, plain_inner};
ghost use Rattle.streams.specs.Streams.{lines_of};
ghost use Rattle.store_questions.specs.Answers.{HasAnsweredLines, HasAsked, IsStatus, IsStoreOf, checked_of, purpose_of};
ghost use Rattle.store_questions.specs.Failures.{failure_of};
ghost use Rattle.store_questions.specs.declared.failure.Failure.{Failure};

use crate::failure::{Failure, skipped_mark};
use crate::output::{buffered, write_report};
use crate::request::Query;
use crate::{FAILED, FOUND, NOTHING};
use directory_store::{DirectoryStore, Error, LooseIds, Purpose, StoreFiles};
use gix_hash::{Kind, Prefix};
use object_store::{Reopen, Store, StorePaths};
use packtool_commands::{
    NoAnswer, PrefixLines, Question, StoreError, StoreRequest, Wanted, abbreviate_all,
    abbreviate_each, find_each, locate_each,
};
use repositories::ObjectDirectory;
use std::alloc::{AllocError, Global};
use std::collections::BTreeSet;
use std::io;
use std::time::{SystemTime, UNIX_EPOCH};
use streams::{BufferedSink, Plain, Sink};

// The most ids or locations of several lines that are held at a time.
const MAX_FOUND: usize = 1 << 16;

// What is asked, and the store that answers.
#[derive(Drop)]
pub(crate) struct Asked<'r, R: StoreFiles> {
    pub(crate) query: Query<'r, R>,
    // The store that was asked last.
    kept: Option<DirectoryStore<R>>,
    // The reports on what is skipped that were printed.
    reported: BTreeSet<String>,
    ghost kept_is_of: { ForSome kept (λ store. IsStoreOf query.directory.now
        (purpose_of query.question) (R.answers query.rt.now) store.directory store.purpose
        (R.answers store.rt)) } by { Prim.hlevel props },
}

impl<'r, R: StoreFiles> Asked<'r, R> {
    // What a request asks of the store of this object directory.
    pub(crate) fn new<'a>(
        host: &'r HostRuntime,
        rt: &'r R,
        directory: &'r ObjectDirectory,
        request: &StoreRequest<'a>,
    ) -> Result<Self, Failure<'a>>
        ensures question { IfOk result (λ asked. asked.query.question ≡ request.now.question) }
        ensures least { IfOk result (λ asked. asked.query.least ≡ max request.now.least 4) }
        ensures directory { IfOk result (λ asked. asked.query.directory.now ≡ directory.now) }
        ensures rt { IfOk result (λ asked. asked.query.rt.now ≡ rt.now) }
    {
        let query = Query {
            host,
            rt,
            directory,
            question: request.question,
            least: least_in(directory.kind, request.least)?,
        };
        Ok(Asked {
            query,
            kept: None,
            reported: BTreeSet::new(host.alloc()),
        })
    }
}

impl<R: StoreFiles> Asked<'_, R> {
    // Opens the store, and writes the lines of `abbreviate`. Lines that were written before the
    // store was opened again may lack ids that were skipped then.
    pub(crate) fn write_all<'a, W: io::Write>(
        &mut self,
        out: &mut Plain<W>,
    ) -> Result<u8, Failure<'a>>
        requires { plain_failed out.old ≡ false }
        ensures output { OnOk result (plain_failed out.new ≡ false) }
        ensures answered { IfOk result (λ status. IsSomeAnd self.new.kept (λ store. (any : Bool)
            × IsStatus (store.skipped_before.items ++ store.skipped.items) any status
            × (first : _) × IsStoreOf self.old.query.directory.now
            (purpose_of self.old.query.question) (R.answers self.old.query.rt.now)
            first.directory first.purpose (R.answers first.rt)
            × (first.loose.which ≡ LooseIds.All)
            × HasAbbreviatedBelow 256 self.old.query.least
            (⟦<DirectoryStore<R> as Reopen>⟧.had first store) any
            (W.contents (plain_inner out.old)) (W.contents (plain_inner out.new)))) }
    {
        let (purpose, all) = (purpose_of(self.query.question), LooseIds::All);
        let now = now_or_before(self.query.host);
        let mut store = DirectoryStore::open_for_refresh(
            self.query.rt,
            self.query.directory,
            purpose,
            all,
            now,
        )?;
        let ran = abbreviate_all(self.query.host.alloc(), &mut store, self.query.least, out);
        let was_whole = report_skipped(self.query.host, store.skipped_before(), &mut self.reported);
        let kept = self.keep(store, ran, out)?;
        let status = status_if(kept.1, kept.0);
        if was_whole? { Ok(status) } else { Ok(FAILED) }
    }

    // The prefixes whose loose objects are checked: all of them for `locate`, and none otherwise.
    fn checked<'p>(&self, prefixes: &'p [Prefix]) -> &'p [Prefix]
        ensures { result.now ≡ checked_of self.now.query.question prefixes.now }
    {
        match self.query.question {
            Question::Locate => prefixes,
            _ => &[],
        }
    }

    // Writes what each of the lines finds in the store as it is now, and returns the status, and
    // why the first line that has no answer has none. If several find more than is held at a time,
    // then nothing is written, and the error is `TooMany`.
    pub(crate) fn write_lines<'a, W: io::Write>(
        &mut self,
        lines: &[u8],
        wanted: Wanted,
        out: &mut Plain<W>,
    ) -> Result<(u8, Option<NoAnswer>), Failure<'a>>
        requires { plain_failed out.old ≡ false }
        ensures same { self.new.query ≡ self.old.query }
        ensures output { OnOk result (plain_failed out.new ≡ false) }
        ensures untouched { IsErrOf result Failure.TooMany → out.new ≡ out.old }
        ensures answered { IfOk result (λ ended. IsSomeAnd self.new.kept (λ store. HasAsked Global
            self.old.query.question self.old.query.least wanted self.old.query.directory.now
            (R.answers self.old.query.rt.now) store.loose.which
            (⟦<DirectoryStore<R> as StorePaths>⟧.pack_path store)
            (⟦<DirectoryStore<R> as StorePaths>⟧.loose_paths store)
            (⟦<DirectoryStore<R> as Store>⟧.view store) store.skipped.items (lines_of lines.now)
            ended.1 ended.0 (W.contents (plain_inner out.old))
            (W.contents (plain_inner out.new)))) }
    {
        let alloc = self.query.host.alloc();
        let lines = PrefixLines::read(alloc, self.query.directory.kind, lines)?;
        let loose = loose_of(lines.prefixes());
        let checked = self.checked(lines.prefixes());
        let mut store = store_now(
            self.query.host,
            self.query.rt,
            self.query.directory,
            purpose_of(self.query.question),
            self.kept.take(),
            loose,
            checked,
        )?;
        let ran = ask_for_lines(
            alloc,
            self.query.question,
            self.query.least,
            &mut store,
            &lines,
            wanted,
            out,
        );
        let kept = self.keep(store, ran, out)?;
        Ok((status_if(kept.1, kept.0.is_none()), kept.0))
    }

    // Keeps a store, except after a look-up in it that failed. Returns what a command found over
    // the store, and whether nothing of the store was skipped.
    fn keep<'a, T: Drop, W>(
        &mut self,
        store: DirectoryStore<R>,
        ran: Result<T, StoreError>,
        out: &Plain<W>,
    ) -> Result<(T, bool), Failure<'a>>
        requires of { IsStoreOf self.old.query.directory.now (purpose_of self.old.query.question)
            (R.answers self.old.query.rt.now) store.directory store.purpose
            (R.answers store.rt) }
        requires output { IsErrOf ran StoreError.Output ↔ (plain_failed out.now ≡ true) }
        ensures ran { IfOk result (λ kept. ran ≡ Ok kept.0) }
        ensures whole { IfOk result (λ kept. IsTrue kept.1 ↔ (store.skipped.items ≡ [])) }
        ensures kept { OnOk result (self.new.kept ≡ Some store) }
        ensures objects { OnOk result (store.skipped.items ≡ [] → IfKnown (λ at. HasAllOf at
            store.purpose store.loose.which store.directory
            (⟦<DirectoryStore<R> as Store>⟧.view store)) (R.answers store.rt)) }
        ensures same { self.new.query ≡ self.old.query }
        ensures many { IsErrOf result Failure.TooMany → IsErrOf ran StoreError.TooMany }
        ensures output { OnOk result (plain_failed out.now ≡ false) }
    {
        let host = self.query.host;
        let found = match ran {
            Ok(found) => match report_skipped(host, store.skipped(), &mut self.reported) {
                Ok(is_whole) => Ok((found, is_whole)),
                Err(error) => Err(Failure::from(error)),
            },
            Err(StoreError::TooMany) => Err(Failure::TooMany),
            Err(StoreError::Output) => Err(Failure::of_output(out)),
            Err(StoreError::Store(error)) => return Err(failure_of(store, error)),
        };
        drop(self.kept.replace(store));
        found
    }
}

// What a store is asked for a question.
fn purpose_of(question: Question) -> Purpose
    ensures { result ≡ purpose_of question }
{
    match question {
        Question::Locate => Purpose::Locations,
        Question::Find | Question::Abbreviate => Purpose::Ids,
    }
}

// Writes what each of the lines finds in a store, and returns why the first line that has no
// answer has none.
fn ask_for_lines<S: Reopen + StorePaths, W: Sink>(
    alloc: Global,
    question: Question,
    least: usize,
    store: &mut S,
    lines: &PrefixLines<'_, Global>,
    wanted: Wanted,
    out: &mut W,
) -> Result<Option<NoAnswer>, StoreError>
    requires kind { lines.now.kind ≡ (S.view store.old).kind }
    requires listed { AreListed (S.view store.old) lines.now.prefixes.items }
    requires enough { 4 ≤ least }
    requires fits { least ≤ hex_len_of (S.view store.old).kind }
    requires output { W.has_failed out.old ≡ false }
    ensures reopened { IsReopened S.had S.view store.old store.new }
    ensures answered { IfOk result (λ why. HasAnsweredLines Global question wanted
        least (S.pack_path store.new) (S.loose_paths store.new) (S.view store.new)
        (lines_of lines.now.text.now) why (W.taken out.old) (W.taken out.new)) }
    ensures untouched { IsErrOf result StoreError.TooMany → out.new ≡ out.old }
    ensures output { IsErrOf result StoreError.Output ↔ (W.has_failed out.new ≡ true) }
{
    match question {
        Question::Find => find_each(alloc, store, lines, wanted, MAX_FOUND, out),
        Question::Locate => locate_each(alloc, store, lines, wanted, MAX_FOUND, out),
        Question::Abbreviate => abbreviate_each(alloc, store, lines, least, MAX_FOUND, out),
    }
}

// Why a look-up in a store fails; or why the store could not be opened again, after a pack index
// was gone.
fn failure_of<'a, R: StoreFiles>(
    store: DirectoryStore<R>,
    error: object_store::Error,
) -> Failure<'a>
    ensures { result ≡ failure_of error store.failed }
{
    match (error, store.into_reopen_error()) {
        (object_store::Error::Gone { .. }, Some(failed)) => Failure::Store(failed),
        (error, _) => Failure::LookUp(error),
    }
}

// The time, or one that is before all others if it is not known.
fn now_or_before(host: &HostRuntime) -> SystemTime {
    SystemTime::now(host).unwrap_or(UNIX_EPOCH)
}

// The store as it is now, for a purpose: the one that was kept, if there is one, refreshed. The
// files of loose objects whose ids begin with one of the prefixes are checked.
fn store_now<'a, R: StoreFiles>(
    host: &HostRuntime,
    rt: &R,
    directory: &ObjectDirectory,
    purpose: Purpose,
    kept: Option<DirectoryStore<R>>,
    loose: LooseIds,
    checked: &[Prefix],
) -> Result<DirectoryStore<R>, Failure<'a>>
    requires { ForSome kept (λ store. IsStoreOf directory.now purpose (R.answers rt.now)
        store.directory store.purpose (R.answers store.rt)) }
    ensures of { IfOk result (λ store. IsStoreOf directory.now purpose (R.answers rt.now)
        store.directory store.purpose (R.answers store.rt)) }
    ensures listed { IfOk result (λ store. store.loose.which ≡ loose) }
    ensures objects { IfOk result (λ store. store.skipped.items ≡ [] → IfKnown (λ at. HasAllOf at
        store.purpose store.loose.which store.directory
        (⟦<DirectoryStore<R> as Store>⟧.view store)) (R.answers store.rt)) }
{
    let now = now_or_before(host);
    let store = match kept {
        Some(mut store) => {
            store.refresh(loose, now)?;
            store
        }
        None => DirectoryStore::open_for_refresh(rt, directory, purpose, loose, now)?,
    };
    for prefix in checked {
        store.check_loose_files(prefix)?;
    }
    Ok(store)
}

// The loose objects that prefixes may begin: those with the first byte that all prefixes have, or
// all.
fn loose_of(prefixes: &[Prefix]) -> LooseIds
    ensures { All (λ (prefix : KindDigits). IsListedBy result (first_byte_of prefix.digits))
        prefixes.now }
{
    let Some(first) = prefixes.first() else {
        return LooseIds::WithFirstByte(0);
    };
    let byte = first.first_byte();
    if prefixes.iter().all(|prefix| prefix.first_byte() == byte) {
        LooseIds::WithFirstByte(byte)
    } else {
        LooseIds::All
    }
}

// Prints what was skipped, unless it is reported already, and returns whether nothing was.
fn report_skipped(
    rt: &HostRuntime,
    skipped: &[Error],
    reported: &mut BTreeSet<String>,
) -> Result<bool, AllocError>
    ensures { IfOk result (λ is_whole. IsTrue is_whole ↔ (skipped.now ≡ [])) }
{
    if skipped.is_empty() {
        return Ok(true);
    }
    let mut out = buffered(rt, rt.stderr())?;
    let ran = write_reports(rt.alloc(), skipped, reported, &mut out);
    let _ = out.flush();
    ran?;
    Ok(false)
}

// Writes the reports on what was skipped that are not written yet, up to the first that cannot be
// written.
fn write_reports<W: Sink>(
    alloc: Global,
    skipped: &[Error],
    reported: &mut BTreeSet<String>,
    out: &mut W,
) -> Result<(), AllocError>
    requires { W.has_failed out.old ≡ false }
{
    for error in skipped {
        let text = format!(in alloc; "{error}")?;
        if reported.insert(text)? {
            let Ok(()) = write_report(alloc, error, skipped_mark(error), out)? else {
                return Ok(());
            };
        }
    }
    Ok(())
}

// The status if a store was read whole, and has an id.
fn status_if(is_whole: bool, any: bool) -> u8
    ensures { result ≡ (if is_whole then (if any then FOUND else NOTHING) else FAILED) }
{
    match (is_whole, any) {
        (false, _) => FAILED,
        (true, true) => FOUND,
        (true, false) => NOTHING,
    }
}

// The fewest digits of an abbreviation, at least 4, which fails if ids of this kind have fewer.
fn least_in<'a>(kind: Kind, least: usize) -> Result<usize, Failure<'a>>
    ensures asked { IfOk result (λ digits. digits ≡ max least 4) }
    ensures fits { IfOk result (λ digits. digits ≤ hex_len_of kind) }
{
    let least = least.max(4);
    let most = kind.len_in_hex();
    if least > most {
        return Err(Failure::Least { least, most });
    }
    Ok(least)
}

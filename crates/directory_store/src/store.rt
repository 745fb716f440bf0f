//! An object store in directories.

ghost use Rattle.std.specs.Prelude.{◌≡◌, ◌<◌, ◌≤◌, ◌↔◌, ◌+◌, ◌++◌, ◌∷◌, All, Contains, IfErr, IfOk, IsOk, IsTrue, OnOk, [], false, length, map, slice_index_or, string_bytes, true, vec_capacity, vec_len};
ghost use Rattle.std.specs.List.{sum_by};
ghost use Rattle.gix_hash.specs.Words.{hex_len_of, id_digits};
ghost use Rattle.repositories.specs.Answers.{IfKnown};
ghost use Rattle.directory_store.specs.Loose.{AreLoose};
ghost use Rattle.directory_store.specs.Opened.{AreLooseOf, AreOpened, AreSkipped, HasAllOf, HaveReasons, place_of};
ghost use Rattle.directory_store.specs.Packs.{ArePacks, unnamed_in};
ghost use Rattle.directory_store.specs.declared.multi.Purpose.TheVariants.{Locations};
ghost use Rattle.directory_store.specs.Stores.{AreSettled, IsChanged, index_path, of_repository, pack_path_of};

use crate::error::Error;
use crate::loose::{LooseIds, LooseObjects, check_loose_file, list_loose, push_path, take_loose};
use crate::multi::Purpose;
use crate::pack_paths::PackPaths;
use crate::packs::{PackDirectories, PackIndexes, open_indexes};
use crate::source::StoreFiles;
use gix_hash::{Kind, ObjectId, Prefix};
use object_store::{LooseTable, Reopen, Store, StorePaths};
use pack_index::{Bucket, LazyError, LazyFile};
use repositories::{Directories, ObjectDirectories, ObjectDirectory, with_alternates};
use std::alloc::{AllocError, Allocator, Global};
use std::mem;
use std::time::SystemTime;

// How often a store that changes while it is read is read.
const MAX_TRIES: usize = 100;

/// The object store of an object directory and its alternates, as it was when it was opened: the
/// pack indexes whose packs are there, and the ids of loose objects. A look-up lists nothing.
///
/// ```
/// let store = DirectoryStore::open(rt, &find_objects(rt)?, LooseIds::All)?;
/// println!(rt; "{} pack indexes", store.indexes().len())?;
/// ```
#[derive(Drop)]
pub struct DirectoryStore<R: StoreFiles> {
    rt: R,
    // From what it was opened, and what was found then.
    directory: ObjectDirectory,
    purpose: Purpose,
    directories: ObjectDirectories,
    pack_directories: PackDirectories,
    // Whether the packs are those that are there as long as the directories are unchanged.
    is_settled: bool,
    skipped: Vec<Error>,
    // What was skipped in the store before it was opened again.
    skipped_before: Vec<Error>,
    // Why it could not be opened again.
    failed: Option<Error>,
    // The paths of each pack, and its pack index; before them, if no locations are asked for, those
    // of multi-pack-indexes.
    packs: Vec<PackPaths>,
    indexes: Vec<LazyFile<R::Source>>,
    loose: LooseObjects,
    // The loose objects that were asked for before, and may be again.
    loose_before: Vec<LooseObjects>,
    ghost of_paths: { map index_path packs.items ≡ map (λ index. index.path) indexes.items },
    ghost of_kind: { All (λ index. index.kind ≡ directory.kind) indexes.items },
    ghost loose_of_kind: { loose.kind ≡ directory.kind },
    ghost before_of_kind: { All (λ loose. loose.kind ≡ directory.kind) loose_before.items },
    ghost are_opened: { ∥ (skipped.items ≡ [] → IfKnown (λ at. AreOpened at purpose directory
        (map string_bytes directories.paths.items) (map index_path packs.items) indexes.items)
        (R.answers rt)) ∥₁ },
    ghost are_loose: { ∥ IfKnown (λ at. All (AreLooseOf at directory.kind
        (map string_bytes directories.paths.items)) (loose ∷ loose_before.items))
        (R.answers rt) ∥₁ },
    ghost have_reasons: { HaveReasons (R.answers rt) purpose directory (map index_path packs.items)
        skipped.items },
}

impl<R: StoreFiles> DirectoryStore<R> {
    /// Opens the store of an object directory, whose ids are of the directory's kind.
    ///
    /// No object is missed that is packed, unpacked or moved into another directory meanwhile, as
    /// by `git gc`. If a directory of packs or a list of alternates is changed while the store is
    /// opened, it is read again; the 100th time that is the error: [`Error::Changed`], or
    /// [`Error::Index`] with [`object_store::Error::Gone`].
    ///
    /// The directory's alternates are read as by Git: each once, and nested up to 5 times. Those
    /// that cannot be used are skipped ([`DirectoryStore::skipped`]). A missing directory `pack` or
    /// fan-out directory is no error; any other failure is one, with the path:
    /// [`Error::Repository`]. So is [`Error::Memory`].
    ///
    /// ```
    /// let directory = ObjectDirectory::at(rt, ".git/objects")?;
    /// let store = DirectoryStore::open(rt, &directory, LooseIds::All)?;
    /// ```
    pub fn open(
        rt: &R,
        directory: &ObjectDirectory,
        loose: LooseIds,
    ) -> Result<DirectoryStore<R>, Error>
        ensures kind { IfOk result (λ store. store.directory.kind ≡ directory.now.kind) }
        ensures purpose { IfOk result (λ store. store.purpose ≡ Locations) }
        ensures listed { IfOk result (λ store. store.loose.which ≡ loose) }
        ensures place { IfOk result (λ store. place_of store.directory ≡ place_of directory.now) }
        ensures answers { IfOk result (λ store. R.answers store.rt ≡ R.answers rt.now) }
        ensures reasons { IfOk result (λ store. ∥ IfKnown (λ at. AreSkipped at store.purpose
            store.directory (map index_path store.packs.items) store.skipped.items)
            (R.answers store.rt) ∥₁) }
        ensures objects { IfOk result (λ store. store.skipped.items ≡ [] → IfKnown (λ at.
            HasAllOf at store.purpose store.loose.which store.directory
            (⟦<DirectoryStore<R> as Store>⟧.view store)) (R.answers store.rt)) }
    {
        DirectoryStore::open_at(rt, directory, Purpose::Locations, loose, None, None)
    }

    /// Opens the store as [`DirectoryStore::open`] does, for a purpose, and to be refreshed later.
    /// `now` is the time before the call, by the clock of the file system. If no directory of packs
    /// was changed in the 20 ms before it (2 s where times are whole seconds), nothing is skipped,
    /// each pack index has its pack, and neither packs nor alternates change later,
    /// [`DirectoryStore::refresh`] reads only fan-out directories.
    ///
    /// For [`Purpose::Ids`] a multi-pack-index is read in place of the pack indexes that it names,
    /// if all of them are listed with their packs. If it cannot be read as one of version 1 and of
    /// the kind that builds on no other, or is no regular file, or if too many files are open, each
    /// pack index is read.
    ///
    /// ```
    /// let directory = find_objects(rt)?;
    /// let now = SystemTime::now(rt)?;
    /// let all = LooseIds::All;
    /// let mut store = DirectoryStore::open_for_refresh(rt, &directory, Purpose::Ids, all, now)?;
    /// let is_same = store.refresh(all, SystemTime::now(rt)?)?;
    /// ```
    pub fn open_for_refresh(
        rt: &R,
        directory: &ObjectDirectory,
        purpose: Purpose,
        loose: LooseIds,
        now: SystemTime,
    ) -> Result<DirectoryStore<R>, Error>
        ensures kind { IfOk result (λ store. store.directory.kind ≡ directory.now.kind) }
        ensures purpose { IfOk result (λ store. store.purpose ≡ purpose) }
        ensures listed { IfOk result (λ store. store.loose.which ≡ loose) }
        ensures place { IfOk result (λ store. place_of store.directory ≡ place_of directory.now) }
        ensures answers { IfOk result (λ store. R.answers store.rt ≡ R.answers rt.now) }
        ensures reasons { IfOk result (λ store. ∥ IfKnown (λ at. AreSkipped at store.purpose
            store.directory (map index_path store.packs.items) store.skipped.items)
            (R.answers store.rt) ∥₁) }
        ensures objects { IfOk result (λ store. store.skipped.items ≡ [] → IfKnown (λ at.
            HasAllOf at store.purpose store.loose.which store.directory
            (⟦<DirectoryStore<R> as Store>⟧.view store)) (R.answers store.rt)) }
    {
        DirectoryStore::open_at(rt, directory, purpose, loose, Some(now), None)
    }

    // Opens the store. If the time before is given, alternates and packs can be compared later, and
    // if it is given a second time, loose objects can, too, for which each fan-out directory that
    // is listed is looked at.
    fn open_at(
        rt: &R,
        directory: &ObjectDirectory,
        purpose: Purpose,
        loose: LooseIds,
        now: Option<SystemTime>,
        loose_now: Option<SystemTime>,
    ) -> Result<DirectoryStore<R>, Error>
        ensures kind { IfOk result (λ store. store.directory.kind ≡ directory.now.kind) }
        ensures purpose { IfOk result (λ store. store.purpose ≡ purpose) }
        ensures listed { IfOk result (λ store. store.loose.which ≡ loose) }
        ensures place { IfOk result (λ store. place_of store.directory ≡ place_of directory.now) }
        ensures answers { IfOk result (λ store. R.answers store.rt ≡ R.answers rt.now) }
        ensures reasons { IfOk result (λ store. ∥ IfKnown (λ at. AreSkipped at store.purpose
            store.directory (map index_path store.packs.items) store.skipped.items)
            (R.answers store.rt) ∥₁) }
    {
        for _ in 1..MAX_TRIES {
            let opened = DirectoryStore::read(rt, directory, purpose, loose, now, loose_now);
            if !matches!(&opened, Err(error) if error.is_change()) {
                return opened;
            }
        }
        DirectoryStore::read(rt, directory, purpose, loose, now, loose_now)
    }

    // Reads the store once.
    fn read(
        rt: &R,
        directory: &ObjectDirectory,
        purpose: Purpose,
        loose: LooseIds,
        now: Option<SystemTime>,
        loose_now: Option<SystemTime>,
    ) -> Result<DirectoryStore<R>, Error>
        ensures kind { IfOk result (λ store. store.directory.kind ≡ directory.now.kind) }
        ensures purpose { IfOk result (λ store. store.purpose ≡ purpose) }
        ensures listed { IfOk result (λ store. store.loose.which ≡ loose) }
        ensures place { IfOk result (λ store. place_of store.directory ≡ place_of directory.now) }
        ensures answers { IfOk result (λ store. R.answers store.rt ≡ R.answers rt.now) }
        ensures reasons { IfOk result (λ store. ∥ IfKnown (λ at. AreSkipped at store.purpose
            store.directory (map index_path store.packs.items) store.skipped.items)
            (R.answers store.rt) ∥₁) }
        ensures settled { IfOk result (λ store. store.is_settled ≡ true
            → (store.skipped.items ≡ []) × AreSettled now store.pack_directories.states.items) }
    {
        let mut directories = with_alternates(rt, directory)?;
        let pack_directories = PackDirectories::of(rt, &directories.paths, &directories.states)?;
        let (listed, loose) = list_store(
            rt,
            &pack_directories,
            &directories.paths,
            directory.kind,
            loose,
            now,
            loose_now,
        )?;
        // An alternate that was added meanwhile may hold objects that had left this directory
        // before it was listed.
        if !directories.are_unchanged(rt) {
            return Err(Error::changed(rt.alloc(), &directory.path));
        }
        let packs = &pack_directories.paths;
        let opened = open_indexes(rt, purpose, packs, &listed.paths, directory.kind)?;
        let alternates = mem::replace(&mut directories.skipped, Vec::new(rt.alloc()));
        let skipped = all_skipped(rt.alloc(), alternates, listed.skipped, opened.skipped)?;
        Ok(DirectoryStore {
            rt: rt.clone()?,
            directory: copy_of(directory)?,
            purpose,
            is_settled: is_store_settled(listed.are_all, &skipped, &pack_directories, now),
            directories,
            pack_directories,
            skipped,
            skipped_before: Vec::new(rt.alloc()),
            failed: None,
            packs: opened.paths,
            indexes: opened.indexes,
            loose,
            loose_before: Vec::new(rt.alloc()),
        })
    }

    /// Makes the store what it would be if it were opened now with these loose objects, and returns
    /// whether it is what it was. `now` is the time before the call, by the clock of the file
    /// system.
    ///
    /// What is unchanged is not read again: each list of alternates, alternate, directory of packs
    /// and fan-out directory that is asked for is looked at. If only fan-out directories have
    /// changed, these are listed. Those that were asked for before are kept.
    ///
    /// What was changed less than 20 ms before it was read is read again: see
    /// [`FileState::is_settled`](repositories::FileState::is_settled). So is a store of which
    /// something is skipped, or in which a pack index lacks its pack, all that
    /// [`DirectoryStore::open`] has read, and the fan-out directories that
    /// [`DirectoryStore::open_for_refresh`] has read. The errors are those of `open`, after which
    /// no pack index may be left. Then [`DirectoryStore::skipped`] says that the store has changed,
    /// and the next call reads it again.
    ///
    /// ```
    /// let (directory, loose) = (find_objects(rt)?, LooseIds::WithFirstByte(0x4b));
    /// let (purpose, now) = (Purpose::Ids, SystemTime::now(rt)?);
    /// let mut store = DirectoryStore::open_for_refresh(rt, &directory, purpose, loose, now)?;
    /// let is_same = store.refresh(loose, SystemTime::now(rt)?)?;
    /// ```
    pub fn refresh(&mut self, loose: LooseIds, now: SystemTime) -> Result<bool, Error>
        ensures kind { self.new.directory.kind ≡ self.old.directory.kind }
        ensures purpose { self.new.purpose ≡ self.old.purpose }
        ensures place { place_of self.new.directory ≡ place_of self.old.directory }
        ensures answers { R.answers self.new.rt ≡ R.answers self.old.rt }
        ensures objects { OnOk result (self.new.skipped.items ≡ [] → IfKnown (λ at. HasAllOf at
            self.new.purpose self.new.loose.which self.new.directory
            (⟦<DirectoryStore<R> as Store>⟧.view self.new)) (R.answers self.new.rt)) }
        ensures listed { IfOk result (λ _. self.new.loose.which ≡ loose) }
        ensures same { IfOk result (λ is_same. is_same ≡ true
            → (self.new.indexes.items ≡ self.old.indexes.items)
            × (self.new.loose ≡ self.old.loose)) }
        ensures left { IfErr result (λ _. self.new.is_settled ≡ true
            → self.new.indexes.items ≡ self.old.indexes.items) }
    {
        match self.look_again(loose, now) {
            Err(error) if error.is_change() || error.is_too_many_open() => {}
            looked => return looked,
        }
        // Its files are closed before as many are opened. If that fails, the next call opens them.
        self.close()?;
        let now = Some(now);
        let purpose = self.purpose;
        *self = DirectoryStore::open_at(&self.rt, &self.directory, purpose, loose, now, now)?;
        Ok(false)
    }

    // Closes all pack indexes. What is skipped says that the store has changed.
    fn close(&mut self) -> Result<(), Error>
        ensures directory { self.new.directory ≡ self.old.directory }
        ensures purpose { self.new.purpose ≡ self.old.purpose }
        ensures rt { self.new.rt ≡ self.old.rt }
        ensures settled { OnOk result (self.new.is_settled ≡ false) }
        ensures closed { OnOk result (self.new.indexes.items ≡ []) }
        ensures told { OnOk result (vec_len self.new.skipped ≡ 1) }
        ensures left { IfErr result (λ _. self.new.indexes.items ≡ self.old.indexes.items) }
    {
        let mut skipped = Vec::new(self.rt.alloc());
        skipped.push(Error::changed(self.rt.alloc(), &self.directory.path))?;
        self.skipped = skipped;
        self.is_settled = false;
        self.packs = Vec::new(self.rt.alloc());
        self.indexes = Vec::new(self.rt.alloc());
        Ok(())
    }

    // The same, except that a change of packs or alternates is an error.
    fn look_again(&mut self, loose: LooseIds, now: SystemTime) -> Result<bool, Error>
        ensures directory { self.new.directory ≡ self.old.directory }
        ensures purpose { self.new.purpose ≡ self.old.purpose }
        ensures rt { self.new.rt ≡ self.old.rt }
        ensures listed { IfOk result (λ _. self.new.loose.which ≡ loose) }
        ensures indexes { self.new.indexes.items ≡ self.old.indexes.items }
        ensures same { IfOk result (λ is_same. is_same ≡ true → self.new.loose ≡ self.old.loose) }
    {
        self.expect_unchanged()?;
        let is_listed = self.loose.which == loose;
        if is_listed && self.loose.are_unchanged(&self.rt, &self.directories.paths)? {
            return Ok(true);
        }
        let chosen = self.loose_now(loose, now)?;
        let last = mem::replace(&mut self.loose, chosen);
        if !is_listed {
            let _ = self.loose_before.push(last);
        }
        Ok(false)
    }

    // Fails if the alternates, a list of them or a directory of packs have changed since they were
    // read, or if that is not known.
    fn expect_unchanged(&self) -> Result<(), Error>
        ensures settled { OnOk result (self.now.is_settled ≡ true) }
        ensures unsettled { self.now.is_settled ≡ false → IfErr result
            (IsChanged (string_bytes self.now.directory.path)) }
    {
        if self.is_settled && self.directories.are_unchanged(&self.rt) {
            self.pack_directories.expect_unchanged(&self.rt)
        } else {
            Err(Error::changed(self.rt.alloc(), &self.directory.path))
        }
    }

    // The loose objects that are asked for: those that were listed before, if their directories
    // are unchanged, or else a listing, during which the packs and the alternates stay.
    fn loose_now(&mut self, loose: LooseIds, now: SystemTime) -> Result<LooseObjects, Error>
        ensures which { IfOk result (λ objects. objects.which ≡ loose) }
        ensures of_kind { IfOk result (λ objects. objects.kind ≡ self.old.directory.kind) }
        ensures are_loose { IfOk result (λ objects. ∥ IfKnown (λ at. AreLooseOf at
            self.new.directory.kind (map string_bytes self.new.directories.paths.items) objects)
            (R.answers self.new.rt) ∥₁) }
        ensures directory { self.new.directory ≡ self.old.directory }
        ensures purpose { self.new.purpose ≡ self.old.purpose }
        ensures rt { self.new.rt ≡ self.old.rt }
        ensures indexes { self.new.indexes.items ≡ self.old.indexes.items }
        ensures loose { self.new.loose ≡ self.old.loose }
    {
        if let Some(listed) = take_loose(&mut self.loose_before, loose, self.directory.kind)
            && listed.are_unchanged(&self.rt, &self.directories.paths)?
        {
            return Ok(listed);
        }
        let kind = self.directory.kind;
        let paths = &self.directories.paths;
        let must_stay = &self.pack_directories.with_packs;
        let listed = list_loose(&self.rt, paths, must_stay, kind, loose, Some(now))?;
        self.expect_unchanged()?;
        Ok(listed)
    }

    /// What was not read: alternates that are missing, are no directories, cannot be reached, are
    /// nested too deep or whose paths in a list are not UTF-8, and pack indexes whose file names
    /// are not UTF-8 or whose headers, lengths or fan-out tables are not those of version 2 and of
    /// the kind. Each has its path, or that of its directory or list, and why.
    ///
    /// ```
    /// let store = DirectoryStore::open(rt, &find_objects(rt)?, LooseIds::All)?;
    /// for error in store.skipped() {
    ///     println!(rt; "{error}, skipped")?;
    /// }
    /// ```
    pub fn skipped(&self) -> &[Error]
        ensures value { result.now ≡ self.now.skipped.items }
        ensures objects { self.now.skipped.items ≡ [] → IfKnown (λ at. HasAllOf at
            self.now.purpose self.now.loose.which self.now.directory
            (⟦<DirectoryStore<R> as Store>⟧.view self.now)) (R.answers self.now.rt) }
        ensures reasons { HaveReasons (R.answers self.now.rt) self.now.purpose self.now.directory
            (map index_path self.now.packs.items) self.now.skipped.items }
    {
        &self.skipped
    }

    /// What was not read of the store as it was before it was opened again ([`Reopen`]).
    ///
    /// ```
    /// let mut store = DirectoryStore::open(rt, &find_objects(rt)?, LooseIds::All)?;
    /// if store.reopen() {
    ///     println!(rt; "{} parts were skipped before", store.skipped_before().len())?;
    /// }
    /// ```
    pub fn skipped_before(&self) -> &[Error]
        ensures { result.now ≡ self.now.skipped_before.items }
    {
        &self.skipped_before
    }

    /// Why the store could not be opened again the last time ([`Reopen`]), if it could not.
    ///
    /// ```
    /// let mut store = DirectoryStore::open(rt, &find_objects(rt)?, LooseIds::All)?;
    /// if !store.reopen() {
    ///     if let Some(error) = store.into_reopen_error() {
    ///         println!(rt; "{error}")?;
    ///     }
    /// }
    /// ```
    pub fn into_reopen_error(self) -> Option<Error>
        ensures { result ≡ self.failed }
    {
        self.failed
    }

    /// Checks the files of the loose objects whose ids begin with a prefix: one that is a link to
    /// nothing is an [`Error::Repository`] with its path. A file that was removed since it was
    /// listed is no error. The only other error is [`Error::Memory`].
    ///
    /// ```
    /// let store = DirectoryStore::open(rt, &find_objects(rt)?, LooseIds::All)?;
    /// store.check_loose_files(&prefix)?;
    /// ```
    pub fn check_loose_files(&self, prefix: &Prefix) -> Result<(), Error>
        ensures { hex_len_of self.now.directory.kind < length prefix.now.digits
            → IsOk result }
    {
        if prefix.hex_len() > self.directory.kind.len_in_hex() {
            return Ok(());
        }
        for directory in &self.loose.directories {
            for id in directory.table.beginning_with(prefix) {
                check_loose_file(&self.rt, &directory.path, id)?;
            }
        }
        Ok(())
    }

    // Takes the place of itself, as the store is now. Under an error it has what it had.
    fn open_again(&mut self) -> Result<(), Error>
        ensures kind { self.new.directory.kind ≡ self.old.directory.kind }
        ensures purpose { self.new.purpose ≡ self.old.purpose }
        ensures place { place_of self.new.directory ≡ place_of self.old.directory }
        ensures answers { R.answers self.new.rt ≡ R.answers self.old.rt }
        ensures listed { self.new.loose.which ≡ self.old.loose.which }
        ensures skipped { self.new.skipped_before.items ++ self.new.skipped.items ≡ []
            → self.old.skipped_before.items ++ self.old.skipped.items ≡ [] }
        ensures indexes { IfErr result (λ _. self.new.indexes.items ≡ self.old.indexes.items) }
        ensures packs { IfErr result (λ _. self.new.packs.items ≡ self.old.packs.items) }
        ensures loose { IfErr result (λ _. self.new.loose ≡ self.old.loose) }
    {
        self.skipped_before.reserve(self.skipped.len())?;
        let loose = self.loose.which;
        let directory = &self.directory;
        let store = DirectoryStore::open_at(&self.rt, directory, self.purpose, loose, None, None)?;
        let before = mem::replace(self, store);
        self.skipped_before = before.into_skipped();
        Ok(())
    }

    // What was skipped, after what was skipped before, for which there is room.
    fn into_skipped(self) -> Vec<Error>
        requires { vec_len self.skipped_before + vec_len self.skipped
            ≤ vec_capacity self.skipped_before }
        ensures { result.items ≡ self.skipped_before.items ++ self.skipped.items }
    {
        let mut all = self.skipped_before;
        let mut skipped = self.skipped;
        let _ = all.append(&mut skipped);
        all
    }
}

// Lists the pack indexes with packs and the loose objects in object directories. No object is
// missed that is there all the time: as the directories of packs are in the same state before and
// after, all was in them what was found there, and an object that was in none of its packs was
// loose.
//
// Within one tick of the file system's clock a directory may change twice and be in the same state.
// An object is in a new pack before its loose file or its old pack is removed, and loose before its
// pack is removed: so the packs are listed after the loose objects, and before them too, and none
// may be gone after. If each change of a directory of packs leaves another state, one list is
// enough.
fn list_store<R: Directories>(
    rt: &R,
    packs: &PackDirectories,
    directories: &[String],
    kind: Kind,
    loose: LooseIds,
    now: Option<SystemTime>,
    loose_now: Option<SystemTime>,
) -> Result<(PackIndexes, LooseObjects), Error>
    ensures kind { IfOk result (λ listed. listed.1.kind ≡ kind) }
    ensures which { IfOk result (λ listed. listed.1.which ≡ loose) }
    ensures packs { IfOk result (λ listed. IfKnown (λ at. ArePacks at
        (map string_bytes packs.now.paths.items) listed.0.paths.items) (R.answers rt.now)) }
    ensures skipped { IfOk result (λ listed. IfKnown (λ at. vec_len listed.0.skipped
        ≡ sum_by (λ path. unnamed_in at (string_bytes path)) packs.now.paths.items)
        (R.answers rt.now)) }
    ensures loose { IfOk result (λ listed. IfKnown (λ at. AreLoose at kind loose
        (map string_bytes directories.now) listed.1.directories.items) (R.answers rt.now)) }
{
    let before = packs.list(rt)?;
    let loose = list_loose(rt, directories, &packs.with_packs, kind, loose, loose_now)?;
    Ok((packs.list_again(rt, before, now)?, loose))
}

// Whether the packs are those that are there as long as their directories are unchanged: none is
// left out or skipped, and each later change of a directory leaves another state.
fn is_store_settled(
    are_all: bool,
    skipped: &[Error],
    directories: &PackDirectories,
    now: Option<SystemTime>,
) -> bool
    ensures { IsTrue result ↔ (are_all ≡ true) × (skipped.now ≡ [])
        × AreSettled now directories.now.states.items }
{
    are_all && skipped.is_empty() && directories.are_settled(now)
}

// A copy of an object directory that was found.
fn copy_of(directory: &ObjectDirectory) -> Result<ObjectDirectory, AllocError>
    ensures place { IfOk result (λ copy. place_of copy ≡ place_of directory.now) }
    ensures kind { IfOk result (λ copy. copy.kind ≡ directory.now.kind) }
{
    Ok(ObjectDirectory {
        path: directory.path.clone()?,
        kind: directory.kind,
        alternates: directory.alternates.clone()?,
    })
}

// Why alternates and pack indexes are skipped, in this order.
fn all_skipped(
    alloc: Global,
    alternates: Vec<repositories::Error>,
    mut unnamed: Vec<Error>,
    mut damaged: Vec<Error>,
) -> Result<Vec<Error>, AllocError>
    ensures { IfOk result (λ all. all.items
        ≡ map of_repository alternates.items ++ unnamed.items ++ damaged.items) }
{
    let alternates = alternates.into_iter();
    let mut all: Vec<Error> = alternates.map(|error| Error::from(error)).collect(alloc)?;
    all.append(&mut unnamed)?;
    all.append(&mut damaged)?;
    Ok(all)
}

/// What the files contain is known as far as the runtime answers it.
impl<R: StoreFiles> Store for DirectoryStore<R> {
    type Source = R::Source;

    ghost use Rattle.directory_store.specs.Stores.{only_of};
    ghost use Rattle.pack_index.specs.Lazy.{seen};

    ghost view = { λ store. record {
      kind = store.directory.kind;
      packs = map seen store.indexes.items;
      paths = map index_path store.packs.items;
      loose = store.loose.table.ids;
      listed = only_of store.loose.which;
    } };

    fn object_hash(&self) -> Kind {
        self.directory.kind
    }

    fn indexes(&self) -> &[LazyFile<R::Source>] {
        &self.indexes
    }

    fn part<A: Allocator>(
        &mut self,
        alloc: A,
        at: usize,
        prefix: &Prefix,
        few: usize,
    ) -> Result<Bucket<A>, LazyError> {
        self.indexes[at].part(alloc, prefix, few)
    }

    fn index_path(&self, at: usize) -> Result<String, AllocError> {
        let path = match self.packs.get(at) {
            Some(paths) => paths.index.as_str(),
            None => "",
        };
        String::from_str(self.rt.alloc(), path)
    }

    fn loose(&self) -> &LooseTable {
        &self.loose.table
    }
}

impl<R: StoreFiles> Reopen for DirectoryStore<R> {
    ghost use Rattle.std.specs.Prelude.{◌≡◌, ◌++◌, []};
    ghost use Rattle.repositories.specs.Answers.{IfKnown};
    ghost use Rattle.directory_store.specs.Opened.{HasAllOf, place_of};

    ghost had = { λ first store view. (place_of store.directory ≡ place_of first.directory)
        × (R.answers store.rt ≡ R.answers first.rt)
        × (store.purpose ≡ first.purpose)
        × (store.loose.which ≡ first.loose.which)
        × (view.kind ≡ first.directory.kind)
        × (store.skipped_before.items ++ store.skipped.items ≡ [] → IfKnown (λ at.
        HasAllOf at first.purpose first.loose.which first.directory view) (R.answers first.rt)) };

    fn reopen(&mut self) -> bool {
        self.failed = self.open_again().err();
        self.failed.is_none()
    }
}

impl<R: StoreFiles> StorePaths for DirectoryStore<R> {
    ghost use Rattle.directory_store.specs.Stores.{paths_in_all};

    ghost pack_path = { λ store pack. slice_index_or (map pack_path_of store.packs.items) pack [] };

    ghost loose_paths = { λ store. paths_in_all store.loose.directories.items };

    fn pack_path(&self, pack: usize) -> &str {
        match self.packs.get(pack) {
            Some(paths) => paths.pack.as_str(),
            None => "",
        }
    }

    // In the order of the directories. There are some if and only if the id is a loose object's.
    fn loose_paths(&self, id: &ObjectId) -> Result<Vec<String>, AllocError>
        ensures paths { IfOk result (λ paths. map string_bytes paths.items
            ≡ paths_in_all self.now.loose.directories.items (id_digits id.now)) }
        ensures some { IfOk result (λ paths. (0 < vec_len paths)
            ↔ Contains self.now.loose.table.ids (id_digits id.now)) }
    {
        let alloc = self.rt.alloc();
        let mut paths = Vec::new(alloc);
        for directory in &self.loose.directories {
            push_path(alloc, directory, id, &mut paths)?;
        }
        Ok(paths)
    }
}

//! A store in memory, whose reads fail after some number of them, until it is opened again.

ghost use Rattle.std.specs.Prelude.{◌≡◌, [], ◌∷◌, All, IfOk};
ghost use Rattle.id_lookup.specs.Words.{id_kind};

use gix_hash::{Kind, ObjectId, Prefix};
use object_store::{LooseTable, Reopen, Store, StorePaths};
use pack_index::{Bucket, LazyError, LazyFile};
use std::alloc::{AllocError, Allocator, Global};
use std::cell::Cell;
use std::io;
use streams::ReadAt;

/// How many reads are left before one fails, and how.
#[derive(Drop)]
pub struct Reads {
    left: Cell<usize>,
    why: io::ErrorKind,
    // How many there are after the store is opened again, and how often it can be.
    again: usize,
    times: Cell<usize>,
}

impl Reads {
    /// After these many the pack indexes may not be read any more.
    pub fn new(left: usize) -> Reads {
        Reads {
            left: Cell::new(left),
            why: io::ErrorKind::PermissionDenied,
            again: 0,
            times: Cell::new(0),
        }
    }

    /// After `left` reads the pack indexes are gone. The store can be opened again `times` times,
    /// for `again` reads each time.
    pub fn gone(left: usize, again: usize, times: usize) -> Reads {
        Reads {
            left: Cell::new(left),
            why: io::ErrorKind::NotFound,
            again,
            times: Cell::new(times),
        }
    }

    /// How often the store can still be opened again.
    pub fn times(&self) -> usize {
        self.times.get()
    }

    // Opens the store again.
    fn reopen(&self) -> bool {
        let times = self.times.get();
        if times == 0 {
            return false;
        }
        self.times.set(times - 1);
        self.left.set(self.again);
        true
    }

    /// Fails if no read is left.
    fn read(&self) -> io::Result<()> {
        let left = self.left.get();
        if left == 0 {
            return Err(self.why.into());
        }
        self.left.set(left - 1);
        Ok(())
    }
}

/// Bytes whose reads are counted.
#[derive(Clone, Copy)]
pub struct Counted<'a> {
    pub bytes: &'a [u8],
    pub reads: &'a Reads,
}

impl ReadAt for Counted<'_> {
    ghost use Rattle.std.specs.Prelude.{None, [], true};

    ghost content = { λ _. None };

    ghost path = { λ _. [] };

    ghost can_fail = { λ _. true };

    fn len(&self) -> io::Result<u64> {
        self.reads.read()?;
        Ok(self.bytes.len() as u64)
    }

    fn read_exact_at(&self, buf: &mut [u8], at: u64) -> io::Result<()> {
        self.reads.read()?;
        self.bytes.read_exact_at(buf, at)
    }
}

/// Two pack indexes and some loose ids.
#[derive(Drop)]
pub struct Memory<'a> {
    alloc: Global,
    kind: Kind,
    packs: Vec<LazyFile<Counted<'a>>>,
    loose: LooseTable,
    reads: &'a Reads,
    ghost of_kind: { All (λ pack. pack.kind ≡ kind) packs.items },
    ghost loose_kind: { loose.kind ≡ kind },
}

// Both values.
fn pair<T: Drop>(alloc: Global, first: T, second: T) -> Result<Vec<T>, AllocError>
    ensures { IfOk result (λ both. both.items ≡ first ∷ second ∷ []) }
{
    let mut both = Vec::new(alloc);
    both.push(first)?;
    both.push(second)?;
    Ok(both)
}

// The ids of a kind.
fn ids_of_kind(alloc: Global, ids: &[ObjectId], kind: Kind) -> Result<Vec<ObjectId>, AllocError>
    ensures { IfOk result (λ found. All (λ id. id_kind id ≡ kind) found.items) }
{
    let mut found = Vec::new(alloc);
    for id in ids {
        if id.kind() == kind {
            found.push(*id)?;
        }
    }
    Ok(found)
}

impl<'a> Memory<'a> {
    pub fn open(
        alloc: Global,
        kind: Kind,
        first: &'a [u8],
        second: &'a [u8],
        loose: &[ObjectId],
        reads: &'a Reads,
    ) -> Result<Memory<'a>, LazyError> {
        let first = Counted {
            bytes: first,
            reads,
        };
        let second = Counted {
            bytes: second,
            reads,
        };
        let packs = pair(
            alloc,
            LazyFile::open(first, kind)?,
            LazyFile::open(second, kind)?,
        )?;
        Ok(Memory {
            alloc,
            kind,
            packs,
            loose: LooseTable::new(ids_of_kind(alloc, loose, kind)?, kind),
            reads,
        })
    }
}

impl<'a> Store for Memory<'a> {
    ghost use Rattle.std.specs.Prelude.{◌∷◌, [], None, codes, map};
    ghost use Rattle.pack_index.specs.Lazy.{seen};

    type Source = Counted<'a>;

    ghost view = { λ store. record {
      kind = store.kind;
      packs = map seen store.packs.items;
      paths = codes "1.idx" ∷ codes "2.idx" ∷ [];
      loose = store.loose.ids;
      listed = None;
    } };

    fn object_hash(&self) -> Kind {
        self.kind
    }

    fn indexes(&self) -> &[LazyFile<Counted<'a>>] {
        &self.packs
    }

    fn part<A: Allocator>(
        &mut self,
        alloc: A,
        at: usize,
        prefix: &Prefix,
        few: usize,
    ) -> Result<Bucket<A>, LazyError> {
        self.packs[at].part(alloc, prefix, few)
    }

    fn index_path(&self, at: usize) -> Result<String, AllocError> {
        let path = match at {
            0 => "1.idx",
            1 => "2.idx",
            _ => "",
        };
        String::from_str(self.alloc, path)
    }

    fn loose(&self) -> &LooseTable {
        &self.loose
    }
}

impl Reopen for Memory<'_> {
    ghost had = { λ _ _ _. Unit {0} };

    fn reopen(&mut self) -> bool {
        self.reads.reopen()
    }
}

impl StorePaths for Memory<'_> {
    ghost use Rattle.std.specs.Prelude.{◌==◌, ◌∷◌, [], codes, if◌then◌else◌};

    ghost pack_path = { λ _ pack. if pack == 0 then codes "1.pack" else codes "2.pack" };

    ghost loose_paths = { λ _ _. codes "a/loose" ∷ codes "b/loose" ∷ [] };

    fn pack_path(&self, pack: usize) -> &str {
        if pack == 0 { "1.pack" } else { "2.pack" }
    }

    // A file in each of two directories.
    fn loose_paths(&self, _id: &ObjectId) -> Result<Vec<String>, AllocError> {
        let first = String::from_str(self.alloc, "a/loose")?;
        let second = String::from_str(self.alloc, "b/loose")?;
        pair(self.alloc, first, second)
    }
}

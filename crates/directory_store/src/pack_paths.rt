//! Where a pack index and its pack are.

ghost use Rattle.std.specs.Prelude.{◌≡◌, ◌++◌, ℕ, List, codes, string_bytes};

use std::alloc::AllocError;

// The paths of a pack index and of its pack, which is that of the index, with another end.
#[derive(Drop)]
pub(crate) struct PackPaths {
    pub(crate) index: String,
    pub(crate) pack: String,
    ghost beside: { (stem : List ℕ) → string_bytes index ≡ stem ++ codes ".idx"
        → string_bytes pack ≡ stem ++ codes ".pack" },
}

impl PackPaths {
    ghost use Rattle.std.specs.Prelude.{IfOk};
    ghost use Rattle.directory_store.specs.Stores.{index_path, pack_path_of};

    // The same paths.
    pub(crate) fn copy(&self) -> Result<PackPaths, AllocError>
        ensures index { IfOk result (λ copy. index_path copy ≡ index_path self.now) }
        ensures pack { IfOk result (λ copy. pack_path_of copy ≡ pack_path_of self.now) }
    {
        let index = self.index.clone()?;
        let pack = self.pack.clone()?;
        Ok(PackPaths { index, pack })
    }
}

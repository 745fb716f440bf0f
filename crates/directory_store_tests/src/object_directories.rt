//! Stores in directories, which are made where the tests run.

use gix_hash::Kind;
use std::fs;
use std::path::Path;
use std::rt::Files;
use std::test::Fail;
use test_devices::ids::{ids_of, pack_index};

/// The id of an object in a pack.
pub const PACKED: &str = "4b825dc642cb6eb9a060e54bf8d69288fbee4904";

/// The id of an object in a pack and loose.
pub const BOTH: &str = "4b90000000000000000000000000000000000000";

/// The id of a loose object.
pub const LOOSE: &str = "4bffffffffffffffffffffffffffffffffffffff";

/// The path of a file, and its bytes.
pub type Bytes = (&'static str, &'static [u8]);

/// The path of a pack index, and its ids.
pub type Index = (&'static str, &'static [&'static str]);

fn write<R: Files + AllocGlobal>(rt: &R, path: &str, bytes: &[u8]) -> Result<(), Fail> {
    if let Some(directory) = Path::new(path).parent() {
        fs::create_dir_all(rt, directory)?;
    }
    fs::write(rt, path, bytes)?;
    Ok(())
}

fn index_of(rt: &impl AllocGlobal, ids: &[&str]) -> Result<Vec<u8>, Fail> {
    Ok(pack_index(rt.alloc(), Kind::Sha1, &ids_of(rt, ids)?, &[])?)
}

/// Makes empty files, files and pack indexes, and the directories that they are in.
pub fn make<R: Files + AllocGlobal>(
    rt: &R,
    empty: &[&str],
    files: &[Bytes],
    indexes: &[Index],
) -> Result<(), Fail> {
    for path in empty {
        write(rt, path, b"")?;
    }
    for (path, bytes) in files {
        write(rt, path, bytes)?;
    }
    for (path, ids) in indexes {
        write(rt, path, &index_of(rt, ids)?)?;
    }
    Ok(())
}

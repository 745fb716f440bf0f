//! Files, as sources.

use crate::expecting::expect;
use directory_store::StoreFile;
use gix_hash::Kind;
use std::fs;
use std::fs::File;
use std::os::unix::fs::FileExt;
use std::test::Fail;
use streams::ReadAt;

// A file of 2^32 + 40 bytes, of which all are zeros but the last, two digests. It is read at its
// end only.
#[test]
fn files_are_longer_than_32_bits_count(rt: HostRuntime) -> Result<(), Fail> {
    let (kind, path) = (Kind::Sha1, "longer_than_32_bits_count");
    let (tree, blob) = (kind.empty_tree(), kind.empty_blob());
    let file = File::create_new(&rt, path)?;
    file.write_all_at(tree.as_slice(), 1 << 32)?;
    file.write_all_at(blob.as_slice(), (1 << 32) + 20)?;
    for stays_open in [true, false] {
        let source = StoreFile::open(&rt, path, stays_open, 0)?;
        expect!(&rt; source.len()? == (1 << 32) + 40);
        for &(at, want) in &[(1 << 32, tree), ((1 << 32) + 20, blob)] {
            let mut id = kind.null();
            source.read_exact_at(id.as_mut_slice(), at)?;
            expect!(&rt; id == want, at);
        }
    }
    fs::remove_file(&rt, path)?;
    Ok(())
}

// A file that does not stay open has the bytes that were read last, and no others once it is gone.
#[test]
fn bytes_that_were_read_are_kept(rt: HostRuntime) -> Result<(), Fail> {
    let path = "bytes_that_were_read_are_kept";
    for stays_open in [true, false] {
        let file = File::create_new(&rt, path)?;
        file.write_all_at(b"last", 20_000)?;
        let source = StoreFile::open(&rt, path, stays_open, 16_384)?;
        let mut bytes = [0; 4];
        source.read_exact_at(&mut bytes, 16_380)?;
        fs::remove_file(&rt, path)?;
        source.read_exact_at(&mut bytes, 16_380)?;
        expect!(&rt; source.read_exact_at(&mut bytes, 20_000).is_ok() == stays_open);
        expect!(&rt; (bytes == *b"last") == stays_open);
        expect!(&rt; source.read_exact_at(&mut bytes, 20_001).is_err());
    }
    Ok(())
}

// A file of which at most 4095 bytes may be kept keeps 4096, and no more.
#[test]
fn few_bytes_are_kept_of_a_closed_file(rt: HostRuntime) -> Result<(), Fail> {
    let path = "few_bytes_are_kept_of_a_closed_file";
    let file = File::create_new(&rt, path)?;
    file.write_all_at(b"last", 20_000)?;
    let source = StoreFile::open(&rt, path, false, 4095)?;
    fs::remove_file(&rt, path)?;
    let mut bytes = [0; 4];
    expect!(&rt; source.read_exact_at(&mut bytes, 4092).is_ok());
    expect!(&rt; source.read_exact_at(&mut bytes, 4093).is_err());
    Ok(())
}

// A short read keeps as many bytes before as after those that are asked for, also at the ends of a
// file. A short read of a part that was cut off is an error, and what is left can be read.
#[test]
fn short_reads_keep_what_is_around(rt: HostRuntime) -> Result<(), Fail> {
    let path = "short_reads_keep_what_is_around";
    for stays_open in [true, false] {
        let file = File::create_new(&rt, path)?;
        file.write_all_at(b"last", 40_000)?;
        let source = StoreFile::open(&rt, path, stays_open, 0)?;
        for &(at, first, end) in &[
            (20_000, 17_954, 22_050),
            (0, 0, 4096),
            (40_000, 37_954, 40_004),
        ] {
            let mut bytes = [0; 4];
            source.read_exact_at(&mut bytes, at)?;
            file.set_len(0)?;
            expect!(&rt; source.read_exact_at(&mut bytes, first).is_ok(), at);
            expect!(&rt; source.read_exact_at(&mut bytes, end - 4).is_ok(), at);
            expect!(&rt; source.read_exact_at(&mut bytes, end - 3).is_err(), at);
            file.write_all_at(b"last", 40_000)?;
        }
        fs::remove_file(&rt, path)?;
    }
    Ok(())
}

// A file that may be kept whole is so after a few reads, and then it may be gone.
#[test]
fn files_are_kept_whole(rt: HostRuntime) -> Result<(), Fail> {
    let path = "files_are_kept_whole";
    for &(most_kept, is_kept) in &[(40_003, false), (40_004, true)] {
        let file = File::create_new(&rt, path)?;
        file.write_all_at(b"last", 40_000)?;
        let source = StoreFile::open(&rt, path, false, most_kept)?;
        let mut bytes = [0; 4];
        for &at in &[20_000, 0, 40_000] {
            source.read_exact_at(&mut bytes, at)?;
        }
        fs::remove_file(&rt, path)?;
        expect!(&rt; bytes == *b"last");
        expect!(&rt; source.read_exact_at(&mut bytes, 0).is_ok() == is_kept);
        expect!(&rt; (bytes == [0; 4]) == is_kept);
    }
    Ok(())
}

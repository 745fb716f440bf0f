//! States of directories and files, and calls that are made again.

use crate::expecting::expect;
use repositories::{FileState, metadata, retried};
use std::cell::Cell;
use std::test::Fail;
use std::time::{Duration, SystemTime, UNIX_EPOCH};
use std::{fs, io};

#[test]
fn states_of_what_is_there_and_of_what_is_missing(rt: HostRuntime) -> Result<(), Fail> {
    fs::create_dir_all(&rt, "state/a")?;
    fs::write(&rt, "state/a/b", b"")?;
    let there = FileState::of(&rt, "state/a/b")?;
    expect!(&rt; !there.is_missing());
    expect!(&rt; there == FileState::of(&rt, "state/a/b")?);
    let missing = FileState::of(&rt, "state/a/c/d")?;
    expect!(&rt; missing.is_missing());
    expect!(&rt; missing != FileState::of(&rt, "state/a/c")?);
    expect!(&rt; missing != FileState::of(&rt, "state/a")?);
    // What is below a file is missing, too.
    expect!(&rt; FileState::of(&rt, "state/a/b/c")?.is_missing());
    fs::remove_dir_all(&rt, "state")?;
    Ok(())
}

// A file that was made just now may change in the same tick.
#[test]
fn states_settle(rt: HostRuntime) -> Result<(), Fail> {
    let now = SystemTime::now(&rt)?;
    fs::create_dir_all(&rt, "settled")?;
    fs::write(&rt, "settled/a", b"")?;
    let state = FileState::of(&rt, "settled/a")?;
    expect!(&rt; !state.is_settled(now));
    expect!(&rt; !state.is_settled(UNIX_EPOCH));
    let later = now.checked_add(Duration::from_secs(60));
    expect!(&rt; later.is_some_and(|later| state.is_settled(later)));
    fs::remove_dir_all(&rt, "settled")?;
    Ok(())
}

#[test]
fn interrupted_calls_are_made_again(rt: HostRuntime) -> Result<(), Fail> {
    let tries = Cell::new(0_u8);
    let third = retried(|| {
        tries.set(tries.get().saturating_add(1));
        if tries.get() < 3 {
            Err(io::ErrorKind::Interrupted.into())
        } else {
            Ok(tries.get())
        }
    });
    expect!(&rt; third? == 3);
    expect!(&rt; metadata(&rt, "none").is_err());
    Ok(())
}

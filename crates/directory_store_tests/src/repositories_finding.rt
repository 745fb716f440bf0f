//! Where the object directory is, in trees in memory: a call that fails is an error, each in turn,
//! and not taken for a file that is not there.

use crate::expecting::expect;
use crate::mem_tree::Entry::{self, Directory, File, Link, Root};
use crate::mem_tree::MemTree;
use repositories::{Environment, find_objects_in};
use std::cell::Cell;
use std::process::Abort;

type Tree = &'static [(&'static str, Entry)];

// A repository above the current directory.
const ABOVE: Tree = &[
    ("/w/a", Directory),
    ("/w/.git", Directory),
    ("/w/.git/HEAD", File("ref: refs/heads/main\n")),
    ("/w/.git/objects", Directory),
    ("/w/.git/refs", Directory),
    ("/w/.git/config", File("")),
];

// A worktree, whose gitfile and commondir name others.
const WORKTREE: Tree = &[
    ("/w/.git", File("gitdir: /m/worktrees/w\n")),
    (
        "/m/worktrees/w/HEAD",
        File("0123456789012345678901234567890123456789\n"),
    ),
    ("/m/worktrees/w/commondir", File("../..\r\n")),
    ("/m/worktrees/w/../..", Directory),
    ("/m/worktrees/w/../../objects", Directory),
    ("/m/worktrees/w/../../refs", Directory),
];

// A bare repository, whose HEAD is a link to a reference that is not there.
const BARE: Tree = &[
    ("/b/HEAD", Link("refs/heads/main")),
    ("/b/objects", Directory),
    ("/b/refs", Directory),
];

// A directory below a repository, whose path is not UTF-8.
const NOT_UTF8: Tree = &[
    (".", Directory),
    ("./..", Root),
    ("./../.git/HEAD", File("ref: refs/heads/main")),
    ("./../.git/objects", Directory),
    ("./../.git/refs", Directory),
];

// A directory without a repository, whose path is not UTF-8.
const NONE: Tree = &[(".", Directory), ("./..", Root), ("./../..", Root)];

// A tree, the current directory, `$GIT_DIR`, `$GIT_OBJECT_DIRECTORY` and what is found.
type Row = (
    Tree,
    Option<&'static str>,
    &'static str,
    &'static str,
    &'static str,
);

const ROWS: [Row; 8] = [
    (ABOVE, Some("/w/a"), "", "", "/w/.git/objects"),
    (ABOVE, Some("/w/a"), "", "/w/a", "/w/a"),
    (ABOVE, None, "/w/.git", "", "/w/.git/objects"),
    (ABOVE, None, "/w/a", "", "/w/a: not a git repository"),
    (WORKTREE, Some("/w"), "", "", "/m/worktrees/w/../../objects"),
    (BARE, Some("/b"), "", "", "/b/objects"),
    (NOT_UTF8, None, "", "", "./../.git/objects"),
    (
        NONE,
        None,
        "",
        "",
        "no git repository in this directory or above it",
    ),
];

// The value of a variable, which is not set if it is empty.
fn set(rt: &(impl Abort + AllocGlobal), value: &str) -> Option<String> {
    if value.is_empty() {
        return None;
    }
    Some(String::from_str(rt.alloc(), value).expect(rt, "no memory for a value"))
}

// Looks for what is wanted where a call fails, and returns how many calls there were.
fn expect_found(rt: &(impl Abort + AllocGlobal), row: &Row, fails_at: Option<u32>) -> u32 {
    let (entries, here, dir, objects, want) = *row;
    let tree = MemTree {
        alloc: rt.alloc(),
        entries,
        fails_at,
        calls: Cell::new(0),
    };
    let given = Environment {
        dir: set(rt, dir),
        common_dir: None,
        object_directory: set(rt, objects),
        alternate_object_directories: None,
    };
    let found = match find_objects_in(&tree, &given, here) {
        Ok(found) => found.path,
        Err(error) => format!(in rt.alloc(); "{error}").expect(rt, "no memory for a text"),
    };
    let calls = tree.calls.get();
    let is_right = if fails_at.is_some_and(|call| call < calls) {
        found.ends_with("permission denied")
    } else {
        found.as_str() == want
    };
    assert!(rt;
        is_right,
        "{found} and not {want}, where call {fails_at:?} fails"
    );
    calls
}

#[test]
fn object_directories(rt: HostRuntime) {
    for row in &ROWS {
        let calls = expect_found(&rt, row, None);
        expect!(&rt; calls > 2);
        for call in 0..calls {
            expect_found(&rt, row, Some(call));
        }
    }
}

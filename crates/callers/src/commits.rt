//! The head of a commit: the lines of its tree and its parents.

ghost use Rattle.std.specs.Prelude.{◌≡◌, codes, IfOk, MatchOption};
ghost use Rattle.gix_hash.specs.Words.{id_digits, id_kind};
ghost use Rattle.callers.specs.Commits.{keyed_then, HasNoKeyed, IsHead};

use crate::printed::{after_key, read_line};
use gix_hash::{Kind, ObjectId};
use std::alloc::{AllocError, Global};

const TREE: &[u8] = b"tree ";

const PARENT: &[u8] = b"parent ";

/// The tree and the parents of a commit, and the bytes after them.
///
/// ```
/// if let Some(head) = read_head(rt.alloc(), Kind::Sha1, text)? {
///     println!(rt; "{} parents", head.parents.len())?;
/// }
/// ```
#[derive(Drop)]
pub struct Head<'a> {
    /// The tree.
    pub tree: ObjectId,
    /// The parents, in order.
    pub parents: Vec<ObjectId>,
    /// The bytes after the parents, from the author on.
    pub rest: &'a [u8],
}

/// Reads the head of a commit's content, or returns `None` if it does not begin with a tree of the
/// kind.
///
/// It reads all lines of parents after the tree's.
pub fn read_head(alloc: Global, kind: Kind, text: &[u8]) -> Result<Option<Head<'_>>, AllocError>
    ensures { IfOk result (λ found. MatchOption found (HasNoKeyed kind (codes "tree ") text.now)
        (λ head. IsHead kind text.now head.tree head.parents.items head.rest.now)) }
{
    let Some((tree, mut rest)) = read_keyed(kind, TREE, text) else {
        return Ok(None);
    };
    let mut parents = Vec::new(alloc);
    while let Some((parent, after)) = read_keyed(kind, PARENT, rest) {
        parents.push(parent)?;
        rest = after;
    }
    Ok(Some(Head {
        tree,
        parents,
        rest,
    }))
}

// Reads a line of a key and an id, and returns the id and the bytes after the line.
#[tactic(auto, using(std::proofs::lemmas::List::append_cancel_left))]
fn read_keyed<'a>(kind: Kind, key: &[u8], text: &'a [u8]) -> Option<(ObjectId, &'a [u8])>
    ensures { MatchOption result (HasNoKeyed kind key.now text.now)
        (λ line. (id_kind line.0 ≡ kind)
        × (text.now ≡ keyed_then key.now (id_digits line.0) line.1.now)) }
{
    let line = read_line(kind, after_key(key, text)?)?;
    Some((line.id, line.rest))
}

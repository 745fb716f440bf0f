//! What is asked of the tree.

ghost use Rattle.std.specs.Prelude.{◌≡◌, ◌≤◌, ◌++◌, ◌∷◌, [], ℕ, IfOk, List, false, max};
ghost use Rattle.id_lookup.specs.Words.{IsIndexOf};
ghost use Rattle.known_tree.specs.Trees.{loose_digits};
ghost use Rattle.pack_index.specs.Format.{ids_in};
ghost use Rattle.pack_index.specs.Lazy.{HasRightCounts};
ghost use Rattle.pack_index.specs.declared.layout.Layout.TheVariants.{Index};
ghost use Rattle.store_questions.specs.Written.{HasWritten};
ghost use Rattle.streams.specs.Devices.{plain_failed, plain_inner};

use crate::tree::Tree;
use gix_hash::Kind;
use packtool_commands::StoreRequest;
use repositories::ObjectDirectory;
use std::io::{self, BufWriter};
use store_questions::{Failure, answer_in};
use streams::Plain;

/// Looks up what a request asks for in the tree. A call that returns 0 or 1 has written exactly
/// what the ids of the pack index and that of the loose object answer.
pub fn answer_in_tree<'a, I: io::Read + Drop, W: io::Write + Drop>(
    host: &HostRuntime,
    tree: &Tree<'_>,
    request: &StoreRequest<'a>,
    input: I,
    out: &mut Plain<BufWriter<W>>,
) -> Result<u8, Failure<'a>>
    requires { plain_failed out.old ≡ false }
    ensures { IfOk result (λ status. status ≤ 1 → (objects : List (List ℕ))
        → HasRightCounts Kind.Sha1 Index tree.now.index.now → IsIndexOf Kind.Sha1
        (ids_in Kind.Sha1 tree.now.index.now ++ loose_digits ∷ []) objects
        → HasWritten request.now.question (max request.now.least 4) Kind.Sha1 objects
        (I.remaining input) request.now.ask
        (⟦<BufWriter<W> as io::Write>⟧.contents (plain_inner out.old))
        (⟦<BufWriter<W> as io::Write>⟧.contents (plain_inner out.new))) }
{
    let directory = ObjectDirectory {
        path: String::from_str(tree.alloc, "o")?,
        kind: Kind::Sha1,
        alternates: Vec::new(tree.alloc),
    };
    answer_in(host, tree, &directory, request, input, out)
}

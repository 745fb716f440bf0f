//! Laws of hashing that hold across calls. Each is the contract of a function, and those that
//! return nothing compute nothing.

ghost use Rattle.std.specs.Prelude.{◌≡◌, ◌↔◌, ◌<◌, ℕ, All, Bool, List, [], ◌∷◌, ◌++◌, map, length, codes};
ghost use Rattle.std.specs.List.{concat};
ghost use Rattle.gix_hash.specs.Hashing.{AreChunks, Reaches, WasFed, WriterCall, WriterStep, WritesAndFeeds, accepted, all_false, chunks, digest};
ghost use Rattle.gix_hash.specs.Ids.{AreIdDigits, empty_blob_digits, empty_tree_digits, id_bytes, id_digits, id_kind};
ghost use Rattle.gix_hash.specs.Kinds.{byte_len_of};

use crate::hashing;
use crate::hashing::start::hasher;
use crate::io::{Interrupt, Never, Write};
use crate::kind::Kind;
use crate::object_id::ObjectId;
use std::io;

/// The id of a message that is fed in chunks: it is the digest of their concatenation, however the
/// message is cut.
pub fn id_of_chunks(kind: Kind, slices: &[&[u8]]) -> Result<ObjectId, hashing::Error>
    ensures { result ≡ Ok (digest kind (concat (map (λ slice. slice.now) slices.now))) }
{
    let mut hasher = hasher(kind);
    for slice in slices {
        hasher.update(slice);
    }
    hasher.try_finalize()
}

/// The digest of any message has the kind that was asked for, as many bytes as the kind's digests,
/// each below 256, and the digits of an id of the kind.
pub fn digests(kind: Kind)
    ensures kind { (message : List ℕ) → id_kind (digest kind message) ≡ kind }
    ensures len { (message : List ℕ) → length (id_bytes (digest kind message)) ≡ byte_len_of kind }
    ensures bytes_in_range { (message : List ℕ)
        → All (λ b. b < 256) (id_bytes (digest kind message)) }
    ensures digits { (message : List ℕ) → AreIdDigits kind (id_digits (digest kind message)) }
{}

/// The chunks in which `num_bytes` bytes are read are the only numbers with that sum of which all
/// except the last are 65535, and the last is 1 to 65535. If the sum is 0, there are none.
pub fn only_chunks(num_bytes: u64)
    ensures { (lens : List ℕ) → (lens ≡ chunks num_bytes) ↔ AreChunks num_bytes lens }
{}

/// Whatever calls take a hashing writer from `before` to `after`, whatever they return: the hasher
/// was fed, and the inner writer gained, exactly the bytes that the calls accepted. So the hasher
/// of a fresh writer whose fields are only read was fed exactly what the inner writer accepted.
pub fn hashes_what_was_accepted<T: io::Write>(before: &Write<T>, after: &Write<T>)
    ensures together { (calls : List WriterCall)
        → Reaches (WriterStep T.contents) before.now calls after.now
        → WritesAndFeeds T.contents before.now (accepted calls) after.now }
    ensures fresh { (calls : List WriterCall)
        → Reaches (WriterStep T.contents) before.now calls after.now
        → WasFed before.now.hash [] → WasFed after.now.hash (accepted calls) }
{}

/// However often [`Never`] is asked, it returns false each time.
pub fn never_interrupts(before: &Never, after: &Never)
    ensures { (answers : List Bool)
        → Reaches ⟦<Never as Interrupt>⟧.answers before.now answers after.now
        → answers ≡ all_false (length answers) }
{}

/// The ids of the empty blob and of the empty tree are the digests of these objects, as Git hashes
/// them: the texts `blob 0` and `tree 0`, with a NUL byte after each.
pub fn well_known_ids(kind: Kind)
    ensures blob { id_digits (digest kind (codes "blob 0" ++ 0 ∷ [])) ≡ empty_blob_digits kind }
    ensures tree { id_digits (digest kind (codes "tree 0" ++ 0 ∷ [])) ≡ empty_tree_digits kind }
{}

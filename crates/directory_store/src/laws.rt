//! Laws of opened stores that belong to no single call. Each is the contract of a function that
//! computes nothing: a call of it brings the law into a caller's proof.

ghost use Rattle.std.specs.Prelude.{◌≡◌, ◌↔◌, ◌≤◌, ℕ, Contains, IsTrue, List, length, map, nat_eq};
ghost use Rattle.std.specs.List.{starts_with};
ghost use Rattle.id_lookup.specs.Words.{ObjectId, first_byte_of, id_digits, matches};
ghost use Rattle.object_store.specs.Stores.{AreIdsRead, AreMatches, IsAbbreviationIn, StoreView};
ghost use Rattle.repositories.specs.Answers.{Answers};
ghost use Rattle.directory_store.specs.Opened.{AreObjects, AreRight, HasAll, IsObject};
ghost use Rattle.directory_store.specs.Stores.{IsListedBy};
ghost use Rattle.directory_store.specs.declared.loose.LooseIds.{LooseIds};
ghost use Rattle.directory_store.specs.declared.multi.Purpose.{Purpose};

/// What is found in a store that [`DirectoryStore::open`](crate::DirectoryStore::open) has opened,
/// by what directories and files answer: if what is read of pack indexes and multi-pack-indexes is
/// right, a look-up of a prefix finds exactly the objects of the directories whose ids begin with
/// it, in order, each once, and an abbreviation is one among all of these objects.
pub fn opened()
    ensures found { (at : Answers) (purpose : Purpose) (which : LooseIds)
        (directories objects : List (List ℕ)) (view : StoreView) (prefix : List ℕ)
        (ids : List ObjectId)
        → HasAll at purpose which directories view → AreRight at purpose view.kind directories
        → AreObjects at view.kind LooseIds.All directories objects
        → IsListedBy which (first_byte_of prefix) → 2 ≤ length prefix
        → AreMatches view prefix ids → map id_digits ids ≡ matches prefix objects }
    ensures members { (at : Answers) (purpose : Purpose) (which : LooseIds)
        (directories : List (List ℕ)) (view : StoreView) (prefix : List ℕ) (ids : List ObjectId)
        → HasAll at purpose which directories view → AreRight at purpose view.kind directories
        → 2 ≤ length prefix → AreMatches view prefix ids → (digits : List ℕ)
        → Contains (map id_digits ids) digits ↔ (IsTrue (starts_with nat_eq digits prefix)
        × ∥ IsObject at view.kind which directories digits ∥₁) }
    ensures abbreviated { (at : Answers) (purpose : Purpose) (which : LooseIds)
        (directories objects : List (List ℕ)) (view : StoreView) (read : List (List ℕ))
        (least : ℕ) (id short : List ℕ)
        → HasAll at purpose which directories view → AreRight at purpose view.kind directories
        → AreObjects at view.kind LooseIds.All directories objects
        → IsListedBy which (first_byte_of id)
        → AreIdsRead view (first_byte_of id) read → 2 ≤ least
        → IsAbbreviationIn least read id short → IsAbbreviationIn least objects id short }
{}

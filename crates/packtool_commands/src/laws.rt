//! Laws of what is printed that belong to no single call. Each is the contract of a function that
//! computes nothing: a call of it brings the law into a caller's proof.

ghost use Rattle.std.specs.Prelude.{◌≡◌, ◌≢◌, ◌++◌, ◌∷◌, [], false, ℕ, All, List, Option, Some, map};
ghost use Rattle.std.specs.Io.KnownBytes.{Appends};
ghost use Rattle.std.specs.List.{list_any};
ghost use Rattle.id_lookup.specs.Words.{KindDigits, ObjectId, hex_letter, id_digits};
ghost use Rattle.object_store.specs.Several.{limited_to};
ghost use Rattle.object_store.specs.Stores.{AreMatches, StoreView};
ghost use Rattle.packtool_commands.specs.Files.{escape_mark, escaped, file_line, is_special};
ghost use Rattle.packtool_commands.specs.Stores.{HasAnsweredMatches, found_text, limit_for, no_answer, prefix_of};
ghost use Rattle.packtool_commands.specs.declared.printing.Wanted.{Wanted};
ghost use Rattle.packtool_commands.specs.declared.printing.Wanted.TheVariants.{Bare};
ghost use Rattle.packtool_commands.specs.declared.printing.NoAnswer.{NoAnswer};
ghost use Rattle.streams.specs.Streams.{printed};

/// How a name is printed by [`write_named`](crate::write_named): with no line feed, so that no name
/// looks like a further line; and as it is if it has no byte that is escaped.
pub fn printed_names()
    ensures one_line { (name : List ℕ) → All (λ byte. byte ≢ 10)
        (escape_mark name ++ escaped name) }
    ensures plain { (name text : List ℕ) → list_any is_special name ≡ false
        → file_line name text ≡ name ++ text }
{}

/// The first two things that a prefix finds are enough if one is asked for: what is printed for
/// them, and why they are no answer, is the same as for all things that it finds.
pub fn two_are_enough<X>()
    ensures text { (text : List ℕ → X → List ℕ) (wanted : Wanted) (line : List ℕ)
        (found : List X) → found_text text wanted line (limited_to (limit_for wanted) found)
        ≡ found_text text wanted line found }
    ensures no_answer { (wanted : Wanted) (found : List X)
        → no_answer wanted (limited_to (limit_for wanted) found) ≡ no_answer wanted found }
{}

/// For one line that is a prefix, [`find_each`](crate::find_each) writes with
/// [`Wanted::Bare`](crate::Wanted::Bare) a line for each id of the store that begins with it, and
/// nothing else.
pub fn bare_is_printed<A>()
    ensures { (view : StoreView) (line : List ℕ) (prefix : KindDigits) (why : Option NoAnswer)
        (old new : Option (List ℕ)) → prefix_of view.kind line ≡ Some prefix
        → HasAnsweredMatches A Bare view (line ∷ []) why old new → (ids : List ObjectId)
        × AreMatches view prefix.digits ids × (why ≡ no_answer Bare ids)
        × Appends old new (printed hex_letter (map id_digits ids)) }
{}

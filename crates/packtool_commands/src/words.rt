//! Words of the command line.

ghost use Rattle.std.specs.Prelude.{◌≡◌, ◌≢◌, ◌++◌, [], ◌∷◌, List, ℕ, MatchOption};

/// The text of a word whose argument is not UTF-8, or `None` if it is.
pub fn lossy_text(word: &str) -> Option<&str>
    ensures { MatchOption result ((text : List ℕ) → word.now ≢ text ++ (0 ∷ []))
        (λ text. word.now ≡ text.now ++ (0 ∷ [])) }
{
    word.strip_suffix("\0")
}

//! Laws of the definitions, each as the contract of a function that does nothing.

ghost use Rattle.std.specs.Prelude.{◌≡◌, ◌↔◌, ◌∷◌, ◌++◌, ℕ, List, IsTrue, Option};
ghost use Rattle.gf_token.specs.Index.{ReadsIndex};
ghost use Rattle.gf_token.specs.LabelSpelling.{is_spelling};
ghost use Rattle.gf_token.specs.EscapedQuotes.{EscapesQuotes, EndsInBackslash};
ghost use Rattle.gf_token.specs.Token.{Lexeme};
ghost use Rattle.gf_token.specs.TokenSpelling.{Spells};
ghost use Rattle.gf_token.specs.Slices.{StandsIn};

/// Each byte list spells exactly one list of tokens.
pub fn spelled_once()
    ensures { (bytes : List ℕ) → (ls : List Lexeme) × Spells 0 bytes ls
        × ((others : List Lexeme) → Spells 0 bytes others → others ≡ ls) }
{}

/// The span of each token is the slice of the bytes that spells it.
pub fn spans_are_slices()
    ensures { (bytes : List ℕ) (before after : List Lexeme) (l : Lexeme)
        → Spells 0 bytes (before ++ l ∷ after) → StandsIn bytes l }
{}

/// The bytes between a label's quotes are those in which each `"` directly follows a backslash, and
/// in which the last byte is not a backslash.
pub fn labels_escape_quotes()
    ensures { (bytes : List ℕ)
        → IsTrue (is_spelling bytes) ↔ (EscapesQuotes bytes × ¬ (EndsInBackslash bytes)) }
{}

/// If an index is due, bytes are read in one way: as the index that they are, or as none.
pub fn one_index()
    ensures { (bytes : List ℕ) → (read : Option ℕ) × ReadsIndex bytes read
        × ((other : Option ℕ) → ReadsIndex bytes other → other ≡ read) }
{}

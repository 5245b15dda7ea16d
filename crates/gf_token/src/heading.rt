//! The words that begin a game file of either format.

ghost use Rattle.std.specs.Prelude.{MatchResult};
ghost use Rattle.gf_token.specs.Next.{is_letter, is_word};
ghost use Rattle.gf_token.specs.Remaining.{IsNextRefused, Takes};

use crate::cursor::Cursor;
use crate::fault::{Fault, What, Why};

impl<'a> Cursor<'a> {
    /// Takes the word that is due: the name of a format, or its version (Gambit documentation,
    /// "Game representation formats").
    ///
    /// # Errors
    ///
    /// E3 at any other token, or at the end; E2 at an unterminated text. Nothing is taken then.
    pub fn word(&mut self, word: &[u8], due: What) -> Result<(), Fault>
        ensures { MatchResult result (λ _. Takes (is_word word.now) self.old self.new)
            (IsNextRefused (is_word word.now) (Why.Expected due) self.old self.new) }
    {
        if self.takes_word(word) {
            Ok(())
        } else {
            Err(self.refusal(Why::Expected(due)))
        }
    }

    /// Takes the letter for how numbers are written, `R` or `D`, which has no effect (this
    /// project's profile).
    ///
    /// # Errors
    ///
    /// E3 at any other token, or at the end; E2 at an unterminated text. Nothing is taken then.
    pub fn letter(&mut self) -> Result<(), Fault>
        ensures { MatchResult result (λ _. Takes is_letter self.old self.new)
            (IsNextRefused is_letter (Why.Expected What.Letter) self.old self.new) }
    {
        if self.takes_word(b"R".as_slice()) || self.takes_word(b"D".as_slice()) {
            Ok(())
        } else {
            Err(self.refusal(Why::Expected(What::Letter)))
        }
    }
}

//! The heading of a strategic file: its format, title, players and comment, and which version of the
//! body follows.

ghost use Rattle.std.specs.Prelude.{◌≡◌, ℕ};
ghost use Rattle.gf_token.specs.Remaining.{StandsBefore};
ghost use Rattle.gf_nfg.specs.inner.Heard.{Goes};
ghost use Rattle.gf_nfg.specs.Position.Position.{AfterComment, AfterStrategies, BeforePlayers};
ghost use Rattle.gf_nfg.specs.Position.Position.{BeforeStrategies, Format};
ghost use Rattle.gf_nfg.specs.inner.ReaderState.{answer, body_at};

use super::{Reader, keep};
use crate::receive::Version;
use gf_token::{Fault, Span, What, Why};

impl<'a> Reader<'a> {
    /// Reads everything before the players.
    pub(super) fn heading(&mut self) -> Result<(), Fault>
        ensures machine { Goes (answer Format self.old) result (answer BeforePlayers self.new) }
        ensures uncounted { self.new.heading.counts ≡ self.old.heading.counts }
    {
        self.tokens.word(b"NFG", What::Format)?;
        self.tokens.word(b"1", What::Version)?;
        self.tokens.letter()?;
        let Some(title) = self.tokens.text() else {
            return Err(self.tokens.refusal(Why::Expected(What::Text)));
        };
        self.heading.title = title.label;
        Ok(())
    }

    /// Reads the players.
    pub(super) fn players(&mut self) -> Result<(), Fault>
        ensures machine { Goes (answer BeforePlayers self.old) result
            (answer BeforeStrategies self.new) }
        ensures uncounted { self.new.heading.counts ≡ self.old.heading.counts }
    {
        let Some(_) = self.tokens.opening() else {
            return Err(self.tokens.refusal(Why::Expected(What::Opening)));
        };
        while let Some(player) = self.tokens.text() {
            keep(&mut self.heading.players, player)?;
        }
        let Some(_) = self.tokens.closing() else {
            return Err(self.tokens.refusal(Why::Expected(What::Text)));
        };
        Ok(())
    }

    /// Reads the comment, if there is one, after the brace. Returns the place of the last of these
    /// tokens.
    pub(super) fn comment(&mut self, brace: Span) -> Span
        requires { StandsBefore self.old.tokens brace }
        ensures machine { (due : ℕ)
            → answer (AfterStrategies due) self.old ≡ answer (AfterComment due) self.new }
        ensures kept { self.new.heading
            ≡ record self.old.heading { comment = self.new.heading.comment } }
        ensures place { StandsBefore self.new.tokens result }
    {
        let Some(comment) = self.tokens.text() else {
            return brace;
        };
        self.heading.comment = comment.label;
        comment.span
    }

    /// Takes the brace that opens the outcomes, if it comes next. Returns what follows, and the
    /// place of the last token, which was given before.
    pub(super) fn version(&mut self, last: Span) -> (Version, Span)
        requires { StandsBefore self.old.tokens last }
        ensures machine { (due : ℕ)
            → answer (AfterComment due) self.old ≡ answer (body_at result.0 due) self.new }
        ensures kept { self.new.heading ≡ self.old.heading }
        ensures place { StandsBefore self.new.tokens result.1 }
    {
        match self.tokens.opening() {
            Some(brace) => (Version::Outcomes, brace),
            None => (Version::Payoffs, last),
        }
    }
}

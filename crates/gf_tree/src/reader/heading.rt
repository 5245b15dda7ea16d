//! The heading of an extensive file: its format, title and players, and the comment.

ghost use Rattle.std.specs.Prelude.{◌≡◌, IfOk, OnOk};
ghost use Rattle.gf_token.specs.Remaining.{StandsBefore};
ghost use Rattle.gf_tree.specs.inner.Machine.Position.{AfterPlayers, BeforePlayers, Format};
ghost use Rattle.gf_tree.specs.inner.Machine.Position.{NodeDue};
ghost use Rattle.gf_tree.specs.inner.ReaderState.{answer, Goes, ReadsHeading};

use super::Reader;
use gf_token::{Fault, Span, What, Why};

impl<'a> Reader<'a> {
    /// Reads everything before the players.
    pub(super) fn heading(&mut self) -> Result<(), Fault>
        ensures machine { Goes (answer Format self.old) result (answer BeforePlayers self.new) }
        ensures read { OnOk result (ReadsHeading self.old self.new) }
    {
        self.tokens.word(b"EFG", What::Format)?;
        self.tokens.word(b"2", What::Version)?;
        self.tokens.letter()?;
        let Some(title) = self.tokens.text() else {
            return Err(self.tokens.refusal(Why::Expected(What::Text)));
        };
        self.title = title.label;
        Ok(())
    }

    /// Reads the players. Returns the place of their closing brace.
    pub(super) fn players(&mut self) -> Result<Span, Fault>
        ensures machine { Goes (answer BeforePlayers self.old) result
            (answer AfterPlayers self.new) }
        ensures read { OnOk result (ReadsHeading self.old self.new) }
        ensures place { IfOk result (λ brace. StandsBefore self.new.tokens brace) }
    {
        let Some(_) = self.tokens.opening() else {
            return Err(self.tokens.refusal(Why::Expected(What::Opening)));
        };
        while let Some(player) = self.tokens.text() {
            let Ok(()) = self.players.push(player.label) else {
                return Err(Fault::at(player.span, Why::Memory));
            };
        }
        let Some(brace) = self.tokens.closing() else {
            return Err(self.tokens.refusal(Why::Expected(What::Text)));
        };
        Ok(brace)
    }

    /// Reads the comment, if there is one, after the brace. Returns the place of the last of these
    /// tokens.
    pub(super) fn comment(&mut self, brace: Span) -> Span
        requires due { self.old.due ≡ 1 }
        requires place { StandsBefore self.old.tokens brace }
        ensures machine { answer AfterPlayers self.old ≡ answer NodeDue self.new }
        ensures read { ReadsHeading self.old self.new }
        ensures place { StandsBefore self.new.tokens result }
    {
        let Some(comment) = self.tokens.text() else {
            return brace;
        };
        self.comment = comment.label;
        comment.span
    }
}

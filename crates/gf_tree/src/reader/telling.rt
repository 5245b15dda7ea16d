//! What the reader tells: the heading of a file, and then its nodes.

ghost use Rattle.std.specs.Prelude.{◌≡◌, ◌≤◌, [], length, MatchResult};
ghost use Rattle.gf_token.specs.declared.fault.Why.TheVariants.{Memory};
ghost use Rattle.gf_token.specs.Label.{label_of};
ghost use Rattle.gf_token.specs.Remaining.{StandsBefore};
ghost use Rattle.gf_tree.specs.inner.Machine.Position.{NodeDue};
ghost use Rattle.gf_tree.specs.inner.ReaderState.{Fails, TellsNode, answer, heading_read};

use super::Reader;
use crate::game::numbered_node::{NumberedNode, Numbering};
use crate::reader::receive::{Receive, ToldHeading};
use gf_token::{Fault, Label, Span, Why};

impl<'a> Reader<'a> {
    /// Tells the heading, whose last token is at this place.
    pub(super) fn tell_heading<R: Receive<'a>>(&self, last: Span, to: &mut R) -> Result<(), Fault>
        requires untold { R.untold to.old }
        requires place { StandsBefore self.now.tokens last }
        ensures { MatchResult result (λ _. R.holds to.old to.new (heading_read self.now) [])
            (λ f. Fails f (answer NodeDue self.now)) }
    {
        let Ok(()) = to.heading(ToldHeading {
            title: self.title,
            comment: self.comment,
            players: &self.players,
        }) else {
            return Err(Fault::at(last, Why::Memory));
        };
        Ok(())
    }

    /// Tells a node with the positions of its set and of its outcome, or 0 if it has none. `at`
    /// is the place of a refusal of memory.
    #[inline(always)]
    pub(super) fn tell<R: Receive<'a>>(
        &mut self,
        name: Label<'a>,
        set: u32,
        outcome: u32,
        at: Span,
        to: &mut R,
    ) -> Result<(), Fault>
        requires set { set ≤ length self.old.sets.known }
        requires outcome { outcome ≤ length self.old.outcomes.known }
        ensures { MatchResult result
            (λ _. TellsNode R.holds self.old self.new to.old to.new (record {
              name = label_of name.entry;
              set = set;
              outcome = outcome;
            })) (λ f. f ≡ record { span = at; why = Memory }) }
    {
        let Ok(()) = to.node(NumberedNode {
            numbering: Numbering::ByFirstUse,
            sets: &self.sets,
            outcomes: &self.outcomes,
            used_sets: self.told_sets,
            used_outcomes: self.told_outcomes,
            name,
            set,
            outcome,
        }) else {
            return Err(Fault::at(at, Why::Memory));
        };
        self.told_sets = self.told_sets.max(set);
        self.told_outcomes = self.told_outcomes.max(outcome);
        Ok(())
    }
}

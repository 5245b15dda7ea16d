//! The outcome of a node, which completes the node.

ghost use Rattle.std.specs.Prelude.{◌≡◌, ◌+◌, ◌<◌, ◌≤◌, false, suc, ℕ, List, Some, None, length};
ghost use Rattle.std.specs.Prelude.{map, nat_eq, option_map, position, slice_get};
ghost use Rattle.std.specs.Prelude.{IfNone, IfOk, IfSome, OnOk};
ghost use Rattle.gf_token.specs.Label.{label_of};
ghost use Rattle.gf_token.specs.Positions.{at_position};
ghost use Rattle.gf_token.specs.Remaining.{StandsBefore};
ghost use Rattle.gf_tree.specs.Description.{Outcome};
ghost use Rattle.gf_tree.specs.FiniteMap.{description_at};
ghost use Rattle.gf_tree.specs.inner.FoundSet.{FoundOutcome};
ghost use Rattle.gf_tree.specs.Description.{outcome_with};
ghost use Rattle.gf_tree.specs.inner.Machine.{Begun, Content, past_outcome, with_outcome};
ghost use Rattle.gf_tree.specs.inner.Machine.Position.{KnownOutcomeName, NewOutcomeName};
ghost use Rattle.gf_tree.specs.inner.Machine.Position.{NewPayoff, NodeDue, OutcomeNumber};
ghost use Rattle.gf_tree.specs.inner.ReaderState.{answer, begun_with, content_of};
ghost use Rattle.gf_tree.specs.inner.ReaderState.{Goes, GoesTelling, Grows, ReadsPayoff};
ghost use Rattle.gf_tree.specs.inner.ReaderState.{ReadsTokens, heard, heard_from};

use super::Reader;
use crate::game::outcomes::Outcomes;
use crate::reader::again::outcome_again;
use crate::reader::receive::Receive;
use gf_token::{Fault, Label, Span, What, Why};
use std::alloc::AllocError;

/// The place of an outcome, if it is known.
#[inline(always)]
#[tactic(auto, using(crate::proofs::lemmas::reader::Steps::outcomes_known))]
fn known_outcome(outcomes: &Outcomes<'_>, number: u32) -> Option<u32>
    ensures absent { IfNone result (position (nat_eq number) (map (λ o. o.key) outcomes.now.known)
        ≡ None) }
    ensures unknown { IfNone result (description_at nat_eq outcomes.now.known number ≡ None) }
    ensures known { IfSome result (λ place. FoundOutcome outcomes.now.known number place) }
{
    outcomes.find(number)
}

impl<'a> Reader<'a> {
    /// Keeps an outcome that was not known, whose description is complete. Returns its place.
    fn keep_outcome(&mut self, number: u32, name: Label<'a>) -> Result<u32, AllocError>
        requires absent { position (nat_eq number) (map (λ o. o.key) self.old.outcomes.known)
            ≡ None }
        ensures content { OnOk result (content_of self.new ≡ with_outcome (content_of self.old)
            number (outcome_with (label_of name.entry) self.old.outcomes.pending)) }
        ensures kept { self.new
            ≡ record self.old { seed = self.new.seed; outcomes = self.new.outcomes } }
        ensures grows { OnOk result (Grows self.old.outcomes.known self.new.outcomes.known) }
        ensures key { IfOk result (λ place. option_map (λ o. o.key)
            (at_position self.new.outcomes.known (place + 1)) ≡ Some number) }
        ensures place { IfOk result (λ place. place < length self.new.outcomes.known) }
    {
        self.outcomes.end(&mut self.seed, number, name)
    }

    /// Reads a payoff of a new outcome, and one comma if there is one.
    #[tactic(auto, using(gf_fraction::proofs::Offered::number_answers))]
    #[inline(always)]
    fn payoff(&mut self) -> Result<(), Fault>
        ensures machine { (b : Begun) (number : ℕ) (name : List ℕ) (left : ℕ) → Goes
            (answer (NewPayoff false b number (outcome_with name self.old.outcomes.pending)
            (suc left)) self.old) result
            (answer (NewPayoff false b number (outcome_with name self.new.outcomes.pending) left)
            self.new) }
        ensures read { OnOk result (ReadsPayoff self.old self.new) }
    {
        let Some((word, number)) = self.tokens.number() else {
            return Err(self.tokens.refusal(Why::Expected(What::Number)));
        };
        match number {
            Ok(payoff) => {
                let Ok(()) = self.outcomes.push(payoff) else {
                    return Err(Fault::at(word.span, Why::Memory));
                };
                self.tokens.comma();
                Ok(())
            }
            Err(cause) => Err(Fault::at(word.span, Why::from(cause))),
        }
    }

    /// Reads the closing brace of a new outcome, which completes its node.
    fn end_outcome<R: Receive<'a>>(
        &mut self,
        node: Label<'a>,
        set: u32,
        number: u32,
        name: Label<'a>,
        to: &mut R,
    ) -> Result<(), Fault>
        requires absent { position (nat_eq number) (map (λ o. o.key) self.old.outcomes.known)
            ≡ None }
        requires set { set ≤ length self.old.sets.known }
        ensures { GoesTelling R.holds result (λ _. set) (answer
            (NewPayoff false (begun_with self.old.sets.known (label_of node.entry) set)
            number (outcome_with (label_of name.entry) self.old.outcomes.pending) 0) self.old)
            self.old self.new to.old to.new }
    {
        let Some(brace) = self.tokens.closing() else {
            return Err(self.tokens.refusal(Why::Expected(What::Closing)));
        };
        let Ok(place) = self.keep_outcome(number, name) else {
            return Err(Fault::at(brace, Why::Memory));
        };
        prove!((place as usize) < self.outcomes.len());
        self.tell(node, set, place + 1, brace, to)?;
        Ok(())
    }

    /// Reads the first description of an outcome that is not known, which completes its node.
    #[inline(never)]
    fn new_outcome<R: Receive<'a>>(
        &mut self,
        node: Label<'a>,
        set: u32,
        number: u32,
        to: &mut R,
    ) -> Result<(), Fault>
        requires absent { position (nat_eq number) (map (λ o. o.key) self.old.outcomes.known)
            ≡ None }
        requires set { set ≤ length self.old.sets.known }
        ensures { GoesTelling R.holds result (λ _. set) (answer (NewOutcomeName
            (begun_with self.old.sets.known (label_of node.entry) set) number)
            self.old) self.old self.new to.old to.new }
    {
        let Some(name) = self.tokens.text() else {
            return Err(self.tokens.refusal(Why::NotDescribed));
        };
        let Some(_) = self.tokens.opening() else {
            return Err(self.tokens.refusal(Why::Expected(What::Opening)));
        };
        self.outcomes.begin();
        let mut left = self.players.len();
        while left > 0 {
            self.payoff()?;
            left -= 1;
        }
        self.end_outcome(node, set, number, name.label, to)
    }

    /// Reads the description of a known outcome, if there is one, after its node.
    fn outcome_again(&mut self, place: u32) -> Result<(), Fault>
        requires place { place < length self.old.outcomes.known }
        ensures machine { (c : Content) (outcome : Outcome)
            → option_map (λ o. o.description) (slice_get self.old.outcomes.known place)
            ≡ Some outcome
            → Goes (heard (KnownOutcomeName outcome) c self.old.tokens) result
            (heard NodeDue c self.new.tokens) }
        ensures read { OnOk result (ReadsTokens self.old self.new) }
    {
        let (name, payoffs) = (self.outcomes.name(place), self.outcomes.payoffs(place));
        outcome_again(&mut self.tokens, name, payoffs)
    }

    /// Reads the description of an outcome, after the outcome's number at this place: the first
    /// one, or one that is repeated. It completes the node.
    #[inline(never)]
    fn described_outcome<R: Receive<'a>>(
        &mut self,
        node: Label<'a>,
        set: u32,
        number: u32,
        stands: Span,
        to: &mut R,
    ) -> Result<(), Fault>
        requires positive { 0 < number }
        requires set { set ≤ length self.old.sets.known }
        requires stands { StandsBefore self.old.tokens stands }
        ensures { GoesTelling R.holds result (λ _. set)
            (heard_from (past_outcome (content_of self.old)
            (begun_with self.old.sets.known (label_of node.entry) set) number
            (description_at nat_eq self.old.outcomes.known number)) self.old.tokens)
            self.old self.new to.old to.new }
    {
        let Some(place) = known_outcome(&self.outcomes, number) else {
            self.new_outcome(node, set, number, to)?;
            return Ok(());
        };
        prove!((place as usize) < self.outcomes.len());
        self.tell(node, set, place + 1, stands, to)?;
        self.outcome_again(place)
    }

    /// Reads the number of a node's outcome, or 0 for none, and the outcome's description, if there
    /// is one. Whether there is one is checked first, as for sets. This completes the node.
    #[tactic(auto, using(gf_token::proofs::Offered::index_answers))]
    #[inline(always)]
    pub(super) fn outcome<R: Receive<'a>>(
        &mut self,
        node: Label<'a>,
        set: u32,
        to: &mut R,
    ) -> Result<(), Fault>
        requires set { set ≤ length self.old.sets.known }
        ensures { GoesTelling R.holds result (λ _. set) (answer (OutcomeNumber
            (begun_with self.old.sets.known (label_of node.entry) set)) self.old)
            self.old self.new to.old to.new }
    {
        let Some((word, index)) = self.tokens.index() else {
            return Err(self.tokens.refusal(Why::Expected(What::Index)));
        };
        let Some(number) = index else {
            return Err(Fault::at(word.span, Why::BadIndex));
        };
        if number == 0 {
            self.tell(node, set, 0, word.span, to)?;
            return Ok(());
        }
        if self.tokens.is_quoted() {
            self.described_outcome(node, set, number, word.span, to)?;
            return Ok(());
        }
        let Some(place) = known_outcome(&self.outcomes, number) else {
            return Err(self.tokens.refusal(Why::NotDescribed));
        };
        prove!((place as usize) < self.outcomes.len());
        self.tell(node, set, place + 1, word.span, to)?;
        Ok(())
    }
}

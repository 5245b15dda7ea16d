//! The information set of a node.

ghost use Rattle.std.specs.Prelude.{◌≡◌, ◌+◌, ◌<◌, false, ℕ, List, None, map, length, position};
ghost use Rattle.std.specs.Prelude.{IfOk, IfNone, IfSome, OnOk, MatchResult};
ghost use Rattle.gf_fraction.specs.Ratio.{IsFraction};
ghost use Rattle.gf_token.specs.Label.{label_of};
ghost use Rattle.gf_token.specs.Remaining.{StandsBefore};
ghost use Rattle.gf_token.specs.Next.{starts, is_text_token};
ghost use Rattle.gf_tree.specs.Actions.{actions_of};
ghost use Rattle.gf_tree.specs.inner.AddsUp.{adds_up};
ghost use Rattle.gf_tree.specs.Description.{same_set, set_of};
ghost use Rattle.gf_tree.specs.FiniteMap.{description_at};
ghost use Rattle.gf_tree.specs.inner.FoundSet.{FoundSet};
ghost use Rattle.gf_tree.specs.Description.{set_with};
ghost use Rattle.gf_tree.specs.inner.Machine.{begun, past_set, with_set};
ghost use Rattle.gf_tree.specs.inner.Machine.Position.{NewAction, NewProbability, NewSetName};
ghost use Rattle.gf_tree.specs.inner.Machine.Position.{OutcomeNumber, SetNumber};
ghost use Rattle.gf_tree.specs.inner.ReaderState.{answer, begun_with, with_text, content_of, Fails};
ghost use Rattle.gf_tree.specs.inner.ReaderState.{Grows, ReadsAction, ReadsSet, heard};

use super::Reader;
use crate::game::action::Action;
use crate::game::sets::Sets;
use crate::reader::again::set_again;
use crate::reader::readings;
use gf_fraction::Fraction;
use gf_token::{Fault, Label, TextToken, What, Why};
use std::alloc::AllocError;

/// The place of a set, if it is known.
#[tactic(auto, using(crate::proofs::lemmas::reader::Steps::sets_known))]
#[inline(always)]
fn known_set(sets: &Sets<'_>, player: u32, number: u32) -> Option<u32>
    ensures absent { IfNone result (position (same_set (set_of player number))
        (map (λ s. s.key) sets.now.known) ≡ None) }
    ensures unknown { IfNone result
        (description_at same_set sets.now.known (set_of player number) ≡ None) }
    ensures known { IfSome result (FoundSet sets.now.known (set_of player number)) }
{
    sets.find(player, number)
}

/// Whether the actions of a set may end if their probabilities have this sum; a player's actions
/// have none.
fn adds_up(player: u32, sum: Fraction) -> bool
    ensures { result ≡ adds_up player sum }
{
    player != 0 || sum == Fraction::one()
}

impl<'a> Reader<'a> {
    /// Reads the probability of an action, and returns the sum through it.
    #[tactic(auto, using(gf_fraction::proofs::Offered::number_answers))]
    fn probability(&mut self, label: Label<'a>, sum: Fraction) -> Result<Fraction, Fault>
        requires { IsFraction sum }
        ensures machine { (node : List ℕ) (number : ℕ) (name : List ℕ) → MatchResult result
            (λ through. answer (NewProbability node (set_of 0 number)
            (set_with name self.old.sets.pending) sum (label_of label.entry)) self.old
            ≡ answer (NewAction node (set_of 0 number)
            (set_with name self.new.sets.pending) through) self.new)
            (λ f. Fails f (answer (NewProbability node (set_of 0 number)
            (set_with name self.old.sets.pending) sum (label_of label.entry)) self.old)) }
        ensures fraction { IfOk result IsFraction }
        ensures read { OnOk result (ReadsAction self.old self.new) }
    {
        let Some((word, number)) = self.tokens.number() else {
            return Err(self.tokens.refusal(Why::Expected(What::Number)));
        };
        match readings::next_share(sum, number) {
            Ok(share) => match self.sets.push(label, Some(share.probability)) {
                Ok(()) => Ok(share.sum),
                Err(_) => Err(Fault::at(word.span, Why::Memory)),
            },
            Err(why) => Err(Fault::at(word.span, why)),
        }
    }

    /// Reads what follows the label of an action of a new set, which is a probability if chance
    /// moves. Returns the sum of the probabilities through this action.
    fn action(
        &mut self,
        player: u32,
        label: TextToken<'a>,
        sum: Fraction,
    ) -> Result<Fraction, Fault>
        requires fraction { IsFraction sum }
        requires place { StandsBefore self.old.tokens label.span }
        ensures machine { (node : List ℕ) (number : ℕ) (name : List ℕ) → MatchResult result
            (λ through. heard (NewAction node (set_of player number)
            (set_with name self.old.sets.pending) sum) (content_of self.old)
            (with_text self.old.tokens label.entry)
            ≡ answer (NewAction node (set_of player number)
            (set_with name self.new.sets.pending) through) self.new)
            (λ f. Fails f (heard (NewAction node (set_of player number)
            (set_with name self.old.sets.pending) sum) (content_of self.old)
            (with_text self.old.tokens label.entry))) }
        ensures fraction { IfOk result IsFraction }
        ensures read { OnOk result (ReadsAction self.old self.new) }
    {
        if player == 0 {
            return self.probability(label.label, sum);
        }
        match self.sets.push(label.label, None) {
            Ok(()) => Ok(sum),
            Err(_) => Err(Fault::at(label.span, Why::Memory)),
        }
    }

    /// Keeps a set that was not known, whose description is complete. Returns the set's place.
    fn keep_set(&mut self, player: u32, number: u32, name: Label<'a>) -> Result<u32, AllocError>
        requires absent { position (same_set (set_of player number))
            (map (λ s. s.key) self.old.sets.known) ≡ None }
        ensures content { OnOk result (content_of self.new ≡ with_set (content_of self.old)
            (set_of player number) (set_with (label_of name.entry) self.old.sets.pending)) }
        ensures kept { self.new
            ≡ record self.old { seed = self.new.seed; sets = self.new.sets } }
        ensures grows { OnOk result (Grows self.old.sets.known self.new.sets.known) }
        ensures begins { (node : List ℕ) → IfOk result (λ place.
            begun_with self.new.sets.known node (place + 1) ≡ begun node (set_of player number)
            (set_with (label_of name.entry) self.old.sets.pending)) }
        ensures place { IfOk result (λ place. place < length self.new.sets.known) }
    {
        self.sets.end(&mut self.seed, player, number, name)
    }

    /// Reads the closing brace of the actions of a set that is not known, and returns the set's
    /// place.
    fn end_set(
        &mut self,
        player: u32,
        number: u32,
        name: Label<'a>,
        sum: Fraction,
    ) -> Result<u32, Fault>
        requires absent { position (same_set (set_of player number))
            (map (λ s. s.key) self.old.sets.known) ≡ None }
        requires no_text { starts is_text_token self.old.tokens.ahead ≡ false }
        ensures machine { (node : List ℕ) → MatchResult result
            (λ place. answer (NewAction node (set_of player number)
            (set_with (label_of name.entry) self.old.sets.pending) sum) self.old
            ≡ answer (OutcomeNumber (begun_with self.new.sets.known node (place + 1))) self.new)
            (λ f. Fails f (answer (NewAction node (set_of player number)
            (set_with (label_of name.entry) self.old.sets.pending) sum) self.old)) }
        ensures read { OnOk result (ReadsSet self.old self.new) }
        ensures place { IfOk result (λ place. place < length self.new.sets.known) }
    {
        let Some(brace) = self.tokens.closing() else {
            return Err(self.tokens.refusal(Why::Expected(What::Text)));
        };
        if self.sets.pending().is_empty() {
            return Err(Fault::at(brace, Why::NoEntry));
        }
        if !adds_up(player, sum) {
            return Err(Fault::at(brace, Why::SumBelowOne));
        }
        match self.keep_set(player, number, name) {
            Ok(place) => Ok(place),
            Err(_) => Err(Fault::at(brace, Why::Memory)),
        }
    }

    /// Reads the first description of a set that is not known, and returns the set's place.
    #[inline(never)]
    fn new_set(&mut self, player: u32, number: u32) -> Result<u32, Fault>
        requires absent { position (same_set (set_of player number))
            (map (λ s. s.key) self.old.sets.known) ≡ None }
        ensures machine { (node : List ℕ) → MatchResult result
            (λ place. answer (NewSetName node (set_of player number)) self.old
            ≡ answer (OutcomeNumber (begun_with self.new.sets.known node (place + 1))) self.new)
            (λ f. Fails f (answer (NewSetName node (set_of player number)) self.old)) }
        ensures read { OnOk result (ReadsSet self.old self.new) }
        ensures place { IfOk result (λ place. place < length self.new.sets.known) }
    {
        let Some(name) = self.tokens.text() else {
            return Err(self.tokens.refusal(Why::NotDescribed));
        };
        let Some(_) = self.tokens.opening() else {
            return Err(self.tokens.refusal(Why::Expected(What::Opening)));
        };
        self.sets.begin();
        let mut sum = Fraction::zero();
        while let Some(label) = self.tokens.text() {
            sum = self.action(player, label, sum)?;
        }
        self.end_set(player, number, name.label, sum)
    }

    /// Reads the description of a set, after the set's number: the first one, or one that is
    /// repeated. Returns the set's place.
    #[inline(never)]
    fn described_set(&mut self, player: u32, number: u32) -> Result<u32, Fault>
        ensures machine { (node : List ℕ) → MatchResult result
            (λ place. answer (past_set node (set_of player number)
            (description_at same_set self.old.sets.known (set_of player number))) self.old
            ≡ answer (OutcomeNumber (begun_with self.new.sets.known node (place + 1))) self.new)
            (λ f. Fails f (answer (past_set node (set_of player number)
            (description_at same_set self.old.sets.known (set_of player number))) self.old)) }
        ensures read { OnOk result (ReadsSet self.old self.new) }
        ensures place { IfOk result (λ place. place < length self.new.sets.known) }
    {
        let Some(place) = known_set(&self.sets, player, number) else {
            let place = self.new_set(player, number)?;
            return Ok(place);
        };
        let (name, actions) = (self.sets.name(place), self.sets.actions(place));
        set_again(&mut self.tokens, name, actions)?;
        Ok(place)
    }

    /// Reads the number of a player's set, where chance is player 0, and its description, if there
    /// is one. Returns the set's place.
    ///
    /// Whether a description follows is checked first: mostly it does if the set is new, and does
    /// not if it is known, so what comes next does not wait for the set's place.
    #[tactic(auto, using(gf_token::proofs::Offered::index_answers))]
    #[inline(always)]
    pub(super) fn set(&mut self, player: u32) -> Result<u32, Fault>
        ensures machine { (node : List ℕ) → MatchResult result
            (λ place. answer (SetNumber node player) self.old
            ≡ answer (OutcomeNumber (begun_with self.new.sets.known node (place + 1))) self.new)
            (λ f. Fails f (answer (SetNumber node player) self.old)) }
        ensures read { OnOk result (ReadsSet self.old self.new) }
        ensures place { IfOk result (λ place. place < length self.new.sets.known) }
    {
        let Some((word, index)) = self.tokens.index() else {
            return Err(self.tokens.refusal(Why::Expected(What::Index)));
        };
        let Some(number) = readings::positive(index) else {
            return Err(Fault::at(word.span, Why::BadIndex));
        };
        if self.tokens.is_quoted() {
            let place = self.described_set(player, number)?;
            return Ok(place);
        }
        match known_set(&self.sets, player, number) {
            Some(place) => Ok(place),
            None => Err(self.tokens.refusal(Why::NotDescribed)),
        }
    }
}

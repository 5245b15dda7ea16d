//! The outcomes that are known.

ghost use Rattle.std.specs.Prelude.{◌+◌, ◌≡◌, ◌<◌, ◌^◌, [], None, Some, nat_eq, map, length};
ghost use Rattle.std.specs.Prelude.{slice_get, option_map, position, OnOk, OnErr, IfOk};
ghost use Rattle.gf_token.specs.Label.{label_of};
ghost use Rattle.gf_token.specs.Positions.{at_position};
ghost use Rattle.gf_tree.specs.KnownOutcomes.{with_pending_outcome, with_pending_payoff};
ghost use Rattle.gf_tree.specs.inner.StoredOutcomes.{end_of};

use crate::hashers::{Hashers, Seed, find, make_room, next_place, push};
use gf_fraction::Fraction;
use gf_token::Label;
use indexmap::IndexMap;
use std::alloc::{AllocError, Global};
use std::marker::Model;

/// What is stored of an outcome, in 32 bytes: how many payoffs it has, its name, and where its
/// payoffs begin among those of all outcomes.
#[derive(Clone, Copy, Drop)]
struct StoredOutcome<'a> {
    count: u32,
    name: Label<'a>,
    start: usize,
}

impl<'a> StoredOutcome<'a> {
    /// Where its payoffs end.
    fn end(&self) -> usize
        requires { end_of self.now < 2 ^ 64 }
        ensures { result ≡ end_of self.now }
    {
        self.start + self.count as usize
    }
}

/// The outcomes that are known, each with its description, in order of first use; and the payoffs
/// so far of an outcome whose description is being read.
///
/// An outcome has the place at which it became known, from 0. There are fewer than 2^32 outcomes,
/// and none has as many payoffs: room for more is refused.
#[derive(Drop)]
pub(crate) struct Outcomes<'a> {
    alloc: Global,
    entries: IndexMap<u32, StoredOutcome<'a>, Hashers>,
    payoffs: Vec<Fraction>,
    /// Where the payoffs of the description being read begin.
    from: usize,
}

impl<'a> Model for Outcomes<'a> {
    ghost use Rattle.gf_tree.specs.KnownOutcomes.{KnownOutcomes};
    ghost use Rattle.gf_tree.specs.inner.StoredOutcomes.{stored_outcomes, AreOutcomes};

    ghost Value = { KnownOutcomes };

    ghost view = { λ o. stored_outcomes o.entries.entries o.payoffs.items o.from };

    ghost invariant = { λ o. AreOutcomes o.entries.entries o.payoffs.items o.from };
}

impl<'a> Outcomes<'a> {
    /// No outcomes.
    pub(crate) fn new(alloc: Global) -> Outcomes<'a>
        ensures { result ≡ record { known = []; pending = [] } }
    {
        Outcomes {
            alloc,
            entries: IndexMap::with_hasher(alloc, Hashers::of_few()),
            payoffs: Vec::new(alloc),
            from: 0,
        }
    }

    /// The place of an outcome.
    #[inline(always)]
    #[tactic(auto, using(crate::proofs::lemmas::stores::OutcomesStored::numbers))]
    pub(crate) fn find(&self, number: u32) -> Option<u32>
        ensures { result ≡ position (nat_eq number) (map (λ o. o.key) self.now.known) }
    {
        let place = find(&self.entries, &number, number.wrapping_sub(1) as usize)?;
        Some(place as u32)
    }

    /// How many outcomes there are.
    pub(crate) fn len(&self) -> usize
        ensures len { result ≡ length self.now.known }
        ensures few { result < 2 ^ 32 }
    {
        self.entries.len()
    }

    /// The number of the outcome at a place.
    pub(crate) fn number(&self, place: u32) -> u32
        requires { place < length self.now.known }
        ensures { option_map (λ o. o.key) (slice_get self.now.known place) ≡ Some result }
    {
        let (number, _) = self.entries.get_index(place as usize).unwrap();
        *number
    }

    /// The name of the outcome at a place.
    #[inline(always)]
    pub(crate) fn name(&self, place: u32) -> Label<'a>
        requires { place < length self.now.known }
        ensures { option_map (λ o. o.description.name) (slice_get self.now.known place)
            ≡ Some (label_of result) }
    {
        let (_, outcome) = self.entries.get_index(place as usize).unwrap();
        outcome.name
    }

    /// The payoffs of the outcome at a place.
    #[inline(always)]
    pub(crate) fn payoffs(&self, place: u32) -> &[Fraction]
        requires { place < length self.now.known }
        ensures { option_map (λ o. o.description.payoffs) (slice_get self.now.known place)
            ≡ Some result.now }
    {
        let (_, outcome) = self.entries.get_index(place as usize).unwrap();
        &self.payoffs[outcome.start..outcome.end()]
    }

    /// The number of the outcome at a position, from 1.
    pub(crate) fn at(&self, i: usize) -> Option<u32>
        ensures { result ≡ at_position (map (λ o. o.key) self.now.known) i }
    {
        if i == 0 {
            return None;
        }
        match self.entries.get_index(i - 1) {
            Some((number, _)) => Some(*number),
            None => None,
        }
    }

    /// Begins the description of an outcome.
    pub(crate) fn begin(&mut self)
        ensures { self.new ≡ record self.old { pending = [] } }
    {
        self.from = self.payoffs.len();
    }

    /// Adds a payoff to the description. After an `Err` nothing has changed.
    #[tactic(auto, using(crate::proofs::lemmas::stores::OutcomesStored::payoff_pushed))]
    pub(crate) fn push(&mut self, payoff: Fraction) -> Result<(), AllocError>
        ensures ok { OnOk result (self.new ≡ with_pending_payoff self.old payoff) }
        ensures err { OnErr result (self.new ≡ self.old) }
    {
        if self.payoffs.push(payoff).is_err() {
            return Err(AllocError);
        }
        Ok(())
    }

    /// Ends the description: it is that of this outcome, which was not known. Returns the outcome's
    /// place. After an `Err` nothing has changed.
    #[tactic(auto, using(crate::proofs::lemmas::stores::OutcomesStored::numbers))]
    pub(crate) fn end(
        &mut self,
        seed: &mut Seed<'_>,
        number: u32,
        name: Label<'a>,
    ) -> Result<u32, AllocError>
        requires { position (nat_eq number) (map (λ o. o.key) self.old.known) ≡ None }
        ensures ok { OnOk result
            (self.new ≡ with_pending_outcome self.old number (label_of name.entry)) }
        ensures place { IfOk result (λ place. place ≡ length self.old.known) }
        ensures err { OnErr result (self.new ≡ self.old) }
    {
        let end = self.payoffs.len();
        let place = next_place(self.entries.len())?;
        let Ok(count) = u32::try_from(end - self.from) else {
            return Err(AllocError);
        };
        make_room(&mut self.entries, self.alloc, seed)?;
        let outcome = StoredOutcome {
            count,
            name,
            start: self.from,
        };
        push(&mut self.entries, number, outcome);
        self.from = end;
        Ok(place)
    }
}

//! Games by other numbers of their sets and outcomes.

ghost use Rattle.std.specs.Prelude.{◌≡◌, ◌<◌, ◌^◌, ◌++◌, ◌∷◌, [], ℕ, List, None, ⊤, IfOk};
ghost use Rattle.std.specs.Prelude.{MatchOption, OnOk, length, map, nat_eq, position, slice_get};
ghost use Rattle.std.specs.List.{AllByRecursion};
ghost use Rattle.gf_tree.specs.Description.{same_set, set_of};
ghost use Rattle.gf_tree.specs.ListedNumbers.{AreListed, listed_numbers};
ghost use Rattle.gf_tree.specs.Renumbering.{renumbered};

use crate::game::Game;
use crate::game::outcomes::Outcomes;
use crate::game::parts::Parts;
use crate::game::sets::Sets;
use crate::hashers::Seed;
use std::alloc::{AllocError, Global};

/// Adds the set at this place, by another number.
fn add_set<'a>(
    to: &mut Sets<'a>,
    seed: &mut Seed<'_>,
    from: &Sets<'a>,
    place: u32,
    number: u32,
) -> Result<(), AllocError>
    requires within { place < length from.now.known }
    requires absent { MatchOption (slice_get from.now.known place) ⊤ (λ s.
        position (same_set (set_of s.key.player number)) (map (λ t. t.key) to.old.known) ≡ None) }
    ensures { OnOk result (MatchOption (slice_get from.now.known place) ⊤ (λ s. to.new.known
        ≡ to.old.known ++ record { key = set_of s.key.player number; description = s.description }
        ∷ [])) }
{
    to.begin();
    for action in from.actions(place) {
        to.push(action.label, action.probability)?;
    }
    let (player, _) = from.key(place);
    to.end(seed, player, number, from.name(place))?;
    Ok(())
}

/// Adds the outcome at this place, by another number.
fn add_outcome<'a>(
    to: &mut Outcomes<'a>,
    seed: &mut Seed<'_>,
    from: &Outcomes<'a>,
    place: u32,
    number: u32,
) -> Result<(), AllocError>
    requires within { place < length from.now.known }
    requires absent { position (nat_eq number) (map (λ t. t.key) to.old.known) ≡ None }
    ensures { OnOk result (MatchOption (slice_get from.now.known place) ⊤ (λ o. to.new.known
        ≡ to.old.known ++ record { key = number; description = o.description } ∷ [])) }
{
    to.begin();
    for payoff in from.payoffs(place) {
        to.push(*payoff)?;
    }
    to.end(seed, number, from.name(place))?;
    Ok(())
}

impl<'a> Game<'a> {
    /// The number that is listed for the set at this place.
    fn listed_number(&self, sets: &[Vec<u32>], place: u32) -> u32
        requires listed { (outcomes : List ℕ)
            × AreListed self.now (map (λ own. own.items) sets.now) outcomes }
        requires within { place < length self.now.sets }
        ensures { MatchOption (slice_get self.now.sets place) ⊤ (λ s. result
            ≡ (listed_numbers self.now (map (λ own. own.items) sets.now) []).set s.key.player
            s.key.number) }
    {
        let (player, _) = self.parts.sets.key(place);
        let own = &sets[player as usize];
        own[self.parts.sets.first_use_number(place) as usize - 1]
    }

    /// The sets by their listed numbers.
    fn renumbered_sets(&self, alloc: Global, sets: &[Vec<u32>]) -> Result<Sets<'a>, AllocError>
        requires { (outcomes : List ℕ)
            × AreListed self.now (map (λ own. own.items) sets.now) outcomes }
        ensures known { IfOk result (λ r. r.known ≡ (renumbered
            (listed_numbers self.now (map (λ own. own.items) sets.now) []) self.now).sets) }
        ensures small { IfOk result (λ r. AllByRecursion (λ s. s.key.number < 2 ^ 32) r.known) }
    {
        let from = &self.parts.sets;
        let mut renumbered = Sets::new(alloc);
        let mut seed = self.parts.seed;
        for place in 0..from.len() as u32 {
            let number = self.listed_number(sets, place);
            add_set(&mut renumbered, &mut seed, from, place, number)?;
        }
        Ok(renumbered)
    }

    /// The outcomes by their listed numbers.
    fn renumbered_outcomes(
        &self,
        alloc: Global,
        outcomes: &[u32],
    ) -> Result<Outcomes<'a>, AllocError>
        requires { (sets : List (List ℕ)) × AreListed self.now sets outcomes.now }
        ensures known { IfOk result (λ r. r.known
            ≡ (renumbered (listed_numbers self.now [] outcomes.now) self.now).outcomes) }
        ensures small { IfOk result (λ r. AllByRecursion (λ o. o.key < 2 ^ 32) r.known) }
    {
        let from = &self.parts.outcomes;
        let mut renumbered = Outcomes::new(alloc);
        let mut seed = self.parts.seed;
        for place in 0..from.len() as u32 {
            let number = outcomes[place as usize];
            add_outcome(&mut renumbered, &mut seed, from, place, number)?;
        }
        Ok(renumbered)
    }

    /// The same game by other numbers of its sets and outcomes. The i-th set of each player, and
    /// the i-th outcome, in order of first use, gets the i-th number of its list.
    ///
    /// The caller has to ensure that there is one list for chance and then one for each player,
    /// each with as many numbers as they have sets; that the list of outcomes has as many numbers
    /// as there are outcomes; and that in each list the numbers are positive and none is repeated.
    ///
    /// # Errors
    ///
    /// `AllocError` if memory is refused.
    pub fn with_numbers(
        &self,
        alloc: Global,
        sets: &[Vec<u32>],
        outcomes: &[u32],
    ) -> Result<Game<'a>, AllocError>
        requires { AreListed self.now (map (λ own. own.items) sets.now) outcomes.now }
        ensures { IfOk result (λ game. game ≡ renumbered
            (listed_numbers self.now (map (λ own. own.items) sets.now) outcomes.now) self.now) }
    {
        let players = Vec::from_clones(alloc, &self.parts.players)?;
        let nodes = Vec::from_clones(alloc, &self.nodes)?;
        let outcomes = self.renumbered_outcomes(alloc, outcomes)?;
        let sets = self.renumbered_sets(alloc, sets)?;
        let parts = Parts {
            title: self.parts.title,
            comment: self.parts.comment,
            players,
            seed: self.parts.seed,
            sets,
            outcomes,
        };
        Ok(Game { parts, nodes })
    }
}

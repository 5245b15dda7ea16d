//! New numbers of the sets and outcomes of a game.

ghost use Rattle.std.specs.Prelude.{◌≡◌};
ghost use Rattle.gf_canon.specs.NewNumbers.{new_outcome_number, new_set_number};

use std::collections::BTreeMap;
use std::marker::Model;

/// A renumbering of a game: the new numbers of each player's information sets, where chance is
/// player 0, and of the outcomes.
#[derive(Drop)]
pub struct Renumbering {
    /// By player and number.
    pub(crate) sets: BTreeMap<(u32, u32), u32>,
    pub(crate) outcomes: BTreeMap<u32, u32>,
}

impl Model for Renumbering {
    ghost use Rattle.gf_canon.specs.NewNumbers.{NewNumbers};
    ghost use Rattle.gf_canon.specs.inner.NumberMaps.{numbers_in};

    ghost Value = { NewNumbers };

    ghost view = { λ r. numbers_in r.sets r.outcomes };
}

impl Renumbering {
    /// The new number of a player's set, or `None` if the game has no such set.
    pub fn set(&self, player: u32, number: u32) -> Option<u32>
        ensures { result ≡ new_set_number self.now player number }
    {
        self.sets.get(&(player, number)).copied()
    }

    /// The new number of an outcome, or `None` if the game has no such outcome. 0, the null
    /// outcome, stays 0.
    #[tactic(auto, using(crate::proofs::lemmas::numbers::Kept::kept_outcome))]
    pub fn outcome(&self, number: u32) -> Option<u32>
        ensures { result ≡ new_outcome_number self.now number }
    {
        if number == 0 {
            return Some(0);
        }
        self.outcomes.get(&number).copied()
    }
}

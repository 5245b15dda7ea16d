//! What the players choose at their sets.

ghost use Rattle.std.specs.Prelude.{◌≡◌, ◌+◌, ◌/◌, ◌%◌, Some, length, map, option_map};
ghost use Rattle.gf_token.specs.Positions.{at_position};
ghost use Rattle.gf_tree.specs.Description.{SetKey};
ghost use Rattle.gf_tree.specs.Game.{Game, set_at};
ghost use Rattle.gf_tree.specs.IsGame.{IsGame};
ghost use Rattle.gf_tree.specs.KeysInOrder.{player_keys};
ghost use Rattle.gf_form.specs.Strategies.{strategy_at};
ghost use Rattle.gf_form.specs.inner.values.ChoicesGiven.{AreChoices, chosen_by};

use crate::rows::digits::Digits;
use crate::values::positions::at;

/// What the players choose.
#[derive(Clone, Copy)]
pub(crate) enum Choices<'c> {
    /// An action at each set of each player.
    Given(&'c [Vec<u32>]),
    /// What they choose at the profile with this number, from 0, by the digits of the game.
    OfProfile(u32, &'c Digits),
}

/// What is given for a set of a player, by the position of the set among theirs.
#[tactic(auto, using(crate::proofs::lemmas::values::Walks::set_there))]
pub(crate) fn at_set<T: Copy>(all: &[Vec<T>], player: u32, position: u32) -> Option<T>
    ensures { result ≡ at_position (strategy_at (map (λ own. own.items) all.now) player) position }
{
    at(at(all, player as usize)?, position as usize).copied()
}

/// The position of the action in the number of a profile, at a set with this stride and this many
/// actions. Quick if there is only one.
fn action_in(number: u32, stride: u32, actions: usize) -> usize
    ensures { result ≡ number / stride % actions + 1 }
{
    if actions == 1 {
        return 1;
    }
    let before = number.checked_div(stride).unwrap_or(0) as usize;
    before.checked_rem(actions).unwrap_or(before) + 1
}

impl Choices<'_> {
    /// The position of the action at a player's set with this position and this many actions.
    pub(crate) fn action(&self, player: u32, position: u32, actions: usize) -> usize
        ensures { (g : Game) (key : SetKey) → IsGame g
            → AreChoices g self.now → ¬ (player ≡ 0) → key.player ≡ player
            → at_position (player_keys g player) position ≡ Some key
            → option_map (λ set. length set.actions) (set_at g key) ≡ Some actions
            → result ≡ chosen_by g self.now key }
    {
        match self {
            Choices::Given(all) => at_set(*all, player, position).unwrap_or(0) as usize,
            Choices::OfProfile(number, digits) => {
                let stride = at_set(&digits.strides, player, position).unwrap_or(0);
                action_in(*number, stride, actions)
            }
        }
    }
}

//! Whether choices are strategies that the players of a game have.

ghost use Rattle.std.specs.Prelude.{◌↔◌, IsTrue, map};
ghost use Rattle.gf_tree.specs.IsGame.{IsGame};
ghost use Rattle.gf_form.specs.Forms.{HasFewPlayers};
ghost use Rattle.gf_form.specs.Strategies.{AreStrategies, IsStrategy};

use crate::strategies::counts::action_count;
use gf_tree::Game;

/// Whether these are an action for each set of a player.
fn is_strategy(game: &Game<'_>, player: u32, strategy: &[u32]) -> bool
    requires is_game { IsGame game.now }
    ensures { IsTrue result ↔ IsStrategy game.now player strategy.now }
{
    if strategy.len() != game.set_count(player) {
        return false;
    }
    for before in 0..strategy.len() {
        let action = strategy[before] as usize;
        if action == 0 || action > action_count(game, player, before + 1) {
            return false;
        }
    }
    true
}

/// Whether there is one list for each player, with the position of an action, from 1, for each of
/// their sets in order of first use: this is what the caller of [`expected`](crate::expected) has
/// to ensure.
#[tactic(auto, using(crate::proofs::lemmas::strategies::CountedActions::strategy_steps))]
pub fn are_strategies(game: &Game<'_>, choices: &[Vec<u32>]) -> bool
    ensures sound { IsTrue result → AreStrategies game.now (map (λ own. own.items) choices.now) }
    ensures complete { HasFewPlayers game.now
        → AreStrategies game.now (map (λ own. own.items) choices.now) → IsTrue result }
{
    if choices.len() != game.players().len() {
        return false;
    }
    for before in 0..choices.len() {
        let Ok(player) = u32::try_from(before + 1) else {
            return false;
        };
        if !is_strategy(game, player, &choices[before]) {
            return false;
        }
    }
    true
}

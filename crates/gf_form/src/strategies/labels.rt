//! The labels of all strategies of a game.

ghost use Rattle.std.specs.Prelude.{◌≡◌, IfOk, map};
ghost use Rattle.gf_tree.specs.Game.{Game};
ghost use Rattle.gf_form.specs.inner.strategies.Counted.{AreCounts};
ghost use Rattle.gf_form.specs.StrategicForm.{strategy_labels as labels_of};
ghost use Rattle.gf_form.specs.Strategies.{players_of};

use crate::strategies::counts::Counts;
use crate::strategies::numbered::strategy_labels;
use gf_nfg::Labels;
use std::alloc::{AllocError, Global};

/// The labels of each player's strategies.
pub(crate) fn all_labels(alloc: Global, counts: &Counts) -> Result<Vec<Labels>, AllocError>
    requires { (g : Game) × AreCounts g counts.now }
    ensures { IfOk result (λ all. (g : Game) → AreCounts g counts.now
        → all.items ≡ map (labels_of g) (players_of g)) }
{
    let mut all = Vec::with_capacity(alloc, counts.actions.len())?;
    for place in 0..counts.actions.len() {
        let (own, whole) = counts.of_player(place);
        all.push(strategy_labels(alloc, own, whole)?)?;
    }
    Ok(all)
}

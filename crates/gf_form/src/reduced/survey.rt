//! The visits of a player, which one walk through the tree finds, whatever they choose.

ghost use Rattle.std.specs.Prelude.{◌≡◌, ◌<◌, ◌^◌, IfOk};
ghost use Rattle.gf_tree.specs.Branches.{game_of, tree_of};
ghost use Rattle.gf_tree.specs.IsGame.{IsGame};
ghost use Rattle.gf_tree.specs.Subtrees.{root_node};
ghost use Rattle.gf_form.specs.Strategies.{action_counts};
ghost use Rattle.gf_form.specs.inner.reduced.Relevance.{FindRelevance};
ghost use Rattle.gf_form.specs.inner.reduced.Survey.{visit_at, visit_handing, visits_by};
ghost use Rattle.gf_form.specs.inner.rows.Descents.{stop_at};
ghost use Rattle.gf_form.specs.inner.rows.DigitSteps.{steps_after, width};

use crate::reduced::visits::{Visit, drop_repeats, put_in_order};
use crate::rows::descent::{Descent, Handed, Steps};
use gf_tree::{Branch, Game};
use std::alloc::{AllocError, Global};

/// A walk that hands down nothing but demands.
impl Handed for u64 {
    ghost handing = { visit_handing };

    fn demands(&self) -> u64 {
        *self
    }

    fn below(&self, _node: &Branch<'_, '_>, _position: usize, demands: u64) -> u64 {
        demands
    }
}

/// The visit at the root of a branch, if the set there is the player's, and the path there has
/// these demands.
#[tactic(auto, using(crate::proofs::lemmas::reduced::VisitsFound::survey_steps))]
fn visit_to(branch: &Branch<'_, '_>, player: u32, demands: u64) -> Option<Visit>
    ensures { result ≡ visit_at player
        (stop_at (game_of branch.now) (root_node (tree_of branch.now)) demands) }
{
    match branch.mover() {
        Some((mover, position)) if mover == player => Some(Visit {
            demands,
            set: position.saturating_sub(1),
        }),
        _ => None,
    }
}

/// The visits of a player to their sets, whose digits have these steps, in prefix order.
fn all_visits(
    alloc: Global,
    game: &Game<'_>,
    player: u32,
    steps: &[u64],
) -> Result<Vec<Visit>, AllocError>
    ensures { IfOk result (λ visits. visits.items ≡ visits_by game.now player steps.now) }
{
    let mut visits = Vec::new(alloc);
    let mut walk = Descent::new(alloc, game, Steps::Own(player, steps), 0);
    while let Some((branch, demands)) = walk.next()? {
        if let Some(visit) = visit_to(&branch, player, demands) {
            visits.push(visit)?;
        }
    }
    Ok(visits)
}

/// The visits of a player to their sets, each once, in order of demands.
pub(crate) fn visits_in(
    alloc: Global,
    game: &Game<'_>,
    player: u32,
    steps: &[u64],
) -> Result<Vec<Visit>, AllocError>
    requires is_game { IsGame game.now }
    requires steps { steps.now ≡ steps_after 1 (action_counts game.now player) }
    requires fits { width (action_counts game.now player) < 2 ^ 64 }
    ensures { IfOk result (λ visits. FindRelevance game.now player visits.items) }
{
    let mut visits = all_visits(alloc, game, player, steps)?;
    put_in_order(&mut visits);
    drop_repeats(&mut visits);
    Ok(visits)
}

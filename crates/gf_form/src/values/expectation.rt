//! The payoffs if the players choose these actions.

ghost use Rattle.std.specs.Prelude.{◌≤◌, IfOk, IsErrOf, OnOk, map};
ghost use Rattle.gf_form.specs.inner.values.ChoicesGiven.{AreChoices, chosen_by};
ghost use Rattle.gf_form.specs.inner.values.NodeLists.{AreNodesOf};
ghost use Rattle.gf_form.specs.inner.values.PaidRows.{rows_of};
ghost use Rattle.gf_form.specs.Refusal.{HasValuesWith};
ghost use Rattle.gf_form.specs.inner.values.Rows.{ArePaid};
ghost use Rattle.gf_form.specs.StrategicForm.{ArePayoffs};
ghost use Rattle.gf_form.specs.Strategies.{AreStrategies, choices_by};

use crate::fault::EvalFault;
use crate::values::choices::Choices;
use crate::values::nodes::Nodes;
use crate::values::payoffs::Payoffs;
use crate::values::rows::write_out;
use crate::values::walk::Walk;
use gf_fraction::Fraction;
use gf_tree::Game;
use std::alloc::Global;

/// What `expected` returns, given the payoffs of the outcomes and the nodes. The row uses the room
/// of one of these values.
#[tactic(auto, using(crate::proofs::lemmas::values::BottomUp::payoff_steps))]
pub(crate) fn expected_with<'g, 'a>(
    alloc: Global,
    game: &'g Game<'a>,
    payoffs: &Payoffs<'g>,
    nodes: &Nodes<'g, 'a>,
    choices: Choices<'_>,
    spare: &mut Vec<Vec<Fraction>>,
) -> Result<Vec<Fraction>, EvalFault>
    requires choices { AreChoices game.now choices }
    requires payoffs { ArePaid game.now (rows_of payoffs.now) }
    requires nodes { AreNodesOf game.now nodes.now }
    ensures payoffs { IfOk result
        (λ row. ArePayoffs game.entry.now (chosen_by game.entry.now choices.entry) row.items) }
    ensures values { OnOk result
        (HasValuesWith game.entry.now (chosen_by game.entry.now choices.entry)) }
    ensures overflow { IsErrOf result EvalFault.Overflow
        → ¬ (HasValuesWith game.entry.now (chosen_by game.entry.now choices.entry)) }
{
    let players = game.players().len();
    if players == 0 {
        return Ok(Vec::new(alloc));
    }
    let walk = Walk {
        game,
        payoffs,
        nodes,
        choices,
    };
    let mut row = walk.value(alloc, 0, spare)?;
    write_out(&mut row, players)?;
    Ok(row)
}

/// What each player is paid, in their order, if the players choose these actions: the sum, over the
/// plays that follow the choices, of the probability of the play times the payoffs of its outcomes.
///
/// The caller has to ensure that there is one list for each player, with the position of an action,
/// from 1, for each of their sets in order of first use.
///
/// # Errors
///
/// `Overflow` if the bottom-up value of some player is not defined. The value at a leaf is its
/// payoff; at a node of a player, its payoff plus the value of the child that is chosen; and at a
/// node of chance, its payoff plus the sum of the children's values times their probabilities,
/// added in their order from 0. It is not defined if a sum or a product on the way does not fit
/// (this project's profile). `Memory` if memory is refused.
pub fn expected(
    alloc: Global,
    game: &Game<'_>,
    choices: &[Vec<u32>],
) -> Result<Vec<Fraction>, EvalFault>
    requires { AreStrategies game.now (map (λ own. own.items) choices.now) }
    ensures payoffs { IfOk result (λ payoffs. ArePayoffs game.now
        (choices_by game.now (map (λ own. own.items) choices.now)) payoffs.items) }
    ensures values { OnOk result (HasValuesWith game.now
        (choices_by game.now (map (λ own. own.items) choices.now))) }
    ensures overflow { IsErrOf result EvalFault.Overflow → ¬ (HasValuesWith game.now
        (choices_by game.now (map (λ own. own.items) choices.now))) }
{
    // For its clauses: the game is one, and can be spelled.
    let _players = game.players();
    let payoffs = Payoffs::new(alloc, game)?;
    let nodes = Nodes::new(alloc, game)?;
    let mut spare = Vec::new(alloc);
    let given = Choices::Given(choices);
    expected_with(alloc, game, &payoffs, &nodes, given, &mut spare)
}

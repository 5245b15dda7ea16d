//! The bottom-up value of a tree. The tree is walked once, and only the nodes on the path are kept,
//! each with the sum of the children that were left.

ghost use Rattle.std.specs.Prelude.{◌≡◌, ◌<◌, ◌+◌, ◌*◌, ℕ, None, Some, IfOk, IsErrOf, MatchOption};
ghost use Rattle.std.specs.Prelude.{length, slice_get};
ghost use Rattle.gf_token.specs.Positions.{at_position};
ghost use Rattle.gf_tree.specs.Branches.{game_of, tree_of};
ghost use Rattle.gf_tree.specs.Description.{SetKey};
ghost use Rattle.gf_tree.specs.IsGame.{IsGame};
ghost use Rattle.gf_tree.specs.Movers.{IsMover};
ghost use Rattle.gf_tree.specs.PrefixOrder.{flatten};
ghost use Rattle.gf_tree.specs.Subtrees.{child_trees};
ghost use Rattle.gf_form.specs.inner.values.Rows.{IsRow, at_place};
ghost use Rattle.gf_form.specs.inner.values.ValueLeft.{IsOpen, IsThere, IsWalk, Gives, Lacks};
ghost use Rattle.gf_form.specs.inner.values.ValueLeft.{branch_chances, choices_of, drawn_value};
ghost use Rattle.gf_form.specs.inner.values.ValueLeft.{node_there, open_size, open_value, tree_there};
ghost use Rattle.gf_form.specs.inner.values.ValueLeft.{tree_value, with_own};

use crate::fault::EvalFault;
use crate::values::choices::Choices;
use crate::values::nodes::Nodes;
use crate::values::payoffs::Payoffs;
use crate::values::positions::at;
use crate::values::rows::{pay, row_of, weigh};
use gf_fraction::Fraction;
use gf_tree::{Branch, Game};
use std::alloc::Global;

/// A node on the path, by its place in the list of nodes, whose value is not known yet.
#[derive(Drop)]
enum Open {
    /// A player moves there: the node's payoffs are added to the value of the child that is chosen.
    Choice(usize),
    /// Chance moves there: so many of its children, the first ones, come to this sum.
    Chance {
        node: usize,
        given: usize,
        sum: Vec<Fraction>,
    },
}

/// What a walk does next.
#[derive(Drop)]
enum Next {
    /// It goes into this child of a node that stays open.
    Child { node: Open, child: usize },
    /// It leaves a subtree, which has this value.
    Value(Vec<Fraction>),
}

/// A walk through the tree of a game, if these are the payoffs of its outcomes.
#[derive(Clone, Copy)]
pub(crate) struct Walk<'c, 'g, 'a> {
    pub game: &'g Game<'a>,
    pub payoffs: &'c Payoffs<'g>,
    pub nodes: &'c Nodes<'g, 'a>,
    pub choices: Choices<'c>,
}

/// The probability of the action at this position, or one if a player moves.
#[tactic(auto, using(crate::proofs::lemmas::values::Walks::chance_steps))]
pub(crate) fn chance_of(node: &Branch<'_, '_>, position: usize) -> Fraction
    ensures { result ≡ branch_chances node.now position }
{
    match at(node.actions(), position) {
        Some(action) => action.probability.unwrap_or(Fraction::one()),
        None => Fraction::one(),
    }
}

impl<'g, 'a> Walk<'_, 'g, 'a> {
    /// The node at a place, with the branches below it.
    pub(crate) fn branch(&self, node: usize) -> Branch<'g, 'a>
        requires walk { IsWalk self.now }
        requires there { IsThere self.now node }
        ensures tree { tree_of result ≡ tree_there self.now node }
        ensures game { game_of result ≡ self.now.game.now }
    {
        self.nodes.branch(node)
    }

    /// The child of a node after so many others. `None` if there is none.
    pub(crate) fn child(&self, node: usize, before: usize) -> Option<usize>
        requires walk { IsWalk self.now }
        requires there { IsThere self.now node }
        ensures { MatchOption result
            (slice_get (child_trees (tree_there self.now node)) before ≡ None)
            (λ child. IsThere self.now child
            × (slice_get (child_trees (tree_there self.now node)) before
            ≡ Some (tree_there self.now child))) }
    {
        self.nodes.child(node, before)
    }

    /// The value of a node, if this comes from below.
    #[tactic(auto, using(crate::proofs::lemmas::values::Walks::own_is))]
    fn close(&self, node: usize, mut below: Vec<Fraction>) -> Result<Next, EvalFault>
        requires walk { IsWalk self.now }
        requires there { IsThere self.now node }
        requires row { IsRow (length self.now.game.now.players) below.items }
        ensures gives { IfOk result (Gives self.now
            (λ k. with_own self.now k node (Some (at_place below.items k))) 2) }
        ensures overflow { IsErrOf result EvalFault.Overflow → Lacks self.now
            (λ k. with_own self.now k node (Some (at_place below.items k))) }
    {
        let branch = self.branch(node);
        pay(self.payoffs.at(branch.outcome_position()), &mut below)?;
        Ok(Next::Value(below))
    }

    /// Goes on at a node of chance: into the next child, or with its value after the last one.
    #[tactic(auto, using(crate::proofs::lemmas::values::Walks::draw_steps))]
    fn draw(&self, node: usize, given: usize, sum: Vec<Fraction>) -> Result<Next, EvalFault>
        requires walk { IsWalk self.now }
        requires is_open { IsOpen self.now (Open.Chance node given sum) }
        ensures gives { IfOk result (Gives self.now
            (λ k. drawn_value self.now k node given (Some (at_place sum.items k)))
            (open_size self.now (Open.Chance node given sum) + 1)) }
        ensures overflow { IsErrOf result EvalFault.Overflow → Lacks self.now
            (λ k. drawn_value self.now k node given (Some (at_place sum.items k))) }
    {
        match self.child(node, given) {
            Some(child) => Ok(Next::Child {
                node: Open::Chance {
                    node,
                    given: given + 1,
                    sum,
                },
                child,
            }),
            None => self.close(node, sum),
        }
    }

    /// The action that is chosen at a node, where a player moves at their set with this position.
    fn action(&self, node: usize, player: u32, position: u32) -> usize
        requires walk { IsWalk self.now }
        requires there { IsThere self.now node }
        requires is_game { IsGame self.now.game.now }
        requires personal { ¬ (player ≡ 0) }
        requires mover { IsMover self.now.game.now (node_there self.now node).set
            (Some (player, position)) }
        ensures { (key : SetKey) → (node_there self.now node).set ≡ Some key
            → ¬ (key.player ≡ 0) × (result ≡ choices_of self.now key) }
    {
        let actions = self.branch(node).actions().len();
        self.choices.action(player, position, actions)
    }

    /// The child of a player's node after this action, by its position. `None` if there is none.
    fn child_by(&self, node: usize, action: usize) -> Option<usize>
        requires walk { IsWalk self.now }
        requires there { IsThere self.now node }
        ensures { MatchOption result
            (at_position (child_trees (tree_there self.now node)) action ≡ None)
            (λ child. IsThere self.now child
            × (at_position (child_trees (tree_there self.now node)) action
            ≡ Some (tree_there self.now child))) }
    {
        self.child(node, action.checked_sub(1)?)
    }

    /// Goes into a node. If its values are known, they are copied.
    fn enter(&self, node: usize, spare: &mut Vec<Vec<Fraction>>) -> Result<Next, EvalFault>
        requires some_player { 0 < length self.now.game.now.players }
        requires walk { IsWalk self.now }
        requires there { IsThere self.now node }
        ensures gives { IfOk result (Gives self.now
            (λ k. tree_value self.now k (tree_there self.now node))
            (2 * length (flatten (tree_there self.now node)))) }
        ensures overflow { IsErrOf result EvalFault.Overflow → Lacks self.now
            (λ k. tree_value self.now k (tree_there self.now node)) }
    {
        let branch = self.branch(node);
        let Some((player, position)) = branch.mover() else {
            let payoffs = self.payoffs.at(branch.outcome_position());
            return Ok(Next::Value(row_of(spare, payoffs)?));
        };
        if player == 0 {
            if let Some(row) = self.nodes.still_row(node) {
                return Ok(Next::Value(row_of(spare, row)?));
            }
            return self.draw(node, 0, row_of(spare, &[])?);
        }
        let action = self.action(node, player, position);
        match self.child_by(node, action) {
            Some(child) => Ok(Next::Child {
                node: Open::Choice(node),
                child,
            }),
            None => Err(EvalFault::Overflow),
        }
    }

    /// Leaves a child of a node with this value.
    #[tactic(auto, using(crate::proofs::lemmas::values::Walks::below_players))]
    fn leave(
        &self,
        node: Open,
        value: Vec<Fraction>,
        spare: &mut Vec<Vec<Fraction>>,
    ) -> Result<Next, EvalFault>
        requires walk { IsWalk self.now }
        requires is_open { IsOpen self.now node }
        requires row { IsRow (length self.now.game.now.players) value.items }
        ensures gives { IfOk result (Gives self.now
            (λ k. open_value self.now k node (Some (at_place value.items k)))
            (open_size self.now node + 1)) }
        ensures overflow { IsErrOf result EvalFault.Overflow → Lacks self.now
            (λ k. open_value self.now k node (Some (at_place value.items k))) }
    {
        match node {
            Open::Choice(node) => self.close(node, value),
            Open::Chance {
                node,
                given,
                mut sum,
            } => {
                let chance = chance_of(&self.branch(node), given);
                weigh(&mut sum, chance, &value)?;
                spare.push(value)?;
                self.draw(node, given, sum)
            }
        }
    }

    /// The value of the subtree at a place for each player. The row is empty if each value is zero.
    #[tactic(auto, using(crate::proofs::lemmas::values::Walks::whole_steps))]
    pub(crate) fn value(
        &self,
        alloc: Global,
        node: usize,
        spare: &mut Vec<Vec<Fraction>>,
    ) -> Result<Vec<Fraction>, EvalFault>
        requires some_player { 0 < length self.now.game.now.players }
        requires walk { IsWalk self.now }
        requires there { IsThere self.now node }
        ensures row { IfOk result (λ row. IsRow (length self.now.game.now.players) row.items) }
        ensures values { IfOk result (λ row. (k : ℕ)
            → tree_value self.now k (tree_there self.now node) ≡ Some (at_place row.items k)) }
        ensures overflow { IsErrOf result EvalFault.Overflow
            → Lacks self.now (λ k. tree_value self.now k (tree_there self.now node)) }
    {
        let mut open = Vec::new(alloc);
        let mut next = self.enter(node, spare)?;
        loop {
            next = match next {
                Next::Child { node, child } => {
                    open.push(node)?;
                    self.enter(child, spare)?
                }
                Next::Value(value) => match open.pop() {
                    Some(node) => self.leave(node, value, spare)?,
                    None => return Ok(value),
                },
            };
        }
    }
}

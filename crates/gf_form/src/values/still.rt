//! The values of subtrees in which nobody moves: no choice changes them, so they are worked out
//! once, and every walk takes them.

ghost use Rattle.std.specs.Prelude.{◌≡◌, ◌<◌, ℕ, IfOk, IfSome, IsTrue, None, OnOk, get_or};
ghost use Rattle.std.specs.Prelude.{length};
ghost use Rattle.gf_tree.specs.Game.{Game};
ghost use Rattle.gf_form.specs.inner.values.ChoicesGiven.{AreChoices};
ghost use Rattle.gf_form.specs.inner.values.NodeLists.{AreNodesOf, tree_at};
ghost use Rattle.gf_form.specs.inner.values.PaidRows.{rows_of};
ghost use Rattle.gf_form.specs.inner.values.Rows.{ArePaid};
ghost use Rattle.gf_form.specs.inner.values.Still.{IsStill, IsStillRow};
ghost use Rattle.gf_form.specs.inner.values.ValueLeft.{IsThere, IsWalk, tree_there};

use crate::fault::EvalFault;
use crate::values::choices::Choices;
use crate::values::nodes::Nodes;
use crate::values::payoffs::Payoffs;
use crate::values::walk::Walk;
use gf_fraction::Fraction;
use gf_tree::Game;
use std::alloc::{AllocError, Global};

impl Walk<'_, '_, '_> {
    /// Whether chance moves at a node, and each child is a leaf or has a row.
    fn is_still(&self, node: usize) -> bool
        requires walk { IsWalk self.now }
        requires there { IsThere self.now node }
        ensures { IsTrue result → IsStill self.now.game.now (tree_there self.now node) }
    {
        let branch = self.branch(node);
        let Some((0, _)) = branch.mover() else {
            return false;
        };
        for before in 0..branch.children() {
            let Some(child) = self.child(node, before) else {
                return false;
            };
            if self.nodes.still_row(child).is_none() && self.branch(child).mover().is_some() {
                return false;
            }
        }
        true
    }

    /// The values of a node, if no choice changes them and they do not overflow.
    fn still_values(
        &self,
        alloc: Global,
        node: usize,
        spare: &mut Vec<Vec<Fraction>>,
    ) -> Result<Option<Vec<Fraction>>, AllocError>
        requires some_player { 0 < length self.now.game.now.players }
        requires walk { IsWalk self.now }
        requires there { IsThere self.now node }
        ensures { IfOk result (λ values. IfSome values
            (λ row. IsStillRow self.now.game.now (tree_there self.now node) row.items)) }
    {
        if !self.is_still(node) {
            return Ok(None);
        }
        match self.value(alloc, node, spare) {
            Ok(row) => Ok(Some(row)),
            Err(EvalFault::Overflow) => Ok(None),
            Err(EvalFault::Memory) => Err(AllocError),
        }
    }
}

/// This many nodes without rows.
fn no_rows(alloc: Global, count: usize) -> Result<Vec<Option<Vec<Fraction>>>, AllocError>
    ensures count { IfOk result (λ rows. length rows.items ≡ count) }
    ensures none { IfOk result (λ rows. (at : ℕ) → get_or rows.items at None ≡ None) }
{
    let mut rows = Vec::with_capacity(alloc, count)?;
    for _ in 0..count {
        rows.push(None)?;
    }
    Ok(rows)
}

impl<'g, 'a> Nodes<'g, 'a> {
    /// Keeps the values of a node in place of those of its children.
    fn keep(&mut self, node: usize, row: Vec<Fraction>)
        requires nodes { (g : Game) × AreNodesOf g self.old }
        requires there { node < length self.old.branches.items }
        requires rows { length self.old.still.items ≡ length self.old.branches.items }
        ensures branches { self.new.branches ≡ self.old.branches }
        ensures count { length self.new.still.items ≡ length self.old.still.items }
        ensures nodes { (g : Game) → AreNodesOf g self.old
            → IsStillRow g (tree_at g self.old node) row.items → AreNodesOf g self.new }
    {
        for before in 0..self.branches[node].children() {
            if let Some(child) = self.child(node, before) {
                self.still[child] = None;
            }
        }
        self.still[node] = Some(row);
    }

    /// Works out the values of subtrees in which nobody moves. Children stand behind their parents,
    /// so they come first, and a walk from a parent goes no further than to them.
    ///
    /// There can be as many players as nodes. So only the last nodes are looked at: as many as
    /// there are profiles, and as many more as take eight numbers for each node of the game.
    pub(crate) fn find_still(
        &mut self,
        alloc: Global,
        game: &'g Game<'a>,
        payoffs: &Payoffs<'g>,
        choices: Choices<'_>,
        profiles: usize,
        spare: &mut Vec<Vec<Fraction>>,
    ) -> Result<(), AllocError>
        requires choices { AreChoices game.now choices }
        requires payoffs { ArePaid game.now (rows_of payoffs.now) }
        requires nodes { AreNodesOf game.now self.old }
        ensures { OnOk result (AreNodesOf game.now self.new) }
    {
        let players = game.players().len();
        if players == 0 {
            return Ok(());
        }
        let count = self.branches.len();
        self.still = no_rows(alloc, count)?;
        let most = (count / players).saturating_mul(8).saturating_add(profiles);
        for node in (count.saturating_sub(most)..count).rev() {
            let walk = Walk {
                game,
                payoffs,
                nodes: self,
                choices,
            };
            if let Some(row) = walk.still_values(alloc, node, spare)? {
                self.keep(node, row);
            }
        }
        Ok(())
    }
}

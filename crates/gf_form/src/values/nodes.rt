//! The nodes of a game in a list in which the children of a node stand one after another, so that
//! a child is found without going past those before it.

ghost use Rattle.std.specs.Prelude.{◌≡◌, ◌<◌, ◌++◌, ℕ, None, Some, IfOk, IfSome, MatchOption, OnOk};
ghost use Rattle.std.specs.Prelude.{length, map, slice_get};
ghost use Rattle.gf_tree.specs.Branches.{game_of, tree_of};
ghost use Rattle.gf_tree.specs.Game.{Game};
ghost use Rattle.gf_tree.specs.Subtrees.{child_trees};
ghost use Rattle.gf_form.specs.inner.values.NodeLists.{AreNodesOf, AreOf, tree_at};
ghost use Rattle.gf_form.specs.inner.values.Still.{IsStillRow};

use gf_fraction::Fraction;
use gf_tree::{Branch, Game};
use std::alloc::{AllocError, Global};

/// Appends the children of a node.
fn push_children<'g, 'a>(
    branches: &mut Vec<Branch<'g, 'a>>,
    node: Branch<'g, 'a>,
) -> Result<(), AllocError>
    ensures trees { OnOk result (map tree_of branches.new.items
        ≡ map tree_of branches.old.items ++ child_trees (tree_of node.entry)) }
    ensures games { OnOk result (AreOf (game_of node.entry) branches.old.items
        → AreOf (game_of node.entry) branches.new.items) }
{
    for child in node.child_branches() {
        branches.push(child)?;
    }
    Ok(())
}

/// All nodes of a game, the root first.
#[derive(Drop)]
pub(crate) struct Nodes<'g, 'a> {
    pub branches: Vec<Branch<'g, 'a>>,
    /// The place of the first child of each, from 0.
    firsts: Vec<usize>,
    /// The values of the subtree at each, if they are known and no choice changes them. Empty until
    /// they are looked for.
    pub still: Vec<Option<Vec<Fraction>>>,
}

impl<'g, 'a> Nodes<'g, 'a> {
    /// The nodes of a game.
    pub(crate) fn new(alloc: Global, game: &'g Game<'a>) -> Result<Nodes<'g, 'a>, AllocError>
        ensures { IfOk result (AreNodesOf game.entry.now) }
    {
        let mut branches = Vec::new(alloc);
        let mut firsts = Vec::new(alloc);
        branches.push(game.root())?;
        while firsts.len() < branches.len() {
            let node = branches[firsts.len()];
            firsts.push(branches.len())?;
            push_children(&mut branches, node)?;
        }
        Ok(Nodes {
            branches,
            firsts,
            still: Vec::new(alloc),
        })
    }

    /// The node at this place, with the branches below it.
    pub(crate) fn branch(&self, at: usize) -> Branch<'g, 'a>
        requires { at < length self.now.branches.items }
        ensures tree { (g : Game) → tree_of result ≡ tree_at g self.now at }
        ensures game { (g : Game) → AreNodesOf g self.now → game_of result ≡ g }
    {
        self.branches[at]
    }

    /// The place of a child of the node at this place, by how many children come before it. `None`
    /// if there is no such child.
    pub(crate) fn child(&self, at: usize, before: usize) -> Option<usize>
        requires nodes { (g : Game) × AreNodesOf g self.now }
        requires there { at < length self.now.branches.items }
        ensures { (g : Game) → AreNodesOf g self.now → MatchOption result
            (slice_get (child_trees (tree_at g self.now at)) before ≡ None)
            (λ child. (child < length self.now.branches.items)
            × (slice_get (child_trees (tree_at g self.now at)) before
            ≡ Some (tree_at g self.now child))) }
    {
        if before >= self.branches[at].children() {
            return None;
        }
        Some(self.firsts[at] + before)
    }

    /// The values of the subtree at this place, if they are known and no choice changes them.
    pub(crate) fn still_row(&self, at: usize) -> Option<&[Fraction]>
        ensures { (g : Game) → AreNodesOf g self.now
            → IfSome result (λ row. IsStillRow g (tree_at g self.now at) row.now) }
    {
        self.still.get(at)?.as_deref()
    }
}

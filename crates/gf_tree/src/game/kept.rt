//! The nodes of a game as they are kept: one list in prefix order, each with the size of its
//! subtree.

ghost use Rattle.std.specs.Prelude.{◌≡◌, ◌+◌, ◌<◌, ◌≤◌, [], ℕ, IsTrue, drop, length, map};
ghost use Rattle.std.specs.Prelude.{option_map};
ghost use Rattle.std.specs.List.{AllByRecursion};
ghost use Rattle.std.specs.Slice.Iter.{iter_rest};
ghost use Rattle.gf_token.specs.Positions.{at_position};
ghost use Rattle.gf_tree.specs.Tree.{Tree};
ghost use Rattle.gf_tree.specs.PrefixOrder.{flatten};
ghost use Rattle.gf_tree.specs.Game.{Node};
ghost use Rattle.gf_tree.specs.inner.KeptNodes.{AreAmong, child_count, child_counts, kept_of, sizes_of};
ghost use Rattle.gf_tree.specs.NodeOf.{outcome_of, set_of_step};
ghost use Rattle.gf_tree.specs.inner.Skipped.{Begin, skipped};
ghost use Rattle.gf_tree.specs.inner.Steps.{is_step};
ghost use Rattle.gf_tree.specs.Subtrees.{subtree_sizes};

use crate::game::node::Step;
use crate::game::numbered_node::NumberedNode;
use crate::game::outcomes::Outcomes;
use crate::game::sets::Sets;
use crate::reader::receive::{Receive, ToldHeading};
use gf_token::Label;
use std::alloc::{AllocError, Global};
use std::marker::Model;
use std::slice;

/// A node of 32 bytes.
#[derive(Clone, Copy)]
pub(crate) struct Stored<'a> {
    pub(crate) name: Label<'a>,
    /// How many nodes its subtree has, including itself.
    pub(crate) size: usize,
    /// The position of its set among those known, from 1, or 0 if it has none.
    pub(crate) set: u32,
    /// The position of its outcome among those known, from 1, or 0 if it has none.
    pub(crate) outcome: u32,
}

/// How many children a node has if its set has this position.
#[inline(always)]
pub(crate) fn child_count(sets: &Sets<'_>, set: u32) -> usize
    requires { set ≤ length sets.now.known }
    ensures { result ≡ child_count sets.now.known set }
{
    if set == 0 {
        0
    } else {
        sets.action_count(set - 1) as usize
    }
}

/// What happens at a node if its set has this position.
pub(crate) fn step(sets: &Sets<'_>, set: u32) -> Step
    requires { set ≤ length sets.now.known }
    ensures set { set_of_step result ≡ option_map (λ s. s.key) (at_position sets.now.known set) }
    ensures counted { IsTrue (is_step result) }
{
    if set == 0 {
        return Step::Terminal;
    }
    let (player, set) = sets.key(set - 1);
    if player == 0 {
        Step::Chance { set }
    } else {
        Step::Personal { player, set }
    }
}

/// The number of the outcome with this position, or 0 if there is none.
pub(crate) fn outcome_number(outcomes: &Outcomes<'_>, outcome: u32) -> u32
    requires within { outcome ≤ length outcomes.now.known }
    requires positive { AllByRecursion (λ o. 0 < o.key) outcomes.now.known }
    ensures { outcome_of result
        ≡ option_map (λ o. o.key) (at_position outcomes.now.known outcome) }
{
    if outcome == 0 {
        0
    } else {
        outcomes.number(outcome - 1)
    }
}

/// The place after this many subtrees, the first of which begins at `from`.
#[tactic(auto, using(crate::proofs::lemmas::stores::KeptSizes::at_node))]
pub(crate) fn skip(nodes: &[Stored<'_>], from: usize, count: usize) -> usize
    requires within { from ≤ length nodes.now }
    requires trees { Begin count (drop from (sizes_of nodes.now)) }
    ensures place { result ≡ from + skipped count (drop from (sizes_of nodes.now)) }
    ensures ends { result ≤ length nodes.now }
{
    let mut at = from;
    let mut left = count;
    while left > 0 {
        at += nodes[at].size;
        left -= 1;
    }
    at
}

/// Fills in the sizes of subtrees, from the last node to the first. Each node is passed over once,
/// as a child of its parent.
#[tactic(auto, using(crate::proofs::lemmas::stores::KeptSizes::sizes_filled))]
fn fill_sizes(nodes: &mut [Stored<'_>], sets: &Sets<'_>)
    requires placed { (outcomes : ℕ)
        × AreAmong (length sets.now.known) outcomes (map kept_of nodes.old) }
    requires tree { (t : Tree Node)
        × (map (λ e. e.children) (flatten t)
        ≡ child_counts sets.now.known (map kept_of nodes.old)) }
    ensures kept { map kept_of nodes.new ≡ map kept_of nodes.old }
    ensures sizes { (t : Tree Node)
        → map (λ e. e.children) (flatten t) ≡ child_counts sets.now.known (map kept_of nodes.old)
        → sizes_of nodes.new ≡ subtree_sizes t }
{
    let mut at = nodes.len();
    while at > 0 {
        at -= 1;
        let children = child_count(sets, nodes[at].set);
        let end = skip(nodes, at + 1, children);
        let node = &mut nodes[at];
        node.size = end - at;
    }
}

/// Nodes in prefix order; the sizes of their subtrees are not known yet.
#[derive(Drop)]
pub(crate) struct NodeList<'a> {
    nodes: Vec<Stored<'a>>,
}

impl<'a> Model for NodeList<'a> {
    ghost use Rattle.std.specs.Prelude.{List, map};
    ghost use Rattle.gf_tree.specs.KeptNode.{Kept};
    ghost use Rattle.gf_tree.specs.inner.KeptNodes.{kept_of};

    ghost Value = { List Kept };

    ghost view = { λ l. map kept_of l.nodes.items };
}

impl<'a> NodeList<'a> {
    /// No nodes.
    pub(crate) fn new(alloc: Global) -> NodeList<'a>
        ensures { result ≡ [] }
    {
        NodeList {
            nodes: Vec::new(alloc),
        }
    }

    /// The nodes one after another.
    pub(crate) fn iter(&self) -> slice::Iter<'_, Stored<'a>>
        ensures { map kept_of (iter_rest result) ≡ self.now }
    {
        self.nodes.iter()
    }

    /// The nodes with the sizes of their subtrees. The caller has to ensure that they are those of
    /// a tree.
    pub(crate) fn sized(self, sets: &Sets<'_>) -> Vec<Stored<'a>>
        requires placed { (outcomes : ℕ) × AreAmong (length sets.now.known) outcomes self }
        requires tree { (t : Tree Node)
            × (map (λ e. e.children) (flatten t) ≡ child_counts sets.now.known self) }
        ensures kept { map kept_of result.items ≡ self.entry }
        ensures sizes { (t : Tree Node)
            → map (λ e. e.children) (flatten t) ≡ child_counts sets.now.known self.entry
            → sizes_of result.items ≡ subtree_sizes t }
    {
        let mut nodes = self.nodes;
        fill_sizes(&mut nodes, sets);
        nodes
    }
}

impl<'a> Receive<'a> for NodeList<'a> {
    ghost use Rattle.std.specs.Prelude.{◌≡◌, [], map};
    ghost use Rattle.gf_tree.specs.Told.{kept_as};

    ghost untold = { λ nodes. nodes ≡ [] };

    ghost holds = { λ untold nodes heading told. nodes ≡ map kept_as told };

    fn heading(&mut self, _heading: ToldHeading<'_, 'a>) -> Result<(), AllocError> {
        Ok(())
    }

    #[inline(always)]
    fn node(&mut self, node: NumberedNode<'_, 'a>) -> Result<(), AllocError> {
        self.nodes.push(Stored {
            name: node.name,
            size: 0,
            set: node.set,
            outcome: node.outcome,
        })?;
        Ok(())
    }
}

//! Games in memory.

ghost use Rattle.std.specs.Prelude.{◌≡◌, ◌+◌, ◌<◌, ◌^◌, [], Some, MatchOption, drop, length, map};
ghost use Rattle.std.specs.Prelude.{option_map, slice_get};
ghost use Rattle.gf_token.specs.Label.{label_of};
ghost use Rattle.gf_token.specs.Positions.{at_position};
ghost use Rattle.gf_tree.specs.Actions.{actions_of};
ghost use Rattle.gf_tree.specs.Branches.{game_of, tree_of};
ghost use Rattle.gf_tree.specs.NodesLeft.{nodes_left};
ghost use Rattle.gf_tree.specs.PrefixOrder.{flatten};
ghost use Rattle.gf_tree.specs.Description.{set_of};
ghost use Rattle.gf_tree.specs.KeysInOrder.{outcome_numbers, player_keys};
ghost use Rattle.gf_tree.specs.Game.{outcome_at, set_at};
ghost use Rattle.gf_tree.specs.IsGame.{IsGame};
ghost use Rattle.gf_tree.specs.inner.GameParts.{IsKeptAt, IsListed, game_with, parts_of};
ghost use Rattle.gf_tree.specs.Description.{outcome_with, set_with};
ghost use Rattle.gf_tree.specs.Movers.{IsMover};
ghost use Rattle.gf_tree.specs.NodeOf.{node_of};
ghost use Rattle.gf_tree.specs.OutcomePositions.{position_among};
ghost use Rattle.gf_tree.specs.inner.Skipped.{skipped};
ghost use Rattle.gf_tree.specs.Spellable.{IsSpellable};
ghost use Rattle.gf_tree.specs.Subtrees.{child_trees, root_node, subtree_at, subtree_sizes};
ghost use Rattle.gf_tree.specs.Subtrees.{subtrees};
ghost use Rattle.gf_tree.specs.Told.{heading_in, heading_of};

use crate::game::action::Action;
use crate::game::branch::Branch;
use crate::game::kept::{NodeList, Stored, child_count, outcome_number, skip, step};
use crate::game::node::Node;
use crate::game::nodes::Nodes;
use crate::game::parts::Parts;
use crate::reader::receive::ToldHeading;
use gf_fraction::Fraction;
use gf_token::Label;
use std::marker::Model;

pub(crate) mod action;
pub(crate) mod branch;
pub(crate) mod branches;
pub(crate) mod file_node;
pub(crate) mod file_nodes;
pub(crate) mod kept;
pub(crate) mod listed_game;
pub(crate) mod node;
pub(crate) mod nodes;
pub(crate) mod numbered_node;
pub(crate) mod outcomes;
pub(crate) mod parts;
mod renumbering;
pub(crate) mod sets;

pub use file_nodes::FileNodes;

/// A game: a title, a comment, players, and a tree with information sets and outcomes. Every label
/// is a slice of the file. Players are counted from 1, chance is player 0, and numbers of sets and
/// outcomes are those of the file.
#[derive(Drop)]
pub struct Game<'a> {
    parts: Parts<'a>,
    nodes: Vec<Stored<'a>>,
}

impl<'a> Model for Game<'a> {
    ghost use Rattle.std.specs.Prelude.{map};
    ghost use Rattle.gf_tree.specs.Game.{Game};
    ghost use Rattle.gf_tree.specs.inner.GameCode.{game_code};
    ghost use Rattle.gf_tree.specs.inner.GameParts.{IsHeld, game_with, parts_of};
    ghost use Rattle.gf_tree.specs.inner.KeptNodes.{kept_of};

    ghost Value = { Game };

    ghost coded = { game_code };

    ghost view = { λ g. game_with (parts_of g.parts) (map kept_of g.nodes.items) };

    ghost invariant = { λ g. IsHeld (parts_of g.parts) g.nodes.items };
}

impl<'a> Game<'a> {
    /// The game of these parts. The caller has to ensure that the nodes fill one tree.
    pub(crate) fn new(parts: Parts<'a>, nodes: NodeList<'a>) -> Game<'a>
        requires { IsListed (parts_of parts) nodes }
        ensures { result ≡ game_with (parts_of parts.entry) nodes.entry }
    {
        let nodes = nodes.sized(&parts.sets);
        Game { parts, nodes }
    }

    /// The title.
    // No edit: it returns a part.
    pub fn title(&self) -> Label<'a>
        ensures { label_of result ≡ self.now.title }
    {
        self.parts.title
    }

    /// The comment, which is empty if the file has none.
    // No edit: it returns a part.
    pub fn comment(&self) -> Label<'a>
        ensures { label_of result ≡ self.now.comment }
    {
        self.parts.comment
    }

    /// The names of the players, from the first to the last.
    ///
    /// The other clauses hold for each game: each key in its tree has its description, and each
    /// node has as many children as its set has actions; and a file can hold its labels and
    /// numbers.
    // No edit: it returns a part.
    pub fn players(&self) -> &[Label<'a>]
        ensures names { map label_of result.now ≡ self.now.players }
        ensures is_game { IsGame self.now }
        ensures spellable { IsSpellable self.now }
    {
        &self.parts.players
    }

    /// The title, the comment and the players.
    ///
    /// The other clauses hold for each game, as those of `players` do.
    // No edit: it puts parts together.
    pub fn heading(&self) -> ToldHeading<'_, 'a>
        ensures heading { heading_of result ≡ heading_in self.now }
        ensures is_game { IsGame self.now }
        ensures spellable { IsSpellable self.now }
    {
        ToldHeading {
            title: self.parts.title,
            comment: self.parts.comment,
            players: &self.parts.players,
        }
    }

    /// The name and the actions of a player's set, where chance is player 0. `None` if there is no
    /// such set.
    pub fn infoset(&self, player: u32, number: u32) -> Option<(Label<'a>, &[Action<'a>])>
        ensures { option_map (λ p. set_with (label_of p.0) (actions_of p.1.now)) result
            ≡ set_at self.now (set_of player number) }
    {
        let sets = &self.parts.sets;
        match sets.find(player, number) {
            Some(place) => Some((sets.name(place), sets.actions(place))),
            None => None,
        }
    }

    /// The name of an outcome and its payoffs, one for each player. `None` if there is no such
    /// outcome, and for 0.
    // No edit: `Game::infoset` has one, and proofs of gf_form rely on this.
    #[tactic(auto, using(crate::proofs::lemmas::stores::FoundKeys::outcomes_found))]
    pub fn outcome(&self, number: u32) -> Option<(Label<'a>, &[Fraction])>
        ensures { option_map (λ p. outcome_with (label_of p.0) p.1.now) result
            ≡ outcome_at self.now number }
    {
        let outcomes = &self.parts.outcomes;
        let place = outcomes.find(number)?;
        Some((outcomes.name(place), outcomes.payoffs(place)))
    }

    /// How many sets a player has, where chance is player 0; 0 if there is no such player.
    // No edit: it returns a part.
    pub fn set_count(&self, player: u32) -> usize
        ensures count { result ≡ length (player_keys self.now player) }
        ensures few { result < 2 ^ 32 }
    {
        let count = self.parts.sets.count(player);
        prove!(count <= self.parts.sets.len());
        count
    }

    /// The number of a player's set, by its position from 1 among their sets in order of first use.
    /// `None` if there is no such set.
    pub fn set_number(&self, player: u32, i: usize) -> Option<u32>
        ensures { result
            ≡ at_position (map (λ key. key.number) (player_keys self.now player)) i }
    {
        self.parts.sets.number(player, i)
    }

    /// How many outcomes there are. Outcome 0 does not count.
    // No edit: it returns a part.
    pub fn outcome_count(&self) -> usize
        ensures count { result ≡ length (outcome_numbers self.now) }
        ensures few { result < 2 ^ 32 }
    {
        self.parts.outcomes.len()
    }

    /// The number of an outcome, by its position from 1 among the outcomes in order of first use.
    /// `None` if there is no such outcome.
    pub fn outcome_number(&self, i: usize) -> Option<u32>
        ensures { result ≡ at_position (outcome_numbers self.now) i }
    {
        self.parts.outcomes.at(i)
    }

    /// The whole tree.
    // No edit: it passes on `Branch::whole`.
    pub fn root(&self) -> Branch<'_, 'a>
        ensures game { game_of result ≡ self.now }
        ensures tree { tree_of result ≡ self.now.tree }
    {
        Branch::whole(self)
    }

    /// The nodes in prefix order: a node, then the subtrees of its children from the first to the
    /// last.
    // No edit: it passes on `Nodes::all`.
    pub fn nodes(&self) -> Nodes<'_, 'a>
        ensures { nodes_left result ≡ map (λ e. e.node) (flatten self.now.tree) }
    {
        Nodes::all(self)
    }

    /// How many nodes there are.
    // No edit: it returns a part.
    pub fn len(&self) -> usize
        ensures { result ≡ length (subtrees self.now.tree) }
    {
        self.nodes.len()
    }

    /// The node that is kept at this place.
    fn kept(&self, at: usize) -> Stored<'a>
        requires { at < length (subtrees self.now.tree) }
        ensures kept { IsKeptAt self.now at result }
        ensures is_game { IsGame self.now }
    {
        self.nodes[at]
    }

    /// The node at this place, from 0, in prefix order.
    pub(crate) fn node(&self, at: usize) -> Node<'a>
        requires { at < length (subtrees self.now.tree) }
        ensures { node_of result ≡ root_node (subtree_at self.now.tree at) }
    {
        let node = self.kept(at);
        Node {
            name: node.name,
            step: step(&self.parts.sets, node.set),
            outcome: outcome_number(&self.parts.outcomes, node.outcome),
        }
    }

    /// How many children the node at this place has.
    pub(crate) fn child_count(&self, at: usize) -> usize
        requires { at < length (subtrees self.now.tree) }
        ensures { result ≡ length (child_trees (subtree_at self.now.tree at)) }
    {
        child_count(&self.parts.sets, self.kept(at).set)
    }

    /// The place of a child of the node at this place, by its own place, from 0, among the
    /// children.
    pub(crate) fn child_place(&self, at: usize, child: usize) -> usize
        requires node { at < length (subtrees self.now.tree) }
        requires child { child < length (child_trees (subtree_at self.now.tree at)) }
        ensures { slice_get (subtrees self.now.tree) result
            ≡ slice_get (child_trees (subtree_at self.now.tree at)) child }
    {
        skip(&self.nodes, at + 1, child)
    }

    /// The place after the subtree of the node at this place.
    pub(crate) fn place_after(&self, at: usize) -> usize
        requires { at < length (subtrees self.now.tree) }
        ensures { result ≡ at + skipped 1 (drop at (subtree_sizes self.now.tree)) }
    {
        skip(&self.nodes, at, 1)
    }

    /// Who moves at the node at this place, where chance is player 0, and the position of its set,
    /// from 1, among their sets in order of first use. `None` if the game ends here.
    pub(crate) fn mover(&self, at: usize) -> Option<(u32, u32)>
        requires { at < length (subtrees self.now.tree) }
        ensures mover { IsMover self.now (root_node (subtree_at self.now.tree at)).set result }
        ensures is_game { IsGame self.now }
    {
        let place = self.kept(at).set.checked_sub(1)?;
        let (player, _) = self.parts.sets.key(place);
        Some((player, self.parts.sets.first_use_number(place)))
    }

    /// The actions at the node at this place; none if the game ends there.
    pub(crate) fn actions(&self, at: usize) -> &[Action<'a>]
        requires { at < length (subtrees self.now.tree) }
        ensures { MatchOption (root_node (subtree_at self.now.tree at)).set
            (actions_of result.now ≡ [])
            (λ key. option_map (λ set. set.actions) (set_at self.now key)
            ≡ Some (actions_of result.now)) }
    {
        let set = self.kept(at).set;
        if set == 0 {
            return &[];
        }
        self.parts.sets.actions(set - 1)
    }

    /// The position of the outcome of the node at this place among the outcomes in order of first
    /// use, from 1, or 0 if it has none.
    pub(crate) fn outcome_position(&self, at: usize) -> u32
        requires { at < length (subtrees self.now.tree) }
        ensures { result ≡ position_among (outcome_numbers self.now)
            (root_node (subtree_at self.now.tree at)).outcome }
    {
        self.kept(at).outcome
    }
}

//! The nodes of a game in prefix order.

ghost use Rattle.std.specs.Prelude.{◌≡◌, IfSome, Some, length, map};

use crate::game::Game;
use crate::game::node::Node;

/// An iterator over the nodes of a game in prefix order: a node, then the subtrees of its children
/// from the first to the last.
#[derive(Drop)]
pub struct Nodes<'g, 'a> {
    game: &'g Game<'a>,
    /// The place of the node that comes next.
    next_place: usize,
}

impl<'g, 'a> Nodes<'g, 'a> {
    ghost use Rattle.gf_tree.specs.PrefixOrder.{flatten};
    ghost use Rattle.gf_tree.specs.NodesLeft.{nodes_left};

    /// All nodes of a game.
    pub(crate) fn all(game: &'g Game<'a>) -> Nodes<'g, 'a>
        ensures { nodes_left result ≡ map (λ e. e.node) (flatten game.entry.now.tree) }
    {
        Nodes {
            game,
            next_place: 0,
        }
    }
}

impl<'g, 'a> Iterator for Nodes<'g, 'a> {
    ghost use Rattle.std.specs.Iterator.{UpTo, YieldsFirstBy, item_count};
    ghost use Rattle.std.specs.Iterator.SizeHint.{IsWithinCount};
    ghost use Rattle.gf_tree.specs.NodeOf.{node_of};
    ghost use Rattle.gf_tree.specs.NodesLeft.{nodes_left};

    type Item = Node<'a>;

    ghost next_gives = { YieldsFirstBy node_of nodes_left };

    ghost remaining = { item_count nodes_left };

    #[tactic(auto, using(crate::proofs::lemmas::stores::GameNodes::nodes_next))]
    fn next(&mut self) -> Option<Node<'a>> {
        let game = self.game;
        if self.next_place >= game.len() {
            return None;
        }
        let node = game.node(self.next_place);
        self.next_place += 1;
        Some(node)
    }

    fn size_hint(&self) -> (usize, Option<usize>)
        ensures lower { IsWithinCount result.0 (item_count nodes_left self.now) }
        ensures upper { IfSome result.1 (UpTo (item_count nodes_left self.now)) }
        ensures exact { result ≡ (length (nodes_left self.now), Some (length (nodes_left self.now))) }
    {
        let left = self.len();
        (left, Some(left))
    }
}

impl<'g, 'a> ExactSizeIterator for Nodes<'g, 'a> {
    ghost use Rattle.gf_tree.specs.NodesLeft.{nodes_left};

    /// How many nodes it can still give.
    fn len(&self) -> usize
        ensures { result ≡ length (nodes_left self.now) }
    {
        let game = self.game;
        game.len().saturating_sub(self.next_place)
    }
}

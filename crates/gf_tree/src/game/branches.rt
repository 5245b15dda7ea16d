//! The branches below a node, one after another.

ghost use Rattle.std.specs.Prelude.{◌≡◌, ◌+◌, ◌<◌, drop, length};
ghost use Rattle.gf_tree.specs.inner.Skipped.{skipped};
ghost use Rattle.gf_tree.specs.Subtrees.{child_trees, subtree_at, subtree_sizes, subtrees};

use crate::game::Game;
use crate::game::branch::Branch;

/// An iterator over the branches of a node's children, from the first to the last.
#[derive(Drop)]
pub struct Branches<'g, 'a> {
    game: &'g Game<'a>,
    /// The place of the node among all nodes in prefix order.
    at: usize,
    /// How many of its children came before.
    before: usize,
    /// The place of the next child.
    place: usize,
    ghost within: { at < length (subtrees game.now.tree) },
    ghost stands: { place ≡ at + 1 + skipped before (drop (at + 1) (subtree_sizes game.now.tree)) },
}

impl<'g, 'a> Branches<'g, 'a> {
    ghost use Rattle.gf_tree.specs.BranchesLeft.{branches_given, branches_left, game_of_branches};

    /// The branches below the node at this place.
    pub(crate) fn below(game: &'g Game<'a>, at: usize) -> Branches<'g, 'a>
        requires { at < length (subtrees game.now.tree) }
        ensures game { game_of_branches result ≡ game.entry.now }
        ensures trees { branches_left result ≡ child_trees (subtree_at game.entry.now.tree at) }
        ensures none { branches_given result ≡ 0 }
    {
        prove!(at < game.len());
        Branches {
            game,
            at,
            before: 0,
            place: at + 1,
        }
    }

    /// How many branches it has given.
    // No edit: it returns a part.
    pub fn given(&self) -> usize
        ensures { result ≡ branches_given self.now }
    {
        self.before
    }
}

impl<'g, 'a> Iterator for Branches<'g, 'a> {
    ghost use Rattle.std.specs.Iterator.{item_count};
    ghost use Rattle.gf_tree.specs.BranchesLeft.{YieldsBranches, branches_left};

    type Item = Branch<'g, 'a>;

    ghost next_gives = { YieldsBranches };

    ghost remaining = { item_count branches_left };

    fn next(&mut self) -> Option<Branch<'g, 'a>> {
        let game = self.game;
        if self.before >= game.child_count(self.at) {
            return None;
        }
        let branch = Branch::at_place(game, self.place);
        *self = Branches {
            game,
            at: self.at,
            before: self.before + 1,
            place: game.place_after(self.place),
        };
        Some(branch)
    }
}

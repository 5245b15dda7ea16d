//! A tree that is compared with a game while it is read.

ghost use Rattle.std.specs.Prelude.{◌≡◌, ◌↔◌, [], IsTrue};
ghost use Rattle.gf_tree.specs.FileNodes.{file_nodes};
ghost use Rattle.gf_tree.specs.CanonicalGame.{canonical_game};

use crate::sameness::counted::{same_heading, same_node};
use gf_token::Names;
use gf_tree::{FileNodes, ListedGame, NumberedNode, Receive, ToldHeading};
use std::alloc::AllocError;

/// A comparison of a game with a tree that is told. Sets and outcomes that a renumbering carries to
/// each other have the same first-use number, so each node is compared with one node, and nothing
/// is searched for. This takes no memory.
#[derive(Drop)]
pub(crate) struct TreeComparison<'g, 'a> {
    game: &'g ListedGame<'a>,
    /// The nodes of the game after as many as were told. After a difference it stays as it is.
    left: FileNodes<'g, 'a>,
    names: Names,
    /// No difference was found.
    same: bool,
}

impl<'g, 'a> TreeComparison<'g, 'a> {
    /// Nothing was told.
    pub(crate) fn new(game: &'g ListedGame<'a>, names: Names) -> TreeComparison<'g, 'a>
        ensures game { result.game.now ≡ game.entry.now }
        ensures names { result.names ≡ names }
        ensures left { result.left ≡ file_nodes (canonical_game game.entry.now) }
        ensures same { IsTrue result.same }
    {
        TreeComparison {
            game,
            left: game.nodes_by_first_use(),
            names,
            same: true,
        }
    }

    /// Whether no difference was found, if nothing more is told.
    pub(crate) fn is_same(mut self) -> bool
        ensures { IsTrue result ↔ (IsTrue self.entry.same × (self.entry.left ≡ [])) }
    {
        self.same && self.left.next().is_none()
    }
}

impl<'g, 'a, 'b> Receive<'b> for TreeComparison<'g, 'a> {
    ghost use Rattle.std.specs.Prelude.{◌≡◌, IsTrue};
    ghost use Rattle.gf_tree.specs.FileNodes.{file_nodes};
    ghost use Rattle.gf_tree.specs.CanonicalGame.{canonical_game};
    ghost use Rattle.gf_canon.specs.inner.ComparedTrees.{IsCompared};

    ghost untold = { λ c. IsTrue c.same × (c.left ≡ file_nodes (canonical_game c.game.now)) };

    ghost holds = { λ untold c heading told. (c.names ≡ untold.names)
        × IsCompared untold.names untold.game.now c.same c.left heading told };

    fn heading(&mut self, heading: ToldHeading<'_, 'b>) -> Result<(), AllocError> {
        self.same = same_heading(self.game.heading(), heading, self.names);
        Ok(())
    }

    #[inline(always)]
    fn node(&mut self, node: NumberedNode<'_, 'b>) -> Result<(), AllocError> {
        if self.same {
            self.same = match self.left.next() {
                Some(other) => same_node(other, node, self.names),
                None => false,
            };
        }
        Ok(())
    }
}

//! Games as lists of nodes.

ghost use Rattle.std.specs.Prelude.{◌≡◌};
ghost use Rattle.gf_tree.specs.FileNodes.{file_nodes};
ghost use Rattle.gf_tree.specs.FirstUse.{first_use_numbers};
ghost use Rattle.gf_tree.specs.IsGame.{IsGame};
ghost use Rattle.gf_tree.specs.inner.GameParts.{IsListed, game_with, parts_of};
ghost use Rattle.gf_tree.specs.Renumbering.{renumbered};
ghost use Rattle.gf_tree.specs.Spellable.{IsSpellable};
ghost use Rattle.gf_tree.specs.Told.{heading_in, heading_of};

use crate::game::kept::NodeList;
use crate::game::numbered_node::Numbering;
use crate::game::parts::Parts;
use crate::game::{FileNodes, Game};
use crate::reader::receive::ToldHeading;
use std::marker::Model;

/// A game whose nodes can only be visited one after another, in prefix order. It is not known yet
/// where the subtree of a node ends: `into_game` finds that out for all nodes.
#[derive(Drop)]
pub struct ListedGame<'a> {
    parts: Parts<'a>,
    nodes: NodeList<'a>,
}

impl<'a> Model for ListedGame<'a> {
    ghost use Rattle.gf_tree.specs.Game.{Game};
    ghost use Rattle.gf_tree.specs.inner.GameCode.{game_code};
    ghost use Rattle.gf_tree.specs.inner.GameParts.{IsListed, game_with, parts_of};

    ghost Value = { Game };

    ghost coded = { game_code };

    ghost view = { λ g. game_with (parts_of g.parts) g.nodes };

    ghost invariant = { λ g. IsListed (parts_of g.parts) g.nodes };
}

impl<'a> ListedGame<'a> {
    /// The game of these parts. The caller has to ensure that the nodes fill one tree.
    pub(crate) fn new(parts: Parts<'a>, nodes: NodeList<'a>) -> ListedGame<'a>
        requires { IsListed (parts_of parts) nodes }
        ensures { result ≡ game_with (parts_of parts.entry) nodes.entry }
    {
        ListedGame { parts, nodes }
    }

    /// The title, the comment and the players.
    ///
    /// The other clauses hold for each game, as those of `Game::players` do.
    // No edit: it puts parts together.
    pub fn heading(&self) -> ToldHeading<'_, 'a>
        ensures heading { heading_of result ≡ heading_in self.now }
        ensures is_game { IsGame self.now }
        ensures spellable { IsSpellable self.now }
    {
        ToldHeading {
            title: self.parts.title,
            comment: self.parts.comment,
            players: &self.parts.players,
        }
    }

    /// The nodes in prefix order by first-use numbers, as `Game::nodes_by_first_use` gives them.
    // No edit: it passes on `FileNodes::new`.
    pub fn nodes_by_first_use(&self) -> FileNodes<'_, 'a>
        ensures { result ≡ file_nodes (renumbered (first_use_numbers self.now) self.now) }
    {
        FileNodes::new(Numbering::ByFirstUse, &self.parts, self.nodes.iter())
    }

    /// The game, with the subtrees of its nodes.
    // No edit: it passes on `Game::new`.
    pub fn into_game(self) -> Game<'a>
        ensures { result ≡ self.entry }
    {
        Game::new(self.parts, self.nodes)
    }
}

//! The nodes of a game as a file gives them, by its numbers or by first-use numbers.

ghost use Rattle.std.specs.Prelude.{◌≡◌, map};
ghost use Rattle.std.specs.Slice.Iter.{iter_rest};
ghost use Rattle.gf_tree.specs.FileNodes.{file_nodes};
ghost use Rattle.gf_tree.specs.FirstUse.{first_use_numbers};
ghost use Rattle.gf_tree.specs.inner.KeptNodes.{kept_of};
ghost use Rattle.gf_tree.specs.Renumbering.{renumbered};
ghost use Rattle.gf_tree.specs.inner.GameParts.{IsListed, game_by, game_with, parts_of};

use crate::game::Game;
use crate::game::kept::Stored;
use crate::game::numbered_node::{NumberedNode, Numbering};
use crate::game::outcomes::Outcomes;
use crate::game::parts::Parts;
use crate::game::sets::Sets;
use std::marker::Model;
use std::slice;

impl<'a> Game<'a> {
    /// The nodes in prefix order, as a file gives them: each set and each outcome is described at
    /// its first use, and nowhere else. This takes no memory.
    // No edit: it passes on `FileNodes::new`.
    pub fn file_nodes(&self) -> FileNodes<'_, 'a>
        ensures { result ≡ file_nodes self.now }
    {
        FileNodes::new(Numbering::OfFile, &self.parts, self.nodes.iter())
    }

    /// The same, but by first-use numbers: the number of a set is its position among the sets of
    /// its player, and the number of an outcome its position among the outcomes.
    // No edit: it passes on `FileNodes::new`.
    pub fn nodes_by_first_use(&self) -> FileNodes<'_, 'a>
        ensures { result ≡ file_nodes (renumbered (first_use_numbers self.now) self.now) }
    {
        FileNodes::new(Numbering::ByFirstUse, &self.parts, self.nodes.iter())
    }
}

/// An iterator over the nodes of a game in prefix order, as a file gives them.
#[derive(Drop)]
pub struct FileNodes<'g, 'a> {
    numbering: Numbering,
    sets: &'g Sets<'a>,
    outcomes: &'g Outcomes<'a>,
    /// The nodes that come next.
    nodes: slice::Iter<'g, Stored<'a>>,
    /// How many sets and outcomes are used before them.
    used_sets: u32,
    used_outcomes: u32,
}

impl<'g, 'a> Model for FileNodes<'g, 'a> {
    ghost use Rattle.std.specs.Prelude.{List, length, map};
    ghost use Rattle.std.specs.Slice.Iter.{iter_rest};
    ghost use Rattle.gf_tree.specs.FileTree.{FileNode};
    ghost use Rattle.gf_tree.specs.inner.KeptNodes.{AreAmong, kept_of};
    ghost use Rattle.gf_tree.specs.Told.{told_from};

    ghost Value = { List FileNode };

    ghost view = { λ n. map (λ t. t.node) (told_from n.numbering n.sets.now.known
        n.outcomes.now.known n.used_sets n.used_outcomes (map kept_of (iter_rest n.nodes))) };

    ghost invariant = { λ n. AreAmong (length n.sets.now.known) (length n.outcomes.now.known)
        (map kept_of (iter_rest n.nodes)) };
}

impl<'g, 'a> FileNodes<'g, 'a> {
    /// All nodes of the game of these parts, which are these.
    pub(crate) fn new(
        numbering: Numbering,
        parts: &'g Parts<'a>,
        nodes: slice::Iter<'g, Stored<'a>>,
    ) -> FileNodes<'g, 'a>
        requires { IsListed (parts_of parts.now) (map kept_of (iter_rest nodes)) }
        ensures { result ≡ file_nodes (game_by numbering
            (game_with (parts_of parts.entry.now) (map kept_of (iter_rest nodes.entry)))) }
    {
        FileNodes {
            numbering,
            sets: &parts.sets,
            outcomes: &parts.outcomes,
            nodes,
            used_sets: 0,
            used_outcomes: 0,
        }
    }
}

impl<'g, 'a> Iterator for FileNodes<'g, 'a> {
    ghost use Rattle.std.specs.Iterator.{YieldsFirstBy, item_count};
    ghost use Rattle.gf_tree.specs.Told.{told_of};

    type Item = NumberedNode<'g, 'a>;

    ghost next_gives = { YieldsFirstBy (λ n. (told_of n).node) (λ left. left) };

    ghost remaining = { item_count (λ left. left) };

    #[inline(always)]
    fn next(&mut self) -> Option<NumberedNode<'g, 'a>> {
        let stored = self.nodes.next()?;
        let node = NumberedNode {
            numbering: self.numbering,
            sets: self.sets,
            outcomes: self.outcomes,
            used_sets: self.used_sets,
            used_outcomes: self.used_outcomes,
            name: stored.name,
            set: stored.set,
            outcome: stored.outcome,
        };
        self.used_sets = self.used_sets.max(stored.set);
        self.used_outcomes = self.used_outcomes.max(stored.outcome);
        Some(node)
    }
}

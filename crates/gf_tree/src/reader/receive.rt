//! What becomes of the contents of a file: a reader tells them to a receiver, node by node.

use crate::game::numbered_node::NumberedNode;
use gf_token::Label;
use std::alloc::AllocError;

/// What comes before the nodes of a file: its title, its comment, which is empty if there is none,
/// and the names of the players.
#[derive(Clone, Copy, PartialEq, Eq)]
pub struct ToldHeading<'n, 'a> {
    pub title: Label<'a>,
    pub comment: Label<'a>,
    pub players: &'n [Label<'a>],
}

/// What is told the heading of a file, and then its nodes one after another in prefix order.
pub trait Receive<'a> {
    ghost use Rattle.std.specs.Prelude.{List, [], ◌∷◌, ◌++◌, OnOk};
    ghost use Rattle.gf_tree.specs.Told.{Heading, Told, heading_of, told_of};

    /// It was told nothing.
    ghost untold: { Self → Type 0 };

    /// What it holds of the heading and the nodes that it was told. The first argument is what it
    /// was before it was told anything.
    ghost holds: { Self → Self → Heading → List Told → Type 0 };

    /// Takes the heading. An `Err` ends the reading, which returns E19 at the last token told.
    fn heading(&mut self, heading: ToldHeading<'_, 'a>) -> Result<(), AllocError>
        requires { untold self.old }
        ensures { OnOk result (holds self.old self.new (heading_of heading.entry) []) };

    /// Takes the next node. An `Err` ends the reading, as that of `heading` does.
    fn node(&mut self, node: NumberedNode<'_, 'a>) -> Result<(), AllocError>
        ensures { OnOk result ((untold : Self) (heading : Heading) (told : List Told)
            → holds untold self.old heading told
            → holds untold self.new heading (told ++ told_of node.entry ∷ [])) };
}

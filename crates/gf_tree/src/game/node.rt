//! Nodes as callers see them.

ghost use Rattle.std.specs.Prelude.{IsTrue};
ghost use Rattle.gf_tree.specs.inner.Steps.{is_step};

use gf_token::Label;

/// What happens at a node. Numbers of sets are those of the file.
#[derive(Clone, Copy, PartialEq, Eq)]
pub enum Step {
    /// Chance moves, at this set of chance.
    Chance { set: u32 },
    /// A player moves, counted from 1, at this set of theirs.
    Personal { player: u32, set: u32 },
    /// The game ends.
    Terminal,
}

/// A node: its name, what happens there, and the number of its outcome, or 0 if it has none. No
/// step names a player 0: chance has a step of its own.
#[derive(Clone, Copy)]
pub struct Node<'a> {
    pub name: Label<'a>,
    pub step: Step,
    pub outcome: u32,
    ghost counted: { IsTrue (is_step step) },
}

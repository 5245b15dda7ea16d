//! Nodes as a file gives them.

ghost use Rattle.std.specs.Prelude.{◌≡◌, option_map};
ghost use Rattle.gf_tree.specs.FileNodeOf.{file_node_of, outcome_use_of, set_use_of};
ghost use Rattle.gf_tree.specs.Unnamed.{unnamed_file_node, unnamed_outcome, unnamed_set, use_by};

use crate::game::action::Action;
use gf_fraction::Fraction;
use gf_token::Label;

/// A node as a file gives it: its name; the use of a set, or `None` if the game ends here; and the
/// use of an outcome, or `None` for outcome 0.
#[derive(Clone, Copy)]
pub struct FileNode<'n, 'a> {
    pub name: Label<'a>,
    pub set: Option<SetUse<'n, 'a>>,
    pub outcome: Option<OutcomeUse<'n, 'a>>,
}

/// A use of a player's set, where chance is player 0, with the description if the file gives it.
#[derive(Clone, Copy)]
pub struct SetUse<'n, 'a> {
    pub player: u32,
    pub number: u32,
    pub description: Option<SetDescription<'n, 'a>>,
}

/// The name of a set, and its actions from the first to the last.
#[derive(Clone, Copy)]
pub struct SetDescription<'n, 'a> {
    pub name: Label<'a>,
    pub actions: &'n [Action<'a>],
}

/// A use of an outcome, with the description if the file gives it.
#[derive(Clone, Copy)]
pub struct OutcomeUse<'n, 'a> {
    pub number: u32,
    pub description: Option<OutcomeDescription<'n, 'a>>,
}

/// The name of an outcome, and its payoffs, one for each player.
#[derive(Clone, Copy)]
pub struct OutcomeDescription<'n, 'a> {
    pub name: Label<'a>,
    pub payoffs: &'n [Fraction],
}

impl<'n, 'a> SetUse<'n, 'a> {
    /// The same use without the set's name.
    fn unnamed(self) -> SetUse<'n, 'a>
        ensures { set_use_of result ≡ use_by unnamed_set (set_use_of self.entry) }
    {
        let Some(described) = self.description else {
            return self;
        };
        SetUse {
            description: Some(SetDescription {
                name: Label::of_spelling(b""),
                ..described
            }),
            ..self
        }
    }
}

impl<'n, 'a> OutcomeUse<'n, 'a> {
    /// The same use without the outcome's name.
    fn unnamed(self) -> OutcomeUse<'n, 'a>
        ensures { outcome_use_of result ≡ use_by unnamed_outcome (outcome_use_of self.entry) }
    {
        let Some(described) = self.description else {
            return self;
        };
        OutcomeUse {
            description: Some(OutcomeDescription {
                name: Label::of_spelling(b""),
                ..described
            }),
            ..self
        }
    }
}

impl<'n, 'a> FileNode<'n, 'a> {
    /// The same node without its name and those of its set and its outcome.
    pub fn unnamed(self) -> FileNode<'n, 'a>
        ensures { file_node_of result ≡ unnamed_file_node (file_node_of self.entry) }
    {
        FileNode {
            name: Label::of_spelling(b""),
            set: self.set.map(SetUse::unnamed),
            outcome: self.outcome.map(OutcomeUse::unnamed),
        }
    }
}

//! Nodes by the numbers of their file, or by first-use numbers.

ghost use Rattle.std.specs.Prelude.{◌≡◌, ◌==◌, ◌≤◌, ◌↔◌, IsTrue, length, option_map, suc};

use crate::game::file_node::{FileNode, OutcomeDescription, OutcomeUse, SetDescription, SetUse};
use crate::game::outcomes::Outcomes;
use crate::game::sets::Sets;
use gf_token::Label;

/// By which numbers nodes name their sets and outcomes.
#[derive(Clone, Copy)]
pub(crate) enum Numbering {
    /// Those of the file.
    OfFile,
    /// The number of a set is its position among the sets of its player, and the number of an
    /// outcome its position among the outcomes, in order of first use.
    ByFirstUse,
}

/// Whether this is the position after this many.
#[inline(always)]
fn is_next(position: u32, known: u32) -> bool
    ensures { result ≡ (position == suc known) }
{
    position as u64 == known as u64 + 1
}

/// A node by the numbers of its file, or by first-use numbers. Each set and each outcome is
/// described at its first use. They are looked up when the node is asked for.
#[derive(Clone, Copy)]
pub struct NumberedNode<'n, 'a> {
    pub(crate) numbering: Numbering,
    pub(crate) sets: &'n Sets<'a>,
    pub(crate) outcomes: &'n Outcomes<'a>,
    /// How many sets and outcomes are used before it.
    pub(crate) used_sets: u32,
    pub(crate) used_outcomes: u32,
    pub(crate) name: Label<'a>,
    /// The position of its set, from 1, among all sets in order of first use; 0 if the game ends
    /// here.
    pub(crate) set: u32,
    /// The position of its outcome, from 1, among all outcomes in order of first use; 0 if it has
    /// none.
    pub(crate) outcome: u32,
    ghost known_set: { set ≤ length sets.now.known },
    ghost known_outcome: { outcome ≤ length outcomes.now.known },
}

impl<'n, 'a> NumberedNode<'n, 'a> {
    ghost use Rattle.gf_tree.specs.FileNodeOf.{file_node_of, outcome_use_of, set_use_of};
    ghost use Rattle.gf_tree.specs.Undescribed.{undescribed};
    ghost use Rattle.gf_tree.specs.Told.{told_of, told_outcome, told_set};

    /// The use of its set, with the description or without it.
    #[inline(always)]
    fn set_use(&self, described: bool) -> Option<SetUse<'n, 'a>>
        ensures { option_map set_use_of result
            ≡ told_set self.now.numbering self.now.sets.now.known self.now.set described }
    {
        if self.set == 0 {
            return None;
        }
        let place = self.set - 1;
        let (player, number) = self.sets.key(place);
        let number = match self.numbering {
            Numbering::OfFile => number,
            Numbering::ByFirstUse => self.sets.first_use_number(place),
        };
        let description = if described {
            Some(SetDescription {
                name: self.sets.name(place),
                actions: self.sets.actions(place),
            })
        } else {
            None
        };
        Some(SetUse {
            player,
            number,
            description,
        })
    }

    /// The use of its outcome, with the description or without it.
    #[inline(always)]
    fn outcome_use(&self, described: bool) -> Option<OutcomeUse<'n, 'a>>
        ensures { option_map outcome_use_of result
            ≡ told_outcome self.now.numbering self.now.outcomes.now.known self.now.outcome
            described }
    {
        if self.outcome == 0 {
            return None;
        }
        let place = self.outcome - 1;
        let number = match self.numbering {
            Numbering::OfFile => self.outcomes.number(place),
            Numbering::ByFirstUse => self.outcome,
        };
        let description = if described {
            Some(OutcomeDescription {
                name: self.outcomes.name(place),
                payoffs: self.outcomes.payoffs(place),
            })
        } else {
            None
        };
        Some(OutcomeUse {
            number,
            description,
        })
    }

    /// The node as a file gives it.
    #[inline(always)]
    pub fn file_node(&self) -> FileNode<'n, 'a>
        ensures { file_node_of result ≡ (told_of self.now).node }
    {
        FileNode {
            name: self.name,
            set: self.set_use(is_next(self.set, self.used_sets)),
            outcome: self.outcome_use(is_next(self.outcome, self.used_outcomes)),
        }
    }

    /// Whether it describes neither a set nor an outcome.
    // No edit: `NumberedNode::undescribed` has one, and proofs of gf_canon rely on this.
    #[inline(always)]
    pub fn describes_nothing(&self) -> bool
        ensures { IsTrue result ↔ ((told_of self.now).node ≡ undescribed (told_of self.now).node) }
    {
        !is_next(self.set, self.used_sets) && !is_next(self.outcome, self.used_outcomes)
    }

    /// The node as a file gives it, without what it describes.
    #[inline(always)]
    pub fn undescribed(&self) -> FileNode<'n, 'a>
        ensures { file_node_of result ≡ undescribed (told_of self.now).node }
    {
        FileNode {
            name: self.name,
            set: self.set_use(false),
            outcome: self.outcome_use(false),
        }
    }
}

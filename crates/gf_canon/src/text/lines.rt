//! The lines of a text, written while a file is read.

ghost use Rattle.std.specs.Prelude.{◌≡◌, []};

use crate::sameness::counted::{counted_heading, counted_node};
use crate::text::node_line::write_node;
use crate::text::write::write_heading;
use gf_token::Names;
use gf_tree::{NumberedNode, Receive, ToldHeading};
use std::alloc::{AllocError, Global};

/// The text of a file that is being told.
#[derive(Drop)]
pub(crate) struct ToldText {
    pub(crate) text: Vec<u8>,
    /// How many bytes the text is likely to have.
    room: usize,
    names: Names,
}

impl ToldText {
    /// No lines yet, of a text that is likely to have this many bytes.
    pub(crate) fn new(alloc: Global, room: usize, names: Names) -> ToldText
        ensures text { result.text.items ≡ [] }
        ensures names { result.names ≡ names }
    {
        ToldText {
            text: Vec::new(alloc),
            room,
            names,
        }
    }
}

impl<'a> Receive<'a> for ToldText {
    ghost use Rattle.std.specs.Prelude.{◌≡◌, []};
    ghost use Rattle.gf_canon.specs.inner.TextParts.{told_text};

    ghost untold = { λ lines. lines.text.items ≡ [] };

    ghost holds = { λ untold lines heading told. (lines.names ≡ untold.names)
        × (lines.text.items ≡ told_text untold.names heading told) };

    fn heading(&mut self, heading: ToldHeading<'_, 'a>) -> Result<(), AllocError> {
        self.text.reserve(self.room)?;
        write_heading(counted_heading(heading, self.names), &mut self.text)
    }

    #[tactic(auto, using(crate::proofs::lemmas::texts::ToldTexts::one_line_more))]
    #[inline(always)]
    fn node(&mut self, node: NumberedNode<'_, 'a>) -> Result<(), AllocError> {
        write_node(counted_node(node.file_node(), self.names), &mut self.text)
    }
}

//! The canonical text of a file, written while the file is read.

ghost use Rattle.std.specs.Prelude.{◌≡◌, ◌++◌, ◌∷◌, [], List, IfOk, OnOk};
ghost use Rattle.gf_fraction.specs.Ratio.{Ratio};
ghost use Rattle.gf_nfg.specs.inner.Meaning.{frame_in};
ghost use Rattle.gf_nfg.specs.inner.ReaderState.{HasCounts, content_in};
ghost use Rattle.gf_nfg.specs.inner.TextParts.{heading_text, frame_by, payoffs_text};

use crate::heading::Heading;
use crate::receive::{Kept, Receive, Version};
use crate::text::write::write_heading;
use gf_fraction::Fraction;
use gf_token::Names;
use std::alloc::{AllocError, Global};

pub(crate) mod canonical;
pub(crate) mod lines;
pub(crate) mod lists;
pub(crate) mod pieces;
pub(crate) mod rest;
pub(crate) mod write;

/// The text of a file that is being told.
#[derive(Drop)]
pub(crate) struct ToldText {
    pub(crate) text: Vec<u8>,
    /// How many bytes it is likely to have.
    room: usize,
    /// Whether the title and the comment are written.
    names: Names,
    pub(crate) version: Version,
    /// How many payoffs a line has.
    width: usize,
    /// How many payoffs the last line still lacks.
    left: usize,
    /// In outcome version: payoffs and numbers, from which the lines are made at the end.
    pub(crate) kept: Kept,
}

impl ToldText {
    /// Nothing yet, of a text that is likely to have this many bytes.
    pub(crate) fn new(alloc: Global, room: usize, names: Names) -> ToldText
        ensures text { result.text.items ≡ [] }
        ensures names { result.names ≡ names }
        ensures kept { (result.kept.payoffs.items ≡ []) × (result.kept.numbers.items ≡ []) }
    {
        ToldText {
            text: Vec::new(alloc),
            room,
            names,
            version: Version::Payoffs,
            width: 0,
            left: 0,
            kept: Kept::new(alloc),
        }
    }
}

/// Appends everything before the payoffs; title and comment are empty unless `names` are kept.
fn write_told(heading: &Heading<'_>, names: Names, out: &mut Vec<u8>) -> Result<(), AllocError>
    requires { HasCounts heading.now }
    ensures { OnOk result (out.new.items ≡ out.old.items
        ++ heading_text (frame_by names (frame_in (content_in heading.now)))) }
{
    let frame = heading.frame(*out.allocator())?;
    let written = write_heading(&frame, names, out);
    // A call is cheaper to check than the drop where the scope ends.
    drop(frame);
    written
}

/// Appends a payoff, and a space or the line feed that ends its line. Lines have `width` payoffs,
/// and this one lacks `left`. Returns how many are lacking then.
#[tactic(auto, using(crate::proofs::lemmas::texts::PayoffLines::payoff_written))]
#[inline(always)]
fn write_payoff(
    payoff: Fraction,
    width: usize,
    left: usize,
    out: &mut Vec<u8>,
) -> Result<usize, AllocError>
    ensures { IfOk result (λ next. (more : List Ratio)
        → out.new.items ++ payoffs_text width next more
        ≡ out.old.items ++ payoffs_text width left (payoff ∷ more)) }
{
    payoff.write(out)?;
    if left > 1 {
        out.push(b' ')?;
        Ok(left - 1)
    } else {
        out.push(b'\n')?;
        Ok(width)
    }
}

impl<'a> Receive<'a> for ToldText {
    ghost use Rattle.std.specs.Prelude.{◌≡◌, ◌≤◌, [], ⊤, vec_capacity, vec_len};
    ghost use Rattle.gf_nfg.specs.inner.ToldText.{HasText};

    ghost untold = { λ t. (t.text.items ≡ [])
        × (t.kept.payoffs.items ≡ []) × (t.kept.numbers.items ≡ []) };

    ghost holds = { λ untold t told. HasText untold.names t told };

    ghost payoffs_full = { λ _. ⊤ };

    ghost numbers_full = { λ t. vec_capacity t.kept.numbers ≤ vec_len t.kept.numbers };

    fn heading(
        &mut self,
        heading: &Heading<'a>,
        version: Version,
        expected: usize,
    ) -> Result<(), AllocError> {
        self.text.reserve(self.room)?;
        write_told(heading, self.names, &mut self.text)?;
        self.version = version;
        self.width = heading.players.len();
        self.left = self.width;
        match version {
            Version::Payoffs => {
                if self.width == 0 {
                    self.text.push(b'\n')?;
                }
            }
            Version::Outcomes => self.kept.numbers.reserve(expected)?,
        }
        Ok(())
    }

    #[inline(always)]
    fn payoff(&mut self, payoff: Fraction) -> Result<(), AllocError> {
        match self.version {
            Version::Payoffs => {
                self.left = write_payoff(payoff, self.width, self.left, &mut self.text)?;
                Ok(())
            }
            Version::Outcomes => {
                self.kept.payoffs.push(payoff)?;
                Ok(())
            }
        }
    }

    #[inline(always)]
    fn number(&mut self, number: u32) -> Result<(), AllocError> {
        self.kept.numbers.push(number)?;
        Ok(())
    }
}

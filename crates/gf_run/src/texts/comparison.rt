//! What is written about two files that are compared.

ghost use Rattle.std.specs.Prelude.{◌≡◌, MatchResult};
ghost use Rattle.gf_canon.specs.GameFile.{SameFile};
ghost use Rattle.gf_canon.specs.SameBy.{SameBy};
ghost use Rattle.gf_run.specs.Texts.{IsFaultOfFiles, IsAnswer, IsLine, IsLineAndMap, answer_line};

use crate::fault::RunFault;
use crate::texts::answer::{Answer, answer_with};
use crate::texts::renumbering::pair_line;
use gf_canon::{Names, NumberPair, ReceivePairs, pairs_of_files, same_by};
use std::alloc::{AllocError, Global};

/// The line of an answer.
fn answer_line(same: bool) -> &'static [u8]
    ensures { result.now ≡ answer_line same }
{
    if same { b"same\n" } else { b"different\n" }
}

/// The lines of the pairs that were told.
#[derive(Drop)]
struct PairLines {
    text: Vec<u8>,
}

impl ReceivePairs for PairLines {
    ghost use Rattle.std.specs.Prelude.{◌≡◌};
    ghost use Rattle.std.specs.List.{flat_map};
    ghost use Rattle.gf_run.specs.Texts.{pair_line};

    ghost holds = { λ lines pairs. lines.text.items ≡ flat_map pair_line pairs };

    #[tactic(auto, using(std::proofs::lemmas::Grind::common_steps))]
    fn pair(&mut self, pair: NumberPair) -> Result<(), AllocError> {
        self.text.extend_from_slice(pair_line(pair).as_slice())
    }
}

/// Whether two files are the same; and, if they are trees, the lines of the only renumbering that
/// carries the first to the second.
///
/// Refused as by `same`.
pub fn compare_with_map(alloc: Global, a: &[u8], b: &[u8]) -> Result<Answer<bool>, RunFault>
    ensures { MatchResult result
        (λ answer. IsAnswer SameFile IsLineAndMap answer.value a.now b.now answer.text.rest)
        (IsFaultOfFiles a.now b.now) }
{
    let mut lines = PairLines {
        text: Vec::new(alloc),
    };
    let same = pairs_of_files(alloc, a, b, &mut lines)?;
    let mut text = Vec::from_slice(alloc, answer_line(same))?;
    text.extend_from_slice(lines.text.as_slice())?;
    Ok(answer_with(same, text))
}

/// Whether two files are the same, with names or without.
///
/// Refused as by `same_by`.
pub fn compare(alloc: Global, a: &[u8], b: &[u8], names: Names) -> Result<Answer<bool>, RunFault>
    ensures { MatchResult result
        (λ answer. IsAnswer (SameBy names) IsLine answer.value a.now b.now answer.text.rest)
        (IsFaultOfFiles a.now b.now) }
{
    let same = same_by(alloc, a, b, names)?;
    let text = Vec::from_slice(alloc, answer_line(same))?;
    Ok(answer_with(same, text))
}

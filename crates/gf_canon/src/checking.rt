//! Whether a file is valid, with nothing of it kept.

ghost use Rattle.std.specs.Prelude.{IfErr, IfOk};
ghost use Rattle.gf_canon.specs.KindOfFile.{MeansFileOf};
ghost use Rattle.gf_canon.specs.Judgement.{IsRefusedWith};
ghost use Rattle.gf_canon.specs.inner.ToldFile.{IsToldFile};

use crate::kind::{FileKind, kind_of};
use gf_nfg::check_nfg;
use gf_token::Fault;
use gf_tree::{NumberedNode, Receive, ToldHeading, tell_efg};
use std::alloc::{AllocError, Global};

/// A receiver that keeps nothing.
#[derive(Drop)]
pub(crate) struct Unkept;

impl<'a> Receive<'a> for Unkept {
    ghost use Rattle.std.specs.Prelude.{⊤};

    ghost untold = { λ _. ⊤ };

    ghost holds = { λ _ _ _ _. ⊤ };

    fn heading(&mut self, _heading: ToldHeading<'_, 'a>) -> Result<(), AllocError> {
        Ok(())
    }

    #[inline(always)]
    fn node(&mut self, _node: NumberedNode<'_, 'a>) -> Result<(), AllocError> {
        Ok(())
    }
}

/// The kind of a game file, which is read whole. A tree is told to a receiver; nothing of a table
/// is kept.
///
/// Refused as by `canonical`; E19 if memory is refused for the players, the sets and the outcomes
/// of a tree, for the receiver, or for the players and the counts or labels of a table.
#[tactic(auto, using(crate::proofs::lemmas::files::Refused::refusals))]
pub(crate) fn tell_file<'a, R: Receive<'a>>(
    alloc: Global,
    input: &'a [u8],
    to: &mut R,
) -> Result<FileKind, Fault>
    requires untold { R.untold to.old }
    ensures told { IfOk result (IsToldFile (R.holds to.old) to.new input.entry.now) }
    ensures refused { IfErr result (IsRefusedWith input.entry.now) }
{
    match kind_of(input)? {
        FileKind::Tree => {
            tell_efg(alloc, input, to)?;
            Ok(FileKind::Tree)
        }
        FileKind::Strategic => {
            check_nfg(alloc, input)?;
            Ok(FileKind::Strategic)
        }
    }
}

/// The kind of a game file, which is read whole. The nodes of a tree are not kept, and no text is
/// made.
///
/// # Errors
///
/// Those of `canonical`; E19 if memory is refused for the players, the sets and the outcomes of a
/// tree, or for the players and the counts or labels of a table.
// No edit: it passes on `tell_file`.
pub fn check(alloc: Global, input: &[u8]) -> Result<FileKind, Fault>
    ensures kind { IfOk result (MeansFileOf input.now) }
    ensures refused { IfErr result (IsRefusedWith input.now) }
{
    tell_file(alloc, input, &mut Unkept)
}

//! What a file of either format means.

ghost use Rattle.std.specs.Prelude.{IfErr, IfOk};
ghost use Rattle.gf_canon.specs.CanonicalText.{SpellsWithin};
ghost use Rattle.gf_canon.specs.Judgement.{IsRefusedWith};
ghost use Rattle.gf_canon.specs.MeaningOf.{file_of, file_of_listed};

use crate::kind::{FileKind, kind_of};
use gf_nfg::{ListedTable, Table, list_nfg, read_nfg};
use gf_token::Fault;
use gf_tree::{Game, ListedGame, list_efg, read_efg};
use std::alloc::Global;

/// What a game file means.
#[derive(Drop)]
pub enum Meaning<'a> {
    /// The game of an extensive file.
    Tree(Game<'a>),
    /// The table of a strategic file.
    Table(Table),
}

/// What a game file means, for a comparison with another: a game is kept as the list of its nodes.
#[derive(Drop)]
pub(crate) enum Listed<'a> {
    Tree(ListedGame<'a>),
    Table(ListedTable),
}

/// Reads a game file as `read_file` does.
#[tactic(auto, using(crate::proofs::lemmas::files::Refused::refusals))]
pub(crate) fn list_file<'a>(alloc: Global, input: &'a [u8]) -> Result<Listed<'a>, Fault>
    ensures spelled { IfOk result
        (λ listed. SpellsWithin input.entry.now (file_of_listed listed)) }
    ensures refused { IfErr result (IsRefusedWith input.entry.now) }
{
    match kind_of(input)? {
        FileKind::Tree => Ok(Listed::Tree(list_efg(alloc, input)?)),
        FileKind::Strategic => Ok(Listed::Table(list_nfg(alloc, input)?)),
    }
}

/// Reads a game file of either format. The first token tells which: `EFG` or `NFG` (Gambit
/// documentation, "Game representation formats").
///
/// # Errors
///
/// Those of `canonical`; E19 if memory for the game or the table is refused.
// No edit: it passes on `read_efg`.
#[tactic(auto, using(crate::proofs::lemmas::files::Refused::refusals))]
pub fn read_file<'a>(alloc: Global, input: &'a [u8]) -> Result<Meaning<'a>, Fault>
    ensures spelled { IfOk result (λ meaning. SpellsWithin input.entry.now (file_of meaning)) }
    ensures refused { IfErr result (IsRefusedWith input.entry.now) }
{
    match kind_of(input)? {
        FileKind::Tree => Ok(Meaning::Tree(read_efg(alloc, input)?)),
        FileKind::Strategic => Ok(Meaning::Table(read_nfg(alloc, input)?)),
    }
}

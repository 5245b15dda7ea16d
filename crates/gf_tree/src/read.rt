//! Extensive files as they are read from bytes: into a game, into a list of its nodes, or told to a
//! receiver.

ghost use Rattle.std.specs.Prelude.{◌≡◌, IfErr, IfOk, OnOk};
ghost use Rattle.gf_token.specs.declared.fault.Why.TheVariants.{Memory};
ghost use Rattle.gf_token.specs.ReadAs.{IsReadAs};
ghost use Rattle.gf_tree.specs.Game.{Game as game};
ghost use Rattle.gf_tree.specs.GameOf.{SpellsGame};
ghost use Rattle.gf_tree.specs.Judgement.{IsJudged};
ghost use Rattle.gf_tree.specs.ToldGame.{HasToldGame};

use crate::game::Game;
use crate::game::kept::NodeList;
use crate::game::listed_game::ListedGame;
use crate::reader::Reader;
use crate::reader::receive::Receive;
use gf_token::Fault;
use std::alloc::Global;

/// Reads the game of an extensive file from its bytes, as `read_efg` does, into a list of its
/// nodes.
///
/// # Errors
///
/// Those of `read_efg`.
#[tactic(auto, using(crate::proofs::lemmas::reader::ToldGames::told))]
pub fn list_efg<'a>(alloc: Global, input: &'a [u8]) -> Result<ListedGame<'a>, Fault>
    ensures spelled { IfOk result (λ g. SpellsGame input.entry.now g) }
    ensures only { (g : game) → SpellsGame input.entry.now g → IsReadAs result g }
    ensures judged { IfErr result (λ fault. IsJudged fault.why input.entry.now fault.span) }
{
    let mut nodes = NodeList::new(alloc);
    let reader = Reader::read(alloc, input, &mut nodes)?;
    Ok(reader.into_listed_game(nodes))
}

/// Reads the game of an extensive file from its bytes (Gambit documentation, "Game representation
/// formats").
///
/// # Errors
///
/// A file is refused at the first token that cannot continue any consistent extensive file, or at
/// the end if more is due. Spans are in bytes of the input, from 0. The code is the lowest that
/// applies, as `gf_token::Why` describes them; E1, E16 and E18 never come. E19 is returned if
/// memory is refused, and only where there is nothing else to refuse up to its place.
pub fn read_efg<'a>(alloc: Global, input: &'a [u8]) -> Result<Game<'a>, Fault>
    ensures spelled { IfOk result (λ g. SpellsGame input.entry.now g) }
    ensures only { (g : game) → SpellsGame input.entry.now g → IsReadAs result g }
    ensures judged { IfErr result (λ fault. IsJudged fault.why input.entry.now fault.span) }
{
    match list_efg(alloc, input) {
        Ok(listed) => Ok(listed.into_game()),
        Err(fault) => Err(fault),
    }
}

/// Reads an extensive file from its bytes, and tells its heading and its nodes to a receiver: by
/// first-use numbers, with each set and each outcome described at its first use. No game is built.
/// The caller has to ensure that the receiver has been told nothing.
///
/// # Errors
///
/// Those of `read_efg`, also if the receiver is refused memory. The receiver has then been told
/// what is complete before this place: nothing, the heading, or the heading and some nodes. A node
/// ends at the number of its outcome if this is 0 or known, and otherwise at the description that
/// follows. If the receiver was refused memory, this was for the heading or the node that ends at
/// this place.
#[tactic(auto, using(crate::proofs::lemmas::reader::ToldGames::told))]
pub fn tell_efg<'a, R: Receive<'a>>(alloc: Global, input: &'a [u8], to: &mut R) -> Result<(), Fault>
    requires untold { R.untold to.old }
    ensures told { OnOk result ((g : game) × SpellsGame input.entry.now g
        × HasToldGame (R.holds to.old) to.new g) }
    ensures only { IfErr result (λ fault. (g : game) → SpellsGame input.entry.now g
        → fault.why ≡ Memory) }
    ensures judged { IfErr result (λ fault. IsJudged fault.why input.entry.now fault.span) }
{
    Reader::read(alloc, input, to)?;
    Ok(())
}

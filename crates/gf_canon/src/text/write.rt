//! The text of a game by its own numbers: Gambit's extensive format, laid out by this project's
//! profile.

ghost use Rattle.std.specs.Prelude.{◌≡◌, ◌++◌, OnErr, OnOk};
ghost use Rattle.gf_token.specs.TextLayout.{Keeps};
ghost use Rattle.gf_tree.specs.IsGame.{IsGame};
ghost use Rattle.gf_tree.specs.GameOf.{SpellsGame};
ghost use Rattle.gf_tree.specs.Spellable.{IsSpellable};
ghost use Rattle.gf_tree.specs.Told.{heading_of};
ghost use Rattle.gf_canon.specs.GameText.{game_text};
ghost use Rattle.gf_canon.specs.inner.TextParts.{first_line, heading_text};

use crate::text::braces::write_labels;
use crate::text::node_line::write_node;
use gf_token::write_label;
use gf_tree::{Game, ToldHeading};
use std::alloc::AllocError;

/// Appends the format, the title and the players.
fn write_first_line(heading: ToldHeading<'_, '_>, out: &mut Vec<u8>) -> Result<(), AllocError>
    ensures text { OnOk result
        (out.new.items ≡ out.old.items ++ first_line (heading_of heading.entry)) }
    ensures kept { OnErr result (Keeps out.old.items out.new.items) }
{
    out.extend_from_slice(b"EFG 2 R ")?;
    write_label(heading.title, out)?;
    out.push(b' ')?;
    write_labels(heading.players, out)
}

/// Appends everything before the nodes.
pub(crate) fn write_heading(
    heading: ToldHeading<'_, '_>,
    out: &mut Vec<u8>,
) -> Result<(), AllocError>
    ensures text { OnOk result
        (out.new.items ≡ out.old.items ++ heading_text (heading_of heading.entry)) }
    ensures kept { OnErr result (Keeps out.old.items out.new.items) }
{
    write_first_line(heading, out)?;
    out.push(b'\n')?;
    write_label(heading.comment, out)?;
    out.extend_from_slice(b"\n\n")?;
    Ok(())
}

/// Appends the heading of a game and its lines.
#[tactic(auto, using(crate::proofs::lemmas::texts::Fields::text_done))]
fn write_text(g: &Game<'_>, out: &mut Vec<u8>) -> Result<(), AllocError>
    ensures text { OnOk result (out.new.items ≡ out.old.items ++ game_text g.now) }
    ensures is_game { IsGame g.now }
    ensures spellable { IsSpellable g.now }
    ensures kept { OnErr result (Keeps out.old.items out.new.items) }
{
    write_heading(g.heading(), out)?;
    for node in g.file_nodes() {
        write_node(node.file_node(), out)?;
    }
    Ok(())
}

/// Appends the text of the game by its own numbers: a line for each node in prefix order, with each
/// set and each outcome described at its first use, and each number in lowest terms. The text is an
/// extensive file that means this game (`reads_back`); for a game from `renumber`, it is the
/// canonical text.
///
/// # Errors
///
/// `AllocError` if memory is refused; the vector's items are then as they were.
#[tactic(auto, using(crate::proofs::lemmas::texts::ReadsBack::text_reads_back))]
pub fn write_efg(g: &Game<'_>, out: &mut Vec<u8>) -> Result<(), AllocError>
    ensures ok { OnOk result (out.new.items ≡ out.old.items ++ game_text g.now) }
    ensures reads_back { SpellsGame (game_text g.now) g.now }
    ensures err { OnErr result (out.new.items ≡ out.old.items) }
{
    let start = out.len();
    let written = write_text(g, out);
    if written.is_err() {
        out.truncate(start);
    }
    written
}

//! The canonical text of a table: Gambit's strategic format in payoff version, laid out by this
//! project's profile.

ghost use Rattle.std.specs.Prelude.{◌≡◌, ◌<◌, ◌++◌, OnErr, OnOk, map};
ghost use Rattle.gf_nfg.specs.Spellable.{IsSpellable};
ghost use Rattle.gf_nfg.specs.Table.{IsTable};
ghost use Rattle.gf_nfg.specs.TableText.{SpellsTable, list_text, quoted, table_text};
ghost use Rattle.gf_nfg.specs.inner.TextParts.{ending_text, front_text, heading_text, frame_by};
ghost use Rattle.gf_token.specs.TextLayout.{Keeps};

use crate::table::Table;
use crate::table::frame::Frame;
use crate::text::lines::write_rows;
use crate::text::lists::{ListsWritten, write_lists};
use gf_token::{Names, write_label};
use std::alloc::AllocError;

/// Appends the players' names in braces.
fn write_players(frame: &Frame, out: &mut Vec<u8>) -> Result<(), AllocError>
    ensures text { OnOk result
        (out.new.items ≡ out.old.items ++ list_text (map quoted frame.now.players)) }
    ensures kept { OnErr result (Keeps out.old.items out.new.items) }
{
    out.extend_from_slice(b"{ ")?;
    for at in 0..frame.players() {
        write_label(frame.player(at), out)?;
        out.push(b' ')?;
    }
    out.push(b'}')?;
    Ok(())
}

/// Appends what stands before the strategies: the first line and a brace.
pub(crate) fn write_front(frame: &Frame, names: Names, out: &mut Vec<u8>) -> Result<(), AllocError>
    ensures text { OnOk result
        (out.new.items ≡ out.old.items ++ front_text (frame_by names frame.now)) }
    ensures kept { OnErr result (Keeps out.old.items out.new.items) }
{
    out.extend_from_slice(b"NFG 1 R ")?;
    write_label(names.of(frame.title()), out)?;
    out.push(b' ')?;
    write_players(frame, out)?;
    out.extend_from_slice(b"\n{ ")?;
    Ok(())
}

/// Appends what stands between the strategies and the payoffs: a brace and the comment.
pub(crate) fn write_ending(frame: &Frame, names: Names, out: &mut Vec<u8>) -> Result<(), AllocError>
    ensures text { OnOk result
        (out.new.items ≡ out.old.items ++ ending_text (frame_by names frame.now)) }
    ensures kept { OnErr result (Keeps out.old.items out.new.items) }
{
    out.extend_from_slice(b"}\n")?;
    write_label(names.of(frame.comment()), out)?;
    out.extend_from_slice(b"\n\n")?;
    Ok(())
}

/// Appends everything before the payoffs; title and comment are empty unless `names` are kept.
pub(crate) fn write_heading(
    frame: &Frame,
    names: Names,
    out: &mut Vec<u8>,
) -> Result<(), AllocError>
    ensures text { OnOk result
        (out.new.items ≡ out.old.items ++ heading_text (frame_by names frame.now)) }
    ensures kept { OnErr result (Keeps out.old.items out.new.items) }
{
    write_front(frame, names, out)?;
    write_lists(frame.lists(), ListsWritten::nothing(), usize::MAX, out)?;
    write_ending(frame, names, out)?;
    Ok(())
}

/// Appends the heading of a table and its lines. Room for all labels is made once, before them.
fn write_text(t: &Table, out: &mut Vec<u8>) -> Result<(), AllocError>
    ensures text { OnOk result (out.new.items ≡ out.old.items ++ table_text t.now) }
    ensures is_table { IsTable t.now }
    ensures spellable { IsSpellable t.now }
    ensures kept { OnErr result (Keeps out.old.items out.new.items) }
{
    out.reserve(t.frame().room())?;
    write_heading(t.frame(), Names::Kept, out)?;
    write_rows(t.rows(), out)
}

/// Appends the canonical text of the table: payoff version, each number in lowest terms, one line
/// for each profile. The text is a strategic file that means this table (`reads_back`).
///
/// # Errors
///
/// `AllocError` if memory is refused; the vector's items are then as they were.
#[tactic(auto, using(crate::proofs::lemmas::texts::OneTable::text_reads_back))]
pub fn write_nfg(t: &Table, out: &mut Vec<u8>) -> Result<(), AllocError>
    ensures ok { OnOk result (out.new.items ≡ out.old.items ++ table_text t.now) }
    ensures reads_back { SpellsTable (table_text t.now) t.now }
    ensures err { OnErr result (out.new.items ≡ out.old.items) }
{
    let start = out.len();
    let written = write_text(t, out);
    if written.is_err() {
        out.truncate(start);
    }
    written
}

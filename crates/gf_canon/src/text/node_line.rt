//! The lines of nodes.

ghost use Rattle.std.specs.Prelude.{◌≡◌, ◌+◌, ◌≤◌, ◌++◌, ◌∷◌, [], IfOk, OnErr, OnOk, length, take};
ghost use Rattle.std.specs.Prelude.{decimal, option_map};
ghost use Rattle.gf_nfg.specs.TableText.{quoted, spaced};
ghost use Rattle.gf_token.specs.TextLayout.{Keeps, others_text};
ghost use Rattle.gf_token.specs.Label.{label_of};
ghost use Rattle.gf_tree.specs.FileNodeOf.{file_node_of, outcome_use_of, set_use_of};
ghost use Rattle.gf_canon.specs.GameText.{mover_fields, result_fields, step_fields};
ghost use Rattle.gf_canon.specs.inner.TextParts.{EndsAt, node_line};

use crate::text::braces::{write_outcome, write_set};
use crate::text::numbers::{make_room, write_number};
use gf_token::{Label, write_label};
use gf_tree::{FileNode, OutcomeUse, SetUse};
use std::alloc::AllocError;

/// Appends a letter, a space and a node's name, and makes room for the rest of the line. Returns
/// where they end.
#[inline(always)]
fn write_front(letter: u8, name: Label<'_>, out: &mut Vec<u8>) -> Result<usize, AllocError>
    ensures text { IfOk result (λ at. EndsAt out.new.items at 44
        (out.old.items ++ letter ∷ 32 ∷ quoted (label_of name.entry))) }
    ensures kept { OnErr result (Keeps out.old.items out.new.items) }
{
    if !name.raw().is_empty() {
        out.push(letter)?;
        out.push(b' ')?;
        write_label(name, out)?;
        return make_room(out);
    }
    // The room has the quotes.
    let start = make_room(out)?;
    let text = out.as_mut_slice();
    text[start] = letter;
    text[start + 1] = b' ';
    Ok(start + 4)
}

/// Appends who moves at a node with this name, and the number of the set. Returns where they end.
#[inline(always)]
fn write_mover(
    name: Label<'_>,
    player: u32,
    number: u32,
    out: &mut Vec<u8>,
) -> Result<usize, AllocError>
    ensures text { IfOk result (λ at. EndsAt out.new.items at 22
        (out.old.items ++ spaced (mover_fields (label_of name.entry) player ++ decimal number ∷ []))) }
    ensures kept { OnErr result (Keeps out.old.items out.new.items) }
{
    if player == 0 {
        let at = write_front(b'c', name, out)?;
        return Ok(write_number(at, number, out.as_mut_slice()));
    }
    let at = write_front(b'p', name, out)?;
    let at = write_number(at, player, out.as_mut_slice());
    Ok(write_number(at, number, out.as_mut_slice()))
}

/// Appends who moves at a node with this name, and at which set. Returns where that ends.
#[inline(always)]
#[tactic(auto, using(crate::proofs::lemmas::texts::Fields::kept_from))]
fn write_step(
    name: Label<'_>,
    set: Option<SetUse<'_, '_>>,
    out: &mut Vec<u8>,
) -> Result<usize, AllocError>
    ensures text { IfOk result (λ at. EndsAt out.new.items at 22
        (out.old.items ++ spaced (step_fields (label_of name.entry) (option_map set_use_of set.entry)))) }
    ensures kept { OnErr result (Keeps out.old.items out.new.items) }
{
    let Some(set) = set else {
        return write_front(b't', name, out);
    };
    let at = write_mover(name, set.player, set.number, out)?;
    match set.description {
        Some(description) => write_set(at, description.name, description.actions, out),
        None => Ok(at),
    }
}

/// Appends the number of an outcome from `at` on, and ends the line.
#[inline(always)]
fn write_end(at: usize, outcome: u32, out: &mut Vec<u8>)
    requires { at + 12 ≤ length out.old.items }
    ensures { out.new.items ≡ take at out.old.items ++ 32 ∷ (decimal outcome ++ 10 ∷ []) }
{
    let text = out.as_mut_slice();
    let end = write_number(at, outcome, text);
    text[end] = b'\n';
    out.truncate(end + 1);
}

/// Appends the use of an outcome from `at` on, and ends the line.
#[inline(always)]
#[tactic(auto, using(crate::proofs::lemmas::texts::Fields::result_written))]
fn write_result(
    at: usize,
    outcome: Option<OutcomeUse<'_, '_>>,
    out: &mut Vec<u8>,
) -> Result<(), AllocError>
    requires { at + 12 ≤ length out.old.items }
    ensures text { OnOk result (out.new.items ≡ take at out.old.items
        ++ (others_text (result_fields (option_map outcome_use_of outcome.entry)) ++ 10 ∷ [])) }
    ensures kept { OnErr result (Keeps (take at out.old.items) out.new.items) }
{
    let Some(outcome) = outcome else {
        write_end(at, 0, out);
        return Ok(());
    };
    let Some(description) = outcome.description else {
        write_end(at, outcome.number, out);
        return Ok(());
    };
    let end = write_number(at, outcome.number, out.as_mut_slice());
    write_outcome(end, description.name, description.payoffs, out)?;
    out.push(b'\n')?;
    Ok(())
}

/// Appends the line of a node.
#[inline(always)]
#[tactic(auto, using(crate::proofs::lemmas::texts::Fields::line_done))]
pub(crate) fn write_node(node: FileNode<'_, '_>, out: &mut Vec<u8>) -> Result<(), AllocError>
    ensures text { OnOk result
        (out.new.items ≡ out.old.items ++ node_line (file_node_of node.entry)) }
    ensures kept { OnErr result (Keeps out.old.items out.new.items) }
{
    let at = write_step(node.name, node.set, out)?;
    write_result(at, node.outcome, out)
}

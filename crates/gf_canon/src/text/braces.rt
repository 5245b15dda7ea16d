//! Lists in braces, and the descriptions of sets and outcomes, which end in one.

ghost use Rattle.std.specs.Prelude.{◌≡◌, ◌+◌, ◌≤◌, ◌++◌, ◌∷◌, [], IfOk, OnErr, OnOk, map, length};
ghost use Rattle.std.specs.Prelude.{take};
ghost use Rattle.std.specs.List.{flat_map};
ghost use Rattle.gf_fraction.specs.NumberText.{number_text};
ghost use Rattle.gf_nfg.specs.TableText.{list_text, quoted};
ghost use Rattle.gf_token.specs.TextLayout.{Keeps, others_text};
ghost use Rattle.gf_token.specs.Label.{label_of};
ghost use Rattle.gf_tree.specs.Actions.{action_of, actions_of};
ghost use Rattle.gf_canon.specs.GameText.{action_fields, outcome_fields, set_fields};
ghost use Rattle.gf_canon.specs.inner.TextParts.{EndsAt, spaced_out};

use crate::text::numbers::make_room;
use gf_fraction::Fraction;
use gf_token::{Label, write_label};
use gf_tree::Action;
use std::alloc::AllocError;

/// Appends labels in braces.
pub(crate) fn write_labels(labels: &[Label<'_>], out: &mut Vec<u8>) -> Result<(), AllocError>
    ensures text { OnOk result
        (out.new.items ≡ out.old.items ++ list_text (map quoted (map label_of labels.now))) }
    ensures kept { OnErr result (Keeps out.old.items out.new.items) }
{
    out.extend_from_slice(b"{ ")?;
    for label in labels {
        write_label(*label, out)?;
        out.push(b' ')?;
    }
    out.push(b'}')?;
    Ok(())
}

/// Appends an action: its label, and its probability if it has one.
fn write_action(action: &Action<'_>, out: &mut Vec<u8>) -> Result<(), AllocError>
    ensures text { OnOk result
        (out.new.items ≡ out.old.items ++ spaced_out (action_fields (action_of action.now))) }
    ensures kept { OnErr result (Keeps out.old.items out.new.items) }
{
    write_label(action.label, out)?;
    out.push(b' ')?;
    if let Some(probability) = action.probability {
        probability.write(out)?;
        out.push(b' ')?;
    }
    Ok(())
}

/// Appends actions in braces.
fn write_actions(actions: &[Action<'_>], out: &mut Vec<u8>) -> Result<(), AllocError>
    ensures text { OnOk result (out.new.items
        ≡ out.old.items ++ list_text (flat_map action_fields (actions_of actions.now))) }
    ensures kept { OnErr result (Keeps out.old.items out.new.items) }
{
    out.extend_from_slice(b"{ ")?;
    for action in actions {
        write_action(action, out)?;
    }
    out.push(b'}')?;
    Ok(())
}

/// Appends payoffs in braces.
fn write_payoffs(payoffs: &[Fraction], out: &mut Vec<u8>) -> Result<(), AllocError>
    ensures text { OnOk result
        (out.new.items ≡ out.old.items ++ list_text (map number_text payoffs.now)) }
    ensures kept { OnErr result (Keeps out.old.items out.new.items) }
{
    out.extend_from_slice(b"{ ")?;
    for payoff in payoffs {
        payoff.write(out)?;
        out.push(b' ')?;
    }
    out.push(b'}')?;
    Ok(())
}

/// Appends the name of a set or an outcome between spaces.
fn write_name(name: Label<'_>, out: &mut Vec<u8>) -> Result<(), AllocError>
    ensures text { OnOk result (out.new.items
        ≡ out.old.items ++ 32 ∷ (quoted (label_of name.entry) ++ 32 ∷ [])) }
    ensures kept { OnErr result (Keeps out.old.items out.new.items) }
{
    if name.raw().is_empty() {
        return out.extend_from_slice(b" \"\" ");
    }
    out.push(b' ')?;
    write_label(name, out)?;
    out.push(b' ')?;
    Ok(())
}

/// Appends the description of a set from `at` on: its name and its actions; and makes room for the
/// rest of the line. Returns where the description ends.
#[inline(never)]
pub(crate) fn write_set(
    at: usize,
    name: Label<'_>,
    actions: &[Action<'_>],
    out: &mut Vec<u8>,
) -> Result<usize, AllocError>
    ensures text { IfOk result (λ end. EndsAt out.new.items end 48
        (take at out.old.items ++ others_text (set_fields (record {
          name = label_of name.entry;
          actions = actions_of actions.now;
        })))) }
    ensures kept { OnErr result (Keeps (take at out.old.items) out.new.items) }
{
    out.truncate(at);
    write_name(name, out)?;
    write_actions(actions, out)?;
    make_room(out)
}

/// Appends the description of an outcome from `at` on: its name and its payoffs.
#[inline(never)]
pub(crate) fn write_outcome(
    at: usize,
    name: Label<'_>,
    payoffs: &[Fraction],
    out: &mut Vec<u8>,
) -> Result<(), AllocError>
    ensures text { OnOk result (out.new.items
        ≡ take at out.old.items ++ others_text (outcome_fields (record {
          name = label_of name.entry;
          payoffs = payoffs.now;
        }))) }
    ensures kept { OnErr result (Keeps (take at out.old.items) out.new.items) }
{
    out.truncate(at);
    write_name(name, out)?;
    write_payoffs(payoffs, out)
}

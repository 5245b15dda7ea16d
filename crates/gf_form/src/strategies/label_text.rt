//! The text of the label of a strategy.

ghost use Rattle.std.specs.Prelude.{◌≡◌, ◌++◌, None, Some, OnOk, if◌then◌else◌, length};
ghost use Rattle.std.specs.List.{AllByRecursion};
ghost use Rattle.gf_token.specs.LabelSpelling.{IsLabel};
ghost use Rattle.gf_form.specs.Reduced.{reduced_label};
ghost use Rattle.gf_form.specs.inner.reduced.Shown.{shown};
ghost use Rattle.gf_form.specs.inner.strategies.LabelTexts.{IsPlain, choice_text};

use itoa::Buffer;
use std::alloc::AllocError;

/// Appends the choice at a set to a text, or `*` if the set is not relevant. Quick for a digit.
#[tactic(auto, using(crate::proofs::lemmas::strategies::StrategiesByNumber::choice_steps))]
fn write_choice(is_relevant: bool, action: u32, text: &mut Vec<u8>) -> Result<(), AllocError>
    ensures text { OnOk result (text.new.items ≡ text.old.items
        ++ choice_text (if is_relevant then Some action else None)) }
    ensures plain { OnOk result (AllByRecursion IsPlain text.old.items
        → AllByRecursion IsPlain text.new.items) }
{
    if !is_relevant {
        text.push(b'*')?;
    } else if action < 10 {
        text.push(b'0' + action as u8)?;
    } else {
        let mut buffer = Buffer::new();
        text.extend_from_slice(buffer.format(action).as_bytes())?;
    }
    Ok(())
}

/// Replaces a text by the label of a strategy: the actions at the relevant sets, and `*` at the
/// others, joined by `-`.
pub(crate) fn write_label(
    relevant: &[bool],
    strategy: &[u32],
    text: &mut Vec<u8>,
) -> Result<(), AllocError>
    requires { length relevant.now ≡ length strategy.now }
    ensures text { OnOk result (text.new.items ≡ reduced_label (shown relevant.now strategy.now)) }
    ensures label { OnOk result (IsLabel text.new.items) }
{
    text.clear();
    for place in 0..strategy.len() {
        if place > 0 {
            text.push(b'-')?;
        }
        write_choice(relevant[place], strategy[place], text)?;
    }
    Ok(())
}

//! Descriptions that are repeated: they are compared with the first ones while they are read.

ghost use Rattle.std.specs.Prelude.{◌≤◌, ◌∷◌, [], false, true, ℕ, List, length, OnOk};
ghost use Rattle.gf_fraction.specs.Ratio.{Ratio};
ghost use Rattle.gf_token.specs.Label.{label_of};
ghost use Rattle.gf_tree.specs.Actions.{action_of, actions_of};
ghost use Rattle.gf_tree.specs.Description.{Action as spec_action, SetKey, outcome_with, set_with};
ghost use Rattle.gf_tree.specs.inner.Machine.{Begun, Content, begun};
ghost use Rattle.gf_tree.specs.inner.Machine.Position.{KnownAction, KnownOutcomeName};
ghost use Rattle.gf_tree.specs.inner.Machine.Position.{KnownOutcomeOpening, KnownPayoff};
ghost use Rattle.gf_tree.specs.inner.Machine.Position.{KnownProbability, KnownSetName};
ghost use Rattle.gf_tree.specs.inner.Machine.Position.{KnownSetOpening, NodeDue, OutcomeNumber};
ghost use Rattle.gf_tree.specs.inner.ReaderState.{Goes, heard};

use crate::game::action::Action;
use gf_fraction::Fraction;
use gf_token::{Cursor, Fault, Label, What, Why};

/// Reads a number that has to have this value.
#[inline(always)]
#[tactic(auto, using(gf_fraction::proofs::Offered::number_answers))]
fn number_again(tokens: &mut Cursor<'_>, number: Fraction) -> Result<(), Fault>
    ensures probability { (c : Content) (b : Begun) (others : List spec_action)
        → Goes (heard (KnownProbability b number others) c tokens.old) result
        (heard (KnownAction b others) c tokens.new) }
    ensures payoff { (c : Content) (others : List Ratio)
        → Goes (heard (KnownPayoff false (number ∷ others)) c tokens.old) result
        (heard (KnownPayoff true others) c tokens.new) }
    ensures shorter { OnOk result (length tokens.new.ahead ≤ length tokens.old.ahead) }
{
    let Some((word, read)) = tokens.number() else {
        return Err(tokens.refusal(Why::Expected(What::Number)));
    };
    match read {
        Ok(found) => {
            if found == number {
                Ok(())
            } else {
                Err(Fault::at(word.span, Why::Mismatch))
            }
        }
        Err(cause) => Err(Fault::at(word.span, Why::from(cause))),
    }
}

/// Reads an action of a set that is known.
fn action_again<'a>(tokens: &mut Cursor<'a>, action: &Action<'a>) -> Result<(), Fault>
    ensures machine { (c : Content) (b : Begun) (others : List spec_action)
        → Goes (heard (KnownAction b (action_of action.now ∷ others)) c tokens.old) result
        (heard (KnownAction b others) c tokens.new) }
    ensures shorter { OnOk result (length tokens.new.ahead ≤ length tokens.old.ahead) }
{
    if let Some(_) = tokens.text_of(action.label) {
        match action.probability {
            Some(probability) => number_again(tokens, probability),
            None => Ok(()),
        }
    } else if let Some(other) = tokens.text() {
        Err(Fault::at(other.span, Why::Mismatch))
    } else if let Some(brace) = tokens.closing() {
        Err(Fault::at(brace, Why::Mismatch))
    } else {
        Err(tokens.refusal(Why::Expected(What::Text)))
    }
}

/// Reads the end of the actions of a set that is known.
fn actions_end_again(tokens: &mut Cursor<'_>) -> Result<(), Fault>
    ensures machine { (c : Content) (b : Begun)
        → Goes (heard (KnownAction b []) c tokens.old) result
        (heard (OutcomeNumber b) c tokens.new) }
    ensures shorter { OnOk result (length tokens.new.ahead ≤ length tokens.old.ahead) }
{
    if let Some(found) = tokens.text() {
        Err(Fault::at(found.span, Why::Mismatch))
    } else if let Some(_) = tokens.closing() {
        Ok(())
    } else {
        Err(tokens.refusal(Why::Expected(What::Closing)))
    }
}

/// Reads the actions of a set that is known, after its name.
#[inline(never)]
fn actions_again<'a>(tokens: &mut Cursor<'a>, actions: &[Action<'a>]) -> Result<(), Fault>
    ensures machine { (c : Content) (b : Begun)
        → Goes (heard (KnownSetOpening b (actions_of actions.now)) c tokens.old) result
        (heard (OutcomeNumber b) c tokens.new) }
    ensures shorter { OnOk result (length tokens.new.ahead ≤ length tokens.old.ahead) }
{
    let Some(_) = tokens.opening() else {
        return Err(tokens.refusal(Why::Expected(What::Opening)));
    };
    for action in actions {
        action_again(tokens, action)?;
    }
    actions_end_again(tokens)
}

/// Reads the description of a set that is known, if there is one.
#[inline(always)]
pub(crate) fn set_again<'a>(
    tokens: &mut Cursor<'a>,
    name: Label<'a>,
    actions: &[Action<'a>],
) -> Result<(), Fault>
    ensures machine { (c : Content) (node : List ℕ) (key : SetKey)
        → Goes (heard (KnownSetName node key
        (set_with (label_of name.entry) (actions_of actions.now))) c tokens.old) result
        (heard (OutcomeNumber (begun node key
        (set_with (label_of name.entry) (actions_of actions.now)))) c tokens.new) }
    ensures shorter { OnOk result (length tokens.new.ahead ≤ length tokens.old.ahead) }
{
    if let Some(_) = tokens.text_of(name) {
        actions_again(tokens, actions)
    } else if let Some(other) = tokens.text() {
        Err(Fault::at(other.span, Why::Mismatch))
    } else {
        Ok(())
    }
}

/// Reads a payoff of an outcome that is known, and one comma if there is one.
#[inline(always)]
fn payoff_again(tokens: &mut Cursor<'_>, payoff: Fraction) -> Result<(), Fault>
    ensures machine { (c : Content) (others : List Ratio)
        → Goes (heard (KnownPayoff false (payoff ∷ others)) c tokens.old) result
        (heard (KnownPayoff false others) c tokens.new) }
    ensures shorter { OnOk result (length tokens.new.ahead ≤ length tokens.old.ahead) }
{
    number_again(tokens, payoff)?;
    tokens.comma();
    Ok(())
}

/// Reads the payoffs of an outcome that is known, after its name.
fn payoffs_again(tokens: &mut Cursor<'_>, payoffs: &[Fraction]) -> Result<(), Fault>
    ensures machine { (c : Content)
        → Goes (heard (KnownOutcomeOpening payoffs.now) c tokens.old) result
        (heard NodeDue c tokens.new) }
    ensures shorter { OnOk result (length tokens.new.ahead ≤ length tokens.old.ahead) }
{
    let Some(_) = tokens.opening() else {
        return Err(tokens.refusal(Why::Expected(What::Opening)));
    };
    for payoff in payoffs {
        payoff_again(tokens, *payoff)?;
    }
    let Some(_) = tokens.closing() else {
        return Err(tokens.refusal(Why::Expected(What::Closing)));
    };
    Ok(())
}

/// Reads the description of an outcome that is known, if there is one.
pub(crate) fn outcome_again<'a>(
    tokens: &mut Cursor<'a>,
    name: Label<'a>,
    payoffs: &[Fraction],
) -> Result<(), Fault>
    ensures machine { (c : Content)
        → Goes (heard (KnownOutcomeName (outcome_with (label_of name.entry) payoffs.now)) c
        tokens.old) result (heard NodeDue c tokens.new) }
    ensures shorter { OnOk result (length tokens.new.ahead ≤ length tokens.old.ahead) }
{
    if let Some(_) = tokens.text_of(name) {
        payoffs_again(tokens, payoffs)
    } else if let Some(other) = tokens.text() {
        Err(Fault::at(other.span, Why::Mismatch))
    } else {
        Ok(())
    }
}

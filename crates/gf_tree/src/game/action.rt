//! Actions of information sets.

ghost use Rattle.std.specs.Prelude.{◌≡◌, ◌↔◌, IsTrue};
ghost use Rattle.gf_tree.specs.Actions.{action_of, actions_of};

use gf_fraction::Fraction;
use gf_token::Label;

/// An action of an information set: its label, and its probability if chance moves. They lie together,
/// though most actions have no probability, since the actions of a set are returned as one slice.
#[derive(Clone, Copy, PartialEq, Eq)]
pub struct Action<'a> {
    pub label: Label<'a>,
    pub probability: Option<Fraction>,
}

/// Whether two probabilities are the same, or both are absent.
#[inline(always)]
fn same_probability(a: &Option<Fraction>, b: &Option<Fraction>) -> bool
    ensures { IsTrue result ↔ (a.now ≡ b.now) }
{
    match (a, b) {
        (Some(a), Some(b)) => a == b,
        (None, None) => true,
        _ => false,
    }
}

/// Whether two actions are the same.
fn same_action(a: &Action<'_>, b: &Action<'_>) -> bool
    ensures { IsTrue result ↔ (action_of a.now ≡ action_of b.now) }
{
    a.label == b.label && same_probability(&a.probability, &b.probability)
}

/// Whether two lists of actions are the same: labels by their bytes, probabilities by their values.
#[inline(always)]
pub fn same_actions(a: &[Action<'_>], b: &[Action<'_>]) -> bool
    ensures { IsTrue result ↔ (actions_of a.now ≡ actions_of b.now) }
{
    if a.len() != b.len() {
        return false;
    }
    for at in 0..a.len() {
        if !same_action(&a[at], &b[at]) {
            return false;
        }
    }
    true
}

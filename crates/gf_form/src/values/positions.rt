//! Items by their positions, which count from 1.

ghost use Rattle.std.specs.Prelude.{◌≡◌, option_map};
ghost use Rattle.gf_token.specs.Positions.{at_position};

/// The item at this position.
#[tactic(auto, using(crate::proofs::lemmas::values::Walks::position_steps))]
pub(crate) fn at<T>(items: &[T], position: usize) -> Option<&T>
    ensures { option_map (λ item. item.now) result ≡ at_position items.now position }
{
    items.get(position.checked_sub(1)?)
}

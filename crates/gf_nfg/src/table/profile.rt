//! The place of a profile among all.

ghost use Rattle.std.specs.Prelude.{◌≡◌, ◌<◌, ◌≤◌, MatchOption, length, map};
ghost use Rattle.std.specs.List.{AllByRecursion};
ghost use Rattle.gf_nfg.specs.Limit.{profile_limit};
ghost use Rattle.gf_nfg.specs.ProfilePlaces.{IsProfile};
ghost use Rattle.gf_nfg.specs.Profiles.{product};
ghost use Rattle.gf_nfg.specs.inner.TableParts.{IsPlaced};

use crate::table::frame::Frame;

/// The place of a profile, from 0, or `None` if it is not a profile of these players.
#[tactic(auto, using(crate::proofs::lemmas::tables::Places::places_found))]
pub(crate) fn place_of(frame: &Frame, profile: &[u32]) -> Option<u32>
    requires one_list_each { length frame.now.strategies ≡ length frame.now.players }
    requires some_strategy { AllByRecursion (λ own. 0 < length own) frame.now.strategies }
    requires within { product (map length frame.now.strategies) ≤ profile_limit }
    ensures { MatchOption result (¬ (IsProfile (map length frame.now.strategies) profile.now))
        (IsPlaced (map length frame.now.strategies) profile.now) }
{
    let players = frame.players();
    if profile.len() != players {
        return None;
    }
    let mut place = 0;
    for at in (0..players).rev() {
        let count = frame.strategies(at);
        let strategy = profile[at] as usize;
        if strategy == 0 || strategy > count {
            return None;
        }
        place = place * count + (strategy - 1);
    }
    Some(place as u32)
}

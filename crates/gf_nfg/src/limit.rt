//! How many profiles a table may have.

ghost use Rattle.std.specs.Prelude.{◌≡◌, ◌<◌, ◌≤◌, ◌*◌, MatchOption};
ghost use Rattle.gf_nfg.specs.Limit.{profile_limit};

/// A table has at most this many profiles (this project's profile).
pub const PROFILE_LIMIT: u32 = 1_048_576;

/// A number of profiles: at least one, and no more than a table may have.
#[derive(Clone, Copy)]
pub struct ProfileCount {
    pub count: u32,
    ghost some: { 0 < count },
    ghost within: { count ≤ profile_limit },
}

impl ProfileCount {
    /// The only profile without players.
    // No edit: it puts parts together.
    pub fn one() -> ProfileCount
        ensures { result.count ≡ 1 }
    {
        ProfileCount { count: 1 }
    }

    /// The number of profiles with one more player, who has this many strategies, at least one; `None`
    /// above the limit.
    pub fn times(self, strategies: usize) -> Option<ProfileCount>
        requires { 0 < strategies }
        ensures { MatchOption result (profile_limit < self.count * strategies)
            (λ more. (more.count ≡ self.count * strategies) × (strategies ≤ profile_limit)) }
    {
        let product = u128::from(self.count) * strategies as u128;
        if product > u128::from(PROFILE_LIMIT) {
            return None;
        }
        Some(ProfileCount {
            count: product as u32,
        })
    }
}

//! What a call answers.

ghost use Rattle.std.specs.Prelude.{◌≡◌};
ghost use Rattle.gf_calls.specs.Numbers.{status_number};

/// What a call answers; C gets its number.
#[derive(Clone, Copy)]
pub enum Status {
    /// The answer is given; for two files: they mean the same.
    Done,
    /// Two files do not mean the same.
    Different,
    /// A file is refused.
    Refused,
    /// The call's flags are not understood, or a game has too many players for a table.
    Misuse,
    /// Memory ran out.
    OutOfMemory,
    /// A game has too many profiles for a table.
    TooManyProfiles,
    /// Some player has no bottom-up value at a profile.
    Overflow,
    /// The answer does not fit the caller's buffer.
    TooSmall,
}

impl Status {
    /// The number of the status, which is never changed.
    // No edit: `Why::code` has one, and proofs of gamefile_c rely on this.
    pub fn number(self) -> u32
        ensures { result ≡ status_number self }
    {
        match self {
            Status::Done => 0,
            Status::Different => 1,
            Status::Refused => 2,
            Status::Misuse => 3,
            Status::OutOfMemory => 5,
            Status::TooManyProfiles => 6,
            Status::Overflow => 7,
            Status::TooSmall => 8,
        }
    }
}

//! Why words ask for no job.

ghost use Rattle.std.specs.Prelude.{◌≡◌};
ghost use Rattle.gf_words.specs.declared.fault.WordsFault.TheVariants.{Memory};

use std::alloc::AllocError;

/// Why words ask for no job.
#[derive(Drop)]
pub enum WordsFault {
    /// They ask for help or for the version, and this is its text.
    Help(String),
    /// They are wrong, and this text says how.
    Usage(String),
    /// Memory ran out.
    Memory,
}

impl From<AllocError> for WordsFault {
    ghost from_gives = { λ _ fault. fault ≡ Memory };

    fn from(_: AllocError) -> WordsFault {
        WordsFault::Memory
    }
}

//! Why a game has no table.

ghost use Rattle.std.specs.Prelude.{◌≡◌};
ghost use Rattle.gf_token.specs.declared.form_fault.FormFault.TheVariants.{Memory};

use std::alloc::{AllocError, AllocFailed};

/// Why a game has no table.
#[derive(Clone, Copy, Debug, PartialEq, Eq, Hash)]
pub enum FormFault {
    /// There are more profiles than a table may have.
    TooManyProfiles,
    /// Some player has no bottom-up value at the profile with this number, from 1; at all profiles
    /// before it, each player has one.
    Overflow { profile: u32 },
    /// Memory was refused.
    Memory,
}

impl From<AllocError> for FormFault {
    ghost from_gives = { λ _ fault. fault ≡ Memory };

    fn from(_: AllocError) -> FormFault {
        FormFault::Memory
    }
}

impl<T: Drop> From<AllocFailed<T>> for FormFault {
    ghost from_gives = { λ _ fault. fault ≡ Memory };

    fn from(_: AllocFailed<T>) -> FormFault {
        FormFault::Memory
    }
}

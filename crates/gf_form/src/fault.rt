//! Why a game has no payoffs at some choices.

use std::alloc::{AllocError, AllocFailed};

/// Why there are no payoffs at some choices.
#[derive(Clone, Copy, Debug, PartialEq, Eq, Hash)]
pub enum EvalFault {
    /// The bottom-up value of some player is not defined: a sum or a product on the way does not
    /// fit.
    Overflow,
    /// Memory was refused.
    Memory,
}

impl From<AllocError> for EvalFault {
    ghost use Rattle.std.specs.Prelude.{◌≡◌};
    ghost use Rattle.gf_form.specs.declared.fault.EvalFault.TheVariants.{Memory};

    ghost from_gives = { λ _ fault. fault ≡ Memory };

    fn from(_: AllocError) -> EvalFault {
        EvalFault::Memory
    }
}

impl<T: Drop> From<AllocFailed<T>> for EvalFault {
    ghost use Rattle.std.specs.Prelude.{◌≡◌};
    ghost use Rattle.gf_form.specs.declared.fault.EvalFault.TheVariants.{Memory};

    ghost from_gives = { λ _ fault. fault ≡ Memory };

    fn from(_: AllocFailed<T>) -> EvalFault {
        EvalFault::Memory
    }
}

//! What the flags of a call ask for.

ghost use Rattle.std.specs.Prelude.{◌≡◌};
ghost use Rattle.gf_calls.specs.Numbers.{names_by, strategies_by};

use gf_canon::Names;
use gf_form::Strategies;

/// The names that count. `None` if the call has no such flags.
pub fn names_by(flags: u32) -> Option<Names>
    ensures { result ≡ names_by flags }
{
    match flags {
        0 => Some(Names::Kept),
        1 => Some(Names::Aside),
        _ => None,
    }
}

/// The strategies of a table. `None` if the call has no such flags.
pub fn strategies_by(flags: u32) -> Option<Strategies>
    ensures { result ≡ strategies_by flags }
{
    match flags {
        0 => Some(Strategies::Pure),
        2 => Some(Strategies::Reduced),
        _ => None,
    }
}

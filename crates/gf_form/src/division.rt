//! Divisions that are quick for the numbers that come most often: most sets have two actions.

ghost use Rattle.std.specs.Prelude.{◌≡◌, ◌/◌, ◌%◌, ◌<◌};

/// The quotient. Quick if the divisor is 2.
#[inline(always)]
pub(crate) fn quotient(number: u32, by: u32) -> u32
    requires { 0 < by }
    ensures { result ≡ number / by }
{
    if by == 2 {
        return number / 2;
    }
    number / by
}

/// The quotient and the remainder. Quick if the quotient is 0 or 1.
#[inline(always)]
pub(crate) fn divided(number: u32, by: u32) -> (u32, u32)
    requires { 0 < by }
    ensures quotient { result.0 ≡ number / by }
    ensures remainder { result.1 ≡ number % by }
{
    if number < by {
        return (0, number);
    }
    let rest = number - by;
    if rest < by {
        return (1, rest);
    }
    (number / by, number % by)
}

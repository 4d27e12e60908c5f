// When a stock's ban begins and ends: a limit in units against open interest in ten-thousandths of a unit.
ghost use Rattle.std.specs.Prelude.{◌≡◌};
ghost use Rattle.rules.specs.Ban.{begins, ends};

use crate::bounds::{BEGINS_AT, ENDS_AT};

// Two comparisons, and no one function of the share: the rulebook says above the one, and at or below the other.

// Whether open interest is above 95% of the limit.
pub fn begins(limit: u64, interest: u128) -> bool
    ensures { result ≡ begins limit interest }
{
    u128::from(BEGINS_AT) * u128::from(limit) < interest
}

// Whether open interest is at or below 80% of the limit.
pub fn ends(limit: u64, interest: u128) -> bool
    ensures { result ≡ ends limit interest }
{
    interest <= u128::from(ENDS_AT) * u128::from(limit)
}

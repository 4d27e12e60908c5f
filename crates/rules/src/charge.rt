// What a violation costs.
ghost use Rattle.std.specs.Prelude.{◌≡◌};
ghost use Rattle.rules.specs.Charge.{charge_of};

use crate::bounds::{CHARGE_DIVISOR, CHARGE_LEAST, CHARGE_MOST};

// The charge in paise for a violated quantity, in ten-thousandths of a unit, at a closing price in paise.
pub fn charge(violated: u64, price: u64) -> u64
    ensures { result ≡ charge_of violated price }
{
    if violated == 0 {
        return 0;
    }
    let paise = u128::from(violated) * u128::from(price) / u128::from(CHARGE_DIVISOR);
    // The cast is proved to lose nothing, and `try_from` would ask for an answer where it did.
    paise.clamp(u128::from(CHARGE_LEAST), u128::from(CHARGE_MOST)) as u64
}

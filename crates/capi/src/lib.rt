// What a host calls through the C calling convention: the limit of a stock and the charge of a violation.
#![tactic(auto)]

ghost use Rattle.std.specs.Prelude.{◌≡◌, not, ◌==◌};
ghost use Rattle.capi.specs.Days.{days_of};
ghost use Rattle.capi.specs.Answers.{limit_or_zero, is_taken, charge_or_zero, is_charged};

mod bounds;
mod days;

use crate::bounds::{DAY_BYTES, VIOLATED_MOST};
use crate::days::read;
use rules::bounds::DAYS_MOST;
use rules::charge::charge;
use rules::limit::limit;
use terms::bounds::PRICE_BOUND;

// The market-wide limit that follows from a free float and the daily deliveries, eight bytes a day, high byte first; 0 where
// the input is out of range.
#[unsafe(no_mangle)]
pub extern "C" fn futeq_limit(free_float: u64, deliveries: &[u8]) -> u64
    ensures value { result ≡ limit_or_zero free_float (days_of deliveries.now) }
    ensures zero { result == 0 ≡ not (is_taken free_float (days_of deliveries.now)) }
{
    let (whole, odd) = deliveries.as_chunks::<DAY_BYTES>();
    // More days than there is room for are out of range too.
    if !odd.is_empty() || whole.len() > DAYS_MOST {
        return 0;
    }
    let mut room = [0; DAYS_MOST];
    let daily = &mut room[..whole.len()];
    read(whole, daily);
    limit(free_float, daily).unwrap_or(0)
}

// The charge in paise for a violated quantity, in ten-thousandths of a unit, at a closing price in paise; 0 where either is
// out of range.
#[unsafe(no_mangle)]
pub extern "C" fn futeq_charge(violated: u64, price: u64) -> u64
    ensures value { result ≡ charge_or_zero violated price }
    ensures zero { result == 0 ≡ not (is_charged violated price) }
{
    if !(1..=VIOLATED_MOST).contains(&violated) || !(1..=PRICE_BOUND).contains(&price) {
        return 0;
    }
    charge(violated, price)
}

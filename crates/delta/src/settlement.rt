// Deltas at settlement, by the strikes of the contracts.
ghost use Rattle.std.specs.Prelude.{◌≡◌};
ghost use Rattle.delta.specs.Lawfulness.{settled_lawful};
ghost use Rattle.delta.specs.Makes.{call_at, call_of, settled_at};

use crate::bounds::{DELTA_BOUND, HALF_DELTA};
use crate::quoted::{Quote, Quoted};
use std::cmp::Ordering;
use terms::bounds::PRICE_BOUND;
use terms::kind::Kind;

// A row is the strike of a contract.
pub type Settlement<'r, 'a> = Quoted<'r, 'a, u64>;

// A call's delta, as the price is above, at or below the strike.
fn call_at(price: u64, strike: u64) -> i32
    ensures { result ≡ call_at price strike }
{
    match price.cmp(&strike) {
        Ordering::Greater => DELTA_BOUND,
        Ordering::Equal => HALF_DELTA,
        Ordering::Less => 0,
    }
}

// A call's delta by its strike, none without one.
fn call_of(price: u64, strike: Option<u64>) -> Option<i32>
    ensures { result ≡ call_of price strike }
{
    strike
        .filter(|strike| (1..=PRICE_BOUND).contains(strike))
        .map(|strike| call_at(price, strike))
}

impl Quote for u64 {
    ghost made = { settled_at };

    ghost lawful = { settled_lawful };

    fn delta(price: u64, kind: Kind, row: Option<u64>) -> Option<i32>
        ensures { result ≡ settled_at price kind row }
    {
        match kind {
            Kind::Future => Some(DELTA_BOUND),
            Kind::Call => call_of(price, row),
            Kind::Put => call_of(price, row).map(|call| call - DELTA_BOUND),
        }
    }
}

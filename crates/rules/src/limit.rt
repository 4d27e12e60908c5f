// The market-wide limit of a stock.
ghost use Rattle.std.specs.Prelude.{◌≡◌, ◌^◌, ◌<◌, true, sum, MatchResult};
ghost use Rattle.terms.specs.declared.refusal.Refusal.TheVariants.{Input};
ghost use Rattle.rules.specs.Limit.{are_in_range, is_accepted, limit_of, limit_asked, LimitFacts};

use crate::bounds::{
    AVERAGE_TIMES, CEILING_SHARE, DAYS_LEAST, DAYS_MOST, DELIVERY_MOST, FLOAT_LEAST, FLOAT_MOST,
    FLOOR_SHARE, WHOLE_SHARE,
};
use crate::fraction::Fraction;
use terms::refusal::Refusal;

// Whether no day's delivery is above the largest.
fn are_in_range(deliveries: &[u64]) -> bool
    ensures { result ≡ are_in_range deliveries.now }
{
    deliveries.iter().all(|delivery| *delivery <= DELIVERY_MOST)
}

// Whether the free float, the number of days and every delivery are in range.
fn is_accepted(free_float: u64, deliveries: &[u64]) -> bool
    ensures { result ≡ is_accepted free_float deliveries.now }
{
    (FLOAT_LEAST..=FLOAT_MOST).contains(&free_float)
        && (DAYS_LEAST..=DAYS_MOST).contains(&deliveries.len())
        && are_in_range(deliveries)
}

// All deliveries together.
fn total(deliveries: &[u64]) -> u64
    requires { sum deliveries.now < 2 ^ 64 }
    ensures { result ≡ sum deliveries.now }
{
    deliveries.iter().sum()
}

// The limit for accepted input: nothing is rounded before the last step.
fn limit_of(free_float: u64, deliveries: &[u64]) -> u64
    requires { is_accepted free_float deliveries.now ≡ true }
    ensures { result ≡ limit_of free_float deliveries.now }
{
    let floor = Fraction {
        top: FLOOR_SHARE * free_float,
        bottom: WHOLE_SHARE,
    };
    let ceiling = Fraction {
        top: CEILING_SHARE * free_float,
        bottom: WHOLE_SHARE,
    };
    let averages = Fraction {
        top: AVERAGE_TIMES * total(deliveries),
        // No `From` makes a u64 of a length.
        bottom: deliveries.len() as u64,
    };
    floor.larger(ceiling.smaller(averages)).rounded_down()
}

// The limit, in units, that follows from a free float and the daily deliveries, or that one of them is out of range.
pub fn limit(free_float: u64, deliveries: &[u64]) -> Result<u64, Refusal>
    ensures value { result ≡ limit_asked free_float deliveries.now }
    ensures facts { MatchResult result (LimitFacts free_float) (λ cause. cause ≡ Input) }
{
    if !is_accepted(free_float, deliveries) {
        return Err(Refusal::Input);
    }
    Ok(limit_of(free_float, deliveries))
}

// What the marks of an entity are worth, by its reading: net, long and short, in ten-thousandths of a unit.
ghost use Rattle.std.specs.Prelude.{◌≡◌};
ghost use Rattle.index.specs.Values.{size_for, value_for, is_too_large};

use crate::bounds::VALUE_MOST;
use terms::mark::Mark;

// How much of a reading a mark looks at.
fn size_for(reading: (i64, i64, i64), mark: Mark) -> u64
    ensures { result ≡ size_for reading mark }
{
    let (net, long, short) = reading;
    let side = match mark {
        Mark::NetLong => net.max(0),
        Mark::NetShort => net.min(0),
        Mark::GrossLong => long.max(0),
        Mark::GrossShort => short.max(0),
    };
    side.unsigned_abs()
}

// A mark's value at a price, in ten-thousandths of a paisa.
pub fn value_for(reading: (i64, i64, i64), price: u64, mark: Mark) -> u128
    ensures { result ≡ value_for reading price mark }
{
    u128::from(size_for(reading, mark)) * u128::from(price)
}

// Whether long or short is worth more than a monitor reckons with.
pub fn is_too_large(reading: (i64, i64, i64), price: u64) -> bool
    ensures { result ≡ is_too_large reading price }
{
    VALUE_MOST < value_for(reading, price, Mark::GrossLong)
        || VALUE_MOST < value_for(reading, price, Mark::GrossShort)
}

// What an entity holds, in ten-thousandths of a unit of futures.
ghost use Rattle.std.specs.Prelude.{◌≡◌, ◌≤◌, unsigned_abs};
ghost use Rattle.book.specs.Holding.{or_zero, quantity_of};
ghost use Rattle.delta.specs.Sources.{delta_bound};
ghost use Rattle.terms.specs.Bounds.{quantity_bound};
ghost use Rattle.reading.specs.Readings.{part, net, reading_of};
ghost use Rattle.reading.specs.Views.{weights_of};

use crate::sheet::Sheet;
use book::position::Holds;
use terms::bounds::MOST_CONTRACTS;

// A quantity at a weight.
fn times(quantity: i64, weight: i32) -> i64
    requires quantity { unsigned_abs quantity ≤ quantity_bound }
    requires weight { unsigned_abs weight ≤ delta_bound }
    ensures { result ≡ part quantity weight }
{
    quantity * i64::from(weight)
}

impl Sheet {
    // A contract's part for an entity, none where a unit weighs nothing: then the quantity is not looked up.
    fn part<H: Holds>(&self, holder: &H, entity: usize, c: usize) -> Option<i64>
        ensures { or_zero result ≡ part (quantity_of (H.held holder.now) entity c) (weights_of self.now c) }
    {
        match self.delta(c) {
            None | Some(0) => None,
            Some(weight) => Some(times(holder.quantity(entity, c), weight)),
        }
    }

    // Net, long and short of an entity.
    pub fn reading<H: Holds>(&self, holder: &H, entity: usize) -> (i64, i64, i64)
        ensures { result ≡ reading_of (weights_of self.now) (quantity_of (H.held holder.now)) entity }
    {
        // Two sums, with one test of a part's sign: short is what long is above net.
        let mut net = 0;
        let mut long = 0;
        for c in 0..MOST_CONTRACTS {
            if let Some(part) = self.part(holder, entity, c) {
                net += part;
                long += part.max(0);
            }
        }
        (net, long, long - net)
    }

    // Net alone.
    pub fn net<H: Holds>(&self, holder: &H, entity: usize) -> i64
        ensures { result ≡ net (weights_of self.now) (quantity_of (H.held holder.now)) entity }
    {
        self.reading(holder, entity).0
    }
}

// What all entities hold together, in ten-thousandths of a unit of futures.
ghost use Rattle.std.specs.Prelude.{◌≡◌, ◌+◌, unsigned_abs};
ghost use Rattle.book.specs.Holding.{quantity_of};
ghost use Rattle.reading.specs.Readings.{net, long, short, interest, gross};
ghost use Rattle.reading.specs.Views.{weights_of};

use crate::sheet::Sheet;
use book::position::Holds;

impl Sheet {
    // The size of an entity's net.
    fn net_size<H: Holds>(&self, holder: &H, entity: usize) -> u64
        ensures { result ≡ unsigned_abs (net (weights_of self.now) (quantity_of (H.held holder.now)) entity) }
    {
        self.net(holder, entity).unsigned_abs()
    }

    // An entity's long plus short.
    fn both_sides<H: Holds>(&self, holder: &H, entity: usize) -> u64
        ensures { result ≡ long (weights_of self.now) (quantity_of (H.held holder.now)) entity + short (weights_of self.now) (quantity_of (H.held holder.now)) entity }
    {
        let (_, long, short) = self.reading(holder, entity);
        long.unsigned_abs() + short.unsigned_abs()
    }

    // The sum of the sizes of net over the first entities.
    pub fn interest<H: Holds>(&self, holder: &H, entities: usize) -> u128
        ensures { result ≡ interest entities (weights_of self.now) (quantity_of (H.held holder.now)) }
    {
        (0..entities)
            .map(|e| u128::from(self.net_size(holder, e)))
            .sum()
    }

    // The sum of long plus short over the first entities.
    pub fn gross<H: Holds>(&self, holder: &H, entities: usize) -> u128
        ensures { result ≡ gross entities (weights_of self.now) (quantity_of (H.held holder.now)) }
    {
        (0..entities)
            .map(|e| u128::from(self.both_sides(holder, e)))
            .sum()
    }
}

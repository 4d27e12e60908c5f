// What a position book is, whatever its make.
ghost use Rattle.std.specs.Prelude.{◌≡◌};
ghost use Rattle.book.specs.Holding.{Holding, Sound, shape_of, quantity_of, reply, posted, sum_of};

use terms::bounds::QUANTITY_BOUND;
use terms::refusal::Refusal;

// The numbers of entities, of contracts and of pairs that may be non-zero.
#[derive(Clone, Copy, PartialEq, Eq, Debug)]
pub struct Shape {
    pub entities: usize,
    pub contracts: usize,
    pub capacity: usize,
}

// What has a quantity for each pair: `held` is what it means.
// A pair stays two numbers: the sums make it anew at each step of two loops, and commands carry it among other fields.
pub trait Holds {
    ghost held: { Self → Holding };

    ghost sound: { (b : Self) → Sound (held b) };

    // The quantity of a pair, zero for any that is outside.
    fn quantity(&self, entity: usize, contract: usize) -> i64
        ensures { result ≡ quantity_of (held self.now) entity contract };
}

// What can also be posted to.
pub trait Book: Holds {
    // The three numbers that never change.
    fn shape(&self) -> Shape
        ensures { result ≡ shape_of (Self.Holds.held self.now) };

    // Adds a change to one pair and answers its new quantity; a declined post changes nothing.
    fn post(&mut self, entity: usize, contract: usize, change: i64) -> Result<i64, Refusal>
        ensures answer { result ≡ reply (Self.Holds.held self.old) entity contract change }
        ensures state { Self.Holds.held self.new ≡ posted (Self.Holds.held self.old) entity contract change };
}

// The quantity after a change, unless it is too large.
pub(crate) fn summed(quantity: i64, change: i64) -> Result<i64, Refusal>
    ensures { result ≡ sum_of quantity change }
{
    quantity
        .checked_add(change)
        .filter(|sum| (-QUANTITY_BOUND..=QUANTITY_BOUND).contains(sum))
        .ok_or(Refusal::Size)
}

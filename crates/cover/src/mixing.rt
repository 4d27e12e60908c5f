// Covers that stand for others: one that is lent, and one of two makes.
ghost use Rattle.std.specs.Prelude.{◌≡◌};
ghost use Rattle.either.specs.Either.{either};
ghost use Rattle.cover.specs.Boundedness.{either_bounded};

use crate::source::Cover;
use either::{Either, for_both};
use terms::mark::Side;

// A cover of one of two makes, so that a list may hold both.
pub type Mixed<A, B> = Either<A, B>;

impl<A: Cover, B: Cover> Cover for Either<A, B> {
    ghost amount = { either A.amount B.amount };

    ghost bounded = { either_bounded A.amount B.amount A.bounded B.bounded };

    fn cover(&self, entity: usize, underlying: usize, side: Side) -> u64 {
        for_both!(self, cover => cover.cover(entity, underlying, side))
    }
}

// A cover that stays with its owner.
impl<'c, C: Cover> Cover for &'c C {
    ghost amount = { λ c. C.amount c.now };

    ghost bounded = { λ c. C.bounded c.now };

    fn cover(&self, entity: usize, underlying: usize, side: Side) -> u64 {
        (*self).cover(entity, underlying, side)
    }
}

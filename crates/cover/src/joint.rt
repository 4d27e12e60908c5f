// Two covers of any make cover together.
ghost use Rattle.std.specs.Prelude.{◌≡◌};
ghost use Rattle.cover.specs.Covers.{joint};
ghost use Rattle.cover.specs.Boundedness.{joint_bounded};

use crate::source::Cover;
use terms::bounds::AMOUNT_BOUND;
use terms::mark::Side;

#[derive(Clone, Copy, PartialEq, Eq, Debug, Drop)]
pub struct Joint<A, B> {
    pub first: A,
    pub second: B,
}

impl<A: Cover, B: Cover> Cover for Joint<A, B> {
    ghost amount = { λ c. joint (A.amount c.first) (B.amount c.second) };

    ghost bounded = { λ c. joint_bounded (A.amount c.first) (B.amount c.second) };

    fn cover(&self, entity: usize, underlying: usize, side: Side) -> u64 {
        let first = self.first.cover(entity, underlying, side);
        let second = self.second.cover(entity, underlying, side);
        (first + second).min(AMOUNT_BOUND)
    }
}

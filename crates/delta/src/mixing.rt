// A source of one of two makes answers what the one that it holds does.
ghost use Rattle.std.specs.Prelude.{◌≡◌};
ghost use Rattle.either.specs.Either.{either};
ghost use Rattle.delta.specs.Mixing.{either_lawful};

use crate::source::{Delta, PricedDelta};
use either::{Either, for_both};
use terms::kind::Kind;

// A source of one of two makes, so that a list may hold both.
pub type Mixed<F, S> = Either<F, S>;

impl<F: Delta, S: Delta> Delta for Either<F, S> {
    ghost answer = { either F.Delta.answer S.Delta.answer };

    ghost lawful = { either_lawful F.Delta.answer S.Delta.answer F.Delta.lawful S.Delta.lawful };

    fn delta(&self, contract: usize, kind: Kind) -> Option<i32> {
        for_both!(self, source => source.delta(contract, kind))
    }
}

impl<F: PricedDelta, S: PricedDelta> PricedDelta for Either<F, S> {
    ghost at = { either F.PricedDelta.at S.PricedDelta.at };

    ghost worth = { either F.PricedDelta.worth S.PricedDelta.worth };

    fn minute(&self) -> u64 {
        for_both!(self, source => source.minute())
    }

    fn price(&self) -> u64 {
        for_both!(self, source => source.price())
    }
}

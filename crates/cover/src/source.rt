// What a cover is, whatever its make.
ghost use Rattle.std.specs.Prelude.{◌≡◌};
ghost use Rattle.cover.specs.Covers.{Amounts, Bounded};

use terms::mark::Side;

// An amount of money for each entity, underlying and side: `amount` is what it means, and is never above the bound.
pub trait Cover {
    ghost amount: { Self → Amounts };

    ghost bounded: { (c : Self) → Bounded (amount c) };

    // The amount, in paise.
    fn cover(&self, entity: usize, underlying: usize, side: Side) -> u64
        ensures { result ≡ amount self.now entity underlying side };
}

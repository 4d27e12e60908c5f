// The deltas that a reading lacks.
ghost use Rattle.std.specs.Prelude.{◌≡◌, ℕ, Bool, ◌||◌};
ghost use Rattle.book.specs.Holding.{quantity_of};
ghost use Rattle.reading.specs.Missing.{holds, missing, FirstMissing};
ghost use Rattle.reading.specs.Views.{lacking_of};

use crate::sheet::Sheet;
use book::position::Holds;
use terms::bounds::MOST_CONTRACTS;

// Who needs the delta of which contract. A trait, and no closure: a public function can't require of one that it may be called.
pub trait Needs {
    ghost needed: { Self → ℕ → ℕ → Bool };

    // Whether an entity needs the delta of a contract.
    fn needs(&self, entity: usize, contract: usize) -> bool
        ensures { result ≡ needed self.now entity contract };
}

// Whoever holds some of a contract needs its delta.
impl<'a, H: Holds> Needs for &'a H {
    ghost needed = { λ s. holds (quantity_of (H.Holds.held s.now)) };

    fn needs(&self, entity: usize, contract: usize) -> bool {
        self.quantity(entity, contract) != 0
    }
}

// Of two, whoever needs a delta by either needs it.
impl<A: Needs, B: Needs> Needs for (A, B) {
    ghost needed = { λ s e c. A.Needs.needed s.0 e c || B.Needs.needed s.1 e c };

    fn needs(&self, entity: usize, contract: usize) -> bool {
        self.0.needs(entity, contract) || self.1.needs(entity, contract)
    }
}

impl Sheet {
    // The first contract that lacks a delta that one of the first entities needs, and the first of those.
    pub fn first_missing<N: Needs>(&self, who: &N, entities: usize) -> Option<(usize, usize)>
        ensures answer { result ≡ missing entities (lacking_of self.now) (N.needed who.now) }
        ensures first { FirstMissing entities (lacking_of self.now) (N.needed who.now) result }
    {
        // The form that the project names for it: nested loops, left by a label.
        'found: {
            for c in 0..MOST_CONTRACTS {
                if self.lacks(c) {
                    for e in 0..entities {
                        if who.needs(e, c) {
                            break 'found Some((c, e));
                        }
                    }
                }
            }
            None
        }
    }
}

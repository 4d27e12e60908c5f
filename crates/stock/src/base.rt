// The base quantities, which a ban compares the book's with.
ghost use Rattle.std.specs.Prelude.{◌≡◌, ℕ, ◌<◌, ◌≤◌, pos, slice_index_or, unsigned_abs};
ghost use Rattle.terms.specs.Bounds.{quantity_bound, most_entities, most_contracts, most_pairs};
ghost use Rattle.book.specs.Holding.{gridded, quantity_of, put, blank};
ghost use Rattle.book.specs.Soundness.{grid_sound};
ghost use Rattle.stock.specs.Close.{base_of};

use book::position::Holds;
use terms::bounds::{MOST_CONTRACTS, MOST_ENTITIES, MOST_PAIRS};

// The quantity of each pair, 32 to an entity. A table of its own, and no `Grid`: that is lent its cells, and the project names this array.
#[derive(Drop)]
pub struct Base {
    cells: [i64; MOST_PAIRS],
    ghost small: { (k : ℕ) → unsigned_abs (slice_index_or cells k (pos 0)) ≤ quantity_bound },
}

// An entity that a base has a row for.
#[derive(Clone, Copy)]
pub(crate) struct Watched {
    pub(crate) number: usize,
    ghost below: { number < most_entities },
}

impl Base {
    // A base with every pair at zero.
    pub fn new() -> Base
        ensures { gridded most_entities most_contracts result.cells ≡ blank most_entities most_contracts most_pairs }
    {
        Base {
            cells: [0i64; MOST_PAIRS],
        }
    }

    // A pair's base becomes what another holds.
    pub(crate) fn copy_pair<H: Holds>(&mut self, from: &H, entity: Watched, contract: usize)
        requires { contract < most_contracts }
        ensures { base_of self.new.cells ≡ put (base_of self.old.cells) entity.number contract (quantity_of (H.held from.now) entity.number contract) }
    {
        let quantity = from.quantity(entity.number, contract);
        self.cells[entity.number * MOST_CONTRACTS + contract] = quantity;
    }
}

impl Holds for Base {
    ghost held = { λ s. gridded most_entities most_contracts s.cells };

    ghost sound = { λ s. grid_sound most_entities most_contracts s.cells (λ k _. s.small k) };

    fn quantity(&self, entity: usize, contract: usize) -> i64 {
        if entity >= MOST_ENTITIES || contract >= MOST_CONTRACTS {
            return 0;
        }
        self.cells[entity * MOST_CONTRACTS + contract]
    }
}

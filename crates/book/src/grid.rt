// A book with a place for every pair.
ghost use Rattle.std.specs.Prelude.{◌≡◌, ℕ, ◌+◌, ◌*◌, ◌<◌, ◌≤◌, length, pos, IfSome, if◌then◌else◌, nat_le, slice_index_or, unsigned_abs};
ghost use Rattle.terms.specs.Bounds.{quantity_bound};
ghost use Rattle.book.specs.Holding.{gridded, place_of, new_grid};
ghost use Rattle.book.specs.Soundness.{grid_sound};

use crate::position::{Book, Holds, Shape, summed};
use terms::refusal::Refusal;

// The quantities stand entity by entity in the first cells.
#[derive(Drop)]
pub struct Grid<'a> {
    cells: &'a mut [i64],
    entities: usize,
    contracts: usize,
    ghost fits: { entities * contracts ≤ length cells.now },
    ghost bounded: { (k : ℕ) → k < entities * contracts → unsigned_abs (slice_index_or cells.now k (pos 0)) ≤ quantity_bound },
}

// The number of entities, or 0 where n cells are too few.
fn fitting(n: usize, entities: usize, contracts: usize) -> usize
    ensures { result ≡ (if nat_le (entities * contracts) n then entities else 0) }
{
    let fits = entities
        .checked_mul(contracts)
        .is_some_and(|product| product <= n);
    if fits { entities } else { 0 }
}

impl<'a> Grid<'a> {
    // A grid with every pair at zero, and with no entities where there are too few cells.
    pub fn new(cells: &'a mut [i64], entities: usize, contracts: usize) -> Grid<'a>
        ensures { gridded result.entities result.contracts result.cells.now ≡ new_grid (length cells.old) entities contracts }
    {
        cells.fill(0);
        let entities = fitting(cells.len(), entities, contracts);
        Grid {
            cells,
            entities,
            contracts,
        }
    }

    // The cell of a pair.
    #[tactic(auto, using(crate::specs::Soundness::place_lt))]
    fn place(&self, entity: usize, contract: usize) -> Option<usize>
        ensures place { result ≡ place_of self.now.entities self.now.contracts entity contract }
        ensures within { IfSome result (λ at. at < length self.now.cells.now) }
    {
        if entity < self.entities && contract < self.contracts {
            Some(entity * self.contracts + contract)
        } else {
            None
        }
    }
}

impl<'a> Holds for Grid<'a> {
    ghost held = { λ s. gridded s.entities s.contracts s.cells.now };

    ghost sound = { λ s. grid_sound s.entities s.contracts s.cells.now s.bounded };

    fn quantity(&self, entity: usize, contract: usize) -> i64 {
        self.place(entity, contract).map_or(0, |at| self.cells[at])
    }
}

impl<'a> Book for Grid<'a> {
    #[tactic(auto, unfolding(crate::specs::Holding::gridded))]
    fn shape(&self) -> Shape {
        Shape {
            entities: self.entities,
            contracts: self.contracts,
            capacity: self.entities * self.contracts,
        }
    }

    fn post(&mut self, entity: usize, contract: usize, change: i64) -> Result<i64, Refusal> {
        let at = self.place(entity, contract).ok_or(Refusal::Pair)?;
        let sum = summed(self.cells[at], change)?;
        self.cells[at] = sum;
        Ok(sum)
    }
}

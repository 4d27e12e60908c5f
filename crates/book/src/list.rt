// A book that stores the non-zero pairs only, in ascending order.
ghost use Rattle.std.specs.Prelude.{◌≡◌, length, if◌then◌else◌, nat_eq};
ghost use Rattle.book.specs.Holding.{place_of};
ghost use Rattle.book.specs.Holding.{or_zero};
ghost use Rattle.book.specs.Listed.{listed, new_list, Stored};
ghost use Rattle.book.specs.Soundness.{list_sound};
ghost use Rattle.book.specs.Tables.{value_of};

use crate::position::{Book, Holds, Shape, summed};
use crate::register::Register;
use crate::row::Row;
use terms::bounds::MOST_PAIRS;
use terms::refusal::Refusal;

// The key of a pair is the number of the place that it would have in a grid.
#[derive(Drop)]
pub struct List<'a> {
    register: Register<'a, i64>,
    entities: u32,
    contracts: u32,
    ghost stored: { Stored entities contracts register },
}

// The number of entities, or 0 where there is no place.
fn housed(n: usize, entities: u32) -> u32
    ensures { result ≡ (if nat_eq n 0 then 0 else entities) }
{
    if n == 0 { 0 } else { entities }
}

impl<'a> List<'a> {
    // A list with every pair at zero, over no more places than there can be pairs, and with no entities where there is no place.
    pub fn new(places: &'a mut [Row<i64>], entities: u32, contracts: u32) -> List<'a>
        ensures { listed result.entities result.contracts result.register ≡ new_list (length places.old) entities contracts }
    {
        let entities = housed(places.len(), entities);
        let used = places.len().min(MOST_PAIRS);
        let register = Register::new(&mut places[..used]);
        List {
            register,
            entities,
            contracts,
        }
    }

    // The key of a pair. No one function with the grid's place: sides of 32 bits keep the product in 64, and there it is the cells that
    // bound it.
    fn key(&self, entity: usize, contract: usize) -> Option<u64>
        ensures { result ≡ place_of self.now.entities self.now.contracts entity contract }
    {
        // No `From` goes between usize and the other two; the casts are proved to lose nothing.
        if entity < self.entities as usize && contract < self.contracts as usize {
            Some(entity as u64 * u64::from(self.contracts) + contract as u64)
        } else {
            None
        }
    }

    // The quantity under a key.
    fn quantity_at(&self, key: u64) -> i64
        ensures { result ≡ or_zero (value_of self.now.register key) }
    {
        self.register.find(key).unwrap_or(0)
    }
}

impl<'a> Holds for List<'a> {
    ghost held = { λ s. listed s.entities s.contracts s.register };

    ghost sound = { λ s. list_sound s.entities s.contracts s.register s.stored };

    // By `let .. else`: what a closure over a list answers is not told to the proof.
    fn quantity(&self, entity: usize, contract: usize) -> i64 {
        let Some(key) = self.key(entity, contract) else {
            return 0;
        };
        self.quantity_at(key)
    }
}

impl<'a> Book for List<'a> {
    #[tactic(auto, unfolding(crate::specs::Listed::listed))]
    fn shape(&self) -> Shape {
        Shape {
            // As in `key`.
            entities: self.entities as usize,
            contracts: self.contracts as usize,
            capacity: self.register.capacity(),
        }
    }

    fn post(&mut self, entity: usize, contract: usize, change: i64) -> Result<i64, Refusal> {
        let key = self.key(entity, contract).ok_or(Refusal::Pair)?;
        let sum = summed(self.quantity_at(key), change)?;
        if sum == 0 {
            let _ = self.register.remove(key);
            return Ok(0);
        }
        self.register.put(key, sum)?;
        Ok(sum)
    }
}

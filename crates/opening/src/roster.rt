// A list of at most N values, in an array. No `ArrayVec`: that fills its unused
// places with `Default`, and a default contract would be one that nobody declared.
ghost use Rattle.std.specs.Prelude.{◌≡◌, ◌≤◌, [], ◌∷◌, ◌++◌, List, length, take, is_ok, if◌then◌else◌};
ghost use Rattle.opening.specs.Rosters.{room_for};

use replies::fault::Fault;
use std::marker::Model;

#[derive(Drop)]
pub(crate) struct Roster<T, const N: usize> {
    items: [T; N],
    count: usize,
}

// The values, in the order in which they were added.
impl<T, const N: usize> Model for Roster<T, N> {
    ghost Value = { List T };

    ghost view = { λ r. take r.count r.items };

    ghost invariant = { λ r. (r.count ≤ N) × (length r.items ≡ N) };
}

impl<T: Copy, const N: usize> Roster<T, N> {
    // An empty list; the filler is never seen.
    pub(crate) fn new(filler: T) -> Roster<T, N>
        ensures { result ≡ [] }
    {
        Roster {
            items: [filler; N],
            count: 0,
        }
    }

    // Adds a value at the end, where there is room.
    pub(crate) fn push(&mut self, value: T) -> Result<(), Fault>
        ensures answer { result ≡ room_for N self.old }
        ensures after { self.new ≡ (if is_ok result then self.old ++ value ∷ [] else self.old) }
    {
        if self.count == N {
            return Err(Fault::TooMany);
        }
        self.items[self.count] = value;
        self.count += 1;
        Ok(())
    }

    pub(crate) fn as_slice(&self) -> &[T]
        ensures value { result.now ≡ self.now }
        ensures most { length result.now ≤ N }
    {
        &self.items[..self.count]
    }
}

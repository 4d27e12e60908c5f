// What an entity did wrong at a stock's close.

// By how much an entity violates, in ten-thousandths of a unit, and what it is charged, in paise.
#[derive(Clone, Copy, PartialEq, Eq, Debug)]
pub struct Violation {
    pub quantity: u64,
    pub charge: u64,
}

// The numbers that the rules rest on, each under one name. specs/Bounds.antt has the same names.

// The largest size of a quantity, in units.
pub const QUANTITY_BOUND: i64 = 1_000_000_000;

// The most entities, contracts and underlyings that a monitor watches.
pub const MOST_ENTITIES: usize = 128;

pub const MOST_CONTRACTS: usize = 32;

pub const MOST_UNDERLYINGS: usize = 4;

// The most places of a list that are used, and the number of base quantities: a place for every pair.
pub const MOST_PAIRS: usize = 4_096;

// The tickets are numbered from 0 to below this.
pub const TICKETS: usize = 16;

// The largest amount of money, in paise: an opening limit is 1 to this.
pub const AMOUNT_BOUND: u64 = 100_000_000_000_000;

// The largest price, in paise: a price is 1 to this.
pub const PRICE_BOUND: u64 = 100_000_000;

// The minute of the two o'clock deltas, and that of a close, from midnight.
pub const TWO_MINUTE: u64 = 840;

pub const CLOSE_MINUTE: u64 = 930;

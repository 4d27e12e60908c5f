// The numbers that an index's day rests on, each under one name. specs/Bounds.antt has the same names.

// A snapshot at FIRST_MINUTE to below FINAL_MINUTE, from midnight, is regular, and at FINAL_MINUTE to LAST_MINUTE final.
pub const FIRST_MINUTE: u64 = 555;

pub const FINAL_MINUTE: u64 = 885;

pub const LAST_MINUTE: u64 = 930;

// A cure comes so many minutes after its snapshot.
pub const CURE_MINUTES: u64 = 15;

// The fewest snapshots of a day that may be settled.
pub const SNAPSHOTS_LEAST: u64 = 4;

// A value is in ten-thousandths of a paisa.
pub const PER_PAISA: u128 = 10_000;

// The largest value of an entity's long or short.
pub const VALUE_MOST: u128 = 9_000_000_000_000_000_000;

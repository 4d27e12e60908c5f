// Deltas are in ten-thousandths of a unit. specs/Sources.antt has the same names.

// A whole unit: the largest size of a delta.
pub const DELTA_BOUND: i32 = 10_000;

// Half a unit.
pub const HALF_DELTA: i32 = 5_000;

// How much an opening may declare, each number under one name. specs/Bounds.antt has the same names.

// The most underlyings that are declared.
pub const DECLARED_UNDERLYINGS: usize = 16;

// The most contracts that are declared.
pub const DECLARED_CONTRACTS: usize = 64;

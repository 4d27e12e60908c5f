// The numbers that the rules of a stock rest on, each under one name. specs/Bounds.antt has the same names.

// A free float, in units, is FLOAT_LEAST to FLOAT_MOST.
pub const FLOAT_LEAST: u64 = 10;

pub const FLOAT_MOST: u64 = 1_000_000_000_000;

// A limit is set from the deliveries of DAYS_LEAST to DAYS_MOST days.
pub const DAYS_LEAST: usize = 1;

pub const DAYS_MOST: usize = 92;

// The largest delivery of a day, in units.
pub const DELIVERY_MOST: u64 = 10_000_000_000;

// Shares are in percent of a whole.
pub const WHOLE_SHARE: u64 = 100;

// A limit is at least FLOOR_SHARE and at most CEILING_SHARE of the free float.
pub const FLOOR_SHARE: u64 = 10;

pub const CEILING_SHARE: u64 = 15;

// Between the two it is so many times the average delivery of a day.
pub const AVERAGE_TIMES: u64 = 65;

// Open interest and violated quantities are in ten-thousandths of a unit.
pub const PER_UNIT: u64 = 10_000;

// A ban begins above 95% and ends at or below 80% of each unit of the limit.
pub const BEGINS_AT: u64 = 95 * PER_UNIT / WHOLE_SHARE;

pub const ENDS_AT: u64 = 80 * PER_UNIT / WHOLE_SHARE;

// A charge, in paise, is CHARGE_LEAST to CHARGE_MOST.
pub const CHARGE_LEAST: u64 = 500_000;

pub const CHARGE_MOST: u64 = 10_000_000;

// Between the two it is 1% of the violated quantity at its price.
pub const CHARGE_DIVISOR: u64 = PER_UNIT * WHOLE_SHARE;

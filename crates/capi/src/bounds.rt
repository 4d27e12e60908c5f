// The numbers of the host's calls, each under one name. specs/Bounds.antt has the same names.

use rules::bounds::PER_UNIT;
use terms::bounds::{MOST_CONTRACTS, QUANTITY_BOUND};

// A day's delivery is so many bytes.
pub const DAY_BYTES: usize = 8;

// The largest violated quantity, in ten-thousandths of a unit: the largest net of an entity, each contract at a whole delta.
pub const VIOLATED_MOST: u64 = MOST_CONTRACTS as u64 * QUANTITY_BOUND as u64 * PER_UNIT;

// The plain data that a monitor keeps.
use index::day::Day;
use index::mark::{Four, MarkRow};
use stock::violation::Violation;
use terms::bounds::MOST_ENTITIES;

// What is kept of an index: its day, and the marks of each entity.
#[derive(Clone, Copy, PartialEq, Eq, Debug)]
pub struct IndexRecord {
    pub day: Day,
    pub marks: [Four<MarkRow>; MOST_ENTITIES],
}

// What is kept of a stock: its market-wide limit once it is set, whether it is in a ban, and whom its last close found in violation.
#[derive(Clone, Copy, PartialEq, Eq, Debug)]
pub struct StockRecord {
    pub limit: Option<u64>,
    pub banned: bool,
    pub violations: [Option<Violation>; MOST_ENTITIES],
}

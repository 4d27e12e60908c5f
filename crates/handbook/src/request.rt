// What a monitor may be called for, as data.
use terms::command::Command;

// Days of deliveries are lent as a slice; delta sources and covers of any make are held by value.
#[derive(Clone, Copy, PartialEq, Eq, Debug, Drop)]
pub enum Request<'d, D, C> {
    // A posting, or the entry or confirmation of a custodial trade.
    Posting(Command),
    Snapshot {
        underlying: usize,
        source: D,
    },
    Cure {
        underlying: usize,
        source: D,
    },
    Settle {
        underlying: usize,
        cover: C,
    },
    SetLimit {
        underlying: usize,
        free_float: u64,
        deliveries: &'d [u64],
    },
    Close {
        underlying: usize,
        two: D,
        closing: D,
    },
}

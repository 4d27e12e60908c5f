// What a monitor may be called for, as data.

// A custodial trade: a member trades for a participant.
#[derive(Clone, Copy, PartialEq, Eq, Debug)]
pub struct Trade {
    pub member: usize,
    pub participant: usize,
    pub contract: usize,
    pub change: i64,
}

#[derive(Clone, Copy, PartialEq, Eq, Debug)]
pub enum Command {
    Post {
        entity: usize,
        contract: usize,
        change: i64,
    },
    Entry {
        ticket: usize,
        trade: Trade,
    },
    Confirm {
        ticket: usize,
    },
}

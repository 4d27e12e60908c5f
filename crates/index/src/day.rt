// An index's day: its snapshots, their cures, and when it may be settled.
ghost use Rattle.std.specs.Prelude.{◌≡◌};
ghost use Rattle.index.specs.Days.{no_day, round_at, is_later, is_cure_time, owed_by, day_after, cured_day, is_short};

use crate::bounds::{CURE_MINUTES, FINAL_MINUTE, FIRST_MINUTE, LAST_MINUTE, SNAPSHOTS_LEAST};

// What a snapshot is.
#[derive(Clone, Copy, PartialEq, Eq, Debug)]
pub enum Round {
    // One that owes a cure.
    Regular,
    // The last one of a day.
    Final,
}

// What an index's day waits for.
#[derive(Clone, Copy, PartialEq, Eq, Debug)]
pub enum Due {
    Snapshot,
    // The cure of a regular snapshot.
    Cure,
    // The final snapshot was taken.
    Settlement,
}

// An index's day: how many snapshots were taken, the minute of the last one or of its cure, and what comes next.
#[derive(Clone, Copy, PartialEq, Eq, Debug)]
pub struct Day {
    pub taken: u64,
    pub last: Option<u64>,
    pub due: Due,
}

impl Round {
    // What a snapshot at a minute is, if one is permitted then.
    pub fn at(minute: u64) -> Option<Round>
        ensures { result ≡ round_at minute }
    {
        if (FIRST_MINUTE..FINAL_MINUTE).contains(&minute) {
            Some(Round::Regular)
        } else if (FINAL_MINUTE..=LAST_MINUTE).contains(&minute) {
            Some(Round::Final)
        } else {
            None
        }
    }

    // What comes after it.
    pub fn owes(self) -> Due
        ensures { result ≡ owed_by self }
    {
        match self {
            Round::Regular => Due::Cure,
            Round::Final => Due::Settlement,
        }
    }
}

impl Day {
    // A day on which nothing was taken yet.
    pub fn new() -> Day
        ensures { result ≡ no_day }
    {
        Day {
            taken: 0,
            last: None,
            due: Due::Snapshot,
        }
    }

    // Whether a minute is later than the last snapshot, or its cure, if there was one.
    pub fn is_later(self, minute: u64) -> bool
        ensures { result ≡ is_later self.last minute }
    {
        self.last.is_none_or(|last| last < minute)
    }

    // Whether a minute is that of the last snapshot's cure.
    pub fn is_cure_time(self, minute: u64) -> bool
        ensures { result ≡ is_cure_time self.last minute }
    {
        match self.last {
            None => false,
            Some(last) => minute.checked_sub(CURE_MINUTES) == Some(last),
        }
    }

    // The day after a snapshot.
    pub fn after(self, round: Round, minute: u64) -> Day
        ensures { result ≡ day_after round minute self }
    {
        Day {
            taken: self.taken.saturating_add(1),
            last: Some(minute),
            due: round.owes(),
        }
    }

    // The day after a cure.
    pub fn cured(self, minute: u64) -> Day
        ensures { result ≡ cured_day minute self }
    {
        Day {
            last: Some(minute),
            due: Due::Snapshot,
            ..self
        }
    }

    // Whether there are too few snapshots for a settlement, or no final one.
    pub fn is_short(self) -> bool
        ensures { result ≡ is_short self }
    {
        self.taken < SNAPSHOTS_LEAST || self.due != Due::Settlement
    }
}

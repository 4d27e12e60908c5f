// The four marks of an entity on an index's day, and what a snapshot, a cure and a settlement make of one.
ghost use Rattle.std.specs.Prelude.{◌≡◌, ◌&&◌};
ghost use Rattle.index.specs.Marks.{no_row, four, limit_for, is_over, is_final, provisional, sighted, finished, cured, settled};

use crate::bounds::PER_PAISA;
use terms::limits::Limits;
use terms::mark::Mark;

// One mark: whether it is sighted, how often it was made provisional, its largest value then, and the largest value with
// which the last settlement kept it as a final breach. Count and largest value are numbers, and 0 before the first, since the rules
// say that the one rises and the other keeps the largest.
#[derive(Clone, Copy, PartialEq, Eq, Debug)]
pub struct MarkRow {
    pub sighted: bool,
    pub count: u64,
    pub largest: u128,
    pub kept: Option<u128>,
}

// Something for each of the four marks.
#[derive(Clone, Copy, PartialEq, Eq, Debug)]
pub struct Four<T> {
    pub net_long: T,
    pub net_short: T,
    pub gross_long: T,
    pub gross_short: T,
}

impl<T: Copy> Four<T> {
    // What a mark has.
    pub fn of(self, mark: Mark) -> T
        ensures { result ≡ four self mark }
    {
        match mark {
            Mark::NetLong => self.net_long,
            Mark::NetShort => self.net_short,
            Mark::GrossLong => self.gross_long,
            Mark::GrossShort => self.gross_short,
        }
    }
}

// The limit of a mark, in paise.
pub fn limit_for(limits: Limits, mark: Mark) -> u64
    ensures { result ≡ limit_for limits mark }
{
    match mark {
        Mark::NetLong | Mark::NetShort => limits.net,
        Mark::GrossLong | Mark::GrossShort => limits.gross,
    }
}

// Whether a value exceeds an amount of paise.
pub fn is_over(limit: u64, value: u128) -> bool
    ensures { result ≡ is_over limit value }
{
    u128::from(limit) * PER_PAISA < value
}

impl MarkRow {
    // A mark that was never over.
    pub fn new() -> MarkRow
        ensures { result ≡ no_row }
    {
        MarkRow {
            sighted: false,
            count: 0,
            largest: 0,
            kept: None,
        }
    }

    // Makes the mark provisional.
    fn make_provisional(&mut self, value: u128)
        ensures { self.new ≡ provisional value self.old }
    {
        self.count = self.count.saturating_add(1);
        self.largest = self.largest.max(value);
    }

    // A regular snapshot: the mark is sighted if it is over. Answers whether it is.
    pub fn sight(&mut self, limit: u64, value: u128) -> bool
        ensures row { self.new ≡ sighted (is_over limit value) self.old }
        ensures told { result ≡ is_over limit value }
    {
        self.sighted = is_over(limit, value);
        self.sighted
    }

    // A final snapshot: the mark is made provisional if it is over. Answers whether it was.
    pub fn finish(&mut self, limit: u64, value: u128) -> bool
        ensures row { self.new ≡ finished (is_over limit value) value self.old }
        ensures told { result ≡ is_over limit value }
    {
        let over = is_over(limit, value);
        if over {
            self.make_provisional(value);
        }
        over
    }

    // A cure: the mark is made provisional if it is sighted and over, and isn't sighted any more. Answers whether it was made so.
    pub fn cure(&mut self, limit: u64, value: u128) -> bool
        ensures row { self.new ≡ cured (is_over limit value) value self.old }
        ensures told { result ≡ (self.old.sighted && is_over limit value) }
    {
        let broken = self.sighted && self.finish(limit, value);
        self.sighted = false;
        broken
    }

    // Whether the mark is a final breach at a limit and the cover of its side.
    pub fn is_final(self, limit: u64, cover: u64) -> bool
        ensures { result ≡ is_final limit cover self }
    {
        0 < self.count && (u128::from(limit) + u128::from(cover)) * PER_PAISA < self.largest
    }

    // A settlement: keeps the mark's largest value if it is a final breach, and clears its day. Answers whether it is one.
    pub fn settle(&mut self, limit: u64, cover: u64) -> bool
        ensures row { self.new ≡ settled (is_final limit cover self.old) self.old }
        ensures told { result ≡ is_final limit cover self.old }
    {
        let found = self.is_final(limit, cover);
        *self = MarkRow {
            kept: found.then_some(self.largest),
            ..MarkRow::new()
        };
        found
    }
}

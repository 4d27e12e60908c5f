// The covers that a journal speaks of: the depository's holdings, the cash that is reported, and both together.
use crate::notices::Notices;
use crate::serve::Session;
use book::position::Book;
use book::row::Row;
use cover::cash::Cash;
use cover::depository::{Depository, DepositoryRow};
use cover::joint::Joint;
use cover::mixing::Mixed;
use either::{Left, Right};
use journal::line::CoverMake;
use replies::fault::Fault;
use std::alloc::Global;
use std::io::Write;
use terms::refusal::Refusal;

// The most rows of the depository, and the places for reports of cash.
const HOLDINGS: usize = 4_096;

pub(crate) const CASH_PLACES: usize = 512;

// A cover of any make.
pub(crate) type AnyCover<'r, 'c> = Mixed<
    Depository<'r>,
    Mixed<&'r Cash<'c>, Joint<Depository<'r>, &'r Cash<'c>>>,
>;

// The rows of the depository.
#[derive(Drop)]
pub(crate) struct Holdings {
    rows: Vec<DepositoryRow>,
}

impl Holdings {
    fn new(heap: Global) -> Holdings {
        Holdings {
            rows: Vec::new(heap),
        }
    }

    // One row more, if there is room.
    fn add(&mut self, row: DepositoryRow) -> anyhow::Result<Result<(), Fault>> {
        if self.rows.len() >= HOLDINGS {
            return Ok(Err(Fault::TooMany));
        }
        self.rows.push(row)?;
        Ok(Ok(()))
    }
}

// Takes one more row of the depository, and says so.
pub(crate) fn hold<W: Write + Drop>(
    notices: &mut Notices<W>,
    holdings: &mut Holdings,
    row: DepositoryRow,
) -> anyhow::Result<()> {
    match holdings.add(row)? {
        Ok(()) => notices.taken(),
        Err(fault) => notices.malformed(fault),
    }
}

#[derive(Drop)]
pub(crate) struct Covers<'c> {
    pub(crate) holdings: Holdings,
    pub(crate) cash: Cash<'c>,
}

impl<'c> Covers<'c> {
    // No holding and no cash, over the places for reports of cash.
    pub(crate) fn new(heap: Global, places: &'c mut [Row<u64>]) -> Covers<'c> {
        Covers {
            holdings: Holdings::new(heap),
            cash: Cash::new(places),
        }
    }

    // The cover that a settlement names.
    pub(crate) fn cover(&self, make: CoverMake) -> AnyCover<'_, 'c> {
        let depository = Depository {
            rows: &self.holdings.rows,
        };
        match make {
            CoverMake::Depository => Left(depository),
            CoverMake::Cash => Right(Left(&self.cash)),
            CoverMake::Joint => Right(Right(Joint {
                first: depository,
                second: &self.cash,
            })),
        }
    }
}

impl<'n, 'b, 't, 'c, W: Write + Drop, B: Book> Session<'n, 'b, 't, 'c, W, B> {
    // Takes down a report of cash, which answers 0.
    pub(crate) fn cash(
        &mut self,
        entity: usize,
        underlying: usize,
        amount: u64,
    ) -> anyhow::Result<()> {
        let answer: Result<i64, Refusal> = self
            .covers
            .cash
            .report(entity, underlying, amount)
            .map(|()| 0);
        self.notices.called(answer)
    }
}

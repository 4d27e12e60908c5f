// What an entity holds in a depository covers its short sides.
ghost use Rattle.std.specs.Prelude.{◌≡◌};
ghost use Rattle.cover.specs.Depositories.{is_counted, worth_to, holdings, deposited};
ghost use Rattle.cover.specs.Boundedness.{deposited_bounded};

use crate::source::Cover;
use terms::bounds::{AMOUNT_BOUND, PRICE_BOUND, QUANTITY_BOUND};
use terms::mark::Side;

#[derive(Clone, Copy, PartialEq, Eq, Debug)]
pub enum Class {
    Equity,
    Other,
}

// What an entity holds of one security, in units, and its closing price in paise.
#[derive(Clone, Copy, PartialEq, Eq, Debug)]
pub struct DepositoryRow {
    pub entity: usize,
    pub class: Class,
    pub quantity: u64,
    pub price: u64,
}

impl DepositoryRow {
    // Whether it is the entity's, equity, and in range.
    fn is_counted(self, entity: usize) -> bool
        ensures { result ≡ is_counted entity self }
    {
        self.entity == entity
            && self.class == Class::Equity
            && self.quantity <= QUANTITY_BOUND.unsigned_abs()
            && (1..=PRICE_BOUND).contains(&self.price)
    }

    // What it is worth to an entity, at its closing price.
    fn worth_to(self, entity: usize) -> u64
        ensures { result ≡ worth_to entity self }
    {
        if self.is_counted(entity) {
            self.quantity * self.price
        } else {
            0
        }
    }
}

// Rows in any order, and any number of them for one entity.
#[derive(Clone, Copy)]
pub struct Depository<'a> {
    pub rows: &'a [DepositoryRow],
}

// What the rows are worth to an entity, cut at the bound.
fn holdings(rows: &[DepositoryRow], entity: usize) -> u64
    ensures { result ≡ holdings rows.now entity }
{
    let mut total = 0;
    for row in rows {
        total = (total + row.worth_to(entity)).min(AMOUNT_BOUND);
    }
    total
}

impl<'a> Cover for Depository<'a> {
    ghost amount = { λ c. deposited c.rows.now };

    ghost bounded = { λ c. deposited_bounded c.rows.now };

    fn cover(&self, entity: usize, _underlying: usize, side: Side) -> u64 {
        match side {
            Side::Long => 0,
            Side::Short => holdings(self.rows, entity),
        }
    }
}

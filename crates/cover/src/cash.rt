// The cash that is reported of an entity on an underlying covers its long side there.
ghost use Rattle.std.specs.Prelude.{◌≡◌, ℕ, cond, Some, None, length};
ghost use Rattle.book.specs.Tables.{emptied};
ghost use Rattle.cover.specs.Reports.{is_watched, key_of, report_of, report_reply, reported, noted, paid, Small};
ghost use Rattle.cover.specs.Boundedness.{paid_bounded};

use crate::source::Cover;
use book::register::Register;
use book::row::Row;
use terms::bounds::{AMOUNT_BOUND, MOST_ENTITIES, MOST_UNDERLYINGS};
use terms::mark::Side;
use terms::refusal::Refusal;

// The key of a report is the number of its pair of entity and underlying.
#[derive(Drop)]
pub struct Cash<'a> {
    reports: Register<'a, u64>,
    ghost small: { Small reports },
}

// The number of a pair: none where a monitor can't watch it.
fn key_of(entity: usize, underlying: usize) -> Option<u64>
    ensures { result ≡ cond (is_watched entity underlying) (Some (key_of entity underlying)) None }
{
    let is_watched = entity < MOST_ENTITIES && underlying < MOST_UNDERLYINGS;
    // No `From` makes a u64 of a number of type usize; the cast is proved to lose nothing.
    is_watched.then(|| (entity * MOST_UNDERLYINGS + underlying) as u64)
}

impl<'a> Cash<'a> {
    // No cash, over the places handed in: one for each pair of which there may be a report.
    pub fn new(places: &'a mut [Row<u64>]) -> Cash<'a>
        ensures { result.reports ≡ emptied (length places.old) }
    {
        Cash {
            reports: Register::new(places),
        }
    }

    // Takes down an amount, in paise, in place of the pair's old one; a new pair is declined where there is no place left.
    pub fn report(&mut self, entity: usize, underlying: usize, amount: u64) -> Result<(), Refusal>
        ensures answer { result ≡ report_reply self.old.reports entity underlying amount }
        ensures state { self.new.reports ≡ reported self.old.reports entity underlying amount }
        ensures pairs { (i j : ℕ) → report_of self.new.reports i j ≡ noted result (report_of self.old.reports) entity underlying amount i j }
    {
        let key = key_of(entity, underlying).ok_or(Refusal::Input)?;
        if amount > AMOUNT_BOUND {
            return Err(Refusal::Input);
        }
        self.reports.put(key, amount)?;
        Ok(())
    }

    // The amount that is reported of a pair, or none.
    fn report_of(&self, entity: usize, underlying: usize) -> Option<u64>
        ensures { result ≡ report_of self.now.reports entity underlying }
    {
        let key = key_of(entity, underlying)?;
        self.reports.find(key)
    }
}

impl<'a> Cover for Cash<'a> {
    ghost amount = { λ c. paid c.reports };

    ghost bounded = { λ c. paid_bounded c.reports c.small };

    fn cover(&self, entity: usize, underlying: usize, side: Side) -> u64 {
        match side {
            Side::Long => self.report_of(entity, underlying).unwrap_or(0),
            Side::Short => 0,
        }
    }
}

// The report of the final breaches that an index's last settlement kept.
ghost use Rattle.model.specs.Reports.{Reported};
ghost use Rattle.monitor.specs.View.{state_of};

use crate::state::Monitor;
use book::position::Book;
use index::report::{Breach, report};
use terms::kind::Underlying;
use terms::refusal::Refusal;

impl<'b, 't, B: Book> Monitor<'b, 't, B> {
    // Writes each final breach that an index's last settlement kept once, in any order, from the first row on, and answers how
    // many there are. A declined report changes no row.
    pub fn report(&self, underlying: usize, rows: &mut [Breach]) -> Result<i64, Refusal>
        ensures { Reported (state_of B.Holds.held self.now) underlying rows.old result rows.new }
    {
        let index = self.admits(underlying, Underlying::Index)?;
        let marks = &self.inner.indices[index.number].marks;
        let told = report(marks, self.fixed.terms.listing.entities, rows)?;
        // Proved to lose nothing; `try_from` would ask for an answer where it did.
        Ok(told as i64)
    }
}

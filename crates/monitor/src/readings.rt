// Questions about what entities hold in an underlying.
ghost use Rattle.std.specs.Prelude.{◌≡◌};
ghost use Rattle.model.specs.Calls.{reading_on, reading_answer, missing_answer, interest_answer, notional_answer};
ghost use Rattle.reading.specs.Sheets.{weight_of, lacks_delta};
ghost use Rattle.reading.specs.Views.{weights_of, lacking_of};
ghost use Rattle.monitor.specs.View.{state_of};

use crate::state::Monitor;
use book::position::Book;
use delta::notional::Notional;
use delta::source::Delta;
use reading::sheet::Sheet;

impl<'b, 't, B: Book> Monitor<'b, 't, B> {
    // The sheet of an underlying's contracts at a source, which is asked once for each.
    pub fn sheet<D: Delta>(&self, underlying: usize, source: &D) -> Sheet
        ensures weights { weights_of result ≡ weight_of (state_of B.Holds.held self.now).terms.listing.contracts underlying (D.answer source.now) }
        ensures lacking { lacking_of result ≡ lacks_delta (state_of B.Holds.held self.now).terms.listing.contracts underlying (D.answer source.now) }
    {
        Sheet::new(source, self.fixed.terms.listing.chain(underlying))
    }

    // Net, long and short of an entity on a sheet, in ten-thousandths of a unit: for many entities at one source.
    pub fn reading_on(&self, sheet: &Sheet, entity: usize) -> (i64, i64, i64)
        ensures { result ≡ reading_on (state_of B.Holds.held self.now) (weights_of sheet.now) entity }
    {
        if !self.fixed.live {
            return (0, 0, 0);
        }
        sheet.reading(&*self.book, entity)
    }

    // Net, long and short of an entity in an underlying.
    pub fn reading<D: Delta>(&self, underlying: usize, source: &D, entity: usize) -> (i64, i64, i64)
        ensures { result ≡ reading_answer (state_of B.Holds.held self.now) underlying (D.answer source.now) entity }
    {
        // Before the sheet is made: a monitor that is not open asks no source.
        if self.fixed.live {
            self.reading_on(&self.sheet(underlying, source), entity)
        } else {
            (0, 0, 0)
        }
    }

    // The first contract of an underlying that lacks a needed delta, and the first entity that needs it.
    pub fn missing<D: Delta>(&self, underlying: usize, source: &D) -> Option<(usize, usize)>
        ensures { result ≡ missing_answer (state_of B.Holds.held self.now) underlying (D.answer source.now) }
    {
        if !self.fixed.live {
            return None;
        }
        self.sheet(underlying, source)
            .first_missing(&&*self.book, self.fixed.terms.listing.entities)
    }

    // Market open interest in an underlying: the sum over entities of the size of net.
    pub fn interest<D: Delta>(&self, underlying: usize, source: &D) -> u128
        ensures { result ≡ interest_answer (state_of B.Holds.held self.now) underlying (D.answer source.now) }
    {
        if !self.fixed.live {
            return 0;
        }
        self.sheet(underlying, source)
            .interest(&*self.book, self.fixed.terms.listing.entities)
    }

    // Notional open interest in an underlying: the sum of long plus short at notional deltas.
    pub fn notional_interest(&self, underlying: usize) -> u128
        ensures { result ≡ notional_answer (state_of B.Holds.held self.now) underlying }
    {
        if !self.fixed.live {
            return 0;
        }
        self.sheet(underlying, &Notional)
            .gross(&*self.book, self.fixed.terms.listing.entities)
    }
}

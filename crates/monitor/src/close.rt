// The close of a stock.
ghost use Rattle.std.specs.Prelude.{◌≡◌, ◌≤◌, not, ◌&&◌, ◌||◌, Ok, ◌==◌, slice_index_or};
ghost use Rattle.terms.specs.Bounds.{two_minute, close_minute, most_entities};
ghost use Rattle.delta.specs.Sources.{source_of};
ghost use Rattle.reading.specs.Views.{weights_of, lacking_of};
ghost use Rattle.book.specs.Holding.{quantity_of};
ghost use Rattle.reading.specs.Sheets.{within};
ghost use Rattle.stock.specs.Close.{closed_base, charged_count, base_of};
ghost use Rattle.terms.specs.Causes.{checked};
ghost use Rattle.model.specs.State.{at};
ghost use Rattle.model.specs.Stocks.{close_table, delta_verdict, turn_by, turned};
ghost use Rattle.model.specs.Calls.{close, step};
ghost use Rattle.monitor.specs.View.{no_record, state_of, stock_in, stocks_of};

use crate::causes::{is_unpriced, none_missing};
use crate::inner::Inner;
use crate::listing::UnderlyingNumber;
use crate::state::Monitor;
use book::position::{Book, Holds};
use delta::source::PricedDelta;
use model::parts::StockRecord;
use reading::sheet::Sheet;
use stock::close::Closing;
use stock::turn::Turn;
use terms::bounds::{CLOSE_MINUTE, TWO_MINUTE};
use terms::kind::Underlying;
use terms::refusal::Refusal;

// A close at a minute that is not permitted; the two o'clock deltas count in a ban only.
fn is_untimely(banned: bool, two: u64, closing: u64) -> bool
    ensures { result ≡ (not (closing == close_minute) || banned && not (two == two_minute)) }
{
    closing != CLOSE_MINUTE || banned && two != TWO_MINUTE
}

// UNSET, TIME, and PRICE for the closing price alone. The two o'clock source and the closing one are two parameters here and below:
// a pair would have three types, one of sources, one of sheets, one of what these lack.
fn admits_close<D: PricedDelta>(stock: &StockRecord, two: &D, closing: &D) -> Result<(), Refusal>
    ensures { result ≡ checked (close_table (stock_in stock.now) (source_of D.Delta.answer D.PricedDelta.at D.PricedDelta.worth two.now) (source_of D.Delta.answer D.PricedDelta.at D.PricedDelta.worth closing.now)) }
{
    if stock.limit.is_none() {
        return Err(Refusal::Unset);
    }
    if is_untimely(stock.banned, two.minute(), closing.minute()) {
        return Err(Refusal::Time);
    }
    if is_unpriced(closing) {
        return Err(Refusal::Price);
    }
    Ok(())
}

// What market interest makes of a stock's ban.
fn turn_by(stock: &StockRecord, interest: u128) -> Turn
    ensures { result ≡ turn_by (stock_in stock.now) interest }
{
    Turn::decide(stock.banned, stock.limit.unwrap_or(0), interest)
}

impl Inner {
    // What is kept of a stock.
    fn stock(&self, stock: UnderlyingNumber) -> &StockRecord
        ensures { result.now ≡ slice_index_or self.now.stocks stock.number no_record }
    {
        &self.stocks[stock.number]
    }

    // What an accepted close makes of the tables: the ban turns, base moves, and what each entity violates and is charged is
    // written. Answers how many are charged.
    fn close_stock<B: Holds>(
        &mut self,
        book: &B,
        stock: UnderlyingNumber,
        entities: usize,
        closing: Closing<'_, '_>,
    ) -> u64
        requires { entities ≤ most_entities }
        ensures count { result ≡ charged_count entities closing.entry.turn (weights_of closing.entry.two.now) (base_of self.old.base.cells) (quantity_of (B.held book.now)) }
        ensures base { base_of self.new.base.cells ≡ closed_base entities (within closing.entry.chain.contracts.now closing.entry.chain.underlying) closing.entry.turn (weights_of closing.entry.two.now) (base_of self.old.base.cells) (quantity_of (B.held book.now)) }
        ensures stocks { stocks_of self.new.stocks ≡ at stock.number (turned entities closing.entry.turn (weights_of closing.entry.two.now) (base_of self.old.base.cells) (quantity_of (B.held book.now)) closing.entry.price (stocks_of self.old.stocks stock.number)) (stocks_of self.old.stocks) }
        ensures rest { (self.new.tickets ≡ self.old.tickets) × (self.new.indices ≡ self.old.indices) }
    {
        let stock = &mut self.stocks[stock.number];
        stock.banned = closing.turn.in_force();
        self.base
            .close(book, &mut stock.violations, entities, closing)
    }
}

impl<'b, 't, B: Book> Monitor<'b, 't, B> {
    // DELTA at closing deltas wherever the book is non-zero; in a ban, then at two o'clock deltas wherever book or base is.
    fn admits_deltas(&self, banned: bool, two: &Sheet, closing: &Sheet) -> Result<(), Refusal>
        ensures { result ≡ delta_verdict (state_of B.Holds.held self.now).terms.listing.entities (state_of B.Holds.held self.now).ledger banned (lacking_of two.now) (lacking_of closing.now) }
    {
        let entities = self.fixed.terms.listing.entities;
        none_missing(&&*self.book, closing, entities)?;
        if banned {
            return none_missing(&(&*self.book, &self.inner.base), two, entities);
        }
        Ok(())
    }

    // Closes a stock: judges every entity where it is in a ban, moves base, and then decides the ban by market interest at
    // closing deltas. Answers how many are charged.
    pub fn close<D: PricedDelta>(
        &mut self,
        underlying: usize,
        two: &D,
        closing: &D,
    ) -> Result<i64, Refusal>
        ensures step { (result, state_of B.Holds.held self.new) ≡ step (state_of B.Holds.held self.old) (close underlying (source_of D.Delta.answer D.PricedDelta.at D.PricedDelta.worth two.now) (source_of D.Delta.answer D.PricedDelta.at D.PricedDelta.worth closing.now)) }
        ensures same { self.new.book.ghost_name ≡ self.old.book.ghost_name }
    {
        let stock = self.admits(underlying, Underlying::Stock)?;
        admits_close(self.inner.stock(stock), two, closing)?;
        let at_two = self.sheet(underlying, two);
        let at_close = self.sheet(underlying, closing);
        let banned = self.inner.stock(stock).banned;
        self.admits_deltas(banned, &at_two, &at_close)?;
        let listing = self.fixed.terms.listing;
        let interest = at_close.interest(&*self.book, listing.entities);
        let turn = turn_by(self.inner.stock(stock), interest);
        let closing = Closing {
            chain: listing.chain(underlying),
            two: &at_two,
            price: closing.price(),
            turn,
        };
        let charged = self
            .inner
            .close_stock(&*self.book, stock, listing.entities, closing);
        // Proved to lose nothing; `try_from` would ask for an answer where it did.
        Ok(charged as i64)
    }
}

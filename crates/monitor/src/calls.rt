// The calls on a monitor, each one step of the model, and the questions.
ghost use Rattle.std.specs.Prelude.{◌≡◌, ◌<◌, ◌∷◌, ◌++◌, Ok, OnOk};
ghost use Rattle.terms.specs.Bounds.{ticket_count};
ghost use Rattle.book.specs.Holding.{inside};
ghost use Rattle.terms.specs.Causes.{unless, checked};
ghost use Rattle.model.specs.Calls.{post, entry, confirm, closed_table, entry_table, quantity_in, step};
ghost use Rattle.monitor.specs.View.{state_of};

use crate::custody::transfer;
use crate::state::Monitor;
use book::position::Book;
use terms::command::Trade;
use terms::refusal::Refusal;

impl<'b, 't, B: Book> Monitor<'b, 't, B> {
    // The pair is one of the book's.
    fn is_inside(&self, entity: usize, contract: usize) -> bool
        ensures { result ≡ inside (B.Holds.held self.now.book.now) entity contract }
    {
        let shape = self.book.shape();
        entity < shape.entities && contract < shape.contracts
    }

    // The causes that decline an entry before the book is asked.
    fn admits_entry(&self, ticket: usize, trade: Trade) -> Result<(), Refusal>
        ensures is { result ≡ unless (closed_table (state_of B.Holds.held self.now).terms) (checked (entry_table (state_of B.Holds.held self.now).ledger ticket trade)) }
        ensures within { OnOk result (ticket < ticket_count) }
    {
        self.opened()?;
        let Some(None) = self.inner.tickets.get(ticket) else {
            return Err(Refusal::Ticket);
        };
        if trade.member == trade.participant {
            return Err(Refusal::Ticket);
        }
        if !self.is_inside(trade.participant, trade.contract) {
            return Err(Refusal::Pair);
        }
        Ok(())
    }

    // Adds a change to one pair of the book, and answers its new quantity.
    pub fn post(&mut self, entity: usize, contract: usize, change: i64) -> Result<i64, Refusal>
        ensures step { (result, state_of B.Holds.held self.new) ≡ step (state_of B.Holds.held self.old) (post entity contract change) }
        ensures same { self.new.book.ghost_name ≡ self.old.book.ghost_name }
    {
        self.opened()?;
        self.book.post(entity, contract, change)
    }

    // Enters a custodial trade on a ticket: posts its change to the member, and answers the member's new quantity.
    pub fn entry(&mut self, ticket: usize, trade: Trade) -> Result<i64, Refusal>
        ensures step { (result, state_of B.Holds.held self.new) ≡ step (state_of B.Holds.held self.old) (entry ticket trade) }
        ensures same { self.new.book.ghost_name ≡ self.old.book.ghost_name }
    {
        self.admits_entry(ticket, trade)?;
        let quantity = self.book.post(trade.member, trade.contract, trade.change)?;
        self.inner.tickets[ticket] = Some(trade);
        Ok(quantity)
    }

    // Confirms the trade on a ticket: moves it from the member to the participant, frees the ticket, and answers the
    // participant's new quantity.
    pub fn confirm(&mut self, ticket: usize) -> Result<i64, Refusal>
        ensures step { (result, state_of B.Holds.held self.new) ≡ step (state_of B.Holds.held self.old) (confirm ticket) }
        ensures same { self.new.book.ghost_name ≡ self.old.book.ghost_name }
    {
        self.opened()?;
        let Some(Some(trade)) = self.inner.tickets.get(ticket) else {
            return Err(Refusal::Ticket);
        };
        let quantity = transfer(self.book, *trade)?;
        self.inner.tickets[ticket] = None;
        Ok(quantity)
    }

    // The quantity of a pair; zero where the pair is outside or the monitor is not open.
    pub fn quantity(&self, entity: usize, contract: usize) -> i64
        ensures { result ≡ quantity_in (state_of B.Holds.held self.now) entity contract }
    {
        if self.fixed.live {
            self.book.quantity(entity, contract)
        } else {
            0
        }
    }
}

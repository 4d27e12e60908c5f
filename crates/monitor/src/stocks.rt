// The stock side of a monitor: its market-wide limit, and the questions about it.
ghost use Rattle.std.specs.Prelude.{◌≡◌, None};
ghost use Rattle.model.specs.Calls.{set_limit, step, limit_answer, ban_answer, violated_answer, charge_answer, base_in, if_open};
ghost use Rattle.monitor.specs.View.{violation_of, state_of};

use crate::state::Monitor;
use book::position::{Book, Holds};
use rules::limit::limit;
use stock::violation::Violation;
use terms::kind::Underlying;
use terms::refusal::Refusal;

impl<'b, 't, B: Book> Monitor<'b, 't, B> {
    // Sets a stock's market-wide limit from its free float and its daily deliveries.
    pub fn set_limit(
        &mut self,
        underlying: usize,
        free_float: u64,
        deliveries: &[u64],
    ) -> Result<i64, Refusal>
        ensures step { (result, state_of B.Holds.held self.new) ≡ step (state_of B.Holds.held self.old) (set_limit underlying free_float deliveries.now) }
        ensures same { self.new.book.ghost_name ≡ self.old.book.ghost_name }
    {
        let stock = self.admits(underlying, Underlying::Stock)?;
        let granted = limit(free_float, deliveries)?;
        self.inner.stocks[stock.number].limit = Some(granted);
        Ok(0)
    }

    // A stock's market-wide limit; 0 before it is set.
    pub fn limit(&self, underlying: usize) -> u64
        ensures { result ≡ limit_answer (state_of B.Holds.held self.now) underlying }
    {
        if !self.fixed.live {
            return 0;
        }
        self.inner
            .stocks
            .get(underlying)
            .and_then(|stock| stock.limit)
            .unwrap_or(0)
    }

    // Whether a stock is in a ban.
    pub fn is_banned(&self, underlying: usize) -> bool
        ensures { result ≡ ban_answer (state_of B.Holds.held self.now) underlying }
    {
        self.fixed.live
            && self
                .inner
                .stocks
                .get(underlying)
                .is_some_and(|stock| stock.banned)
    }

    // What a stock's last close found of an entity.
    fn violation(&self, underlying: usize, entity: usize) -> Option<Violation>
        ensures { result ≡ if_open (state_of B.Holds.held self.now) (violation_of self.now.inner.stocks underlying entity) None }
    {
        if !self.fixed.live {
            return None;
        }
        let stock = self.inner.stocks.get(underlying)?;
        stock.violations.get(entity).copied().flatten()
    }

    // What an entity violated at a stock's last close, in ten-thousandths of a unit.
    pub fn violated(&self, underlying: usize, entity: usize) -> u64
        ensures { result ≡ violated_answer (state_of B.Holds.held self.now) underlying entity }
    {
        self.violation(underlying, entity)
            .map_or(0, |violation| violation.quantity)
    }

    // What an entity was charged at a stock's last close, in paise.
    pub fn charge(&self, underlying: usize, entity: usize) -> u64
        ensures { result ≡ charge_answer (state_of B.Holds.held self.now) underlying entity }
    {
        self.violation(underlying, entity)
            .map_or(0, |violation| violation.charge)
    }

    // The base quantity of a pair.
    pub fn base(&self, entity: usize, contract: usize) -> i64
        ensures { result ≡ base_in (state_of B.Holds.held self.now) entity contract }
    {
        if self.fixed.live {
            self.inner.base.quantity(entity, contract)
        } else {
            0
        }
    }
}

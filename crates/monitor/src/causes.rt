// The causes that several calls share.
ghost use Rattle.std.specs.Prelude.{◌≡◌, ◌≤◌, Ok, OnOk, IfOk};
ghost use Rattle.terms.specs.Bounds.{most_entities};
ghost use Rattle.delta.specs.Sources.{source_of};
ghost use Rattle.reading.specs.Missing.{missing};
ghost use Rattle.reading.specs.Views.{lacking_of};
ghost use Rattle.terms.specs.Causes.{unless, verdict_of, checked};
ghost use Rattle.model.specs.Causes.{unless_missing, kind_table};
ghost use Rattle.model.specs.Readings.{is_unpriced};
ghost use Rattle.model.specs.Calls.{closed_table};
ghost use Rattle.monitor.specs.View.{state_of};

use crate::listing::UnderlyingNumber;
use crate::state::Monitor;
use book::position::Book;
use delta::source::PricedDelta;
use reading::missing::Needs;
use reading::sheet::Sheet;
use terms::bounds::PRICE_BOUND;
use terms::kind::Underlying;
use terms::refusal::Refusal;

// The source's price is out of range.
pub(crate) fn is_unpriced<D: PricedDelta>(source: &D) -> bool
    ensures { result ≡ is_unpriced (source_of D.Delta.answer D.PricedDelta.at D.PricedDelta.worth source.now) }
{
    !(1..=PRICE_BOUND).contains(&source.price())
}

// DELTA with what is told, if anything is.
pub(crate) fn none_missing<N: Needs>(who: &N, sheet: &Sheet, entities: usize) -> Result<(), Refusal>
    ensures { result ≡ unless_missing (missing entities (lacking_of sheet.now) (N.needed who.now)) (Ok tt) }
{
    match sheet.first_missing(who, entities) {
        None => Ok(()),
        Some((contract, entity)) => Err(Refusal::Delta { contract, entity }),
    }
}

impl<'b, 't, B: Book> Monitor<'b, 't, B> {
    // CLOSED, unless the monitor is open.
    pub(crate) fn opened(&self) -> Result<(), Refusal>
        ensures { result ≡ checked (closed_table (state_of B.Holds.held self.now).terms) }
    {
        if self.fixed.live {
            Ok(())
        } else {
            Err(Refusal::Closed)
        }
    }

    // The underlying that a call is on, or the causes that decline any call on an underlying of this kind: CLOSED,
    // UNDERLYING, KIND.
    pub(crate) fn admits(
        &self,
        underlying: usize,
        kind: Underlying,
    ) -> Result<UnderlyingNumber, Refusal>
        ensures is { verdict_of result ≡ unless (closed_table (state_of B.Holds.held self.now).terms) (checked (kind_table (state_of B.Holds.held self.now).terms.listing kind underlying)) }
        ensures number { IfOk result (λ admitted. admitted.number ≡ underlying) }
        ensures entities { OnOk result ((state_of B.Holds.held self.now).terms.listing.entities ≤ most_entities) }
    {
        self.opened()?;
        match self.fixed.terms.listing.underlyings.get(underlying) {
            None => Err(Refusal::Underlying),
            Some(found) if *found != kind => Err(Refusal::Kind),
            Some(_) => Ok(UnderlyingNumber { number: underlying }),
        }
    }
}

// What an index's day lets through, before deltas and values are looked at.
ghost use Rattle.std.specs.Prelude.{◌≡◌, Ok, IfOk};
ghost use Rattle.delta.specs.Sources.{source_of};
ghost use Rattle.terms.specs.Causes.{verdict_of, checked};
ghost use Rattle.model.specs.Indices.{snapshot_table, cure_table, settlement_table, round_of};

use crate::causes::is_unpriced;
use delta::source::PricedDelta;
use index::day::{Day, Due, Round};
use terms::refusal::Refusal;

// What a snapshot is on a day, or TURN, TIME, PRICE.
pub(crate) fn admits_snapshot<D: PricedDelta>(day: Day, source: &D) -> Result<Round, Refusal>
    ensures is { verdict_of result ≡ checked (snapshot_table day (source_of D.Delta.answer D.PricedDelta.at D.PricedDelta.worth source.now)) }
    ensures round { IfOk result (λ round. round ≡ round_of (source_of D.Delta.answer D.PricedDelta.at D.PricedDelta.worth source.now)) }
{
    if day.due != Due::Snapshot {
        return Err(Refusal::Turn);
    }
    let minute = source.minute();
    let round = match Round::at(minute) {
        Some(round) if day.is_later(minute) => round,
        _ => return Err(Refusal::Time),
    };
    if is_unpriced(source) {
        return Err(Refusal::Price);
    }
    Ok(round)
}

// A cure's TURN, TIME, PRICE.
pub(crate) fn admits_cure<D: PricedDelta>(day: Day, source: &D) -> Result<(), Refusal>
    ensures { result ≡ checked (cure_table day (source_of D.Delta.answer D.PricedDelta.at D.PricedDelta.worth source.now)) }
{
    if day.due != Due::Cure {
        return Err(Refusal::Turn);
    }
    if !day.is_cure_time(source.minute()) {
        return Err(Refusal::Time);
    }
    if is_unpriced(source) {
        return Err(Refusal::Price);
    }
    Ok(())
}

// A settlement's SHORT DAY.
pub(crate) fn admits_settlement(day: Day) -> Result<(), Refusal>
    ensures { result ≡ checked (settlement_table day) }
{
    if day.is_short() {
        return Err(Refusal::ShortDay);
    }
    Ok(())
}

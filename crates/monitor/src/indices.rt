// The day of an index: its snapshots, their cures, the settlement, and the question about a mark.
ghost use Rattle.std.specs.Prelude.{◌≡◌, ◌≤◌, min, pos, IfOk};
ghost use Rattle.terms.specs.Bounds.{most_entities};
ghost use Rattle.delta.specs.Sources.{source_of};
ghost use Rattle.index.specs.Sweeps.{swept, told_count};
ghost use Rattle.index.specs.Values.{reading_in, readings_below};
ghost use Rattle.terms.specs.Causes.{verdict_of};
ghost use Rattle.model.specs.Indices.{of_reading};
ghost use Rattle.model.specs.Readings.{weights};
ghost use Rattle.model.specs.State.{at};
ghost use Rattle.model.specs.Calls.{snapshot, cure, settle, step, mark_answer};
ghost use Rattle.monitor.specs.View.{state_of, days_of, marks_of};
ghost use Rattle.monitor.specs.Watching.{watched_step};

use crate::causes::none_missing;
use crate::days::{admits_cure, admits_settlement, admits_snapshot};
use crate::inner::Inner;
use crate::listing::UnderlyingNumber;
use crate::state::Monitor;
use book::position::Book;
use cover::source::Cover;
use delta::source::PricedDelta;
use index::calls::{Rule, Settlement, Watch};
use index::day::Day;
use index::mark::MarkRow;
use index::readings::{first_too_large, readings};
use index::sweep::{Judge, sweep};
use terms::bounds::MOST_ENTITIES;
use terms::kind::Underlying;
use terms::mark::Mark;
use terms::refusal::Refusal;

impl Inner {
    // An index's day.
    fn day(&self, index: UnderlyingNumber) -> Day
        ensures { result ≡ days_of self.now.indices index.number }
    {
        self.indices[index.number].day
    }

    // What an accepted call makes of an index: its day becomes another, and each mark is judged. Answers how many count.
    fn judge_index<J: Judge>(
        &mut self,
        index: UnderlyingNumber,
        day: Day,
        judge: &J,
        entities: usize,
    ) -> i64
        ensures told { result ≡ pos (told_count (min entities most_entities) (J.tells judge.now) (marks_of self.old.indices index.number)) }
        ensures days { days_of self.new.indices ≡ at index.number day (days_of self.old.indices) }
        ensures marks { marks_of self.new.indices ≡ at index.number (swept (min entities most_entities) (J.judged judge.now) (marks_of self.old.indices index.number)) (marks_of self.old.indices) }
        ensures rest { (self.new.base ≡ self.old.base) × (self.new.tickets ≡ self.old.tickets) × (self.new.stocks ≡ self.old.stocks) }
    {
        let index = &mut self.indices[index.number];
        index.day = day;
        // Proved to lose nothing; `try_from` would ask for an answer where it did.
        sweep(judge, &mut index.marks, entities) as i64
    }
}

impl<'b, 't, B: Book> Monitor<'b, 't, B> {
    // What each entity holds in an index, or DELTA wherever the book is non-zero, then VALUE.
    fn index_readings<D: PricedDelta>(
        &self,
        underlying: usize,
        source: &D,
    ) -> Result<[(i64, i64, i64); MOST_ENTITIES], Refusal>
        requires { (state_of B.Holds.held self.now).terms.listing.entities ≤ most_entities }
        ensures is { verdict_of result ≡ of_reading (state_of B.Holds.held self.now).terms.listing (state_of B.Holds.held self.now).ledger underlying (source_of D.Delta.answer D.PricedDelta.at D.PricedDelta.worth source.now) }
        ensures table { IfOk result (λ table. reading_in table ≡ readings_below (state_of B.Holds.held self.now).terms.listing.entities (weights (state_of B.Holds.held self.now).terms.listing underlying (source_of D.Delta.answer D.PricedDelta.at D.PricedDelta.worth source.now)) (state_of B.Holds.held self.now).ledger.book.at) }
    {
        let entities = self.fixed.terms.listing.entities;
        let sheet = self.sheet(underlying, source);
        none_missing(&&*self.book, &sheet, entities)?;
        let table = readings(&*self.book, &sheet, entities);
        match first_too_large(&table, source.price(), entities) {
            None => Ok(table),
            Some(entity) => Err(Refusal::Value { entity }),
        }
    }

    // DELTA and VALUE, and then what a snapshot or a cure makes of an index.
    fn watch<D: PricedDelta>(
        &mut self,
        index: UnderlyingNumber,
        day: Day,
        rule: Rule,
        source: &D,
    ) -> Result<i64, Refusal>
        requires { (state_of B.Holds.held self.old).terms.listing.entities ≤ most_entities }
        ensures step { (result, state_of B.Holds.held self.new) ≡ watched_step rule day (state_of B.Holds.held self.old) index.number (source_of D.Delta.answer D.PricedDelta.at D.PricedDelta.worth source.now) }
        ensures same { self.new.book.ghost_name ≡ self.old.book.ghost_name }
    {
        let readings = self.index_readings(index.number, source)?;
        let watch = Watch {
            rule,
            limits: self.fixed.terms.limits,
            price: source.price(),
            readings: &readings,
        };
        let entities = self.fixed.terms.listing.entities;
        Ok(self.inner.judge_index(index, day, &watch, entities))
    }

    // A snapshot of an index: a regular one sights the marks that are over, the final one makes them provisional. Answers how
    // many these are.
    pub fn snapshot<D: PricedDelta>(
        &mut self,
        underlying: usize,
        source: &D,
    ) -> Result<i64, Refusal>
        ensures step { (result, state_of B.Holds.held self.new) ≡ step (state_of B.Holds.held self.old) (snapshot underlying (source_of D.Delta.answer D.PricedDelta.at D.PricedDelta.worth source.now)) }
        ensures same { self.new.book.ghost_name ≡ self.old.book.ghost_name }
    {
        let index = self.admits(underlying, Underlying::Index)?;
        let before = self.inner.day(index);
        let round = admits_snapshot(before, source)?;
        let day = before.after(round, source.minute());
        self.watch(index, day, Rule::of(round), source)
    }

    // The cure of an index's last snapshot: makes the marks provisional that are sighted and still over. Answers how many
    // these are.
    pub fn cure<D: PricedDelta>(&mut self, underlying: usize, source: &D) -> Result<i64, Refusal>
        ensures step { (result, state_of B.Holds.held self.new) ≡ step (state_of B.Holds.held self.old) (cure underlying (source_of D.Delta.answer D.PricedDelta.at D.PricedDelta.worth source.now)) }
        ensures same { self.new.book.ghost_name ≡ self.old.book.ghost_name }
    {
        let index = self.admits(underlying, Underlying::Index)?;
        let before = self.inner.day(index);
        admits_cure(before, source)?;
        let day = before.cured(source.minute());
        self.watch(index, day, Rule::Cure, source)
    }

    // The settlement of an index's day over a cover: keeps the final breaches, and clears the day. Answers how many these are.
    pub fn settle<C: Cover>(&mut self, underlying: usize, cover: &C) -> Result<i64, Refusal>
        ensures step { (result, state_of B.Holds.held self.new) ≡ step (state_of B.Holds.held self.old) (settle underlying (C.Cover.amount cover.now)) }
        ensures same { self.new.book.ghost_name ≡ self.old.book.ghost_name }
    {
        let index = self.admits(underlying, Underlying::Index)?;
        let before = self.inner.day(index);
        admits_settlement(before)?;
        let settlement = Settlement {
            limits: self.fixed.terms.limits,
            cover,
            index: index.number,
        };
        let entities = self.fixed.terms.listing.entities;
        Ok(
            self.inner
                .judge_index(index, Day::new(), &settlement, entities),
        )
    }

    // A mark of an entity on an index's day, with what the last settlement kept of it.
    pub fn mark(&self, underlying: usize, entity: usize, mark: Mark) -> MarkRow
        ensures { result ≡ mark_answer (state_of B.Holds.held self.now) underlying entity mark }
    {
        if !self.fixed.live {
            return MarkRow::new();
        }
        self.inner
            .indices
            .get(underlying)
            .and_then(|index| index.marks.get(entity))
            .map_or(MarkRow::new(), |rows| rows.of(mark))
    }
}

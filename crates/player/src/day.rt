// An index's day: snapshots, cures, settlements and reports, with all that they did.
use crate::serve::{Session, call};
use crate::sources::{Places, Source};
use book::position::Book;
use delta::source::PricedDelta;
use handbook::request::Request;
use index::mark::{Four, MarkRow};
use index::report::Breach;
use index::value::value_for;
use journal::line::{CoverMake, SourceLine};
use monitor::state::Monitor;
use std::array;
use std::io::Write;
use terms::bounds::MOST_ENTITIES;
use terms::mark::Mark;

// The four marks of an entity.
fn marks<B: Book>(monitor: &Monitor<B>, underlying: usize, entity: usize) -> Four<MarkRow> {
    Four {
        net_long: monitor.mark(underlying, entity, Mark::NetLong),
        net_short: monitor.mark(underlying, entity, Mark::NetShort),
        gross_long: monitor.mark(underlying, entity, Mark::GrossLong),
        gross_short: monitor.mark(underlying, entity, Mark::GrossShort),
    }
}

// What a snapshot or a cure made of a mark, in a word, by its row before and after.
fn became(before: MarkRow, after: MarkRow) -> Option<&'static str> {
    if after.sighted {
        Some("sighted")
    } else if before.count < after.count {
        Some("provisional")
    } else {
        None
    }
}

impl<'n, 'b, 't, 'c, W: Write + Drop, B: Book> Session<'n, 'b, 't, 'c, W, B> {
    // Prints the marks that were sighted or made provisional, with their values at this call.
    fn tell_watch(
        &mut self,
        underlying: usize,
        source: &Source<'_, '_>,
        before: &[Four<MarkRow>; MOST_ENTITIES],
    ) -> anyhow::Result<()> {
        let sheet = self.monitor.sheet(underlying, source);
        for entity in 0..MOST_ENTITIES {
            for mark in Mark::ALL {
                let row = self.monitor.mark(underlying, entity, mark);
                if let Some(word) = became(before[entity].of(mark), row) {
                    let reading = self.monitor.reading_on(&sheet, entity);
                    let value = value_for(reading, source.price(), mark);
                    self.notices.mark(word, entity, mark, value)?;
                }
            }
        }
        Ok(())
    }

    // A snapshot of an index, or its cure, at the source of a line.
    pub(crate) fn watch(
        &mut self,
        is_cure: bool,
        underlying: usize,
        line: SourceLine<'_>,
    ) -> anyhow::Result<()> {
        let mut places = Places::new(line);
        let rows = places.fill(line);
        let source = rows.source(line);
        let monitor = &self.monitor;
        let before = array::from_fn(|entity| marks(monitor, underlying, entity));
        let request = if is_cure {
            Request::Cure { underlying, source }
        } else {
            Request::Snapshot { underlying, source }
        };
        let answer = call(self.notices, &mut self.monitor, request)?;
        if answer.is_ok() {
            self.tell_watch(underlying, &source, &before)?;
        }
        Ok(())
    }

    // Settles an index over a cover, and prints the final breaches.
    pub(crate) fn settle(&mut self, underlying: usize, make: CoverMake) -> anyhow::Result<()> {
        let cover = self.covers.cover(make);
        let request = Request::Settle { underlying, cover };
        let answer = call(self.notices, &mut self.monitor, request)?;
        if answer.is_err() {
            return Ok(());
        }
        for entity in 0..MOST_ENTITIES {
            for mark in Mark::ALL {
                if let Some(largest) = self.monitor.mark(underlying, entity, mark).kept {
                    self.notices.mark("final", entity, mark, largest)?;
                }
            }
        }
        Ok(())
    }

    // A report of an index into some rows, and prints those that were written.
    pub(crate) fn report(&mut self, underlying: usize, rows: usize) -> anyhow::Result<()> {
        let blank = Breach {
            entity: 0,
            mark: Mark::NetLong,
            largest: 0,
        };
        let mut breaches = vec![in self.heap; blank; rows]?;
        let answer = self.monitor.report(underlying, &mut breaches);
        self.notices.called(answer)?;
        let written = usize::try_from(answer.unwrap_or(0)).unwrap_or(0);
        for breach in breaches.iter().take(written) {
            self.notices
                .mark("row", breach.entity, breach.mark, breach.largest)?;
        }
        Ok(())
    }
}

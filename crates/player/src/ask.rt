// Questions to the monitor.
use crate::serve::Session;
use crate::sources::Places;
use book::position::Book;
use delta::notional::Notional;
use delta::source::Delta;
use journal::line::{Question, SourceLine};
use std::io::Write;
use terms::bounds::MOST_ENTITIES;
use terms::refusal::Refusal;

impl<'n, 'b, 't, 'c, W: Write + Drop, B: Book> Session<'n, 'b, 't, 'c, W, B> {
    // Prints market interest and the reading of each entity that holds something, or DELTA where one is missing.
    fn ask_reading<D: Delta>(&mut self, underlying: usize, source: &D) -> anyhow::Result<()> {
        if let Some((contract, entity)) = self.monitor.missing(underlying, source) {
            return self.notices.declined(Refusal::Delta { contract, entity });
        }
        self.notices
            .told(self.monitor.interest(underlying, source))?;
        let sheet = self.monitor.sheet(underlying, source);
        for entity in 0..MOST_ENTITIES {
            let (net, long, short) = self.monitor.reading_on(&sheet, entity);
            if long > 0 || short > 0 {
                self.notices.reading(entity, net, long, short)?;
            }
        }
        Ok(())
    }

    // Prints the readings at the source of a line, or at notional deltas.
    fn ask_reading_at(
        &mut self,
        underlying: usize,
        source: Option<SourceLine<'_>>,
    ) -> anyhow::Result<()> {
        let Some(line) = source else {
            return self.ask_reading(underlying, &Notional);
        };
        let mut places = Places::new(line);
        let rows = places.fill(line);
        self.ask_reading(underlying, &rows.source(line))
    }

    // Prints the answer to a question.
    pub(crate) fn ask(&mut self, question: Question<'_>) -> anyhow::Result<()> {
        let monitor = &self.monitor;
        match question {
            Question::Quantity { entity, contract } => {
                self.notices.told(monitor.quantity(entity, contract))
            }
            Question::Base { entity, contract } => {
                self.notices.told(monitor.base(entity, contract))
            }
            Question::Limit { underlying } => self.notices.told(monitor.limit(underlying)),
            Question::Ban { underlying } => {
                self.notices.told(u8::from(monitor.is_banned(underlying)))
            }
            Question::Violated { underlying, entity } => {
                self.notices.told(monitor.violated(underlying, entity))
            }
            Question::Charge { underlying, entity } => {
                self.notices.told(monitor.charge(underlying, entity))
            }
            Question::Notional { underlying } => {
                self.notices.told(monitor.notional_interest(underlying))
            }
            Question::Reading { underlying, source } => self.ask_reading_at(underlying, source),
            Question::Mark {
                underlying,
                entity,
                mark,
            } => self.notices.row(monitor.mark(underlying, entity, mark)),
        }
    }
}

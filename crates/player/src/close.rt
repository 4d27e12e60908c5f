// The close of a stock, with all that it did.
use crate::serve::{Session, call};
use crate::sources::{Places, Source};
use book::position::Book;
use handbook::request::Request;
use journal::line::SourceLine;
use std::io::Write;
use terms::bounds::MOST_ENTITIES;

// What became of a ban, in a word.
fn turn(before: bool, after: bool) -> &'static str {
    match (before, after) {
        (false, false) => "none",
        (false, true) => "begins",
        (true, true) => "holds",
        (true, false) => "ends",
    }
}

impl<'n, 'b, 't, 'c, W: Write + Drop, B: Book> Session<'n, 'b, 't, 'c, W, B> {
    // Prints who is charged, and what became of the ban.
    fn tell_close(
        &mut self,
        underlying: usize,
        banned: bool,
        closing: &Source<'_, '_>,
    ) -> anyhow::Result<()> {
        for entity in 0..MOST_ENTITIES {
            let charge = self.monitor.charge(underlying, entity);
            if charge > 0 {
                let violated = self.monitor.violated(underlying, entity);
                self.notices.charged(entity, violated, charge)?;
            }
        }
        let word = turn(banned, self.monitor.is_banned(underlying));
        let interest = self.monitor.interest(underlying, closing);
        self.notices.ban(word, interest)
    }

    // Closes a stock at two sources.
    fn close_at(
        &mut self,
        underlying: usize,
        two: Source<'_, '_>,
        closing: Source<'_, '_>,
    ) -> anyhow::Result<()> {
        let banned = self.monitor.is_banned(underlying);
        let request = Request::Close {
            underlying,
            two,
            closing,
        };
        let answer = call(self.notices, &mut self.monitor, request)?;
        if answer.is_ok() {
            self.tell_close(underlying, banned, &closing)?;
        }
        Ok(())
    }

    // Closes a stock at the sources of a line.
    pub(crate) fn close(
        &mut self,
        underlying: usize,
        two: SourceLine<'_>,
        closing: SourceLine<'_>,
    ) -> anyhow::Result<()> {
        let mut two_places = Places::new(two);
        let mut closing_places = Places::new(closing);
        let two_rows = two_places.fill(two);
        let closing_rows = closing_places.fill(closing);
        self.close_at(
            underlying,
            two_rows.source(two),
            closing_rows.source(closing),
        )
    }
}

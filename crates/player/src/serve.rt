// The lines once the monitor was opened.
use crate::covers::{AnyCover, Covers, hold};
use crate::notices::Notices;
use crate::sources::Source;
use book::position::{Book, Shape};
use handbook::replay::replay;
use handbook::request::Request;
use journal::line::Line;
use journal::reader::read;
use monitor::state::Monitor;
use replies::fault::Fault;
use std::alloc::Global;
use std::io::Write;
use tails::Tail;
use terms::refusal::Refusal;

// Makes one call, and prints and tells its answer. One type of source and one of cover serve all calls.
pub(crate) fn call<W: Write + Drop, B: Book>(
    notices: &mut Notices<W>,
    monitor: &mut Monitor<B>,
    request: Request<'_, Source<'_, '_>, AnyCover<'_, '_>>,
) -> anyhow::Result<Result<i64, Refusal>> {
    let mut answers = [Err(Refusal::Closed)];
    replay(monitor, &[request], &mut answers).unwrap();
    let answer = answers[0];
    notices.called(answer)?;
    Ok(answer)
}

// A monitor that calls and questions are put to, the covers that its settlements may take, and where the answers are printed.
#[derive(Drop)]
pub(crate) struct Session<'n, 'b, 't, 'c, W: Write + Drop, B> {
    pub(crate) heap: Global,
    pub(crate) notices: &'n mut Notices<W>,
    pub(crate) monitor: Monitor<'b, 't, B>,
    pub(crate) covers: &'n mut Covers<'c>,
}

impl<'n, 'b, 't, 'c, W: Write + Drop, B: Book> Session<'n, 'b, 't, 'c, W, B> {
    pub(crate) fn new(
        heap: Global,
        notices: &'n mut Notices<W>,
        monitor: Monitor<'b, 't, B>,
        covers: &'n mut Covers<'c>,
    ) -> Session<'n, 'b, 't, 'c, W, B> {
        Session {
            heap,
            notices,
            monitor,
            covers,
        }
    }

    // Prints what was opened.
    pub(crate) fn tell_opening(&mut self, shape: Shape) -> anyhow::Result<()> {
        if self.monitor.is_open() {
            self.notices.opened(shape)
        } else {
            self.notices.not_opened()
        }
    }

    // Makes one call that prints its answer alone.
    fn call_only(
        &mut self,
        request: Request<'_, Source<'_, '_>, AnyCover<'_, '_>>,
    ) -> anyhow::Result<()> {
        let _ = call(self.notices, &mut self.monitor, request)?;
        Ok(())
    }

    fn set_limit(
        &mut self,
        underlying: usize,
        free_float: u64,
        deliveries: Tail<'_, u64>,
    ) -> anyhow::Result<()> {
        let deliveries: Vec<u64> = deliveries.collect(self.heap)?;
        self.call_only(Request::SetLimit {
            underlying,
            free_float,
            deliveries: &deliveries,
        })
    }

    // Takes the next line.
    pub(crate) fn serve(&mut self, line: &[u8]) -> anyhow::Result<()> {
        self.notices.next_line();
        match read(line) {
            Ok(Line::Blank) => Ok(()),
            Ok(Line::Declare(_)) => self.notices.malformed(Fault::AfterOpen),
            Ok(Line::Call(command)) => self.call_only(Request::Posting(command)),
            Ok(
                Line::SetLimit {
                    underlying,
                    free_float,
                    deliveries,
                },
            ) => self.set_limit(underlying, free_float, deliveries),
            Ok(
                Line::Close {
                    underlying,
                    two,
                    closing,
                },
            ) => self.close(underlying, two, closing),
            Ok(Line::Snapshot { underlying, source }) => self.watch(false, underlying, source),
            Ok(Line::Cure { underlying, source }) => self.watch(true, underlying, source),
            Ok(
                Line::Cash {
                    entity,
                    underlying,
                    amount,
                },
            ) => self.cash(entity, underlying, amount),
            Ok(Line::Holding(row)) => hold(self.notices, &mut self.covers.holdings, row),
            Ok(Line::Settle { underlying, cover }) => self.settle(underlying, cover),
            Ok(Line::Report { underlying, rows }) => self.report(underlying, rows),
            Ok(Line::Ask(question)) => self.ask(question),
            Err(fault) => self.notices.malformed(fault),
        }
    }
}

// What is printed: a notice for each line that has one, and the counts at the end.
use crate::tally::Tally;
use book::position::Shape;
use index::mark::MarkRow;
use journal::names::mark_word;
use replies::fault::Fault;
use replies::told::Told;
use std::alloc::Global;
use std::fmt::Display;
use std::io::{BufWriter, Write};
use terms::mark::Mark;
use terms::refusal::Refusal;

#[derive(Drop)]
pub(crate) struct Notices<W: Write + Drop> {
    out: BufWriter<W>,
    tally: Tally,
}

impl<W: Write + Drop> Notices<W> {
    pub(crate) fn new(heap: Global, out: W) -> anyhow::Result<Notices<W>> {
        Ok(Notices {
            out: BufWriter::new(heap, out)?,
            tally: Tally::default(),
        })
    }

    // Goes to the next line: what is printed next is of that one.
    pub(crate) fn next_line(&mut self) {
        self.tally.count_line();
    }

    // A notice of the line.
    fn tell<T: Display + Drop>(&mut self, what: T) -> anyhow::Result<()> {
        let n = self.tally.lines;
        writeln!(self.out, "{n} {what}")?;
        Ok(())
    }

    pub(crate) fn malformed(&mut self, fault: Fault) -> anyhow::Result<()> {
        self.tally.count_malformed();
        let n = self.tally.lines;
        writeln!(self.out, "{n} malformed {fault}")?;
        Ok(())
    }

    pub(crate) fn declared(&mut self) -> anyhow::Result<()> {
        self.tell("declared")
    }

    pub(crate) fn opened(&mut self, shape: Shape) -> anyhow::Result<()> {
        let n = self.tally.lines;
        let Shape {
            entities,
            contracts,
            capacity,
        } = shape;
        writeln!(self.out, "{n} open {entities} {contracts} {capacity}")?;
        Ok(())
    }

    pub(crate) fn not_opened(&mut self) -> anyhow::Result<()> {
        self.tell("not open")
    }

    // The answer to a call.
    pub(crate) fn called(&mut self, answer: Result<i64, Refusal>) -> anyhow::Result<()> {
        self.tally.count_call(answer.is_ok());
        self.tell(Told(answer))
    }

    // The answer to a question.
    pub(crate) fn told<T: Display + Drop>(&mut self, answer: T) -> anyhow::Result<()> {
        let n = self.tally.lines;
        writeln!(self.out, "{n} ok {answer}")?;
        Ok(())
    }

    // The answer to a question that lacks something. Questions are not counted.
    pub(crate) fn declined(&mut self, refusal: Refusal) -> anyhow::Result<()> {
        self.tell(Told(Err(refusal)))
    }

    // A line that is taken and answers nothing.
    pub(crate) fn taken(&mut self) -> anyhow::Result<()> {
        self.tell("ok")
    }

    // What is kept of a mark.
    pub(crate) fn row(&mut self, row: MarkRow) -> anyhow::Result<()> {
        let n = self.tally.lines;
        let sighted = u8::from(row.sighted);
        let MarkRow { count, largest, .. } = row;
        writeln!(self.out, "{n} ok {sighted} {count} {largest}")?;
        Ok(())
    }

    // What became of an entity's mark, and its value.
    pub(crate) fn mark(
        &mut self,
        what: &str,
        entity: usize,
        mark: Mark,
        value: u128,
    ) -> anyhow::Result<()> {
        let mark = mark_word(mark);
        writeln!(self.out, "  {what} {entity} {mark} {value}")?;
        Ok(())
    }

    // What an entity violates and is charged.
    pub(crate) fn charged(
        &mut self,
        entity: usize,
        violated: u64,
        charge: u64,
    ) -> anyhow::Result<()> {
        writeln!(self.out, "  charged {entity} {violated} {charge}")?;
        Ok(())
    }

    // What became of a ban, and market interest.
    pub(crate) fn ban(&mut self, turn: &str, interest: u128) -> anyhow::Result<()> {
        writeln!(self.out, "  ban {turn} interest {interest}")?;
        Ok(())
    }

    // The reading of an entity.
    pub(crate) fn reading(
        &mut self,
        entity: usize,
        net: i64,
        long: i64,
        short: i64,
    ) -> anyhow::Result<()> {
        writeln!(
            self.out,
            "  entity {entity} net {net} long {long} short {short}"
        )?;
        Ok(())
    }

    pub(crate) fn end(mut self) -> anyhow::Result<()> {
        let Tally {
            lines,
            accepted,
            refused,
            malformed,
        } = self.tally;
        writeln!(
            self.out,
            "end lines {lines} accepted {accepted} refused {refused} malformed {malformed}"
        )?;
        self.out.flush()?;
        Ok(())
    }
}

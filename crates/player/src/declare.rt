// The lines before the monitor is open.
use crate::covers::{Holdings, hold};
use crate::notices::Notices;
use journal::line::Line;
use journal::reader::read;
use opening::setup::Setup;
use replies::fault::Fault;
use std::io::Write;

// What the line declares; none where it has no word.
fn declared(setup: &mut Setup, line: Result<Line<'_>, Fault>) -> Option<Result<(), Fault>> {
    match line {
        Ok(Line::Blank) => None,
        Ok(Line::Declare(declaration)) => Some(setup.declare(declaration)),
        Ok(_) => Some(setup.ready()),
        Err(fault) => Some(Err(fault)),
    }
}

// Takes one line; what is printed of `open` is left to who opens. A holding is no call, so it may come before.
pub(crate) fn declare<W: Write + Drop>(
    notices: &mut Notices<W>,
    setup: &mut Setup,
    holdings: &mut Holdings,
    line: &[u8],
) -> anyhow::Result<()> {
    let line = read(line);
    if let Ok(Line::Holding(row)) = line {
        return hold(notices, holdings, row);
    }
    match declared(setup, line) {
        Some(Err(fault)) => notices.malformed(fault),
        Some(Ok(())) if !setup.is_open() => notices.declared(),
        Some(Ok(())) | None => Ok(()),
    }
}

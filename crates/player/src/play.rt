// A whole journal.
use crate::covers::{CASH_PLACES, Covers, Holdings};
use crate::declare::declare;
use crate::lines::Lines;
use crate::notices::Notices;
use crate::serve::Session;
use crate::sources::blank;
use book::grid::Grid;
use book::list::List;
use book::position::Book;
use journal::line::Layout;
use monitor::state::Monitor;
use opening::opened::Opening;
use opening::setup::Setup;
use std::alloc::Global;
use std::io::{Read, Write};
use terms::limits::Limits;

// The lines up to the one that opens, or all of them where none does.
fn declare_all<R: Read + Drop, W: Write + Drop>(
    lines: &mut Lines<R>,
    notices: &mut Notices<W>,
    holdings: &mut Holdings,
) -> anyhow::Result<Setup> {
    let mut setup = Setup::new();
    // A count: a loop has to end, and no clause says that an input does.
    for _ in 0..u64::MAX {
        let Some(line) = lines.next_line()? else {
            break;
        };
        notices.next_line();
        declare(notices, &mut setup, holdings, line)?;
        if setup.is_open() {
            break;
        }
    }
    Ok(setup)
}

// Opens a monitor over the book and takes the rest of the lines.
fn serve_all<R: Read + Drop, W: Write + Drop, B: Book>(
    heap: Global,
    lines: &mut Lines<R>,
    notices: &mut Notices<W>,
    setup: &Setup,
    covers: &mut Covers<'_>,
    limits: Limits,
    book: &mut B,
) -> anyhow::Result<()> {
    let shape = book.shape();
    let monitor = Monitor::open(book, setup.contracts(), setup.underlyings(), limits);
    let mut session = Session::new(heap, notices, monitor, covers);
    session.tell_opening(shape)?;
    // A count, as above.
    for _ in 0..u64::MAX {
        let Some(line) = lines.next_line()? else {
            break;
        };
        session.serve(line)?;
    }
    Ok(())
}

// The number, or the largest one where it does not fit.
fn narrow(n: usize) -> u32 {
    u32::try_from(n).unwrap_or(u32::MAX)
}

// Makes the book that was declared and serves the rest of the lines over it.
fn serve_over<R: Read + Drop, W: Write + Drop>(
    heap: Global,
    lines: &mut Lines<R>,
    notices: &mut Notices<W>,
    setup: &Setup,
    covers: &mut Covers<'_>,
    opening: Opening,
) -> anyhow::Result<()> {
    let Opening { book, limits } = opening;
    match book.layout {
        Layout::Grid => {
            let mut cells = vec![in heap; 0i64; book.places]?;
            let mut grid = Grid::new(&mut cells, book.entities, book.contracts);
            serve_all(heap, lines, notices, setup, covers, limits, &mut grid)
        }
        Layout::List => {
            let mut rows = vec![in heap; blank(0i64); book.places]?;
            let mut list = List::new(&mut rows, narrow(book.entities), narrow(book.contracts));
            serve_all(heap, lines, notices, setup, covers, limits, &mut list)
        }
    }
}

// Plays the journal from the input, and prints what it did.
pub fn play<R: Read + Drop>(rt: &HostRuntime, input: R) -> anyhow::Result<()> {
    let mut lines = Lines::new(rt.alloc(), input)?;
    let mut notices = Notices::new(rt.alloc(), rt.stdout())?;
    let mut places = vec![in rt.alloc(); blank(0u64); CASH_PLACES]?;
    let mut covers = Covers::new(rt.alloc(), &mut places);
    let setup = declare_all(&mut lines, &mut notices, &mut covers.holdings)?;
    if let Some(opening) = setup.opening() {
        serve_over(
            rt.alloc(),
            &mut lines,
            &mut notices,
            &setup,
            &mut covers,
            opening,
        )?;
    }
    notices.end()
}

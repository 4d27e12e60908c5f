// The work over a book of either make.
use crate::close::close;
use crate::days::days;
use crate::digest::Measured;
use crate::posts::posts;
use book::grid::Grid;
use book::list::List;
use book::position::Book;
use book::row::Row;
use terms::bounds::{MOST_CONTRACTS, MOST_ENTITIES, MOST_PAIRS};

#[derive(Clone, Copy)]
pub(crate) enum Work {
    Posts,
    Index,
    Close,
}

fn over<B: Book>(
    rt: &HostRuntime,
    book: &mut B,
    work: Work,
    rounds: u64,
) -> anyhow::Result<Measured> {
    match work {
        Work::Posts => posts(rt, book, rounds),
        Work::Index => days(rt, book, rounds),
        Work::Close => close(rt, book, rounds),
    }
}

pub(crate) fn on_grid(rt: &HostRuntime, work: Work, rounds: u64) -> anyhow::Result<Measured> {
    let mut cells = vec![in rt.alloc(); 0i64; MOST_PAIRS]?;
    let mut grid = Grid::new(&mut cells, MOST_ENTITIES, MOST_CONTRACTS);
    over(rt, &mut grid, work, rounds)
}

pub(crate) fn on_list(rt: &HostRuntime, work: Work, rounds: u64) -> anyhow::Result<Measured> {
    let mut places = vec![in rt.alloc(); Row {
        key: 0,
        value: 0i64
    }; MOST_PAIRS]?;
    let mut list = List::new(&mut places, MOST_ENTITIES as u32, MOST_CONTRACTS as u32);
    over(rt, &mut list, work, rounds)
}

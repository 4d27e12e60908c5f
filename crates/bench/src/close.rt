// Closes of a stock in a ban.
use crate::digest::{Digest, Measured};
use crate::noise::Noise;
use crate::scene::{DeltaPlaces, LIMITS, SEED, deltas, fill, flow, listed, stock_kind};
use book::position::Book;
use book::row::Row;
use delta::published::Published;
use monitor::state::Monitor;
use std::array;
use std::time::Instant;
use terms::bounds::{CLOSE_MINUTE, MOST_CONTRACTS, TWO_MINUTE};
use terms::kind::{Contract, Underlying};

// What the last close did to an entity.
fn note_close<B: Book>(monitor: &Monitor<B>, digest: &mut Digest, entity: usize) {
    digest.note(monitor.violated(0, entity));
    digest.note(monitor.charge(0, entity));
    digest.note(u64::from(monitor.is_banned(0)));
}

// A whole ban: the close that begins it, 32 closes that hold it, and the one that ends it.
fn ban<B: Book>(
    monitor: &mut Monitor<B>,
    noise: &mut Noise,
    two: Published<'_, '_>,
    closing: Published<'_, '_>,
    digest: &mut Digest,
) {
    digest.answer(monitor.set_limit(0, 1_000_000, &[0]));
    digest.answer(monitor.close(0, &two, &closing));
    for entity in 0..32usize {
        flow(monitor, noise, digest);
        digest.answer(monitor.close(0, &two, &closing));
        note_close(monitor, digest, 4 * entity);
    }
    digest.answer(monitor.set_limit(0, 1_000_000_000_000, &[0]));
    digest.answer(monitor.close(0, &two, &closing));
}

pub(crate) fn close<B: Book>(
    rt: &HostRuntime,
    book: &mut B,
    rounds: u64,
) -> anyhow::Result<Measured> {
    let mut noise = Noise::new(SEED);
    let contracts: [Contract; MOST_CONTRACTS] = array::from_fn(|c| listed(stock_kind(c)));
    let mut two_places: DeltaPlaces = [Row { key: 0, value: 0 }; MOST_CONTRACTS];
    let mut closing_places: DeltaPlaces = [Row { key: 0, value: 0 }; MOST_CONTRACTS];
    let two_rows = deltas(&mut noise, &contracts, &mut two_places);
    let closing_rows = deltas(&mut noise, &contracts, &mut closing_places);
    fill(book, &mut noise);
    let mut monitor = Monitor::open(book, &contracts, &[Underlying::Stock], LIMITS);
    let two = Published::new(TWO_MINUTE, 2_000_000, &two_rows);
    let closing = Published::new(CLOSE_MINUTE, 2_100_000, &closing_rows);
    let mut digest = Digest::new();
    let start = Instant::now(rt)?;
    for _ in 0..rounds {
        ban(&mut monitor, &mut noise, two, closing, &mut digest);
    }
    digest.measured(rt, start)
}

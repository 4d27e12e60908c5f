// Whole days of an index.
use crate::digest::{Digest, Measured};
use crate::noise::Noise;
use crate::scene::{DeltaPlaces, LIMITS, SEED, deltas, fill, flow, index_kind, listed};
use book::position::Book;
use book::register::Register;
use book::row::Row;
use cover::cash::Cash;
use delta::published::Published;
use monitor::state::Monitor;
use std::array;
use std::time::Instant;
use terms::bounds::{MOST_CONTRACTS, MOST_ENTITIES};
use terms::kind::{Contract, Underlying};
use terms::mark::Mark;

// The published deltas of a minute.
fn source<'r, 'a>(minute: u16, rows: &'r Register<'a, i32>) -> Published<'r, 'a> {
    let minute = u64::from(minute);
    Published::new(minute, 2_000_000 + minute, rows)
}

// A regular snapshot and its cure.
fn round<B: Book>(
    monitor: &mut Monitor<B>,
    noise: &mut Noise,
    digest: &mut Digest,
    rows: &Register<'_, i32>,
    minute: u16,
) {
    flow(monitor, noise, digest);
    digest.answer(monitor.snapshot(0, &source(minute, rows)));
    flow(monitor, noise, digest);
    digest.answer(monitor.cure(0, &source(minute.saturating_add(15), rows)));
}

// A whole day: 21 regular snapshots and their cures, the final one and the settlement.
fn day<B: Book>(
    monitor: &mut Monitor<B>,
    noise: &mut Noise,
    digest: &mut Digest,
    rows: &Register<'_, i32>,
    cash: &Cash<'_>,
) {
    for step in 0..21u16 {
        round(monitor, noise, digest, rows, 555 + 16 * step);
    }
    flow(monitor, noise, digest);
    digest.answer(monitor.snapshot(0, &source(900, rows)));
    digest.answer(monitor.settle(0, cash));
}

// Cash for every second entity.
fn pay(cash: &mut Cash<'_>) {
    for e in 0..64u64 {
        let _ = cash.report(2 * e as usize, 0, 100_000_000 * e);
    }
}

// What the last settlement kept of an entity.
fn note_kept<B: Book>(monitor: &Monitor<B>, digest: &mut Digest, entity: usize) {
    for mark in Mark::ALL {
        let kept = monitor.mark(0, entity, mark).kept.unwrap_or(0);
        digest.note(u64::try_from(kept).unwrap_or(u64::MAX));
    }
}

pub(crate) fn days<B: Book>(
    rt: &HostRuntime,
    book: &mut B,
    rounds: u64,
) -> anyhow::Result<Measured> {
    let mut noise = Noise::new(SEED);
    let contracts: [Contract; MOST_CONTRACTS] = array::from_fn(|c| listed(index_kind(c)));
    let mut places: DeltaPlaces = [Row { key: 0, value: 0 }; MOST_CONTRACTS];
    let rows = deltas(&mut noise, &contracts, &mut places);
    fill(book, &mut noise);
    let mut cash_places = [Row {
        key: 0,
        value: 0u64,
    }; 512];
    let mut cash = Cash::new(&mut cash_places);
    pay(&mut cash);
    let mut monitor = Monitor::open(book, &contracts, &[Underlying::Index], LIMITS);
    let mut digest = Digest::new();
    let start = Instant::now(rt)?;
    for round in 0..rounds {
        day(&mut monitor, &mut noise, &mut digest, &rows, &cash);
        note_kept(
            &monitor,
            &mut digest,
            (round % MOST_ENTITIES as u64) as usize,
        );
    }
    digest.measured(rt, start)
}

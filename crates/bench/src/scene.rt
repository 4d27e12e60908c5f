// What the rows are measured on: contracts, their deltas, a book in which every pair is non-zero, and a flow of changes.
use crate::digest::Digest;
use crate::noise::Noise;
use book::position::Book;
use book::register::Register;
use book::row::Row;
use monitor::state::Monitor;
use terms::bounds::{MOST_CONTRACTS, MOST_ENTITIES};
use terms::kind::{Contract, Kind};
use terms::limits::Limits;

pub(crate) const SEED: u64 = 7;

pub(crate) const LIMITS: Limits = Limits {
    net: 2_000_000_000,
    gross: 8_000_000_000,
};

pub(crate) type DeltaPlaces = [Row<i32>; MOST_CONTRACTS];

// A future, a call and a put in turn.
pub(crate) fn stock_kind(c: usize) -> Kind {
    match c % 3 {
        0 => Kind::Future,
        1 => Kind::Call,
        _ => Kind::Put,
    }
}

// A call and a put in turn.
pub(crate) fn index_kind(c: usize) -> Kind {
    if c % 2 == 0 { Kind::Call } else { Kind::Put }
}

// A contract of a kind, on the only underlying.
pub(crate) fn listed(kind: Kind) -> Contract {
    Contract {
        underlying: 0,
        kind,
    }
}

// A lawful delta for each contract, none of them zero.
pub(crate) fn deltas<'a>(
    noise: &mut Noise,
    contracts: &[Contract; MOST_CONTRACTS],
    places: &'a mut DeltaPlaces,
) -> Register<'a, i32> {
    let mut rows = Register::new(places);
    for (c, contract) in contracts.iter().enumerate() {
        let size = 1 + noise.below(10_000) as i32;
        let delta = match contract.kind {
            Kind::Future => 10_000,
            Kind::Call => size,
            Kind::Put => -size,
        };
        let _ = rows.put(c as u64, delta);
    }
    rows
}

// Gives each pair an odd quantity.
pub(crate) fn fill<B: Book>(book: &mut B, noise: &mut Noise) {
    for e in 0..MOST_ENTITIES {
        for c in 0..MOST_CONTRACTS {
            let _ = book.post(e, c, 2 * noise.within(500) + 1);
        }
    }
}

// A few even changes, which leave no pair at zero.
pub(crate) fn flow<B: Book>(monitor: &mut Monitor<B>, noise: &mut Noise, digest: &mut Digest) {
    for _ in 0..8 {
        let entity = noise.below(MOST_ENTITIES as u64) as usize;
        let contract = noise.below(MOST_CONTRACTS as u64) as usize;
        digest.answer(monitor.post(entity, contract, 2 * noise.within(2)));
    }
}

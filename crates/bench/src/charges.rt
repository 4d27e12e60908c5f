// The market-wide limit and a charge of each of 256 stocks.
use crate::digest::{Digest, Measured};
use crate::noise::Noise;
use crate::scene::SEED;
use rules::bounds::{DAYS_MOST, DELIVERY_MOST};
use rules::charge::charge;
use rules::limit::limit;
use std::alloc::Global;
use std::time::Instant;
use terms::bounds::PRICE_BOUND;

const STOCKS: usize = 256;

#[derive(Clone, Copy)]
struct Stock {
    free_float: u64,
    deliveries: [u64; DAYS_MOST],
    violated: u64,
    price: u64,
}

fn make_stock(noise: &mut Noise) -> Stock {
    let free_float = 10 + noise.below(999_999_999_990);
    let mut deliveries = [0u64; DAYS_MOST];
    for delivery in deliveries.iter_mut() {
        *delivery = noise.below(DELIVERY_MOST);
    }
    Stock {
        free_float,
        deliveries,
        violated: noise.below(10_000_000_000),
        price: 1 + noise.below(PRICE_BOUND),
    }
}

fn make_stocks(heap: Global) -> anyhow::Result<Vec<Stock>> {
    let mut noise = Noise::new(SEED);
    let mut stocks = Vec::with_capacity(heap, STOCKS)?;
    for _ in 0..STOCKS {
        stocks.push(make_stock(&mut noise))?;
    }
    Ok(stocks)
}

pub(crate) fn charges(rt: &HostRuntime, rounds: u64) -> anyhow::Result<Measured> {
    let stocks = make_stocks(rt.alloc())?;
    let mut digest = Digest::new();
    let start = Instant::now(rt)?;
    for _ in 0..rounds {
        for stock in stocks.iter() {
            digest.note(limit(stock.free_float, &stock.deliveries).unwrap_or(0));
            digest.note(charge(stock.violated, stock.price));
        }
    }
    digest.measured(rt, start)
}

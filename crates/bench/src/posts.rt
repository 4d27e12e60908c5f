// A million posts.
use crate::digest::{Digest, Measured};
use crate::noise::Noise;
use crate::scene::{LIMITS, SEED, listed, stock_kind};
use book::position::Book;
use monitor::state::Monitor;
use std::alloc::Global;
use std::array;
use std::time::Instant;
use terms::bounds::{MOST_CONTRACTS, MOST_ENTITIES};
use terms::kind::{Contract, Underlying};

const POSTS: usize = 1_000_000;

#[derive(Clone, Copy)]
struct Post {
    entity: usize,
    contract: usize,
    change: i64,
}

fn change(noise: &mut Noise) -> i64 {
    if noise.below(64) == 0 {
        2_000_000_000
    } else {
        50 * noise.within(3)
    }
}

// Some posts outside the book and some too large, and changes small enough that quantities often come back to zero.
fn stream(heap: Global) -> anyhow::Result<Vec<Post>> {
    let mut noise = Noise::new(SEED);
    let mut posts = Vec::with_capacity(heap, POSTS)?;
    for _ in 0..POSTS {
        let entity = noise.below(MOST_ENTITIES as u64 + 1) as usize;
        let contract = noise.below(MOST_CONTRACTS as u64) as usize;
        let change = change(&mut noise);
        posts.push(Post {
            entity,
            contract,
            change,
        })?;
    }
    Ok(posts)
}

pub(crate) fn posts<B: Book>(
    rt: &HostRuntime,
    book: &mut B,
    rounds: u64,
) -> anyhow::Result<Measured> {
    let stream = stream(rt.alloc())?;
    let contracts: [Contract; MOST_CONTRACTS] = array::from_fn(|c| listed(stock_kind(c)));
    let mut monitor = Monitor::open(book, &contracts, &[Underlying::Stock], LIMITS);
    let mut digest = Digest::new();
    let start = Instant::now(rt)?;
    for _ in 0..rounds {
        for post in stream.iter() {
            digest.answer(monitor.post(post.entity, post.contract, post.change));
        }
    }
    digest.measured(rt, start)
}

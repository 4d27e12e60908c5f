// What bench/run.py measures: the same work as bench/plain, on the proved crates. With no word it does each row once and prints its
// digest; with a row and a number of rounds it prints the digest and the nanoseconds that the rounds took.
#![tactic(auto)]

mod books;
mod charges;
mod close;
mod days;
mod digest;
mod noise;
mod posts;
mod row;
mod scene;

use crate::row::Row;
use std::env;

const USAGE: &str = "usage: bench [ROW ROUNDS]";

// Does each row once.
fn each_once(rt: &HostRuntime) -> anyhow::Result<()> {
    for row in Row::ALL {
        let name = row.name();
        let digest = row.measure(rt, 1)?.digest;
        println!(rt; "{name} {digest}")?;
    }
    Ok(())
}

fn one(rt: &HostRuntime, row: &str, rounds: &str) -> anyhow::Result<()> {
    match (Row::named(row), rounds.parse::<u64>()) {
        (Some(row), Ok(rounds)) => {
            let measured = row.measure(rt, rounds)?;
            let (digest, nanos) = (measured.digest, measured.nanos);
            println!(rt; "{digest} {nanos}")?;
        }
        _ => println!(rt; "{USAGE}")?,
    }
    Ok(())
}

fn main(rt: HostRuntime) -> anyhow::Result<()> {
    let mut words = env::args(&rt)?;
    let _ = words.next();
    match (words.next(), words.next()) {
        (None, _) => each_once(&rt),
        (Some(row), Some(rounds)) => one(&rt, row.as_str(), rounds.as_str()),
        _ => Ok(println!(rt; "{USAGE}")?),
    }
}

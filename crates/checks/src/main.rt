// Plays this crate's journals for the gate to compare with stdout: standard input first, then each file that is named.
#![tactic(auto)]

use player::play::play;
use std::env;
use std::fs::File;

fn play_all(rt: &HostRuntime) -> anyhow::Result<()> {
    play(rt, rt.stdin())?;
    let mut names = env::args(rt)?;
    let _ = names.next();
    for name in names {
        println!(rt; "{name}")?;
        play(rt, File::open(rt, name.as_str())?)?;
    }
    Ok(())
}

fn main(rt: HostRuntime) -> anyhow::Result<()> {
    play_all(&rt)
}

// Replays a journal: the file that the first argument names, or standard input where there is none.
#![tactic(auto)]

use player::play::play;
use std::env;
use std::fs::File;
use std::process::ExitCode;

const USAGE: &str = "usage: futeq [JOURNAL]
Replays the journal from the file, or from standard input where none is named: opens a monitor,
makes each call in turn, and prints a line for each. docs/JOURNAL.md has the format.";

fn run(rt: &HostRuntime) -> anyhow::Result<()> {
    let mut args = env::args(rt)?;
    let _ = args.next();
    match args.next() {
        None => play(rt, rt.stdin()),
        Some(word) => match word.as_str() {
            "-h" | "--help" => {
                println!(rt; "{USAGE}")?;
                Ok(())
            }
            path => play(rt, File::open(rt, path)?),
        },
    }
}

fn main(rt: HostRuntime) -> ExitCode {
    match run(&rt) {
        Ok(()) => ExitCode::SUCCESS,
        Err(error) => {
            let _ = eprintln!(rt; "futeq: {error}");
            ExitCode::FAILURE
        }
    }
}

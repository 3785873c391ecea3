// The bench: one case a line from standard input, one line of answer each. A line it cannot read gives `? LINE`.
#![tactic(auto)]

mod answer;
mod case;
mod error;
mod host;
mod line;
mod memory;
mod number;
mod read;
mod record;
mod request;
mod rule;
mod word;

use crate::answer::answer;
use std::io::{BufRead, BufReader};

fn run(rt: &HostRuntime) -> anyhow::Result<()> {
    for line in BufReader::new(rt.alloc(), rt.stdin())?.lines(rt.alloc()) {
        let text = answer(rt.alloc(), line?.as_str())?;
        println!(rt; "{text}")?;
    }
    Ok(())
}

fn main(rt: HostRuntime) -> anyhow::Result<()> {
    run(&rt)
}

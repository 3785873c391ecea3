// The command line of the rule engine.
#![tactic(auto)]

mod check;
mod excerpt;
mod hint;
mod inspect;
mod letter;
mod listing;
mod refusal;
mod refused;
mod report;
#[cfg(test)]
mod tests;
mod text;
mod title;

use crate::check::check;
use crate::inspect::inspect;
use anyhow::anyhow;
use std::env;
use std::process::ExitCode;

const HELP: &str = "nut: the Nut rule engine of a push server

  nut check FILE          read the definitions of a file one after another, and tell of each
                          that it is ok, or where and why it is refused
  nut inspect RULE PUSH   load a stored rule and a push record from files, list the rule,
                          show the facts, and store the rule again
  nut help                print this page

FILE has definitions in Nut (docs/language.md). RULE is a stored rule (NSC), PUSH a push record
(PSH); docs/formats.md has both byte by byte. A refusal is told with its number, which
docs/numbers.md explains; with a refusal the program ends with status 1.

  nut check crates/nut/data/names.nut
  nut inspect crates/nut/data/double.nsc crates/nut/data/icon.psh";

fn run(rt: &HostRuntime) -> anyhow::Result<()> {
    let words: Vec<String> = env::args(rt)?.skip(1).collect(rt.alloc())?;
    let words: Vec<&str> = words.iter().map(|word| word.as_str()).collect(rt.alloc())?;
    match words.as_slice() {
        ["check", file] => check(rt, file),
        ["inspect", rule, push] => inspect(rt, rule, push),
        ["help" | "--help"] => {
            println!(rt; "{HELP}")?;
            Ok(())
        }
        _ => {
            eprintln!(rt; "{HELP}")?;
            Err(anyhow!("there is no such command, or it takes other words; see above"))
        }
    }
}

// The error is told here, so that it begins with the program's name and is told once.
fn main(rt: HostRuntime) -> anyhow::Result<ExitCode> {
    match run(&rt) {
        Ok(()) => Ok(ExitCode::SUCCESS),
        Err(error) => {
            eprintln!(rt; "nut: {error}")?;
            Ok(ExitCode::FAILURE)
        }
    }
}

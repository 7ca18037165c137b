// Plays a scenario of array calls and power cuts from standard input, and writes a line for each.
#![tactic(auto)]

mod ages;
mod answer;
mod command;
mod current;
mod player;
mod scenario;
mod settings;
mod show;
mod stack;
mod words;

use answer::Line;
use anyhow::{Context, anyhow};
use program_parts::input::read_input;
use scenario::read_scenario;
use stack::play_scenario;
use std::alloc::Global;
use std::fmt::Write;

/// The most bytes of a scenario: 1 MiB.
const MOST_BYTES: u32 = 1_048_576;

fn answers(heap: Global, bytes: &[u8]) -> anyhow::Result<String> {
    let scenario = read_scenario(heap, bytes)?;
    let mut out = String::new(heap);
    play_scenario(heap, &scenario, &mut out)?;
    if let Some(number) = scenario.bad_line {
        let line = Line::Bad(number);
        writeln!(out, "{line}").map_err(|_| anyhow!("no memory for the answers"))?;
    }
    Ok(out)
}

fn run(rt: &HostRuntime) -> anyhow::Result<()> {
    let bytes = read_input(rt.alloc(), rt.stdin(), MOST_BYTES)?.context(
        "the scenario has more than 1 MiB",
    )?;
    rt.print(answers(rt.alloc(), bytes.as_slice())?)?;
    Ok(())
}

fn main(rt: HostRuntime) -> anyhow::Result<()> {
    run(&rt)
}

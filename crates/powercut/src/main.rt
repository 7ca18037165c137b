// Cuts power in the middle of 24 stores to four members under a write buffer, and tells what stands after power-on.
#![tactic(auto)]

mod table;

use anyhow::{Context, anyhow};
use cut_script::{BLOCKS, MEMBERS};
use fuse::Fuse;
use member_store::MemberStore;
use program_parts::ending::end;
use program_parts::zeros::zeros;
use std::alloc::Global;
use std::env;
use std::process::ExitCode;
use table::Report;
use write_buffer::buffer::WriteBuffer;

const USAGE: &str =
    "usage: powercut STORES (the stores and barriers that reach the members before power goes)";

// The one word of the command line, a number.
fn setting(rt: &HostRuntime) -> anyhow::Result<usize> {
    let mut words = env::args(rt)?;
    let _ = words.next();
    let (Some(word), None) = (words.next(), words.next()) else {
        return Err(anyhow!("{USAGE}"));
    };
    word.parse::<usize>().context(USAGE)
}

// Runs the script on members of zeros, of which `left` stores and barriers reach them.
fn cut(heap: Global, left: usize) -> anyhow::Result<Report> {
    let memory = zeros(heap, MEMBERS, BLOCKS)?.context("no memory store")?;
    let mut store = WriteBuffer::new(heap, Fuse::new(memory, Some(left)))
        .ok()
        .context("no memory for the write buffer")?;
    let progress = cut_script::run(&mut store);
    store.power_on();
    let stands = cut_script::standing(&mut store).context("a read was refused")?;
    Ok(Report { progress, stands })
}

fn run(rt: &HostRuntime) -> anyhow::Result<()> {
    let report = cut(rt.alloc(), setting(rt)?)?;
    rt.println(report)?;
    Ok(())
}

fn main(rt: HostRuntime) -> ExitCode {
    let outcome = run(&rt);
    end(&rt, outcome)
}

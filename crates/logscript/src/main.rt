//! Runs scripts of log calls and power cuts on a ring log or a flag log, and writes a line for each command.
#![tactic(auto)]

mod answer;
mod command;
mod script;

use answer::{Shows, perform};
use anyhow::Context;
use command::Command;
use flag_log::flag::FlagLog;
use fuse_series::FuseSeries;
use intent_log::IntentLog;
use member_store::MemberStore;
use program_parts::ending::end;
use program_parts::input::read_input;
use program_parts::line_error::LineError;
use program_parts::log_kind::LogKind;
use ring_log::ring::RingLog;
use script::{Head, Script};
use std::alloc::Global;
use std::fmt::Write;
use std::mem;
use std::process::ExitCode;
use write_buffer::buffer::WriteBuffer;

/// The most bytes of a script: 256 KiB.
const MOST_BYTES: u32 = 262_144;

fn answer_all<L: IntentLog + Shows>(
    log: &mut L,
    commands: &[Command],
    out: &mut String,
) -> anyhow::Result<()> {
    for command in commands {
        match perform(log, command) {
            Ok(answer) => writeln!(out, "{answer}"),
            Err(refusal) => writeln!(out, "{refusal}"),
        }
        .context("no memory for the answers")?;
    }
    Ok(())
}

fn answer_on<S: MemberStore + Drop>(
    kind: LogKind,
    store: S,
    commands: &[Command],
    out: &mut String,
) -> anyhow::Result<()> {
    match kind {
        LogKind::Ring => answer_all(&mut RingLog::new(store), commands, out),
        LogKind::Flag => answer_all(&mut FlagLog::new(store), commands, out),
    }
}

fn run_script(heap: Global, script: Script, out: &mut String) -> anyhow::Result<()> {
    let Script {
        kind,
        buffered,
        memory,
        commands,
        mut settings,
        ..
    } = script;
    settings.reverse();
    let fuse = FuseSeries::new(memory, settings);
    if !buffered {
        return answer_on(kind, fuse, commands.as_slice(), out);
    }
    let buffer = WriteBuffer::new(heap, fuse)
        .ok()
        .context("no memory for the write buffer")?;
    answer_on(kind, buffer, commands.as_slice(), out)
}

// Ends the answers at a line of no form.
fn write_bad(out: &mut String, number: usize) -> anyhow::Result<()> {
    writeln!(out, "bad {number}").context("no memory for the answers")
}

// The answers to all scripts of a text, which begin at each line that names a log.
fn answers(heap: Global, text: &str) -> anyhow::Result<String> {
    let mut out = String::new(heap);
    let mut lines = text.lines();
    let Ok(head) = lines.next().unwrap_or("").parse::<Head>() else {
        write_bad(&mut out, 1)?;
        return Ok(out);
    };
    let mut script = Script::new(heap, head)?;
    for (number, line) in (2usize..).zip(lines) {
        if let Ok(head) = line.parse::<Head>() {
            let next = Script::new(heap, head)?;
            run_script(heap, mem::replace(&mut script, next), &mut out)?;
            continue;
        }
        match script.take_line(heap, line) {
            Ok(()) => {}
            Err(LineError::NoForm) => {
                run_script(heap, script, &mut out)?;
                write_bad(&mut out, number)?;
                return Ok(out);
            }
            Err(e) => return Err(e.into()),
        }
    }
    run_script(heap, script, &mut out)?;
    Ok(out)
}

fn run(rt: &HostRuntime) -> anyhow::Result<()> {
    let bytes = read_input(rt.alloc(), rt.stdin(), MOST_BYTES)?.context(
        "the script has more than 256 KiB",
    )?;
    let text = std::str::from_utf8(bytes.as_slice())
        .ok()
        .context("the script is no text")?;
    rt.print(answers(rt.alloc(), text)?)?;
    Ok(())
}

fn main(rt: HostRuntime) -> ExitCode {
    let outcome = run(&rt);
    end(&rt, outcome)
}

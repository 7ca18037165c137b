//! Reads a raw image of a log's store on standard input, and tells what a box would find there.
#![tactic(auto)]

mod lines;

use anyhow::{Context, anyhow};
use block_address::Address;
use flag_log::flag::FlagLog;
use intent_log::IntentLog;
use intent_log::refusal::LogRefusal;
use lines::SlotLine;
use member_store::{BLOCK_BYTES, MemberStore};
use memory_store::memory::MemoryStore;
use program_parts::ending::end;
use program_parts::log_kind::LogKind;
use record::form::Record;
use ring_log::ring::RingLog;
use ring_log::slots_of;
use std::env;
use std::io::Read;
use std::process::ExitCode;

const USAGE: &str = "usage: intentdump ring|flag MEMBERS BLOCKS < IMAGE";

// What the command line asks for.
#[derive(Clone, Copy)]
struct Request {
    kind: LogKind,
    members: usize,
    blocks: usize,
}

fn asked(rt: &HostRuntime) -> anyhow::Result<Request> {
    let mut words = env::args(rt)?;
    let _ = words.next();
    let (Some(kind), Some(members), Some(blocks), None) = (
        words.next(),
        words.next(),
        words.next(),
        words.next(),
    ) else {
        return Err(anyhow!("{USAGE}"));
    };
    Ok(Request {
        kind: kind.parse().context(USAGE)?,
        members: members.parse().context(USAGE)?,
        blocks: blocks.parse().context(USAGE)?,
    })
}

// Tells what one slot holds.
fn tell_slot(
    rt: &HostRuntime,
    store: &mut MemoryStore,
    slot: usize,
    at: Address,
) -> anyhow::Result<()> {
    let mut bytes = [0u8; BLOCK_BYTES];
    store.read(at, &mut bytes).context("a slot cannot be read")?;
    let found = Record::decode(&bytes);
    rt.println(SlotLine { slot, found })?;
    Ok(())
}

fn tell_slots(rt: &HostRuntime, store: &mut MemoryStore) -> anyhow::Result<()> {
    let members = store.members();
    if members == 0 {
        return Ok(());
    }
    for slot in 0..slots_of(members, store.blocks()) {
        let at = Address {
            member: slot % members,
            block: slot / members,
        };
        tell_slot(rt, store, slot, at)?;
    }
    Ok(())
}

fn tell_ring(rt: &HostRuntime, store: MemoryStore) -> anyhow::Result<()> {
    let mut ring = RingLog::new(store);
    // Kept: one refusal is told with a line of its own, and is no error of the program.
    match ring.power_on() {
        Ok(()) => {}
        Err(LogRefusal::TooSmall(members, blocks)) => {
            println!(rt; "refused 2 log {members} {blocks}")?;
            return Ok(());
        }
        Err(_) => return Err(anyhow!("the ring cannot be read")),
    }
    let found = ring.standing_record().ok().context("the ring is off")?;
    let mut store = ring.into_store();
    tell_slots(rt, &mut store)?;
    match found {
        Some(record) => println!(rt; "stands {record}")?,
        None => rt.println("no record")?,
    }
    Ok(())
}

fn tell_flag(rt: &HostRuntime, store: MemoryStore) -> anyhow::Result<()> {
    let mut flag = FlagLog::new(store);
    flag.power_on().ok().context("the flag cannot be read")?;
    let found = flag.standing_record().ok().context("the flag is off")?;
    match found {
        Some(record) => rt.println(record)?,
        None => rt.println("no record")?,
    }
    Ok(())
}

fn run(rt: &HostRuntime) -> anyhow::Result<()> {
    let Request {
        kind,
        members,
        blocks,
    } = asked(rt)?;
    let mut bytes = Vec::new(rt.alloc());
    rt.stdin().read_to_end(&mut bytes)?;
    let Ok(store) = MemoryStore::new(members, blocks, bytes) else {
        println!(rt; "refused 2 {members} {blocks}")?;
        return Ok(());
    };
    match kind {
        LogKind::Ring => tell_ring(rt, store),
        LogKind::Flag => tell_flag(rt, store),
    }
}

fn main(rt: HostRuntime) -> ExitCode {
    let outcome = run(&rt);
    end(&rt, outcome)
}

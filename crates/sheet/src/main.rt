// The power-cut sheet: cuts power at every store and barrier of a load and of the resynchronization after it, over both
// logs, and tells what was found.
#![tactic(auto)]

mod bookkeeping;
mod cuts;
mod disks;
mod load;
mod part;
mod table;
mod trial;

use load::{load, load_calls, read_calls, resync_calls};
use part::Part;
use program_parts::log_kind::LogKind;
use table::TITLE;
use trial::Script;

fn run(rt: &HostRuntime) -> anyhow::Result<()> {
    let heap = rt.alloc();
    let writes = load(heap)?;
    let script = Script {
        load: load_calls(heap, writes.as_slice())?,
        resync: resync_calls(heap)?,
        reads: read_calls(heap)?,
    };
    rt.println(TITLE)?;
    let (ring_rows, mut all) = Part::new(rt, LogKind::Ring, &script).print()?;
    let (flag_rows, of_flag) = Part::new(rt, LogKind::Flag, &script).print()?;
    all += of_flag;
    let rows = ring_rows.saturating_add(flag_rows);
    let (trials, wrong, off) = (all.trials, all.found.wrong_after, all.found.off_book);
    println!(rt;
        "\n{rows} rows, {trials} trials in all, {wrong} stripes wrong after resync, {off} blocks off the book"
    )?;
    Ok(())
}

fn main(rt: HostRuntime) -> anyhow::Result<()> {
    run(&rt)
}

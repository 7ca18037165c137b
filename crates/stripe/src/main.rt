//! `stripe MEMBERS RLQ LOST` lays the bytes of standard input over the members of an array with parity, forgets one
//! member, works its blocks out of the others, and puts the bytes together again.
#![tactic(auto)]

mod carry;
mod summary;
mod words;

use anyhow::Context;
use geometry::array_geometry::Geometry;
use geometry::layout::{Layout, LeftAsymmetric, LeftSymmetric, RightAsymmetric};
use geometry::shape::{MemberCount, Shape};
use memory_store::memory::MemoryStore;
use program_parts::ending::end;
use program_parts::input::read_input;
use program_parts::layout_kind::LayoutKind;
use program_parts::zeros::zeros;
use std::alloc::Global;
use std::process::ExitCode;
use stripe_work::refusal::StripeRefusal;
use stripe_work::resync::count_wrong_stripes;
use summary::{Carried, Picture, Summary};
use words::Order;

/// The most bytes that are taken: 1 MiB.
const MOST_BYTES: u32 = 1_048_576;

// The smallest array that holds so many blocks.
fn shape_for(members: MemberCount, blocks: usize) -> Option<Shape> {
    let stripes = blocks.div_ceil(members.positions());
    Shape::new(members.get(), stripes.max(1)).ok()
}

// Lays the file out, loses a member and works it out again.
fn carry_over<L: Layout>(
    store: &mut MemoryStore,
    geometry: &Geometry<L>,
    lost: usize,
    file: &[u8],
) -> Result<Carried, StripeRefusal> {
    carry::lay_out(store, geometry, file)?;
    carry::forget(store, lost)?;
    Ok(Carried {
        lost,
        worked_out: carry::work_out(store, geometry, lost)?,
        wrong: count_wrong_stripes(store, geometry)?,
        back: carry::holds_file(store, geometry, file)?,
    })
}

fn summarize<L: Layout>(
    heap: Global,
    layout: &L,
    order: Order,
    file: &[u8],
) -> anyhow::Result<Summary> {
    let blocks = carry::blocks_for(file.len());
    let shape = shape_for(order.members, blocks).context("the array would be too large")?;
    let mut store = zeros(heap, shape.members().get(), shape.blocks())?.context(
        "there is no memory for the members",
    )?;
    let geometry = Geometry { layout, shape };
    let carried = carry_over(&mut store, &geometry, order.lost, file)
        .ok()
        .context("the members refused a call")?;
    Ok(Summary {
        bytes: file.len(),
        blocks,
        layout: order.layout,
        picture: Picture::new(&geometry),
        carried,
    })
}

fn run(rt: &HostRuntime) -> anyhow::Result<()> {
    let order = words::read_order(rt)?;
    let bytes = read_input(rt.alloc(), rt.stdin(), MOST_BYTES)?.context(
        "standard input has more than 1 MiB",
    )?;
    let file = bytes.as_slice();
    let summary = match order.layout {
        LayoutKind::RightAsymmetric => summarize(rt.alloc(), &RightAsymmetric, order, file)?,
        LayoutKind::LeftAsymmetric => summarize(rt.alloc(), &LeftAsymmetric, order, file)?,
        LayoutKind::LeftSymmetric => summarize(rt.alloc(), &LeftSymmetric, order, file)?,
    };
    rt.println(summary)?;
    Ok(())
}

fn main(rt: HostRuntime) -> ExitCode {
    let outcome = run(&rt);
    end(&rt, outcome)
}

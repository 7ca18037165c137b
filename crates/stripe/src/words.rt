// The words of the command line.
ghost use Rattle.std.specs.Prelude.{◌<◌, IfSome};
ghost use Rattle.geometry.specs.Counts.{counted};

use anyhow::{Context, anyhow};
use geometry::shape::MemberCount;
use program_parts::layout_kind::LayoutKind;
use std::env;

/// What to say to wrong words.
pub const USAGE: &str =
    "usage: stripe MEMBERS RLQ LOST, with MEMBERS 3 to 8, RLQ 0, 2 or 3, LOST below MEMBERS; the bytes on standard input";

/// What the words ask for.
#[derive(Clone, Copy)]
pub struct Order {
    pub members: MemberCount,
    pub layout: LayoutKind,
    pub lost: usize,
}

/// The order in three words, if they are one.
pub fn order_of(members: &str, qualifier: &str, lost: &str) -> Option<Order>
    ensures { IfSome result (λ o. o.lost < counted o.members) }
{
    let members = MemberCount::new(members.parse::<usize>().ok()?)?;
    let layout = qualifier.parse::<LayoutKind>().ok()?;
    let lost = lost.parse::<usize>().ok()?;
    if lost >= members.get() {
        return None;
    }
    Some(Order {
        members,
        layout,
        lost,
    })
}

/// The order on the command line.
pub fn read_order(rt: &HostRuntime) -> anyhow::Result<Order> {
    let words: Vec<String> = env::args(rt)?.collect(rt.alloc())?;
    let [_, members, qualifier, lost] = words.as_slice() else {
        return Err(anyhow!("{USAGE}"));
    };
    order_of(members.as_str(), qualifier.as_str(), lost.as_str()).context(USAGE)
}

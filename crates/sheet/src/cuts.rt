// Where and when power is cut.
ghost use Rattle.std.specs.Prelude.{◌≡◌, Some, None, ◌≢◌};

use crate::disks::{Settings, new_disks};
use crate::load::{MEMBERS, STRIPES};
use crate::trial::{Script, Trial, try_out};
use array::array::Array;
use flag_log::flag::FlagLog;
use geometry::layout::LeftSymmetric;
use program_parts::log_kind::LogKind;
use program_parts::side::Side;
use ring_log::ring::RingLog;
use std::alloc::Global;

/// The members of the log's store, and the blocks of each.
const LOG_MEMBERS: usize = 1;

const LOG_BLOCKS: usize = 8;

/// A cut: so many stores and barriers of that side are let through after a power-on.
#[derive(Clone, Copy)]
pub struct Cut {
    pub side: Side,
    pub let_through: usize,
}

/// The cut of the load, and perhaps one of the resynchronization after it.
#[derive(Clone, Copy)]
pub struct Cuts {
    pub first: Cut,
    pub second: Option<Cut>,
}

impl Cut {
    // The setting of a side's fuse by this cut.
    fn setting(&self, side: Side) -> Option<usize>
        ensures here { self.now.side ≡ side → result ≡ Some self.now.let_through }
        ensures elsewhere { (self.now.side ≢ side) → result ≡ None }
    {
        (self.side == side).then_some(self.let_through)
    }
}

impl Cuts {
    /// A cut of the load only.
    pub fn single(side: Side, let_through: usize) -> Cuts
        ensures { (result.first.side ≡ side) × (result.first.let_through ≡ let_through) × (result.second ≡ None) }
    {
        Cuts {
            first: Cut { side, let_through },
            second: None,
        }
    }

    // The settings of a side's fuse by these cuts.
    fn settings(&self, side: Side) -> Settings {
        Settings {
            load: self.first.setting(side),
            resync: self.second.and_then(|cut| cut.setting(side)),
        }
    }
}

/// Runs a trial with these cuts.
pub fn try_cuts(heap: Global, kind: LogKind, script: &Script, cuts: Cuts) -> anyhow::Result<Trial> {
    let members = new_disks(heap, MEMBERS, STRIPES, cuts.settings(Side::Members))?;
    let below = new_disks(heap, LOG_MEMBERS, LOG_BLOCKS, cuts.settings(Side::Log))?;
    Ok(match kind {
        LogKind::Ring => try_out(
            heap,
            Array::new(members, RingLog::new(below), LeftSymmetric),
            script,
        )?,
        LogKind::Flag => try_out(
            heap,
            Array::new(members, FlagLog::new(below), LeftSymmetric),
            script,
        )?,
    })
}

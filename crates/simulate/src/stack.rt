// Builds the box that the settings ask for, and plays a scenario on it: each function makes one choice.
use super::current::CurrentBytes;
use super::player::{Player, Switches};
use super::scenario::Scenario;
use super::settings::Counts;
use array::array::Array;
use flag_log::flag::FlagLog;
use geometry::layout::{Layout, LeftAsymmetric, LeftSymmetric, RightAsymmetric};
use intent_log::IntentLog;
use member_store::MemberStore;
use memory_store::memory::MemoryStore;
use program_parts::layout_kind::LayoutKind;
use program_parts::log_kind::LogKind;
use program_parts::side::Side;
use program_parts::zeros::zeros;
use remote_fuse::RemoteFuse;
use remote_fuse::switch::FuseSwitch;
use ring_log::ring::RingLog;
use std::alloc::{AllocError, Global};
use write_buffer::buffer::WriteBuffer;

/// Disks of zeros under a fuse.
type Fused = RemoteFuse<MemoryStore, FuseSwitch>;

/// A scenario to play, and where its answers go.
#[derive(Drop)]
struct Play<'a> {
    heap: Global,
    switches: Switches,
    scenario: &'a Scenario,
    out: &'a mut String,
}

impl<'a> Play<'a> {
    fn on_array<S: CurrentBytes + Drop, G: IntentLog + Drop, L: Layout + Drop>(
        self,
        array: Array<S, G, L>,
    ) -> Result<(), AllocError> {
        let mut player = Player::new(self.heap, array, self.switches);
        let played = player.play(self.heap, self.scenario.commands.as_slice(), self.out);
        player.end();
        played
    }

    fn with_layout<S: CurrentBytes + Drop, G: IntentLog + Drop>(
        self,
        store: S,
        log: G,
    ) -> Result<(), AllocError> {
        match self.scenario.settings.layout() {
            LayoutKind::RightAsymmetric => {
                self.on_array(Array::new(store, log, RightAsymmetric))
            }
            LayoutKind::LeftAsymmetric => self.on_array(Array::new(store, log, LeftAsymmetric)),
            LayoutKind::LeftSymmetric => self.on_array(Array::new(store, log, LeftSymmetric)),
        }
    }

    fn with_log<S: CurrentBytes + Drop, T: MemberStore + Drop>(
        self,
        store: S,
        log_store: T,
    ) -> Result<(), AllocError> {
        match self.scenario.settings.log_kind() {
            LogKind::Ring => self.with_layout(store, RingLog::new(log_store)),
            LogKind::Flag => self.with_layout(store, FlagLog::new(log_store)),
        }
    }

    fn with_members<S: CurrentBytes + Drop>(
        self,
        store: S,
        log_disks: Fused,
    ) -> Result<(), AllocError> {
        if !self.scenario.settings.buffered(Side::Log) {
            return self.with_log(store, log_disks);
        }
        let buffer = buffered(self.heap, log_disks)?;
        self.with_log(store, buffer)
    }
}

// Disks of zeros, under a fuse that the switch sets.
fn fused(heap: Global, counts: Counts, switch: &FuseSwitch) -> Result<Fused, AllocError> {
    let memory = zeros(heap, counts.members, counts.blocks)?.ok_or(AllocError)?;
    Ok(RemoteFuse::new(memory, switch.clone()?))
}

fn buffered(heap: Global, disks: Fused) -> Result<WriteBuffer<Fused>, AllocError> {
    WriteBuffer::new(heap, disks).map_err(|_| AllocError)
}

/// Plays a scenario on the box that its settings ask for.
pub fn play_scenario(
    heap: Global,
    scenario: &Scenario,
    out: &mut String,
) -> Result<(), AllocError> {
    let switches = Switches {
        members: FuseSwitch::new(heap)?,
        log: FuseSwitch::new(heap)?,
    };
    let settings = scenario.settings;
    let disks = fused(heap, settings.counts(Side::Members), &switches.members)?;
    let log_disks = fused(heap, settings.counts(Side::Log), &switches.log)?;
    let play = Play {
        heap,
        switches,
        scenario,
        out,
    };
    if !settings.buffered(Side::Members) {
        return play.with_members(disks, log_disks);
    }
    let buffer = buffered(heap, disks)?;
    play.with_members(buffer, log_disks)
}

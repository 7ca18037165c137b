// Why the array refuses a call.
ghost use Rattle.std.specs.Prelude.{◌≡◌};
ghost use Rattle.array_model.specs.Refusals.{log_side};
ghost use Rattle.array_model.specs.declared.refusal.ArrayRefusal.TheVariants.{Members as FromMembers, Log as FromLog, Limits as FromLimits, NoSlot as FromSlot};

use crate::state::State;
use block_address::Address;
use cache::caches::NoFreeSlot;
use geometry::shape::OutOfLimits;
use intent_log::refusal::{Layer, LogRefusal};
use member_store::refusal::Refusal;

/// The part of a box that refused.
#[derive(Clone, Copy, PartialEq, Eq, Debug)]
pub enum BoxLayer {
    /// The array's member store.
    Members,
    /// The member store that the log lies on.
    LogStore,
    /// The log.
    Log,
    /// The array itself.
    Array,
}

/// Why a call of the array was refused.
#[derive(Clone, Copy, PartialEq, Eq, Debug)]
pub enum ArrayRefusal {
    /// The member store refused a device call: power is off or went.
    Members(Refusal),
    /// The log refused: power is off or went, or at power-on its store is too small.
    Log(LogRefusal),
    /// These counts of members and blocks are outside the limits.
    Limits(usize, usize),
    /// This state does not allow the call.
    WrongState(State),
    /// No record stands in the log.
    NoRecord,
    /// This block is not buffered, and no slot is free.
    NoSlot(usize),
    /// This named stripe is left to take.
    StripeLeft(usize),
    /// There is no block of this number.
    NoBlock(usize),
    /// The buffer has this length and not that of a block.
    WrongLength(usize),
    /// The absent member has the block, whose stripe, this one, is named.
    StripeNamed(usize),
    /// There is no member of this number that could be absent.
    NoMember(usize),
    /// The log is spent, and a mark or a fresh is due.
    LogSpent,
}

/// What a refusal tells besides its number and its layer.
#[derive(Clone, Copy, PartialEq, Eq, Debug)]
pub enum Detail {
    /// Where the device call without power was.
    At(Address),
    /// Counts of members and blocks.
    Counts(usize, usize),
    /// The state that does not allow the call.
    In(State),
    /// A block, a stripe, a member or a length.
    Number(usize),
}

impl From<Layer> for BoxLayer {
    ghost from_gives = { λ layer side. side ≡ log_side layer };

    fn from(layer: Layer) -> BoxLayer {
        match layer {
            Layer::LogStore => BoxLayer::LogStore,
            Layer::Log => BoxLayer::Log,
        }
    }
}

impl From<Refusal> for ArrayRefusal {
    ghost from_gives = { λ refusal e. e ≡ FromMembers refusal };

    fn from(refusal: Refusal) -> ArrayRefusal {
        ArrayRefusal::Members(refusal)
    }
}

impl From<LogRefusal> for ArrayRefusal {
    ghost from_gives = { λ refusal e. e ≡ FromLog refusal };

    fn from(refusal: LogRefusal) -> ArrayRefusal {
        ArrayRefusal::Log(refusal)
    }
}

impl From<OutOfLimits> for ArrayRefusal {
    ghost from_gives = { λ counts e. e ≡ FromLimits counts.members counts.blocks };

    fn from(counts: OutOfLimits) -> ArrayRefusal {
        ArrayRefusal::Limits(counts.members, counts.blocks)
    }
}

impl From<NoFreeSlot> for ArrayRefusal {
    ghost from_gives = { λ full e. e ≡ FromSlot full.block };

    fn from(full: NoFreeSlot) -> ArrayRefusal {
        ArrayRefusal::NoSlot(full.block)
    }
}

// Reading a block without one member.
ghost use Rattle.std.specs.Prelude.{◌≡◌, ◌<◌, OnErr};
ghost use Rattle.geometry.specs.Counts.{members_of, blocks_of};
ghost use Rattle.geometry.specs.Places.{data_blocks};
ghost use Rattle.array_model.specs.Meaning.{geometry, home, holder};
ghost use Rattle.array_model.specs.Calls.{ReadsShort};
ghost use Rattle.array_work.specs.Outcomes.{sized};
ghost use Rattle.array.specs.Sound.{means, LogOn, Sound, verdict};
ghost use Rattle.array.specs.Blocks.{absent_check, ShortChecked};

use crate::array::Array;
use crate::block::check_block;
use crate::outcome::or_fall;
use crate::tokens::ShortPermit;
use array_model::refusal::ArrayRefusal;
use array_model::state::State;
use array_work::read::{address_of_block, read_without};
use block_address::Address;
use geometry::array_geometry::Geometry;
use geometry::layout::Layout;
use geometry::shape::Shape;
use intent_log::IntentLog;
use member_store::MemberStore;

// Is this not a named stripe's block on the absent member?
fn check_absent<G: IntentLog>(log: &G, absent: usize, at: Address) -> Result<(), ArrayRefusal>
    requires { at.block < 16777216 }
    ensures { LogOn (G.IntentLog.sound log.now) (G.IntentLog.meaning log.now) → result ≡ verdict (absent_check at.member at.block absent (G.IntentLog.meaning log.now)) }
{
    if at.member == absent && log.is_named(at.block as u32)? {
        return Err(ArrayRefusal::StripeNamed(at.block));
    }
    Ok(())
}

// The checks of a read without one member, after that of the state.
fn check_short<S: MemberStore, G: IntentLog, L: Layout>(
    store: &S,
    log: &G,
    layout: &L,
    absent: usize,
    block: usize,
    length: usize,
) -> Result<Shape, ArrayRefusal>
    ensures { ShortChecked L.Layout.arrangement (S.MemberStore.meaning store.now) (G.IntentLog.meaning log.now) (LogOn (G.IntentLog.sound log.now) (G.IntentLog.meaning log.now)) absent block length result }
{
    let shape = check_block(store, block, length)?;
    let at = address_of_block(&Geometry { layout, shape }, block).unwrap();
    check_absent(log, absent, at)?;
    Ok(shape)
}

impl<S: MemberStore, G: IntentLog, L: Layout> Array<S, G, L> {
    /// Reads a block and never touches the absent member, whose blocks are worked out of the others. A refusal leaves the
    /// buffer as it was.
    pub fn read_short(
        &mut self,
        _permit: &ShortPermit,
        block: usize,
        into: &mut [u8],
    ) -> Result<(), ArrayRefusal>
        ensures sound { Sound S.MemberStore.meaning G.IntentLog.meaning G.IntentLog.sound self.old → Sound S.MemberStore.meaning G.IntentLog.meaning G.IntentLog.sound self.new }
        ensures does { Sound S.MemberStore.meaning G.IntentLog.meaning G.IntentLog.sound self.old → ReadsShort (geometry L.Layout.arrangement (means S.MemberStore.meaning G.IntentLog.meaning self.old)) block into.old into.new (means S.MemberStore.meaning G.IntentLog.meaning self.old) result (means S.MemberStore.meaning G.IntentLog.meaning self.new) }
        ensures kept { OnErr result (into.new ≡ into.old) }
    {
        match self.state {
            State::Short(absent) => {
                let shape = check_short(
                    &self.store,
                    &self.log,
                    &self.layout,
                    absent,
                    block,
                    into.len(),
                )?;
                let geometry = Geometry {
                    layout: &self.layout,
                    shape,
                };
                let outcome = read_without(&mut self.store, &geometry, absent, block, into);
                or_fall(&mut self.state, outcome)
            }
            State::Fallen | State::Down | State::Resync(_) | State::Ready => Err(
                ArrayRefusal::WrongState(self.state),
            ),
        }
    }
}

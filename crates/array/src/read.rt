// Reading a block.
ghost use Rattle.std.specs.Prelude.{◌≡◌, OnErr};
ghost use Rattle.array_model.specs.Meaning.{geometry};
ghost use Rattle.array_model.specs.Calls.{Reads};
ghost use Rattle.array.specs.Sound.{means, Sound};

use crate::array::Array;
use crate::block::check_block;
use crate::outcome::or_fall;
use crate::tokens::ReadyPermit;
use array_model::refusal::ArrayRefusal;
use array_model::state::State;
use array_work::read::read_newest;
use geometry::array_geometry::Geometry;
use geometry::layout::Layout;
use intent_log::IntentLog;
use member_store::MemberStore;

impl<S: MemberStore, G: IntentLog, L: Layout> Array<S, G, L> {
    /// Reads a block: from the caches, the newest first, else from the members. A refusal leaves the buffer as it was.
    pub fn read(
        &mut self,
        _permit: &ReadyPermit,
        block: usize,
        into: &mut [u8],
    ) -> Result<(), ArrayRefusal>
        ensures sound { Sound S.MemberStore.meaning G.IntentLog.meaning G.IntentLog.sound self.old → Sound S.MemberStore.meaning G.IntentLog.meaning G.IntentLog.sound self.new }
        ensures does { Sound S.MemberStore.meaning G.IntentLog.meaning G.IntentLog.sound self.old → Reads (geometry L.Layout.arrangement (means S.MemberStore.meaning G.IntentLog.meaning self.old)) block into.old into.new (means S.MemberStore.meaning G.IntentLog.meaning self.old) result (means S.MemberStore.meaning G.IntentLog.meaning self.new) }
        ensures kept { OnErr result (into.new ≡ into.old) }
    {
        match self.state {
            State::Ready => {
                let shape = check_block(&self.store, block, into.len())?;
                let geometry = Geometry {
                    layout: &self.layout,
                    shape,
                };
                let outcome = read_newest(&mut self.store, &geometry, &self.caches, block, into);
                or_fall(&mut self.state, outcome)
            }
            State::Fallen | State::Down | State::Resync(_) | State::Short(_) => Err(
                ArrayRefusal::WrongState(self.state),
            ),
        }
    }
}

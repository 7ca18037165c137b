// Flushing.
ghost use Rattle.std.specs.Prelude.{◌≡◌};
ghost use Rattle.array_model.specs.Meaning.{geometry};
ghost use Rattle.array_model.specs.Calls.{Flushes};
ghost use Rattle.array.specs.Sound.{means, Sound};

use crate::array::Array;
use crate::checks::shape_of;
use crate::outcome::or_fall;
use crate::tokens::ReadyPermit;
use array_model::answer::FlushCounts;
use array_model::refusal::ArrayRefusal;
use array_model::state::State;
use array_work::flush::flush_all;
use geometry::array_geometry::Geometry;
use geometry::layout::Layout;
use intent_log::IntentLog;
use member_store::MemberStore;

// Kept: of one shape with the destage, since each call matches on the five states and changes the state in place; what they share is
// `or_fall`.
impl<S: MemberStore, G: IntentLog, L: Layout> Array<S, G, L> {
    /// Destages until idle, then bars the members. Answers the stripes written and the puts to the log.
    pub fn flush(&mut self, _permit: &ReadyPermit) -> Result<FlushCounts, ArrayRefusal>
        ensures sound { Sound S.MemberStore.meaning G.IntentLog.meaning G.IntentLog.sound self.old → Sound S.MemberStore.meaning G.IntentLog.meaning G.IntentLog.sound self.new }
        ensures does { Sound S.MemberStore.meaning G.IntentLog.meaning G.IntentLog.sound self.old → Flushes (geometry L.Layout.arrangement (means S.MemberStore.meaning G.IntentLog.meaning self.old)) (means S.MemberStore.meaning G.IntentLog.meaning self.old) result (means S.MemberStore.meaning G.IntentLog.meaning self.new) }
    {
        match self.state {
            State::Ready => {
                let shape = shape_of(&self.store)?;
                let geometry = Geometry {
                    layout: &self.layout,
                    shape,
                };
                let outcome = flush_all(
                    &mut self.store,
                    &mut self.log,
                    &geometry,
                    &mut self.caches,
                );
                or_fall(&mut self.state, outcome)
            }
            State::Fallen | State::Down | State::Resync(_) | State::Short(_) => Err(
                ArrayRefusal::WrongState(self.state),
            ),
        }
    }
}

// Formatting.
ghost use Rattle.std.specs.Prelude.{◌≡◌};
ghost use Rattle.array_model.specs.Meaning.{geometry};
ghost use Rattle.array_model.specs.Calls.{Formats};
ghost use Rattle.array.specs.Sound.{means, Sound};

use crate::array::Array;
use crate::checks::shape_of;
use crate::outcome::or_fall;
use array_model::refusal::ArrayRefusal;
use array_model::state::State;
use array_work::format::format_work;
use geometry::layout::Layout;
use intent_log::IntentLog;
use member_store::MemberStore;

impl<S: MemberStore, G: IntentLog, L: Layout> Array<S, G, L> {
    /// Blanks the log, zeroes every block, bars the members and clears the log. Cut short: fallen.
    pub fn format(&mut self) -> Result<(), ArrayRefusal>
        ensures sound { Sound S.MemberStore.meaning G.IntentLog.meaning G.IntentLog.sound self.old → Sound S.MemberStore.meaning G.IntentLog.meaning G.IntentLog.sound self.new }
        ensures does { Sound S.MemberStore.meaning G.IntentLog.meaning G.IntentLog.sound self.old → Formats (geometry L.Layout.arrangement (means S.MemberStore.meaning G.IntentLog.meaning self.old)) (means S.MemberStore.meaning G.IntentLog.meaning self.old) result (means S.MemberStore.meaning G.IntentLog.meaning self.new) }
    {
        match self.state {
            State::Down => {
                let shape = shape_of(&self.store)?;
                let outcome = format_work(&mut self.store, &mut self.log, shape);
                or_fall(&mut self.state, outcome)
            }
            State::Fallen | State::Resync(_) | State::Ready | State::Short(_) => Err(
                ArrayRefusal::WrongState(self.state),
            ),
        }
    }
}

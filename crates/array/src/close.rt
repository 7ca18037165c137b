// Closing.
ghost use Rattle.std.specs.Prelude.{◌≡◌, [], ◌∷◌};
ghost use Rattle.cache.specs.Contents.{empty as no_contents};
ghost use Rattle.array_model.specs.Meaning.{geometry};
ghost use Rattle.array_model.specs.Work.{clear as clear_action, Performs};
ghost use Rattle.array_model.specs.Calls.{ClosesReady, Closes};
ghost use Rattle.array_model.specs.declared.state.State.TheVariants.{Down, Ready};
ghost use Rattle.array.specs.Sound.{means, Sound};
ghost use Rattle.array.specs.Closing.{closed, PermitBack};

use crate::array::Array;
use crate::outcome::or_fall;
use crate::refusal::CloseRefusal;
use crate::tokens::ReadyPermit;
use array_model::refusal::ArrayRefusal;
use array_model::state::State;
use geometry::layout::Layout;
use intent_log::IntentLog;
use member_store::MemberStore;

impl<S: MemberStore, G: IntentLog, L: Layout> Array<S, G, L> {
    // Clears the log, after a flush: down. Refused: fallen.
    fn clear_log(&mut self) -> Result<(), ArrayRefusal>
        ensures sound { G.IntentLog.sound self.old.log → Sound S.MemberStore.meaning G.IntentLog.meaning G.IntentLog.sound self.new }
        ensures does { G.IntentLog.sound self.old.log → Performs (clear_action ∷ []) tt Down no_contents (means S.MemberStore.meaning G.IntentLog.meaning self.old) result (means S.MemberStore.meaning G.IntentLog.meaning self.new) }
    {
        or_fall(&mut self.state, self.log.clear().map_err(ArrayRefusal::Log))?;
        self.caches.clear();
        self.state = State::Down;
        Ok(())
    }

    // A close, once the state allows it: flushes, then clears the log. Refused: fallen.
    fn close_ready(&mut self, permit: ReadyPermit) -> Result<(), ArrayRefusal>
        ensures sound { self.old.state ≡ Ready → Sound S.MemberStore.meaning G.IntentLog.meaning G.IntentLog.sound self.old → Sound S.MemberStore.meaning G.IntentLog.meaning G.IntentLog.sound self.new }
        ensures does { self.old.state ≡ Ready → Sound S.MemberStore.meaning G.IntentLog.meaning G.IntentLog.sound self.old → ClosesReady (geometry L.Layout.arrangement (means S.MemberStore.meaning G.IntentLog.meaning self.old)) (means S.MemberStore.meaning G.IntentLog.meaning self.old) result (means S.MemberStore.meaning G.IntentLog.meaning self.new) }
    {
        let flushed = self.flush(&permit);
        permit.spend();
        match flushed {
            Ok(_) => self.clear_log(),
            Err(e) => {
                self.state = State::Fallen;
                Err(e)
            }
        }
    }

    /// Takes the permit, flushes and clears the log: down. Where the state does not allow it, the permit comes back.
    pub fn close(&mut self, permit: ReadyPermit) -> Result<(), CloseRefusal>
        ensures sound { Sound S.MemberStore.meaning G.IntentLog.meaning G.IntentLog.sound self.old → Sound S.MemberStore.meaning G.IntentLog.meaning G.IntentLog.sound self.new }
        ensures does { Sound S.MemberStore.meaning G.IntentLog.meaning G.IntentLog.sound self.old → Closes (geometry L.Layout.arrangement (means S.MemberStore.meaning G.IntentLog.meaning self.old)) (means S.MemberStore.meaning G.IntentLog.meaning self.old) (closed result) (means S.MemberStore.meaning G.IntentLog.meaning self.new) }
        ensures back { PermitBack self.old.state permit result }
    {
        match self.state {
            State::Ready => self.close_ready(permit).map_err(CloseRefusal::Taken),
            State::Fallen | State::Down | State::Resync(_) | State::Short(_) => Err(
                CloseRefusal::Returned(self.state, permit),
            ),
        }
    }
}

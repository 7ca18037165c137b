// Power-on, in any state.
ghost use Rattle.std.specs.Prelude.{◌≡◌, Ok, Err, MatchResult};
ghost use Rattle.intent_log.specs.declared.refusal.LogRefusal.{LogRefusal as Cause};
ghost use Rattle.array_model.specs.Calls.{PowersOn};
ghost use Rattle.array_model.specs.declared.refusal.ArrayRefusal.TheVariants.{Log as FromLog};
ghost use Rattle.array.specs.Sound.{means, Sound};

use crate::array::Array;
use crate::outcome::or_fall;
use array_model::refusal::ArrayRefusal;
use array_model::state::State;
use array_work::power::power_on_work;
use geometry::layout::Layout;
use intent_log::IntentLog;
use member_store::MemberStore;

impl<S: MemberStore, G: IntentLog, L: Layout> Array<S, G, L> {
    /// Empties the caches and powers the members, then the log: down. Refused by the log: fallen.
    pub fn power_on(&mut self) -> Result<(), ArrayRefusal>
        ensures sound { Sound S.MemberStore.meaning G.IntentLog.meaning G.IntentLog.sound self.new }
        ensures does { PowersOn (means S.MemberStore.meaning G.IntentLog.meaning self.old) result (means S.MemberStore.meaning G.IntentLog.meaning self.new) }
        ensures own { S.MemberStore.powering self.old.store self.new.store × MatchResult result (λ _. G.IntentLog.powering self.old.log (Ok tt) self.new.log) (λ e. (d : Cause) × (e ≡ FromLog d) × G.IntentLog.powering self.old.log (Err d) self.new.log) }
    {
        self.caches.clear();
        let outcome = power_on_work(&mut self.store, &mut self.log);
        or_fall(&mut self.state, outcome)?;
        self.state = State::Down;
        Ok(())
    }
}

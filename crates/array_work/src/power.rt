// Power-on.
ghost use Rattle.std.specs.Prelude.{◌≡◌, Ok, Err, MatchResult, OnOk};
ghost use Rattle.intent_log.specs.declared.refusal.LogRefusal.{LogRefusal as Cause};
ghost use Rattle.array_model.specs.declared.refusal.ArrayRefusal.TheVariants.{Log as FromLog};
ghost use Rattle.array_work.specs.Outcomes.{Powers};

use array_model::refusal::ArrayRefusal;
use intent_log::IntentLog;
use member_store::MemberStore;

/// Powers the members, then the log.
pub fn power_on_work<S: MemberStore, G: IntentLog>(
    store: &mut S,
    log: &mut G,
) -> Result<(), ArrayRefusal>
    ensures sound { OnOk result (G.IntentLog.sound log.new) }
    ensures does { Powers (S.MemberStore.meaning store.old) (G.IntentLog.meaning log.old) result (S.MemberStore.meaning store.new) (G.IntentLog.meaning log.new) }
    ensures own { S.MemberStore.powering store.old store.new × MatchResult result (λ _. G.IntentLog.powering log.old (Ok tt) log.new) (λ e. (d : Cause) × (e ≡ FromLog d) × G.IntentLog.powering log.old (Err d) log.new) }
{
    store.power_on();
    log.power_on()?;
    Ok(())
}

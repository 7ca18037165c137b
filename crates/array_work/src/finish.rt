// The end of a resynchronization.
ghost use Rattle.array_model.specs.Calls.{finish_actions};
ghost use Rattle.array_work.specs.Outcomes.{Works};

use array_model::refusal::ArrayRefusal;
use intent_log::IntentLog;
use member_store::MemberStore;

/// Bars the members, so that the mended parity stands, then clears the log.
pub fn finish_work<S: MemberStore, G: IntentLog>(
    store: &mut S,
    log: &mut G,
) -> Result<(), ArrayRefusal>
    ensures sound { G.IntentLog.sound log.old → G.IntentLog.sound log.new }
    ensures does { G.IntentLog.sound log.old → Works finish_actions tt (S.MemberStore.meaning store.old) (G.IntentLog.meaning log.old) result (S.MemberStore.meaning store.new) (G.IntentLog.meaning log.new) }
{
    store.barrier()?;
    log.clear()?;
    Ok(())
}

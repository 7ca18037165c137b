// Naming stripes in the log before they are written to.
ghost use Rattle.std.specs.Prelude.{◌≡◌, ◌≤◌, true, [], ◌∷◌, IfOk, if◌then◌else◌, Ok as OkOf};
ghost use Rattle.member_store.specs.Meaning.{Meaning as StoreMeaning};
ghost use Rattle.device_calls.specs.Lists.{barrier as barrier_call};
ghost use Rattle.cache.specs.Contents.{Contents};
ghost use Rattle.array_model.specs.Meaning.{array as array_of};
ghost use Rattle.array_model.specs.Checks.{all_named};
ghost use Rattle.array_model.specs.Work.{devices, mark as mark_action, fresh as fresh_action};
ghost use Rattle.array_model.specs.declared.state.State.{State};
ghost use Rattle.array_work.specs.Outcomes.{Works, Names};

use array_model::refusal::ArrayRefusal;
use intent_log::IntentLog;
use intent_log::refusal::LogRefusal;
use member_store::MemberStore;

// Does the log name every stripe of the list?
fn names_all<G: IntentLog>(log: &G, list: &[u32]) -> Result<bool, LogRefusal>
    ensures { (q : State) (c : Contents) (m : StoreMeaning) → G.IntentLog.sound log.now → (G.IntentLog.meaning log.now).on ≡ true → result ≡ OkOf (all_named (array_of q c m (G.IntentLog.meaning log.now)) list.now) }
{
    for stripe in list {
        if !log.is_named(*stripe)? {
            return Ok(false);
        }
    }
    Ok(true)
}

// Bars the members, so that what the log stops naming stands on them, then names the list afresh.
fn bar_and_freshen<S: MemberStore, G: IntentLog>(
    store: &mut S,
    log: &mut G,
    list: &[u32],
) -> Result<(), ArrayRefusal>
    ensures sound { G.IntentLog.sound log.old → G.IntentLog.sound log.new }
    ensures does { G.IntentLog.sound log.old → Works (devices (barrier_call ∷ []) ∷ fresh_action list.now ∷ []) tt (S.MemberStore.meaning store.old) (G.IntentLog.meaning log.old) result (S.MemberStore.meaning store.new) (G.IntentLog.meaning log.new) }
{
    store.barrier()?;
    log.fresh(list)?;
    Ok(())
}

// Puts the list into the log: by a mark if it fits, else by a barrier and a fresh.
fn put_list<S: MemberStore, G: IntentLog>(
    store: &mut S,
    log: &mut G,
    list: &[u32],
) -> Result<(), ArrayRefusal>
    ensures sound { G.IntentLog.sound log.old → G.IntentLog.sound log.new }
    ensures does { G.IntentLog.sound log.old → (G.IntentLog.meaning log.old).on ≡ true → Works (if (G.IntentLog.meaning log.old).fits list.now then mark_action list.now ∷ [] else devices (barrier_call ∷ []) ∷ fresh_action list.now ∷ []) tt (S.MemberStore.meaning store.old) (G.IntentLog.meaning log.old) result (S.MemberStore.meaning store.new) (G.IntentLog.meaning log.new) }
{
    if !log.fits(list)? {
        return bar_and_freshen(store, log, list);
    }
    log.mark(list)?;
    Ok(())
}

/// Names the stripes of a list: no log call if all are named, else a refusal if the log is spent, else a mark if the list
/// fits, else a barrier and a fresh. Answers the number of puts, 0 or 1.
pub fn name_stripes<S: MemberStore, G: IntentLog>(
    store: &mut S,
    log: &mut G,
    list: &[u32],
) -> Result<usize, ArrayRefusal>
    ensures sound { G.IntentLog.sound log.old → G.IntentLog.sound log.new }
    ensures few { IfOk result (λ p. p ≤ 1) }
    ensures does { (q : State) (c : Contents) → G.IntentLog.sound log.old → (G.IntentLog.meaning log.old).on ≡ true → Names list.now (array_of q c (S.MemberStore.meaning store.old) (G.IntentLog.meaning log.old)) result (S.MemberStore.meaning store.new) (G.IntentLog.meaning log.new) }
{
    if names_all(log, list)? {
        return Ok(0);
    }
    if log.spent()? {
        return Err(ArrayRefusal::LogSpent);
    }
    put_list(store, log, list)?;
    Ok(1)
}

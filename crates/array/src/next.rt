// The stripe that a resynchronization takes next.
ghost use Rattle.std.specs.Prelude.{◌≡◌, IfOk};
ghost use Rattle.array.specs.Sound.{LogOn, Sized};
ghost use Rattle.array.specs.Next.{Inside, FindsNext};

use crate::checks::shape_of;
use array_model::refusal::ArrayRefusal;
use array_work::resync::next_due;
use geometry::shape::Shape;
use intent_log::IntentLog;
use member_store::MemberStore;

// The counts of the array, and its next named stripe at or above a number, where there is one.
pub(super) fn next_stripe<S: MemberStore, G: IntentLog>(
    store: &S,
    log: &G,
    from: usize,
) -> Result<(Shape, Option<usize>), ArrayRefusal>
    ensures inside { IfOk result (λ a. Inside a.0 a.1) }
    ensures finds { LogOn (G.IntentLog.sound log.now) (G.IntentLog.meaning log.now) → Sized (S.MemberStore.meaning store.now) → FindsNext (S.MemberStore.meaning store.now) (G.IntentLog.meaning log.now) from result }
{
    let shape = shape_of(store)?;
    let stripe = next_due(log, shape, from)?;
    Ok((shape, stripe))
}

// Emptying the caches: destages until idle, then a barrier.
ghost use Rattle.std.specs.Prelude.{◌≡◌, true};
ghost use Rattle.cache.specs.Meaning.{contents};
ghost use Rattle.array_model.specs.Meaning.{array as array_of};
ghost use Rattle.array_model.specs.Calls.{FlushesReady};
ghost use Rattle.array_model.specs.declared.state.State.TheVariants.{Ready};
ghost use Rattle.array_work.specs.Outcomes.{sized, state_after};
ghost use Rattle.array_work.specs.Draining.{Empties};

use crate::destage::destage_once;
use array_model::answer::{Destage, FlushCounts};
use array_model::refusal::ArrayRefusal;
use cache::caches::Caches;
use geometry::array_geometry::Geometry;
use geometry::layout::Layout;
use geometry::shape::Shape;
use intent_log::IntentLog;
use member_store::MemberStore;

// Destages until idle, counting stripes and puts.
fn empty_caches<S: MemberStore, G: IntentLog, L: Layout>(
    store: &mut S,
    log: &mut G,
    geometry: &Geometry<L>,
    caches: &mut Caches,
) -> Result<FlushCounts, ArrayRefusal>
    ensures sound { G.IntentLog.sound log.old → G.IntentLog.sound log.new }
    ensures does { G.IntentLog.sound log.old → (G.IntentLog.meaning log.old).on ≡ true → Empties (sized L.Layout.arrangement geometry.now.shape) (array_of Ready (contents caches.old) (S.MemberStore.meaning store.old) (G.IntentLog.meaning log.old)) result (array_of (state_after Ready result) (contents caches.new) (S.MemberStore.meaning store.new) (G.IntentLog.meaning log.new)) }
{
    let mut counts = FlushCounts::default();
    loop {
        match destage_once(store, log, geometry, caches)? {
            Destage::Moved(_) => counts.stripes += 1,
            Destage::Changed(puts) => counts.puts += puts,
            Destage::Idle => return Ok(counts),
        }
    }
}

/// Flushes: destages until idle, then bars the members. Answers the stripes written and the puts to the log.
pub fn flush_all<S: MemberStore, G: IntentLog, L: Layout>(
    store: &mut S,
    log: &mut G,
    geometry: &Geometry<L>,
    caches: &mut Caches,
) -> Result<FlushCounts, ArrayRefusal>
    ensures sound { G.IntentLog.sound log.old → G.IntentLog.sound log.new }
    ensures does { G.IntentLog.sound log.old → (G.IntentLog.meaning log.old).on ≡ true → FlushesReady (sized L.Layout.arrangement geometry.now.shape) (array_of Ready (contents caches.old) (S.MemberStore.meaning store.old) (G.IntentLog.meaning log.old)) result (array_of (state_after Ready result) (contents caches.new) (S.MemberStore.meaning store.new) (G.IntentLog.meaning log.new)) }
{
    let counts = empty_caches(store, log, geometry, caches)?;
    store.barrier()?;
    Ok(counts)
}

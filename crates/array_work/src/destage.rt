// Moving the caches to the members, one stripe at a time.
ghost use Rattle.std.specs.Prelude.{◌≡◌, ℕ, ◌<◌, true, List, [], ◌∷◌, MatchResult};
ghost use Rattle.geometry.specs.Counts.{members_of, blocks_of};
ghost use Rattle.geometry.specs.Places.{stripes as stripe_count};
ghost use Rattle.intent_log.specs.Meaning.{Meaning as LogMeaning};
ghost use Rattle.cache.specs.Meaning.{contents};
ghost use Rattle.cache.specs.Stripes.{Listed, by_position, stripe_freed};
ghost use Rattle.stripe_work.specs.Stripe.{stripe_at};
ghost use Rattle.stripe_work.specs.Work.{destage_calls};
ghost use Rattle.stripe_work.specs.Promises.{Destages};
ghost use Rattle.array_model.specs.Work.{devices};
ghost use Rattle.array_model.specs.Meaning.{array as array_of};
ghost use Rattle.array_model.specs.Calls.{ChangesCaches, DestagesReady};
ghost use Rattle.array_model.specs.declared.answer.Destage.TheVariants.{Moved};
ghost use Rattle.array_model.specs.declared.state.State.TheVariants.{Ready};
ghost use Rattle.array_work.specs.Outcomes.{sized, Works, state_after};
ghost use Rattle.array_work.specs.Draining.{Exchanges, Drained};

use crate::naming::name_stripes;
use crate::refusal::device_refusal;
use array_model::answer::Destage;
use array_model::refusal::ArrayRefusal;
use cache::caches::Caches;
use geometry::array_geometry::Geometry;
use geometry::layout::Layout;
use geometry::shape::Shape;
use intent_log::IntentLog;
use member_store::MemberStore;
use stripe_work::destage::destage_stripe;
use stripe_work::refusal::StripeRefusal;

// Kept: a struct of the loans of store, log and caches would be built of the array's fields at each call, and taken apart here.

// Writes a stripe's blocks in the destaging cache to the members, then its parity.
fn write_stripe<S: MemberStore, L: Layout>(
    store: &mut S,
    geometry: &Geometry<L>,
    caches: &Caches,
    stripe: usize,
) -> Result<(), StripeRefusal>
    ensures { Destages L.Layout.arrangement (members_of geometry.now.shape) (blocks_of geometry.now.shape) stripe (by_position (members_of geometry.now.shape) (blocks_of geometry.now.shape) (contents caches.now).destaging stripe) (S.MemberStore.meaning store.old) result (S.MemberStore.meaning store.new) }
{
    let cached = caches.destaging_blocks(geometry.shape, stripe);
    destage_stripe(store, geometry, stripe, &cached)
}

// Moves one stripe of the destaging cache to the members and frees its slots.
fn move_stripe<S: MemberStore, L: Layout>(
    store: &mut S,
    geometry: &Geometry<L>,
    caches: &mut Caches,
    stripe: usize,
) -> Result<Destage, ArrayRefusal>
    requires { stripe < stripe_count (blocks_of geometry.now.shape) }
    ensures caches { MatchResult result (λ _. contents caches.new ≡ stripe_freed (members_of geometry.now.shape) (blocks_of geometry.now.shape) stripe (contents caches.old)) (λ _. contents caches.new ≡ contents caches.old) }
    ensures does { (l : LogMeaning) → Works (devices (destage_calls (stripe_at L.Layout.arrangement (members_of geometry.now.shape) stripe) (by_position (members_of geometry.now.shape) (blocks_of geometry.now.shape) (contents caches.old).destaging stripe) (S.MemberStore.meaning store.old)) ∷ []) (Moved stripe) (S.MemberStore.meaning store.old) l result (S.MemberStore.meaning store.new) l }
{
    write_stripe(store, geometry, caches, stripe).map_err(device_refusal)?;
    caches.free_stripe(geometry.shape, stripe);
    Ok(Destage::Moved(stripe))
}

// Names the stripes of the buffering cache, if it has any, and lets the caches change places.
fn change_caches<S: MemberStore, G: IntentLog>(
    store: &mut S,
    log: &mut G,
    shape: Shape,
    caches: &mut Caches,
) -> Result<Destage, ArrayRefusal>
    ensures sound { G.IntentLog.sound log.old → G.IntentLog.sound log.new }
    ensures caches { Exchanges (members_of shape) (blocks_of shape) (contents caches.old) result (contents caches.new) }
    ensures does { G.IntentLog.sound log.old → (G.IntentLog.meaning log.old).on ≡ true → (w : List ℕ) × Listed (members_of shape) (blocks_of shape) (contents caches.old).buffering w × ChangesCaches w (array_of Ready (contents caches.old) (S.MemberStore.meaning store.old) (G.IntentLog.meaning log.old)) result (array_of (state_after Ready result) (contents caches.new) (S.MemberStore.meaning store.new) (G.IntentLog.meaning log.new)) }
{
    let list = caches.buffering_stripes(shape);
    let stripes = list.as_slice();
    if stripes.is_empty() {
        return Ok(Destage::Idle);
    }
    let puts = name_stripes(store, log, stripes)?;
    caches.change_places();
    Ok(Destage::Changed(puts))
}

/// One destage: moves the lowest stripe of the destaging cache. Where that cache is empty, names the stripes of the
/// buffering cache and lets the caches change places; where both are empty, it is idle.
pub fn destage_once<S: MemberStore, G: IntentLog, L: Layout>(
    store: &mut S,
    log: &mut G,
    geometry: &Geometry<L>,
    caches: &mut Caches,
) -> Result<Destage, ArrayRefusal>
    ensures sound { G.IntentLog.sound log.old → G.IntentLog.sound log.new }
    ensures caches { Drained (members_of geometry.now.shape) (blocks_of geometry.now.shape) (contents caches.old) result (contents caches.new) }
    ensures does { G.IntentLog.sound log.old → (G.IntentLog.meaning log.old).on ≡ true → DestagesReady (sized L.Layout.arrangement geometry.now.shape) (array_of Ready (contents caches.old) (S.MemberStore.meaning store.old) (G.IntentLog.meaning log.old)) result (array_of (state_after Ready result) (contents caches.new) (S.MemberStore.meaning store.new) (G.IntentLog.meaning log.new)) }
{
    match caches.lowest_destaging_stripe(geometry.shape) {
        Some(stripe) => move_stripe(store, geometry, caches, stripe),
        None => change_caches(store, log, geometry.shape, caches),
    }
}

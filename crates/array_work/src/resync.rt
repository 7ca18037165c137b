// One step of a resynchronization.
ghost use Rattle.std.specs.Prelude.{◌≡◌, ◌<◌, ◌≤◌, not, [], ◌∷◌};
ghost use Rattle.geometry.specs.Counts.{members_of, blocks_of};
ghost use Rattle.geometry.specs.Places.{stripes as stripe_count};
ghost use Rattle.stripe_work.specs.Stripe.{stripe_at, parity_right};
ghost use Rattle.stripe_work.specs.Work.{resync_calls};
ghost use Rattle.intent_log.specs.Meaning.{Meaning as LogMeaning};
ghost use Rattle.array_model.specs.Work.{devices};
ghost use Rattle.array_work.specs.Outcomes.{FindsDue, Below, Works};

use crate::refusal::device_refusal;
use array_model::refusal::ArrayRefusal;
use geometry::array_geometry::Geometry;
use geometry::layout::Layout;
use geometry::shape::Shape;
use intent_log::IntentLog;
use intent_log::refusal::LogRefusal;
use member_store::MemberStore;
use stripe_work::resync::resync_stripe;

/// The next stripe of the array at or above a number that the log names, where there is one.
pub fn next_due<G: IntentLog>(
    log: &G,
    shape: Shape,
    from: usize,
) -> Result<Option<usize>, LogRefusal>
    ensures below { Below (blocks_of shape) result }
    ensures finds { G.IntentLog.sound log.now → FindsDue (blocks_of shape) (G.IntentLog.meaning log.now) from result }
{
    let stripes = shape.stripes();
    // Past the array's stripes there is nothing to find, however high the number.
    let found = log.next_named(from.min(stripes) as u32)?;
    Ok(
        found
            .map(|stripe| stripe as usize)
            .filter(|stripe| *stripe < stripes),
    )
}

/// Takes one stripe of the array: reads it, and stores its parity where that was wrong. Answers whether it did.
pub fn take_stripe<S: MemberStore, L: Layout>(
    store: &mut S,
    geometry: &Geometry<L>,
    stripe: usize,
) -> Result<bool, ArrayRefusal>
    requires { stripe < stripe_count (blocks_of geometry.now.shape) }
    ensures { (l : LogMeaning) → Works (devices (resync_calls (stripe_at L.Layout.arrangement (members_of geometry.now.shape) stripe) (S.MemberStore.meaning store.old)) ∷ []) (not (parity_right (stripe_at L.Layout.arrangement (members_of geometry.now.shape) stripe) (S.MemberStore.meaning store.old))) (S.MemberStore.meaning store.old) l result (S.MemberStore.meaning store.new) l }
{
    resync_stripe(store, geometry, stripe).map_err(device_refusal)
}

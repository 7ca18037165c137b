// Destaging: the cached blocks of one stripe are moved to the members, then its parity.
ghost use Rattle.std.specs.Prelude.{ℕ};
ghost use Rattle.geometry.specs.Counts.{members_of, blocks_of};
ghost use Rattle.device_calls.specs.Lists.{Performs};
ghost use Rattle.stripe_work.specs.Stripe.{stripe_at};
ghost use Rattle.stripe_work.specs.Work.{cached_in, destage_calls};
ghost use Rattle.stripe_work.specs.Promises.{Destages};

use crate::block::store_block;
use crate::data::{CachedBlocks, MOST_POSITIONS, parity_of_rows, read_data, store_cached};
use crate::refusal::StripeRefusal;
use crate::stripe::Stripe;
use geometry::array_geometry::Geometry;
use geometry::layout::Layout;
use member_store::refusal::Refusal;
use member_store::{BLOCK_BYTES, MemberStore};

// The work on a stripe that the array has.
fn store_stripe<S: MemberStore, L: Layout>(
    store: &mut S,
    stripe: &Stripe<L>,
    cached: &CachedBlocks,
) -> Result<(), Refusal>
    ensures { Performs (destage_calls (stripe_at L.Layout.arrangement (members_of stripe.now.geometry.shape) stripe.now.number) (cached_in cached.now) (S.MemberStore.meaning store.old)) (S.MemberStore.meaning store.old) result (S.MemberStore.meaning store.new) }
{
    let mut rows = [[0; BLOCK_BYTES]; MOST_POSITIONS];
    read_data(store, stripe, cached, &mut rows)?;
    let sum = parity_of_rows(&rows[..stripe.positions()]);
    store_cached(store, stripe, cached)?;
    store_block(store, stripe.parity_address(), &sum)
}

/// Destages one stripe: reads the data blocks that are not cached, by position, stores the cached ones, by position,
/// then the parity of all data so merged. Cached blocks at positions that the stripe lacks are ignored.
pub fn destage_stripe<S: MemberStore, L: Layout>(
    store: &mut S,
    geometry: &Geometry<L>,
    stripe: usize,
    cached: &CachedBlocks,
) -> Result<(), StripeRefusal>
    ensures { Destages L.Layout.arrangement (members_of geometry.now.shape) (blocks_of geometry.now.shape) stripe (cached_in cached.now) (S.MemberStore.meaning store.old) result (S.MemberStore.meaning store.new) }
{
    let stripe = Stripe::new(geometry, stripe)?;
    store_stripe(store, &stripe, cached)?;
    Ok(())
}

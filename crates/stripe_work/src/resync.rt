// Checking the parity of one stripe and making it right; a scan of all stripes.
ghost use Rattle.std.specs.Prelude.{◌≡◌, ℕ, Bool, not, cond, Some, None, IfOk};
ghost use Rattle.geometry.specs.Counts.{members_of, blocks_of};
ghost use Rattle.parity.specs.Xor.{parity_of};
ghost use Rattle.device_calls.specs.Lists.{Performs};
ghost use Rattle.stripe_work.specs.Stripe.{stripe_at, stripe_data, parity_right};
ghost use Rattle.stripe_work.specs.Work.{check_calls, resync_calls};
ghost use Rattle.stripe_work.specs.Promises.{Checks, Resyncs, Scans};

use crate::block::{read_block, store_block};
use crate::data::{Block, MOST_POSITIONS, parity_of_rows, read_data};
use crate::refusal::StripeRefusal;
use crate::stripe::Stripe;
use geometry::array_geometry::Geometry;
use geometry::layout::Layout;
use member_store::refusal::Refusal;
use member_store::{BLOCK_BYTES, MemberStore};

// Reads a stripe, the data by position, then the parity. Answers the parity of the data where the stored one is another.
fn find_correction<S: MemberStore, L: Layout>(
    store: &mut S,
    stripe: &Stripe<L>,
) -> Result<Option<Block>, Refusal>
    ensures calls { Performs (check_calls (stripe_at L.Layout.arrangement (members_of stripe.now.geometry.shape) stripe.now.number)) (S.MemberStore.meaning store.old) result (S.MemberStore.meaning store.new) }
    ensures found { IfOk result (λ k. k ≡ cond (parity_right (stripe_at L.Layout.arrangement (members_of stripe.now.geometry.shape) stripe.now.number) (S.MemberStore.meaning store.old)) None (Some (parity_of (stripe_data (stripe_at L.Layout.arrangement (members_of stripe.now.geometry.shape) stripe.now.number) (S.MemberStore.meaning store.old))))) }
{
    let mut rows = [[0; BLOCK_BYTES]; MOST_POSITIONS];
    read_data(store, stripe, &[None; MOST_POSITIONS], &mut rows)?;
    let parity = parity_of_rows(&rows[..stripe.positions()]);
    let mut found = [0; BLOCK_BYTES];
    read_block(store, stripe.parity_address(), &mut found)?;
    Ok((found != parity).then_some(parity))
}

/// Says whether the parity of a stripe is right.
pub fn check_stripe<S: MemberStore, L: Layout>(
    store: &mut S,
    geometry: &Geometry<L>,
    stripe: usize,
) -> Result<bool, StripeRefusal>
    ensures { Checks L.Layout.arrangement (members_of geometry.now.shape) (blocks_of geometry.now.shape) stripe (S.MemberStore.meaning store.old) result (S.MemberStore.meaning store.new) }
{
    let stripe = Stripe::new(geometry, stripe)?;
    let correction = find_correction(store, &stripe)?;
    Ok(correction.is_none())
}

// The work of a resynchronization on a stripe that the array has.
fn mend_stripe<S: MemberStore, L: Layout>(
    store: &mut S,
    stripe: &Stripe<L>,
) -> Result<bool, Refusal>
    ensures calls { Performs (resync_calls (stripe_at L.Layout.arrangement (members_of stripe.now.geometry.shape) stripe.now.number) (S.MemberStore.meaning store.old)) (S.MemberStore.meaning store.old) result (S.MemberStore.meaning store.new) }
    ensures told { IfOk result (λ mended. mended ≡ not (parity_right (stripe_at L.Layout.arrangement (members_of stripe.now.geometry.shape) stripe.now.number) (S.MemberStore.meaning store.old))) }
{
    let Some(parity) = find_correction(store, stripe)? else {
        return Ok(false);
    };
    store_block(store, stripe.parity_address(), &parity)?;
    Ok(true)
}

/// One step of a resynchronization: reads a stripe, the data by position, then the parity, and stores the parity of the
/// data where it was another. Answers whether it did.
pub fn resync_stripe<S: MemberStore, L: Layout>(
    store: &mut S,
    geometry: &Geometry<L>,
    stripe: usize,
) -> Result<bool, StripeRefusal>
    ensures { Resyncs L.Layout.arrangement (members_of geometry.now.shape) (blocks_of geometry.now.shape) stripe (S.MemberStore.meaning store.old) result (S.MemberStore.meaning store.new) }
{
    let stripe = Stripe::new(geometry, stripe)?;
    let mended = mend_stripe(store, &stripe)?;
    Ok(mended)
}

/// Checks every stripe of an array, and answers how many have wrong parity.
pub fn count_wrong_stripes<S: MemberStore, L: Layout>(
    store: &mut S,
    geometry: &Geometry<L>,
) -> Result<usize, Refusal>
    ensures { Scans L.Layout.arrangement (members_of geometry.now.shape) (blocks_of geometry.now.shape) (S.MemberStore.meaning store.old) result (S.MemberStore.meaning store.new) }
{
    let mut wrong = 0;
    for number in 0..geometry.shape.stripes() {
        let stripe = Stripe {
            geometry: *geometry,
            number,
        };
        if find_correction(store, &stripe)?.is_some() {
            wrong += 1;
        }
    }
    Ok(wrong)
}

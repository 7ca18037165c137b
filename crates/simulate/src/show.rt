// A look at an array and what it rests on, which changes nothing and needs no power.
ghost use Rattle.std.specs.Prelude.{◌≡◌, ℕ, ◌-◌, ◌^◌, ◌<◌, ◌≤◌, true, false, take, if◌then◌else◌};
ghost use Rattle.geometry.specs.Counts.{members_of, blocks_of};
ghost use Rattle.geometry.specs.Places.{stripes as stripe_count};
ghost use Rattle.stripe_work.specs.Stripe.{stripe_at, stripe_data, parity_right, InStore};
ghost use Rattle.stripe_work.specs.Work.{wrong_below};
ghost use Rattle.cache.specs.Meaning.{contents};
ghost use Rattle.simulate.specs.Counts.{wrong_stripes, named_stripes};

use super::current::CurrentBytes;
use array::array::Array;
use array_model::state::State;
use geometry::array_geometry::Geometry;
use geometry::layout::Layout;
use geometry::shape::Shape;
use intent_log::IntentLog;
use member_store::{BLOCK_BYTES, MemberStore};
use std::fmt;
use stripe_work::data::{Block, MOST_POSITIONS, parity_of_rows};
use stripe_work::stripe::Stripe;

/// What a show tells.
#[derive(Clone, Copy)]
pub struct Picture {
    pub state: State,
    /// How many stripes have wrong parity in the current bytes.
    pub wrong: usize,
    /// How many stripes of the array are named; none where no record stands or the log has no power.
    pub named: Option<usize>,
    /// How many of the cache slots are free.
    pub free: usize,
}

impl fmt::Display for Picture {
    fn fmt<W: fmt::Write>(&self, f: &mut fmt::Formatter<W>) -> fmt::Result {
        write!(f, "state {} wrong {} named ", self.state, self.wrong)?;
        match self.named {
            Some(named) => write!(f, "{named}")?,
            None => f.write_str("-")?,
        }
        write!(f, " free {}", self.free)
    }
}

// The data of a stripe by position, as it is now.
fn copy_data<S: CurrentBytes, L: Layout>(
    store: &S,
    stripe: &Stripe<L>,
    rows: &mut [Block; MOST_POSITIONS],
)
    ensures { InStore (stripe_at L.Layout.arrangement (members_of stripe.now.geometry.shape) stripe.now.number) (S.MemberStore.meaning store.now) → take (members_of stripe.now.geometry.shape - 1) rows.new ≡ stripe_data (stripe_at L.Layout.arrangement (members_of stripe.now.geometry.shape) stripe.now.number) (S.MemberStore.meaning store.now) }
{
    for (position, row) in rows[..stripe.positions()].iter_mut().enumerate() {
        store.copy_current(stripe.data_address(position).unwrap(), row);
    }
}

// Is the parity of a stripe right now?
fn is_right<S: CurrentBytes, L: Layout>(store: &S, stripe: &Stripe<L>) -> bool
    ensures { InStore (stripe_at L.Layout.arrangement (members_of stripe.now.geometry.shape) stripe.now.number) (S.MemberStore.meaning store.now) → result ≡ parity_right (stripe_at L.Layout.arrangement (members_of stripe.now.geometry.shape) stripe.now.number) (S.MemberStore.meaning store.now) }
{
    let mut rows = [[0; BLOCK_BYTES]; MOST_POSITIONS];
    copy_data(store, stripe, &mut rows);
    let sum = parity_of_rows(&rows[..stripe.positions()]);
    let mut found = [0; BLOCK_BYTES];
    store.copy_current(stripe.parity_address(), &mut found);
    found == sum
}

// How many stripes of an array of this geometry have wrong parity now.
fn count_wrong<S: CurrentBytes, L: Layout>(store: &S, geometry: &Geometry<L>) -> usize
    ensures { ((k : ℕ) → k < stripe_count (blocks_of geometry.now.shape) → InStore (stripe_at L.Layout.arrangement (members_of geometry.now.shape) k) (S.MemberStore.meaning store.now)) → result ≡ wrong_below L.Layout.arrangement (members_of geometry.now.shape) (S.MemberStore.meaning store.now) (stripe_count (blocks_of geometry.now.shape)) }
{
    // Kept: a `filter` does not tell its closure that the stripe is one of the array's, which `Stripe` asks for.
    let mut wrong = 0;
    for number in 0..geometry.shape.stripes() {
        let stripe = Stripe {
            geometry: *geometry,
            number,
        };
        if !is_right(store, &stripe) {
            wrong += 1;
        }
    }
    wrong
}

// How many stripes have wrong parity now; counts outside the limits have none.
fn wrong_stripes<S: CurrentBytes, L: Layout>(store: &S, layout: &L) -> usize
    ensures { result ≡ wrong_stripes L.Layout.arrangement (S.MemberStore.meaning store.now) }
{
    match Shape::new(store.members(), store.blocks()) {
        Ok(shape) => count_wrong(store, &Geometry { layout, shape }),
        Err(_) => 0,
    }
}

// Does a record stand in a log that has power?
fn has_record<G: IntentLog>(log: &G) -> bool
    ensures { G.IntentLog.sound log.now → result ≡ (if (G.IntentLog.meaning log.now).on then (G.IntentLog.meaning log.now).standing.stands else false) }
{
    log.stands().unwrap_or(false)
}

// Is a stripe named by a log that has power?
fn is_named<G: IntentLog>(log: &G, stripe: u32) -> bool
    ensures { G.IntentLog.sound log.now → (G.IntentLog.meaning log.now).on ≡ true → result ≡ (G.IntentLog.meaning log.now).standing.names stripe }
{
    log.is_named(stripe).unwrap_or(false)
}

// How many of the first stripes are named; none where the log has no power or no record stands.
fn named_stripes<G: IntentLog>(log: &G, stripes: u32) -> Option<usize>
    ensures { G.IntentLog.sound log.now → result ≡ named_stripes (G.IntentLog.meaning log.now) stripes }
{
    if !has_record(log) {
        return None;
    }
    let named = (0..stripes).filter(|stripe| is_named(log, *stripe));
    Some(named.count())
}

/// Looks at everything.
pub fn show<S: CurrentBytes, G: IntentLog, L: Layout>(array: &Array<S, G, L>) -> Picture
    ensures state { result.state ≡ array.now.state }
    ensures wrong { result.wrong ≡ wrong_stripes L.Layout.arrangement (S.MemberStore.meaning array.now.store) }
    ensures named { G.IntentLog.sound array.now.log → (S.MemberStore.meaning array.now.store).blocks < 2 ^ 32 → result.named ≡ named_stripes (G.IntentLog.meaning array.now.log) (S.MemberStore.meaning array.now.store).blocks }
    ensures free { result.free ≡ (contents array.now.caches).free }
{
    let stripes = u32::try_from(array.store().blocks()).unwrap_or(u32::MAX);
    Picture {
        state: array.state(),
        wrong: wrong_stripes(array.store(), array.layout()),
        named: named_stripes(array.log(), stripes),
        free: array.free_slots(),
    }
}

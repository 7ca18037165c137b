// The stripes of a cache.
// Kept: clauses give both counts of a shape, since the definitions also serve models that have no Shape.
ghost use Rattle.std.specs.Prelude.{◌≡◌, ◌<◌, Some};
ghost use Rattle.geometry.specs.Counts.{members_of, blocks_of};
ghost use Rattle.cache.specs.Stripes.{HasStripe, Listed};
ghost use Rattle.cache.specs.Slots.{blocks};
ghost use Rattle.cache.specs.Searches.{slot_stripe as stripe_of_slot, LowestFrom, lower};
ghost use Rattle.cache.specs.Meaning.{listed};

use crate::caches::Caches;
use crate::list::StripeList;
use crate::slot::{Cache, SLOTS, Slot};
use geometry::shape::Shape;

// The stripe of a slot's block, if that belongs to this cache and the array has it.
pub(super) fn slot_stripe(slot: &Slot, cache: Cache, shape: Shape) -> Option<usize>
    ensures { result ≡ stripe_of_slot (members_of shape) (blocks_of shape) cache slot.now }
{
    let cached = slot.as_ref()?;
    if cached.cache != cache {
        return None;
    }
    Some(shape.locate(cached.block)?.stripe)
}

// The lower of two stripes, of which the first may be none.
fn lower_stripe(lowest: Option<usize>, stripe: usize) -> Option<usize>
    ensures { result ≡ Some (lower lowest stripe) }
{
    match lowest {
        Some(lowest) => Some(lowest.min(stripe)),
        None => Some(stripe),
    }
}

impl Caches {
    // The lowest stripe from `from` on that has a block in a cache.
    pub(super) fn next_stripe(&self, cache: Cache, shape: Shape, from: usize) -> Option<usize>
        ensures { LowestFrom (HasStripe (members_of shape) (blocks_of shape) (blocks cache self.now.slots)) from result }
    {
        self.slots
            .iter()
            .filter_map(|slot| slot_stripe(slot, cache, shape))
            .filter(|stripe| from <= *stripe)
            .fold(None, lower_stripe)
    }

    // All stripes that have a block in a cache.
    pub(super) fn all_stripes(&self, cache: Cache, shape: Shape) -> StripeList
        ensures { Listed (members_of shape) (blocks_of shape) (blocks cache self.now.slots) (listed result) }
    {
        // Kept: the list fills its array from the front, as a push would; the loop goes over stripes and no indices.
        let mut numbers = [0; SLOTS];
        let mut count = 0;
        let mut from = 0;
        while let Some(stripe) = self.next_stripe(cache, shape, from) {
            numbers[count] = stripe as u32;
            count += 1;
            from = stripe + 1;
        }
        StripeList { numbers, count }
    }
}

// Changes of every slot.
ghost use Rattle.std.specs.Prelude.{◌≡◌, map};
ghost use Rattle.geometry.specs.Counts.{members_of, blocks_of};
ghost use Rattle.cache.specs.Stripes.{in_stripe, is_number};
ghost use Rattle.cache.specs.declared.slot.Cache.TheVariants.{Destaging};
ghost use Rattle.cache.specs.Slots.{other_cache, slot_exchanged, slot_freed};
ghost use Rattle.cache.specs.Searches.{slot_stripe as stripe_of_slot};

use crate::slot::{Cache, SLOTS, Slot};
use crate::stripes::slot_stripe;
use geometry::shape::Shape;

impl Cache {
    // The other cache.
    fn other(self) -> Cache
        ensures { result ≡ other_cache self }
    {
        match self {
            Cache::Buffering => Cache::Destaging,
            Cache::Destaging => Cache::Buffering,
        }
    }
}

// The blocks of each cache become the other's.
pub(super) fn exchange(slots: &mut [Slot; SLOTS])
    ensures { slots.new ≡ map slot_exchanged slots.old }
{
    for slot in slots.iter_mut() {
        if let Some(cached) = slot {
            cached.cache = cached.cache.other();
        }
    }
}

// Does a slot have a block of this stripe of the destaging cache?
fn is_in_stripe(slot: &Slot, shape: Shape, stripe: usize) -> bool
    ensures { result ≡ is_number stripe (stripe_of_slot (members_of shape) (blocks_of shape) Destaging slot.now) }
{
    slot_stripe(slot, Cache::Destaging, shape).is_some_and(|number| number == stripe)
}

// The slots of the destaging cache with a block of this stripe become free.
pub(super) fn free_slots_of(slots: &mut [Slot; SLOTS], shape: Shape, stripe: usize)
    ensures { slots.new ≡ map (slot_freed (in_stripe (members_of shape) (blocks_of shape) stripe)) slots.old }
{
    for slot in slots.iter_mut() {
        if is_in_stripe(slot, shape, stripe) {
            *slot = None;
        }
    }
}

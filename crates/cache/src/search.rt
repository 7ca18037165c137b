// Searches through the slots.
ghost use Rattle.std.specs.Prelude.{◌≡◌, position, is_none};
ghost use Rattle.std.specs.Option.{option_copied, option_or};
ghost use Rattle.geometry.specs.Counts.{members_of, blocks_of};
ghost use Rattle.cache.specs.Stripes.{by_position};
ghost use Rattle.cache.specs.declared.slot.Cache.TheVariants.{Buffering};
ghost use Rattle.cache.specs.Slots.{holds as holds_block, belongs as belongs_to, blocks};

use crate::caches::Caches;
use crate::slot::{BLOCK_BYTES, Cache, Slot};
use geometry::place::Location;
use geometry::shape::Shape;

// Does a slot have a block of this cache?
pub(super) fn belongs(slot: &Slot, cache: Cache) -> bool
    ensures { result ≡ belongs_to cache slot.now }
{
    matches!(slot, Some(cached) if cached.cache == cache)
}

// Does a slot have this block of this cache?
fn holds(slot: &Slot, cache: Cache, block: usize) -> bool
    ensures { result ≡ holds_block cache block slot.now }
{
    matches!(slot, Some(cached) if cached.cache == cache && cached.block == block)
}

impl Caches {
    // The first slot of a block in a cache.
    fn slot_of(&self, cache: Cache, block: usize) -> Option<usize>
        ensures { result ≡ position (holds_block cache block) self.now.slots }
    {
        self.slots.iter().position(|slot| holds(slot, cache, block))
    }

    // The first free slot.
    fn free_slot(&self) -> Option<usize>
        ensures { result ≡ position is_none self.now.slots }
    {
        self.slots.iter().position(|slot| slot.is_none())
    }

    // The slot that a buffered block goes into: that of an earlier copy, else the first free one.
    pub(super) fn slot_for(&self, block: usize) -> Option<usize>
        ensures { result ≡ option_or (position (holds_block Buffering block) self.now.slots) (position is_none self.now.slots) }
    {
        self.slot_of(Cache::Buffering, block)
            .or_else(|| self.free_slot())
    }

    // The bytes of a block in a cache.
    pub(super) fn get(&self, cache: Cache, block: usize) -> Option<&[u8; BLOCK_BYTES]>
        ensures { option_copied result ≡ blocks cache self.now.slots block }
    {
        let slot = self.slot_of(cache, block)?;
        let cached = self.slots[slot].as_ref()?;
        Some(&cached.bytes)
    }

    // The bytes of the block at a place in the array, if it is in a cache.
    pub(super) fn block_at(
        &self,
        cache: Cache,
        shape: Shape,
        at: Location,
    ) -> Option<[u8; BLOCK_BYTES]>
        ensures { result ≡ by_position (members_of shape) (blocks_of shape) (blocks cache self.now.slots) at.stripe at.position }
    {
        self.get(cache, shape.block_number(at)?).copied()
    }
}

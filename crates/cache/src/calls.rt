// The calls on the caches.
ghost use Rattle.std.specs.Prelude.{◌≡◌, ℕ, true, false, is_some, Some, None, MatchBool, MatchOption, MatchResult, slice_index_or};
ghost use Rattle.geometry.specs.Counts.{members_of, blocks_of};
ghost use Rattle.cache.specs.Contents.{empty as no_contents, no_blocks, no_slot_for, put_into, newest, exchanged};
ghost use Rattle.cache.specs.Stripes.{Listed, Lowest, by_position, stripe_freed};
ghost use Rattle.cache.specs.Sharing.{Shared};
ghost use Rattle.cache.specs.Slots.{blocks_in};
ghost use Rattle.cache.specs.Meaning.{contents, listed};

use crate::caches::{Caches, NoFreeSlot};
use crate::change::{exchange, free_slots_of};
use crate::list::StripeList;
use crate::search::belongs;
use crate::slot::{BLOCK_BYTES, Cache, CachedBlock, MOST_POSITIONS, SLOTS};
use geometry::place::Location;
use geometry::shape::Shape;
use std::array;

impl Caches {
    /// Both caches empty.
    pub fn new() -> Caches
        ensures { contents result ≡ no_contents }
    {
        Caches {
            slots: [None; SLOTS],
        }
    }

    /// Puts a block into the buffering cache. A buffered copy is replaced; a block that is not buffered takes a free slot,
    /// and is refused, with nothing changed, exactly when there is none.
    pub fn put(&mut self, block: usize, bytes: &[u8; BLOCK_BYTES]) -> Result<(), NoFreeSlot>
        ensures { MatchResult result
            (λ _. (no_slot_for block (contents self.old) ≡ false) × (contents self.new ≡ put_into block bytes.now (contents self.old)))
            (λ e. (no_slot_for block (contents self.old) ≡ true) × (contents self.new ≡ contents self.old) × (e.block ≡ block)) }
    {
        let slot = self.slot_for(block).ok_or(NoFreeSlot { block })?;
        self.slots[slot] = Some(CachedBlock {
            cache: Cache::Buffering,
            block,
            bytes: *bytes,
        });
        Ok(())
    }

    /// The newest bytes of a block, if it is cached: a buffered copy before one in the destaging cache.
    pub fn find(&self, block: usize) -> Option<&[u8; BLOCK_BYTES]>
        ensures { MatchOption result (newest block (contents self.now) ≡ None) (λ x. newest block (contents self.now) ≡ Some x.now) }
    {
        let buffered = self.get(Cache::Buffering, block);
        buffered.or_else(|| self.get(Cache::Destaging, block))
    }

    /// Is the block in the buffering cache?
    pub fn is_buffered(&self, block: usize) -> bool
        ensures { result ≡ is_some ((contents self.now).buffering block) }
    {
        self.get(Cache::Buffering, block).is_some()
    }

    /// How many slots are free. With the blocks of both caches they are 32, always.
    pub fn free_slots(&self) -> usize
        ensures value { result ≡ (contents self.now).free }
        ensures shared { Shared (contents self.now) }
    {
        self.slots.iter().filter(|slot| slot.is_none()).count()
    }

    /// Is this cache empty?
    pub fn is_empty(&self, cache: Cache) -> bool
        ensures { MatchBool result (blocks_in cache (contents self.now) ≡ no_blocks) ((k : ℕ) × (is_some (blocks_in cache (contents self.now) k) ≡ true)) }
    {
        !self.slots.iter().any(|slot| belongs(slot, cache))
    }

    /// Empties both caches.
    pub fn clear(&mut self)
        ensures { contents self.new ≡ no_contents }
    {
        *self = Caches::new();
    }

    /// The caches change places: the destaging cache is what the buffering cache was, and the reverse.
    pub fn change_places(&mut self)
        ensures { contents self.new ≡ exchanged (contents self.old) }
    {
        exchange(&mut self.slots);
    }

    /// Frees the slots of one stripe of the destaging cache, and no others.
    pub fn free_stripe(&mut self, shape: Shape, stripe: usize)
        ensures { contents self.new ≡ stripe_freed (members_of shape) (blocks_of shape) stripe (contents self.old) }
    {
        free_slots_of(&mut self.slots, shape, stripe);
    }

    /// The stripes of the buffering cache, rising. Blocks that the array does not have are in none.
    pub fn buffering_stripes(&self, shape: Shape) -> StripeList
        ensures { Listed (members_of shape) (blocks_of shape) (contents self.now).buffering (listed result) }
    {
        self.all_stripes(Cache::Buffering, shape)
    }

    /// The lowest stripe of the destaging cache.
    pub fn lowest_destaging_stripe(&self, shape: Shape) -> Option<usize>
        ensures { Lowest (members_of shape) (blocks_of shape) (contents self.now).destaging result }
    {
        self.next_stripe(Cache::Destaging, shape, 0)
    }

    /// The blocks of a stripe of the destaging cache, by position.
    pub fn destaging_blocks(
        &self,
        shape: Shape,
        stripe: usize,
    ) -> [Option<[u8; BLOCK_BYTES]>; MOST_POSITIONS]
        ensures { (j : ℕ) → slice_index_or result j None ≡ by_position (members_of shape) (blocks_of shape) (contents self.now).destaging stripe j }
    {
        array::from_fn(|position| {
            self.block_at(Cache::Destaging, shape, Location { stripe, position })
        })
    }
}

// The two write caches: 32 slots in one array, so that nothing is allocated.
ghost use Rattle.std.specs.Prelude.{◌≡◌, true, length};
ghost use Rattle.cache.specs.Slots.{each_once};
ghost use Rattle.cache.specs.declared.slot.Cache.TheVariants.{Buffering, Destaging};

use crate::slot::{SLOTS, Slot};

/// A buffering and a destaging cache that share 32 slots of 512 bytes. Each has a block at most once; a block in both has two slots.
#[derive(Drop)]
pub struct Caches {
    pub(super) slots: [Slot; SLOTS],
    ghost whole: { length slots ≡ 32 },
    ghost buffered: { each_once Buffering slots ≡ true },
    ghost destaged: { each_once Destaging slots ≡ true },
}

/// No slot is free for a block that is not buffered: that block.
#[derive(Clone, Copy, PartialEq, Eq, Debug)]
pub struct NoFreeSlot {
    pub block: usize,
}

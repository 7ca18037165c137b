// A cache slot: free, or with a block of one of the caches.
use geometry::shape::MOST_MEMBERS;

/// How many slots the two caches share.
pub const SLOTS: usize = 32;

/// How many bytes a block has.
// Kept: a constant of this crate's own, since it stands on geometry alone, which knows nothing of bytes.
pub const BLOCK_BYTES: usize = 512;

/// The most data blocks of a stripe: one less than the most members of an array.
pub const MOST_POSITIONS: usize = MOST_MEMBERS - 1;

/// One of the two caches.
#[derive(Clone, Copy, PartialEq, Eq, Debug)]
pub enum Cache {
    Buffering,
    Destaging,
}

/// A block in a cache.
#[derive(Clone, Copy)]
pub struct CachedBlock {
    pub(super) cache: Cache,
    pub(super) block: usize,
    pub(super) bytes: [u8; BLOCK_BYTES],
}

/// A slot: the block in it, if it is not free.
pub type Slot = Option<CachedBlock>;

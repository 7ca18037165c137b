// What the book holds.

/// The length of a block.
pub const BLOCK_BYTES: usize = 512;

/// An accepted write: bytes on its block's list.
#[derive(Clone, Copy)]
pub struct Accepted {
    pub block: usize,
    pub bytes: [u8; BLOCK_BYTES],
}

/// For each block a base and a list. The lists stand together, in the order in which the writes were accepted.
#[derive(Drop)]
pub struct Book {
    pub(super) bases: Vec<[u8; BLOCK_BYTES]>,
    pub(super) writes: Vec<Accepted>,
}

// The state of a memory store, and what its making is refused with.
ghost use Rattle.std.specs.Prelude.{◌*◌, ◌≤◌, vec_len};

/// A member store in memory: block after block, member after member, in a row of bytes.
#[derive(Drop)]
pub struct MemoryStore {
    pub(super) members: usize,
    pub(super) blocks: usize,
    pub(super) bytes: Vec<u8>,
    ghost some_members: { 1 ≤ members },
    ghost some_blocks: { 1 ≤ blocks },
    ghost room: { members * blocks * 512 ≤ vec_len bytes },
}

/// A count is 0, or there are too few bytes for the counts: they come back, with the counts that were asked for.
#[derive(Drop)]
pub struct BadCounts {
    pub members: usize,
    pub blocks: usize,
    pub bytes: Vec<u8>,
}

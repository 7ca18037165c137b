// The counts of an array, with their limits.
ghost use Rattle.std.specs.Prelude.{◌≤◌};

/// The fewest members of an array.
pub const LEAST_MEMBERS: usize = 3;

/// The most members of an array.
pub const MOST_MEMBERS: usize = 8;

/// The fewest blocks of a member.
pub const LEAST_BLOCKS: usize = 1;

/// The most blocks of a member.
pub const MOST_BLOCKS: usize = 16_777_216;

/// How many members an array has: 3 to 8.
#[derive(Clone, Copy)]
pub struct MemberCount {
    pub(super) count: usize,
    ghost least: { 3 ≤ count },
    ghost most: { count ≤ 8 },
}

/// The counts of an array: its members, and the blocks of each, 1 to 16,777,216.
#[derive(Clone, Copy)]
pub struct Shape {
    pub(super) members: MemberCount,
    pub(super) blocks: usize,
    ghost some: { 1 ≤ blocks },
    ghost few: { blocks ≤ 16777216 },
}

/// Counts that are outside the limits: the counts that were asked for.
#[derive(Clone, Copy, PartialEq, Eq, Debug)]
pub struct OutOfLimits {
    pub members: usize,
    pub blocks: usize,
}

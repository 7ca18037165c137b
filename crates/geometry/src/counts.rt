// Counts within their limits.
ghost use Rattle.std.specs.Prelude.{◌≡◌, ◌-◌, ◌≤◌, false, is_some, is_ok, MatchOption, MatchResult};
ghost use Rattle.geometry.specs.Counts.{counted, members_of, blocks_of, members_allowed, counts_allowed};

use crate::shape::{
    LEAST_BLOCKS, LEAST_MEMBERS, MOST_BLOCKS, MOST_MEMBERS, MemberCount, OutOfLimits, Shape,
};

impl MemberCount {
    /// A number of members, if it is 3 to 8.
    pub fn new(count: usize) -> Option<MemberCount>
        ensures allowed { is_some result ≡ members_allowed count }
        ensures value { MatchOption result (members_allowed count ≡ false) (λ c. counted c ≡ count) }
    {
        if !(LEAST_MEMBERS..=MOST_MEMBERS).contains(&count) {
            return None;
        }
        Some(MemberCount { count })
    }

    /// The number.
    pub fn get(self) -> usize
        ensures value { result ≡ counted self }
        ensures bounds { (3 ≤ result) × (result ≤ 8) }
    {
        self.count
    }

    /// How many data blocks a stripe has: one less than there are members.
    pub fn positions(self) -> usize
        ensures { result ≡ counted self - 1 }
    {
        self.get() - 1
    }
}

impl Shape {
    /// Counts of members and of blocks a member, if they are within the limits.
    pub fn new(members: usize, blocks: usize) -> Result<Shape, OutOfLimits>
        ensures allowed { is_ok result ≡ counts_allowed members blocks }
        ensures value { MatchResult result (λ a. (members_of a ≡ members) × (blocks_of a ≡ blocks)) (λ e. (e.members ≡ members) × (e.blocks ≡ blocks)) }
    {
        let refused = OutOfLimits { members, blocks };
        let count = MemberCount::new(members).ok_or(refused)?;
        if !(LEAST_BLOCKS..=MOST_BLOCKS).contains(&blocks) {
            return Err(refused);
        }
        Ok(Shape {
            members: count,
            blocks,
        })
    }

    /// How many members.
    pub fn members(self) -> MemberCount
        ensures { counted result ≡ members_of self }
    {
        self.members
    }

    /// How many blocks each member has.
    pub fn blocks(self) -> usize
        ensures value { result ≡ blocks_of self }
        ensures bounds { (1 ≤ result) × (result ≤ 16777216) }
    {
        self.blocks
    }
}

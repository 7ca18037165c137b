// The conversions between block numbers, stripes with positions, and members.
ghost use Rattle.std.specs.Prelude.{◌≡◌};
ghost use Rattle.geometry.specs.Counts.{members_of, blocks_of};
ghost use Rattle.geometry.specs.Places.{located, numbered, data_blocks, stripes as stripe_count, Undone};

use crate::place::Location;
use crate::shape::Shape;

impl Shape {
    /// How many stripes the array has.
    pub fn stripes(self) -> usize
        ensures { result ≡ stripe_count (blocks_of self) }
    {
        self.blocks()
    }

    /// How many blocks of data the array has.
    pub fn data_blocks(self) -> usize
        ensures { result ≡ data_blocks (members_of self) (blocks_of self) }
    {
        self.members.positions() * self.stripes()
    }

    /// The stripe and the position of a block, or None where there is no such block.
    pub fn locate(self, block: usize) -> Option<Location>
        ensures value { result ≡ located (members_of self) (blocks_of self) block }
        ensures undone { Undone (numbered (members_of self) (blocks_of self)) block result }
    {
        if block >= self.data_blocks() {
            return None;
        }
        let positions = self.members.positions();
        Some(Location {
            stripe: block / positions,
            position: block % positions,
        })
    }

    /// The number of the block at a stripe and position, or None where there is no such place.
    pub fn block_number(self, at: Location) -> Option<usize>
        ensures value { result ≡ numbered (members_of self) (blocks_of self) at }
        ensures undone { Undone (located (members_of self) (blocks_of self)) at result }
    {
        let positions = self.members.positions();
        if at.stripe >= self.stripes() || at.position >= positions {
            return None;
        }
        Some(at.stripe * positions + at.position)
    }
}

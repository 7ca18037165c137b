// The conversions between blocks of data, stripes with positions, and places on the members.
ghost use Rattle.std.specs.Prelude.{◌≡◌};
ghost use Rattle.geometry.specs.Counts.{members_of, blocks_of};
ghost use Rattle.geometry.specs.Places.{position_address as address_of_position, parity_address as address_of_parity, data_address as address_of_data, content_at, address_of, stripe_of_block, block_number, Undone};
ghost use Rattle.geometry.specs.declared.place.Content.TheVariants.{Data, Parity as ParityOf};

use crate::layout::Layout;
use crate::place::{Content, Location};
use crate::shape::Shape;
use block_address::Address;

/// The counts of an array and its layout: where everything lies on the members.
#[derive_where(Clone, Copy)]
pub struct Geometry<'a, L> {
    pub layout: &'a L,
    pub shape: Shape,
}

impl<'a, L: Layout> Geometry<'a, L> {
    /// The member and the block on it of the data at a stripe and position, or None where there is no such place.
    pub fn position_address(&self, at: Location) -> Option<Address>
        ensures value { result ≡ address_of_position L.Layout.arrangement (members_of self.now.shape) (blocks_of self.now.shape) at }
        ensures undone { Undone (content_at L.Layout.arrangement (members_of self.now.shape) (blocks_of self.now.shape)) (Data (block_number (members_of self.now.shape) at.stripe at.position)) result }
    {
        if at.stripe >= self.shape.stripes() {
            return None;
        }
        let member = self
            .layout
            .member_of(self.shape.members(), at.stripe, at.position)?;
        Some(Address {
            member,
            block: at.stripe,
        })
    }

    /// The member and the block on it of a stripe's parity, or None where there is no such stripe.
    pub fn parity_address(&self, stripe: usize) -> Option<Address>
        ensures value { result ≡ address_of_parity L.Layout.arrangement (members_of self.now.shape) (blocks_of self.now.shape) stripe }
        ensures undone { Undone (content_at L.Layout.arrangement (members_of self.now.shape) (blocks_of self.now.shape)) ParityOf result }
    {
        if stripe >= self.shape.stripes() {
            return None;
        }
        Some(Address {
            member: self.layout.parity_member(self.shape.members(), stripe),
            block: stripe,
        })
    }

    /// The member and the block on it of a block of data, or None where there is no such block.
    pub fn data_address(&self, block: usize) -> Option<Address>
        ensures value { result ≡ address_of_data L.Layout.arrangement (members_of self.now.shape) (blocks_of self.now.shape) block }
        ensures undone { Undone (content_at L.Layout.arrangement (members_of self.now.shape) (blocks_of self.now.shape)) (Data block) result }
    {
        self.position_address(self.shape.locate(block)?)
    }

    /// What stands at a member's block: a block of data, by its number, or parity; None where there is no such place.
    pub fn content(&self, at: Address) -> Option<Content>
        ensures value { result ≡ content_at L.Layout.arrangement (members_of self.now.shape) (blocks_of self.now.shape) at }
        ensures undone { Undone (address_of L.Layout.arrangement (members_of self.now.shape) (blocks_of self.now.shape) (stripe_of_block at.block)) at result }
    {
        let members = self.shape.members;
        let stripe = at.block;
        if at.member >= members.get() || stripe >= self.shape.stripes() {
            return None;
        }
        match self.layout.position_on(members, stripe, at.member) {
            Some(position) => Some(Content::Data(stripe * members.positions() + position)),
            None => Some(Content::Parity),
        }
    }
}

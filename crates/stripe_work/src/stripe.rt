// A stripe that an array has, and where its blocks lie.
ghost use Rattle.std.specs.Prelude.{◌≡◌, ℕ, ◌-◌, ◌<◌, ◌≤◌, is_ok, nat_lt, Some, None, MatchResult};
ghost use Rattle.geometry.specs.Counts.{members_of, blocks_of};
ghost use Rattle.geometry.specs.Places.{stripes as stripe_count, block_of_stripe};

use crate::refusal::StripeRefusal;
use block_address::Address;
use geometry::array_geometry::Geometry;
use geometry::layout::Layout;
use geometry::place::Location;

/// A stripe of an array, by its number.
#[derive(Drop)]
pub struct Stripe<'a, L> {
    pub geometry: Geometry<'a, L>,
    pub number: usize,
    pub ghost inside: { number < stripe_count (blocks_of geometry.shape) },
}

impl<'a, L: Layout> Stripe<'a, L> {
    ghost use Rattle.stripe_work.specs.declared.refusal.StripeRefusal.TheVariants.{NoStripe};

    /// The stripe of this number, if the array has it.
    pub fn new(geometry: &Geometry<'a, L>, number: usize) -> Result<Stripe<'a, L>, StripeRefusal>
        ensures allowed { is_ok result ≡ nat_lt number (stripe_count (blocks_of geometry.now.shape)) }
        ensures value { MatchResult result (λ s. (s.geometry ≡ geometry.now) × (s.number ≡ number)) (λ e. e ≡ NoStripe number) }
    {
        if number >= geometry.shape.stripes() {
            return Err(StripeRefusal::NoStripe(number));
        }
        Ok(Stripe {
            geometry: *geometry,
            number,
        })
    }

    /// How many data blocks the stripe has.
    pub fn positions(&self) -> usize
        ensures value { result ≡ members_of self.now.geometry.shape - 1 }
        ensures bounds { (2 ≤ result) × (result ≤ 7) }
    {
        self.geometry.shape.members().positions()
    }

    /// The member and the block on it of the data at a position, if the stripe has it.
    pub fn data_address(&self, position: usize) -> Option<Address>
        ensures held { position < members_of self.now.geometry.shape - 1 → result ≡ Some (record { member = (L.Layout.arrangement (members_of self.now.geometry.shape) self.now.number).member position; block = block_of_stripe self.now.number }) }
        ensures past { members_of self.now.geometry.shape - 1 ≤ position → result ≡ None }
    {
        let stripe = self.number;
        self.geometry
            .position_address(Location { stripe, position })
    }

    /// The member and the block on it of the parity.
    pub fn parity_address(&self) -> Address
        ensures member { result.member ≡ (L.Layout.arrangement (members_of self.now.geometry.shape) self.now.number).parity }
        ensures block { result.block ≡ block_of_stripe self.now.number }
    {
        self.geometry.parity_address(self.number).unwrap()
    }
}

// Why work on a stripe is refused.
ghost use Rattle.std.specs.Prelude.{◌≡◌};
ghost use Rattle.stripe_work.specs.declared.refusal.StripeRefusal.TheVariants.{Device as FromDevice};

use member_store::refusal::Refusal;

/// A place that the array lacks, told before any device call, or a device call that was refused.
#[derive(Clone, Copy, PartialEq, Eq, Debug)]
pub enum StripeRefusal {
    /// The array has no stripe of this number.
    NoStripe(usize),
    /// The array has no member of this number.
    NoMember(usize),
    /// The members have no block of this number.
    NoBlock(usize),
    /// The member store refused a device call, for this reason.
    Device(Refusal),
}

impl From<Refusal> for StripeRefusal {
    ghost from_gives = { λ refusal e. e ≡ FromDevice refusal };

    fn from(refusal: Refusal) -> StripeRefusal {
        StripeRefusal::Device(refusal)
    }
}

// The refusal of a device call, handed up.
ghost use Rattle.array_work.specs.Outcomes.{IsDevice, Tells};

use array_model::refusal::ArrayRefusal;
use stripe_work::refusal::StripeRefusal;

// What the array tells where work on one of its own stripes was refused, which only a device call can be.
pub(super) fn device_refusal(refusal: StripeRefusal) -> ArrayRefusal
    requires { IsDevice refusal }
    ensures { Tells refusal result }
{
    let StripeRefusal::Device(e) = refusal else {
        unreachable()
    };
    e.into()
}

// A record, in a file of its own, since the definitions that read it stand beside its facts.
ghost use Rattle.std.specs.Prelude.{◌≡◌, ◌≤◌, length};
ghost use Rattle.stripe_set.specs.Stripes.{stripes as listing};

use stripe_set::set::StripeSet;

/// A version from 1 on, and the stripes that the record names. The highest version names none.
#[derive(Clone, Copy)]
pub struct Record {
    pub(super) version: u32,
    pub(super) stripes: StripeSet,
    ghost first: { 1 ≤ version },
    ghost last: { (4294967295 ≤ version → length (listing stripes) ≡ 0) },
}

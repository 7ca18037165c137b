// A set of stripes, in a file of its own, since the definitions that read it stand beside its facts.
ghost use Rattle.std.specs.Prelude.{◌≡◌, ◌≤◌, true, length, take};
ghost use Rattle.stripe_set.specs.Rising.{rising as increasing};

/// The most stripes that a set holds.
pub const MOST: usize = 64;

/// At most 64 stripe numbers, each above the one before.
// Kept: an array and a length, since there is no heap here, and the kit's `ArrayVec` is not `Copy`, as this is.
#[derive(Clone, Copy)]
pub struct StripeSet {
    pub(super) items: [u32; MOST],
    pub(super) len: usize,
    ghost whole: { length items ≡ 64 },
    ghost few: { len ≤ 64 },
    ghost rising: { increasing 0 (take len items) ≡ true },
}

// A rising list of stripes.
ghost use Rattle.std.specs.Prelude.{◌≡◌, ℕ, ◌<◌, ◌≤◌, length, slice_index};

use crate::slot::SLOTS;

/// The stripes of a cache, rising, each once: at most one for each slot.
// Kept: an array with its length, since nothing here may allocate and the list is Copy, which an ArrayVec is not.
#[derive(Clone, Copy)]
pub struct StripeList {
    pub(super) numbers: [u32; SLOTS],
    pub(super) count: usize,
    ghost whole: { length numbers ≡ 32 },
    ghost few: { count ≤ 32 },
    ghost rising: { (i j : ℕ) → i < j → j < count → slice_index numbers i < slice_index numbers j },
}

impl StripeList {
    ghost use Rattle.cache.specs.Meaning.{listed};

    /// The stripes.
    pub fn as_slice(&self) -> &[u32]
        ensures { result.now ≡ listed self.now }
    {
        &self.numbers[..self.count]
    }
}

// Questions that change nothing and touch no device.
ghost use Rattle.std.specs.Prelude.{◌≡◌};
ghost use Rattle.cache.specs.Meaning.{contents};
ghost use Rattle.cache.specs.Sharing.{Shared};

use crate::array::Array;
use array_model::state::State;

impl<S, G, L> Array<S, G, L> {
    /// The state of the array.
    pub fn state(&self) -> State
        ensures { result ≡ self.now.state }
    {
        self.state
    }

    /// How many slots are free. With the blocks of both caches they are 32, always.
    pub fn free_slots(&self) -> usize
        ensures value { result ≡ (contents self.now.caches).free }
        ensures shared { Shared (contents self.now.caches) }
    {
        self.caches.free_slots()
    }

    /// The member store, to look at.
    pub fn store(&self) -> &S
        ensures { result.now ≡ self.now.store }
    {
        &self.store
    }

    /// The log, to look at.
    pub fn log(&self) -> &G
        ensures { result.now ≡ self.now.log }
    {
        &self.log
    }

    /// The layout.
    pub fn layout(&self) -> &L
        ensures { result.now ≡ self.now.layout }
    {
        &self.layout
    }
}

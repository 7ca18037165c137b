// What a store holds now, whatever its power.
ghost use Rattle.std.specs.Prelude.{◌≡◌};
ghost use Rattle.member_store.specs.Meaning.{HasBlock, current as current_of};

use block_address::Address;
use member_store::MemberStore;
use memory_store::memory::MemoryStore;
use remote_fuse::RemoteFuse;
use remote_fuse::switch::Switch;
use write_buffer::buffer::WriteBuffer;

/// A store that lets its current bytes be looked at without a device call.
pub trait CurrentBytes: MemberStore {
    /// Copies the current bytes of a block, where there is such a block.
    fn copy_current(&self, at: Address, into: &mut [u8; 512])
        ensures { HasBlock (Self.MemberStore.meaning self.now) at.member at.block → into.new ≡ current_of (Self.MemberStore.meaning self.now) at.member at.block };
}

impl CurrentBytes for MemoryStore {
    fn copy_current(&self, at: Address, into: &mut [u8; 512]) {
        if let Some(bytes) = self.block_bytes(at) {
            into.copy_from_slice(bytes);
        }
    }
}

impl<S: CurrentBytes, W: Switch> CurrentBytes for RemoteFuse<S, W> {
    fn copy_current(&self, at: Address, into: &mut [u8; 512]) {
        self.below().copy_current(at, into);
    }
}

impl<S: CurrentBytes> CurrentBytes for WriteBuffer<S> {
    fn copy_current(&self, at: Address, into: &mut [u8; 512]) {
        match self.held_bytes(at) {
            Some(bytes) => *into = *bytes,
            None => self.below().copy_current(at, into),
        }
    }
}

// Members of zeros.
ghost use Rattle.std.specs.Prelude.{◌≡◌, ◌-◌, ◌*◌, ◌^◌, IfOk, MatchOption, replicate};
ghost use Rattle.memory_store.specs.Memory.{memory_means};
ghost use Rattle.memory_store.specs.Row.{Fits, laid};

use member_store::BLOCK_BYTES;
use memory_store::memory::MemoryStore;
use std::alloc::{AllocError, Global};

/// So many members of so many blocks, all zeros; none where a count is 0. For more bytes than can be counted there is no
/// memory.
pub fn zeros(heap: Global, members: usize, blocks: usize) -> Result<Option<MemoryStore>, AllocError>
    ensures { IfOk result (λ made. MatchOption made (Fits members blocks (2 ^ 64 - 1) → ⊥) (λ store. memory_means store ≡ laid members blocks (replicate (members * blocks * 512) 0))) }
{
    let length = members.saturating_mul(blocks).saturating_mul(BLOCK_BYTES);
    let bytes = vec![in heap; 0u8; length]?;
    Ok(MemoryStore::new(members, blocks, bytes).ok())
}

#[cfg(test)]
mod tests {
    use super::*;
    use block_address::Address;

    #[test]
    fn all_blocks_are_zeros(rt: HostRuntime) -> Result<(), AllocError> {
        let store = zeros(rt.alloc(), 2, 3)?.ok_or(AllocError)?;
        for member in 0..2 {
            for block in 0..3 {
                let bytes = store.block_bytes(Address { member, block });
                assert!(rt; bytes.is_some_and(|bytes| bytes == [0u8; BLOCK_BYTES].as_slice()));
            }
        }
        assert!(rt; zeros(rt.alloc(), 0, 3)?.is_none());
        assert!(rt; zeros(rt.alloc(), 2, 0)?.is_none());
        Ok(())
    }
}

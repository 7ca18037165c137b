//! Which stripes of four members have right parity, by the bytes of the members alone: no array, layout or library of
//! parity is asked.
#![tactic(auto)]

ghost use Rattle.std.specs.Prelude.{◌≡◌, ◌≤◌, Decides, MatchOption};
ghost use Rattle.member_store.specs.Meaning.{HasBlock, current};
ghost use Rattle.memory_store.specs.Memory.{memory_means};
ghost use Rattle.sheet_parity.specs.Right.{CancelOut, RightStripe, AllRight};

use block_address::Address;
use memory_store::memory::MemoryStore;
use sheet_book::block_of;
use sheet_book::book::BLOCK_BYTES;

// Is the exclusive or of four blocks zero at every offset?
fn cancel_out(
    a: &[u8; BLOCK_BYTES],
    b: &[u8; BLOCK_BYTES],
    c: &[u8; BLOCK_BYTES],
    d: &[u8; BLOCK_BYTES],
) -> bool
    ensures { Decides result (CancelOut a.now b.now c.now d.now) }
{
    (0..BLOCK_BYTES).all(|i| a[i] ^ b[i] ^ c[i] ^ d[i] == 0)
}

// A member's block of a stripe, where there is one.
fn block(memory: &MemoryStore, member: usize, stripe: usize) -> Option<[u8; BLOCK_BYTES]>
    ensures { MatchOption result (HasBlock (memory_means memory.now) member stripe → ⊥) (λ x. HasBlock (memory_means memory.now) member stripe × (x ≡ current (memory_means memory.now) member stripe)) }
{
    let at = Address {
        member,
        block: stripe,
    };
    block_of(memory.block_bytes(at)?)
}

// Does the stripe's parity equal the exclusive or of its data? Then all four blocks cancel out.
fn is_right(memory: &MemoryStore, stripe: usize) -> bool
    ensures { Decides result (RightStripe (memory_means memory.now) stripe) }
{
    let (Some(a), Some(b), Some(c), Some(d)) = (
        block(memory, 0, stripe),
        block(memory, 1, stripe),
        block(memory, 2, stripe),
        block(memory, 3, stripe),
    ) else {
        return false;
    };
    cancel_out(&a, &b, &c, &d)
}

/// How many of the first stripes have wrong parity, or are not there. None: all of them are right.
pub fn wrong_stripes(memory: &MemoryStore, stripes: usize) -> usize
    ensures most { result ≤ stripes }
    ensures right { result ≡ 0 → AllRight (memory_means memory.now) stripes }
    ensures wrong { AllRight (memory_means memory.now) stripes → result ≡ 0 }
{
    // Kept: the proof of a `filter` needs the test as a function of the stripe, and `is_right` only decides a fact.
    let mut wrong = 0;
    for stripe in 0..stripes {
        if !is_right(memory, stripe) {
            wrong += 1;
        }
    }
    wrong
}

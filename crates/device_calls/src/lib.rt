//! Work on a member store as the list of its device calls: what it is to perform such a list, stopping at the first
//! refusal, and what that leaves.
#![tactic(auto)]

ghost use Rattle.std.specs.Prelude.{[], ◌∷◌, MatchResult};
ghost use Rattle.device_calls.specs.Lists.{store as storing, barrier as barring, Accepted, Rejected, Performs};
ghost use Rattle.device_calls.specs.Laws.{Laws};

use block_address::Address;
use member_store::refusal::Refusal;
use member_store::{BLOCK_BYTES, MemberStore};

/// The laws of lists of device calls, proved: how two lists one after the other are performed, and what a list leaves of
/// power, counts, current bytes and versions, whether it is completed or stopped.
pub fn laws_hold()
    ensures { Laws }
{}

// Stores a block.
fn store_block<S: MemberStore>(
    store: &mut S,
    at: Address,
    bytes: &[u8; BLOCK_BYTES],
) -> Result<(), Refusal>
    ensures { MatchResult result (λ _. Accepted (storing at.member at.block bytes.now) (S.MemberStore.meaning store.old) (S.MemberStore.meaning store.new)) (λ e. Rejected (storing at.member at.block bytes.now) (S.MemberStore.meaning store.old) e (S.MemberStore.meaning store.new)) }
{
    store.store(at, bytes)
}

/// Stores a block and bars, stopping at the first refusal.
pub fn store_and_bar<S: MemberStore>(
    store: &mut S,
    at: Address,
    bytes: &[u8; BLOCK_BYTES],
) -> Result<(), Refusal>
    ensures { Performs (storing at.member at.block bytes.now ∷ barring ∷ []) (S.MemberStore.meaning store.old) result (S.MemberStore.meaning store.new) }
{
    store_block(store, at, bytes)?;
    store.barrier()
}

// Formatting: every block of the members is zeroed.
ghost use Rattle.std.specs.Prelude.{[], ◌∷◌};
ghost use Rattle.geometry.specs.Counts.{members_of, blocks_of};
ghost use Rattle.parity.specs.Xor.{zeros};
ghost use Rattle.device_calls.specs.Lists.{store as store_call, for_each, Performs};
ghost use Rattle.array_model.specs.Meaning.{Arrange};
ghost use Rattle.array_model.specs.Calls.{format_actions};
ghost use Rattle.array_work.specs.Outcomes.{sized, Works};

use array_model::refusal::ArrayRefusal;
use block_address::Address;
use geometry::shape::Shape;
use intent_log::IntentLog;
use member_store::refusal::Refusal;
use member_store::{BLOCK_BYTES, MemberStore};

// Zeroes the first blocks of one member, rising.
fn zero_member<S: MemberStore>(store: &mut S, member: usize, blocks: usize) -> Result<(), Refusal>
    ensures { Performs (for_each (λ b. store_call member b zeros ∷ []) blocks) (S.MemberStore.meaning store.old) result (S.MemberStore.meaning store.new) }
{
    let zero = [0; BLOCK_BYTES];
    for block in 0..blocks {
        store.store(Address { member, block }, &zero)?;
    }
    Ok(())
}

// Zeroes every block, member by member.
fn zero_members<S: MemberStore>(store: &mut S, shape: Shape) -> Result<(), Refusal>
    ensures { Performs (for_each (λ m. for_each (λ b. store_call m b zeros ∷ []) (blocks_of shape)) (members_of shape)) (S.MemberStore.meaning store.old) result (S.MemberStore.meaning store.new) }
{
    let blocks = shape.blocks();
    for member in 0..shape.members().get() {
        zero_member(store, member, blocks)?;
    }
    Ok(())
}

/// Blanks the log, zeroes every block, bars the members and clears the log.
pub fn format_work<S: MemberStore, G: IntentLog>(
    store: &mut S,
    log: &mut G,
    shape: Shape,
) -> Result<(), ArrayRefusal>
    ensures sound { G.IntentLog.sound log.old → G.IntentLog.sound log.new }
    ensures does { (arrange : Arrange) → G.IntentLog.sound log.old → Works (format_actions (sized arrange shape)) tt (S.MemberStore.meaning store.old) (G.IntentLog.meaning log.old) result (S.MemberStore.meaning store.new) (G.IntentLog.meaning log.new) }
{
    log.blank()?;
    zero_members(store, shape)?;
    store.barrier()?;
    log.clear()?;
    Ok(())
}

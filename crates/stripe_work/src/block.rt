// One block at an address: read, stored.
ghost use Rattle.std.specs.Prelude.{◌≡◌, [], ◌∷◌, MatchResult};
ghost use Rattle.member_store.specs.Meaning.{current};
ghost use Rattle.device_calls.specs.Lists.{read as read_call, store as store_call, Performs};

use crate::data::Block;
use block_address::Address;
use member_store::MemberStore;
use member_store::refusal::Refusal;

pub(super) fn read_block<S: MemberStore>(
    store: &mut S,
    at: Address,
    into: &mut Block,
) -> Result<(), Refusal>
    ensures calls { Performs (read_call at.member at.block ∷ []) (S.MemberStore.meaning store.old) result (S.MemberStore.meaning store.new) }
    ensures bytes { MatchResult result (λ _. (into.new ≡ current (S.MemberStore.meaning store.old) at.member at.block) × (S.MemberStore.meaning store.new ≡ S.MemberStore.meaning store.old)) (λ _. into.new ≡ into.old) }
{
    store.read(at, into)
}

pub(super) fn store_block<S: MemberStore>(
    store: &mut S,
    at: Address,
    bytes: &Block,
) -> Result<(), Refusal>
    ensures { Performs (store_call at.member at.block bytes.now ∷ []) (S.MemberStore.meaning store.old) result (S.MemberStore.meaning store.new) }
{
    store.store(at, bytes)
}

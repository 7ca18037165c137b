// Reading a block: from the caches, from its member, or worked out of the others.
ghost use Rattle.std.specs.Prelude.{◌≡◌, ◌<◌, is_some, nat_lt, length, None as NoneOf, IfSome};
ghost use Rattle.geometry.specs.Counts.{members_of, blocks_of};
ghost use Rattle.geometry.specs.Places.{data_blocks};
ghost use Rattle.stripe_work.specs.Answers.{address_check};
ghost use Rattle.stripe_work.specs.Work.{other_reads, reconstructed};
ghost use Rattle.intent_log.specs.Meaning.{Meaning as LogMeaning};
ghost use Rattle.cache.specs.Contents.{Contents};
ghost use Rattle.cache.specs.Meaning.{contents};
ghost use Rattle.array_model.specs.Meaning.{array as array_of, stripe as stripe_of, home, holder, held};
ghost use Rattle.array_model.specs.Calls.{read_calls, ReadsNewest, ReadsWithout};
ghost use Rattle.array_model.specs.declared.state.State.{State};
ghost use Rattle.array_work.specs.Outcomes.{sized, Fetched, state_after};

use crate::refusal::device_refusal;
use array_model::refusal::ArrayRefusal;
use block_address::Address;
use cache::caches::Caches;
use geometry::array_geometry::Geometry;
use geometry::layout::Layout;
use geometry::shape::Shape;
use member_store::{BLOCK_BYTES, MemberStore};
use stripe_work::reconstruct::reconstruct_block;

/// Where a block of the array lies, if the array has it.
pub fn address_of_block<L: Layout>(geometry: &Geometry<L>, block: usize) -> Option<Address>
    ensures allowed { is_some result ≡ nat_lt block (data_blocks (members_of geometry.now.shape) (blocks_of geometry.now.shape)) }
    ensures member { IfSome result (λ at. at.member ≡ holder (sized L.Layout.arrangement geometry.now.shape) block) }
    ensures block { IfSome result (λ at. at.block ≡ (stripe_of (sized L.Layout.arrangement geometry.now.shape) (home (sized L.Layout.arrangement geometry.now.shape) block)).block) }
    ensures there { IfSome result (λ at. address_check (members_of geometry.now.shape) (blocks_of geometry.now.shape) at ≡ NoneOf) }
    ensures small { IfSome result (λ at. at.block < 16777216) }
{
    geometry.data_address(block)
}

// Kept: the array's checks show a block's bound and a buffer's length just before; types for both would only be taken apart here.

// Where a block lies that the array has.
fn held_address<L: Layout>(geometry: &Geometry<L>, block: usize) -> Address
    requires { block < data_blocks (members_of geometry.now.shape) (blocks_of geometry.now.shape) }
    ensures member { result.member ≡ holder (sized L.Layout.arrangement geometry.now.shape) block }
    ensures block { result.block ≡ (stripe_of (sized L.Layout.arrangement geometry.now.shape) (home (sized L.Layout.arrangement geometry.now.shape) block)).block }
    ensures there { address_check (members_of geometry.now.shape) (blocks_of geometry.now.shape) result ≡ NoneOf }
{
    address_of_block(geometry, block).unwrap()
}

// Reads a block from the member that has it.
fn read_held<S: MemberStore, L: Layout>(
    store: &mut S,
    geometry: &Geometry<L>,
    block: usize,
    into: &mut [u8],
) -> Result<(), ArrayRefusal>
    requires { (block < data_blocks (members_of geometry.now.shape) (blocks_of geometry.now.shape)) × (length into.old ≡ 512) }
    ensures { Fetched (read_calls (sized L.Layout.arrangement geometry.now.shape) block) (held (sized L.Layout.arrangement geometry.now.shape) (S.MemberStore.meaning store.old) block) into.old into.new (S.MemberStore.meaning store.old) result (S.MemberStore.meaning store.new) }
{
    let at = held_address(geometry, block);
    store.read(at, into)?;
    Ok(())
}

/// Reads a block: from the caches, the newest first, else from the member that has it. A refusal leaves the buffer as it was.
pub fn read_newest<S: MemberStore, L: Layout>(
    store: &mut S,
    geometry: &Geometry<L>,
    caches: &Caches,
    block: usize,
    into: &mut [u8],
) -> Result<(), ArrayRefusal>
    requires { (block < data_blocks (members_of geometry.now.shape) (blocks_of geometry.now.shape)) × (length into.old ≡ 512) }
    ensures { (q : State) (l : LogMeaning) → ReadsNewest (sized L.Layout.arrangement geometry.now.shape) block into.old into.new (array_of q (contents caches.now) (S.MemberStore.meaning store.old) l) result (array_of (state_after q result) (contents caches.now) (S.MemberStore.meaning store.new) l) }
{
    if let Some(bytes) = caches.find(block) {
        into.copy_from_slice(bytes);
        return Ok(());
    }
    read_held(store, geometry, block, into)
}

// Works a block out of the other members, and does not touch its own.
fn read_missing<S: MemberStore, L: Layout>(
    store: &mut S,
    geometry: &Geometry<L>,
    at: Address,
    into: &mut [u8],
) -> Result<(), ArrayRefusal>
    requires { (address_check (members_of geometry.now.shape) (blocks_of geometry.now.shape) at ≡ NoneOf) × (length into.old ≡ 512) }
    ensures { Fetched (other_reads (members_of geometry.now.shape) at.block at.member) (reconstructed (members_of geometry.now.shape) at.block at.member (S.MemberStore.meaning store.old)) into.old into.new (S.MemberStore.meaning store.old) result (S.MemberStore.meaning store.new) }
{
    let mut bytes = [0; BLOCK_BYTES];
    reconstruct_block(store, geometry, at, &mut bytes).map_err(device_refusal)?;
    into.copy_from_slice(&bytes);
    Ok(())
}

/// Reads a block without touching the absent member: a block that it has is worked out of the others. A refusal leaves
/// the buffer as it was.
pub fn read_without<S: MemberStore, L: Layout>(
    store: &mut S,
    geometry: &Geometry<L>,
    absent: usize,
    block: usize,
    into: &mut [u8],
) -> Result<(), ArrayRefusal>
    requires { (block < data_blocks (members_of geometry.now.shape) (blocks_of geometry.now.shape)) × (length into.old ≡ 512) }
    ensures { (q : State) (c : Contents) (l : LogMeaning) → ReadsWithout (sized L.Layout.arrangement geometry.now.shape) absent block into.old into.new (array_of q c (S.MemberStore.meaning store.old) l) result (array_of (state_after q result) c (S.MemberStore.meaning store.new) l) }
{
    let at = held_address(geometry, block);
    if at.member == absent {
        return read_missing(store, geometry, at, into);
    }
    read_held(store, geometry, block, into)
}

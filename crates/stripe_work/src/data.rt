// The data of one stripe: read beside what is cached, its parity, and the cached part stored.
ghost use Rattle.std.specs.Prelude.{◌≡◌, ℕ, ◌-◌, ◌<◌, ◌≤◌, ◌⊎◌, length, replicate, take, OnOk};
ghost use Rattle.geometry.specs.Counts.{members_of};
ghost use Rattle.geometry.specs.Places.{block_of_stripe};
ghost use Rattle.parity.specs.Xor.{parity_of};
ghost use Rattle.device_calls.specs.Lists.{Performs};
ghost use Rattle.stripe_work.specs.Stripe.{stripe_at};
ghost use Rattle.stripe_work.specs.Work.{cached_in, held_in, data_reads, data_stores, merged_data};

use crate::block::{read_block, store_block};
use crate::stripe::Stripe;
use block_address::Address;
use geometry::layout::Layout;
use geometry::shape::MOST_MEMBERS;
use member_store::refusal::Refusal;
use member_store::{BLOCK_BYTES, MemberStore};
use parity::parity;
use std::array;

/// The most data blocks of a stripe.
pub const MOST_POSITIONS: usize = MOST_MEMBERS - 1;

/// The bytes of one block.
pub type Block = [u8; BLOCK_BYTES];

/// The cached blocks of a stripe, by position.
pub type CachedBlocks = [Option<Block>; MOST_POSITIONS];

/// The cached blocks of a stripe from rows by position, and which of them hold one.
pub fn cached_blocks(held: &[bool; MOST_MEMBERS], rows: &[Block; MOST_MEMBERS]) -> CachedBlocks
    ensures { (j : ℕ) → j < 7 → cached_in result j ≡ held_in held.now rows.now j }
{
    array::from_fn(|position| held[position].then_some(rows[position]))
}

// The member and the block on it of the data at a position that the stripe has.
fn held_address<L: Layout>(stripe: &Stripe<L>, position: usize) -> Address
    requires { position < members_of stripe.now.geometry.shape - 1 }
    ensures member { result.member ≡ (L.Layout.arrangement (members_of stripe.now.geometry.shape) stripe.now.number).member position }
    ensures block { result.block ≡ block_of_stripe stripe.now.number }
{
    stripe.data_address(position).unwrap()
}

// Puts all data of a stripe into rows, by position: the cached blocks, and the others as they are read.
pub(super) fn read_data<S: MemberStore, L: Layout>(
    store: &mut S,
    stripe: &Stripe<L>,
    cached: &CachedBlocks,
    rows: &mut [Block; MOST_POSITIONS],
) -> Result<(), Refusal>
    ensures calls { Performs (data_reads (stripe_at L.Layout.arrangement (members_of stripe.now.geometry.shape) stripe.now.number) (cached_in cached.now)) (S.MemberStore.meaning store.old) result (S.MemberStore.meaning store.new) }
    ensures rows { OnOk result (take (members_of stripe.now.geometry.shape - 1) rows.new ≡ merged_data (stripe_at L.Layout.arrangement (members_of stripe.now.geometry.shape) stripe.now.number) (cached_in cached.now) (S.MemberStore.meaning store.old)) }
{
    for (position, block) in cached[..stripe.positions()].iter().enumerate() {
        match block {
            Some(block) => rows[position] = *block,
            None => read_block(store, held_address(stripe, position), &mut rows[position])?,
        }
    }
    Ok(())
}

/// The parity of a stripe's data blocks, which are 2 to 7; of any other number of rows, zeros.
pub fn parity_of_rows(rows: &[Block]) -> Block
    ensures value { 2 ≤ length rows.now → length rows.now ≤ 7 → result ≡ parity_of rows.now }
    ensures others { (length rows.now < 2) ⊎ (7 < length rows.now) → result ≡ replicate 512 0 }
{
    let mut sum = [0; BLOCK_BYTES];
    let _ = parity(rows, &mut sum);
    sum
}

// Stores the cached blocks of a stripe, by position.
pub(super) fn store_cached<S: MemberStore, L: Layout>(
    store: &mut S,
    stripe: &Stripe<L>,
    cached: &CachedBlocks,
) -> Result<(), Refusal>
    ensures { Performs (data_stores (stripe_at L.Layout.arrangement (members_of stripe.now.geometry.shape) stripe.now.number) (cached_in cached.now)) (S.MemberStore.meaning store.old) result (S.MemberStore.meaning store.new) }
{
    for (position, block) in cached[..stripe.positions()].iter().enumerate() {
        if let Some(block) = block {
            store_block(store, held_address(stripe, position), block)?;
        }
    }
    Ok(())
}

//! Parity of blocks, and one block of a stripe out of all the others.
#![tactic(auto)]

ghost use Rattle.std.specs.Prelude.{◌≡◌, ℕ, ◌+◌, ◌*◌, ◌<◌, ◌≤◌, length, replicate, Some, None, MatchResult};
ghost use Rattle.std.specs.Simd.Lanes.{fold_l, chunk};
ghost use Rattle.parity.specs.Xor.{xored, parity_of};
ghost use Rattle.parity.specs.Refusals.{checks, Gives, Regains, FlatGives};
ghost use Rattle.parity.specs.Laws.{Laws};

pub mod refusal;

use refusal::Refusal;
use std::simd::prelude::*;

/// The bytes of a block.
pub const BLOCK_BYTES: usize = 512;

/// The fewest blocks whose parity is taken.
pub const LEAST_BLOCKS: usize = 2;

/// The most blocks whose parity is taken.
pub const MOST_BLOCKS: usize = 7;

// How many bytes of each block are taken at a time.
const LANES: usize = 64;

// The exclusive or of 64 bytes of every block, from `at` on.
fn column(blocks: &[[u8; 512]], at: usize) -> u8x64
    requires { at + 64 ≤ 512 }
    ensures value { result ≡ fold_l (λ a block. xored a (chunk at 64 block)) (replicate 64 0) blocks.now }
    ensures len { length result ≡ 64 }
{
    let mut sum = u8x64::splat(0);
    for block in blocks {
        sum ^= u8x64::from_slice(&block[at..]);
    }
    sum
}

// The exclusive or of the blocks, in one pass over them all.
fn sum_into(blocks: &[[u8; 512]], into: &mut [u8])
    requires { length into.old ≡ 512 }
    ensures { into.new ≡ parity_of blocks.now }
{
    for at in (0..BLOCK_BYTES).step_by(LANES) {
        column(blocks, at).copy_to_slice(&mut into[at..]);
    }
}

// There are 2 to 7 blocks, and the buffer has the length of one.
fn check(count: usize, len: usize) -> Result<(), Refusal>
    ensures { MatchResult result (λ _. checks count len ≡ None) (λ e. checks count len ≡ Some e) }
{
    if !(LEAST_BLOCKS..=MOST_BLOCKS).contains(&count) {
        return Err(Refusal::BlockCount(count));
    }
    if len != BLOCK_BYTES {
        return Err(Refusal::WrongLength(len));
    }
    Ok(())
}

// Checks, and then the exclusive or of the blocks.
fn checked_sum(blocks: &[[u8; 512]], into: &mut [u8]) -> Result<(), Refusal>
    ensures gives { Gives blocks.now into.old result into.new }
    ensures regains { Regains blocks.now result into.new }
{
    check(blocks.len(), into.len())?;
    sum_into(blocks, into);
    Ok(())
}

/// Writes the parity of a stripe's data blocks: each byte is the exclusive or of the data bytes at that offset.
/// A refusal leaves the buffer as it was.
pub fn parity(blocks: &[[u8; 512]], into: &mut [u8]) -> Result<(), Refusal>
    ensures { Gives blocks.now into.old result into.new }
{
    checked_sum(blocks, into)
}

/// Writes the one block of a stripe that is missing, from all the others, parity included, in any order.
/// A refusal leaves the buffer as it was.
pub fn missing_block(others: &[[u8; 512]], into: &mut [u8]) -> Result<(), Refusal>
    ensures gives { Gives others.now into.old result into.new }
    ensures regains { Regains others.now result into.new }
{
    checked_sum(others, into)
}

/// The parity of blocks that lie one after the other. Answers whether it was worked out: there are 2 to 7 whole blocks and
/// the buffer has the length of one. Otherwise the buffer is as it was.
// Kept: a `bool` and no `Result`, since the C interface answers one.
pub fn dustercyan_parity(blocks: &[u8], into: &mut [u8]) -> bool
    ensures { FlatGives blocks.now into.old result into.new }
{
    let (whole, rest) = blocks.as_chunks::<512>();
    rest.is_empty() && parity(whole, into).is_ok()
}

/// The laws of parity, proved: parity of zeros is zeros, each byte is the exclusive or of the bytes at its offset, and
/// any one block of a stripe with right parity is the exclusive or of the others.
pub fn laws_hold()
    ensures { Laws }
{}

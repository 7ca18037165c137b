// The memory store: a member store over bytes that the caller gives, which never loses power.
#![tactic(auto)]

ghost use Rattle.std.specs.Prelude.{◌≡◌, ◌+◌, ◌<◌, ◌≤◌, length, vec_len, MatchOption, MatchResult};
ghost use Rattle.std.proofs.Common.{ap, ◌∙◌, length-take, length-drop, ⊎_elim, arith, rules};
ghost use Rattle.member_store.specs.Meaning.{HasBlock, current};
ghost use Rattle.member_store.specs.Calls.{Stored};
ghost use Rattle.memory_store.specs.Row.{offset as offset_of, Fits, laid, with_block, block_at};
ghost use Rattle.memory_store.specs.Memory.{memory_means, number as number_of, Tells, MemoryReads, MemoryStores, MemoryBars, MemoryPowers};
ghost use Rattle.memory_store.specs.Rooms.{within};

pub mod memory;

use block_address::Address;
use member_store::refusal::Refusal;
use member_store::{BLOCK_BYTES, MemberStore};
use memory::{BadCounts, MemoryStore};

// The number of a refused making.
const BAD_COUNTS: u8 = 2;

impl BadCounts {
    /// The number by which users know the cause.
    pub fn number(&self) -> u8
        ensures { result ≡ number_of self.now }
    {
        BAD_COUNTS
    }
}

// Are `len` bytes enough for the counts, which are not 0?
fn fits(members: usize, blocks: usize, len: usize) -> bool
    ensures { Tells result (Fits members blocks len) }
{
    members > 0 && blocks > 0 && members <= len / BLOCK_BYTES / blocks
}

impl MemoryStore {
    /// A store of `members` times `blocks` blocks over the first of the bytes; what more there is stays untouched.
    pub fn new(members: usize, blocks: usize, bytes: Vec<u8>) -> Result<MemoryStore, BadCounts>
        ensures { MatchResult result (λ s. Fits members blocks (vec_len bytes) × (s.bytes ≡ bytes) × (memory_means s ≡ laid members blocks bytes.items)) (λ e. (Fits members blocks (vec_len bytes) → ⊥) × (e.members ≡ members) × (e.blocks ≡ blocks) × (e.bytes ≡ bytes)) }
    {
        if !fits(members, blocks, bytes.len()) {
            return Err(BadCounts {
                members,
                blocks,
                bytes,
            });
        }
        Ok(MemoryStore {
            members,
            blocks,
            bytes,
        })
    }

    /// Gives the bytes back.
    pub fn into_bytes(self) -> Vec<u8>
        ensures { result ≡ self.bytes }
    {
        let MemoryStore { bytes, .. } = self;
        bytes
    }

    /// The bytes of a block, to look at; none where there is no such block.
    pub fn block_bytes(&self, at: Address) -> Option<&[u8]>
        ensures { MatchOption result (HasBlock (memory_means self.now) at.member at.block → ⊥) (λ x. HasBlock (memory_means self.now) at.member at.block × (x.now ≡ current (memory_means self.now) at.member at.block) × (length x.now ≡ 512)) }
    {
        if at.member >= self.members || at.block >= self.blocks {
            return None;
        }
        let begin = self.offset(at);
        Some(&self.bytes[begin..begin + BLOCK_BYTES])
    }

    // Where a block begins.
    fn offset(&self, at: Address) -> usize
        requires member { at.member < self.now.members }
        requires block { at.block < self.now.blocks }
        ensures value { result ≡ offset_of self.now.blocks at.member at.block }
        ensures room { result + 512 ≤ vec_len self.now.bytes }
    {
        (at.member * self.blocks + at.block) * BLOCK_BYTES
    }

    // Overwrites a block.
    fn put(&mut self, at: Address, bytes: &[u8])
        requires member { at.member < self.old.members }
        requires block { at.block < self.old.blocks }
        requires whole { length bytes.now ≡ 512 }
        ensures stored { Stored (memory_means self.old) at.member at.block bytes.now (memory_means self.new) }
        ensures row { self.new.bytes.items ≡ with_block self.old.bytes.items self.old.blocks at.member at.block bytes.now }
    {
        let start = self.offset(at);
        self.bytes[start..start + BLOCK_BYTES].copy_from_slice(bytes);
    }
}

impl MemberStore for MemoryStore {
    ghost meaning = { memory_means };

    ghost reading = { MemoryReads };

    ghost storing = { MemoryStores };

    ghost barring = { MemoryBars };

    ghost powering = { MemoryPowers };

    ghost counts = { first_of (Prim.search rules, Prim.grind (arith, Self.row.coded.inj)) };

    ghost stands = { first_of (Prim.search rules, Prim.grind (arith, Self.row.coded.inj)) };

    ghost whole = { λ s m b v p k.
        let w = within s.members s.blocks m b (length s.bytes.items) p.0 p.1 (omega (arith, s.room, s.bytes.ok.0)) in
        let e : length (block_at s.bytes.items s.blocks m b) ≡ 512 = simp (length-take, length-drop) (omega arith) in
        ⊎_elim (λ f. ap length f ∙ e) (λ f. absurd f) k };

    fn powered(&self) -> bool {
        true
    }

    fn members(&self) -> usize {
        self.members
    }

    fn blocks(&self) -> usize {
        self.blocks
    }

    fn read(&mut self, at: Address, into: &mut [u8]) -> Result<(), Refusal> {
        self.check_access(at, into.len())?;
        let start = self.offset(at);
        into.copy_from_slice(&self.bytes[start..start + BLOCK_BYTES]);
        Ok(())
    }

    fn store(&mut self, at: Address, bytes: &[u8]) -> Result<(), Refusal> {
        self.check_access(at, bytes.len())?;
        self.put(at, bytes);
        Ok(())
    }

    fn barrier(&mut self) -> Result<(), Refusal> {
        // Each block has its current version only.
        Ok(())
    }

    fn power_on(&mut self) {
        // Power is always on.
    }
}

//! The book of the power-cut sheet: what each block may hold after a cut, by the calls that were accepted. It knows
//! nothing of the array.
#![tactic(auto)]

ghost use Rattle.std.specs.Prelude.{◌≡◌, [], ◌∷◌, ◌++◌, length, replicate, IfOk, vec_len, Decides, MatchOption, MatchResult, OnOk, ◌≢◌, slice_set};
ghost use Rattle.sheet_book.specs.Pages.{zeros, zero_writes, rebased, Gives, OnList, MayHold};

pub mod book;

use book::{Accepted, BLOCK_BYTES, Book};
use std::alloc::{AllocError, Global};

const ZEROS: [u8; BLOCK_BYTES] = [0; BLOCK_BYTES];

/// A block of these bytes, where they have its length.
pub fn block_of(bytes: &[u8]) -> Option<[u8; BLOCK_BYTES]>
    ensures { MatchOption result (length bytes.now ≢ 512) (λ x. x ≡ bytes.now) }
{
    <[u8; BLOCK_BYTES]>::try_from(bytes).ok()
}

// These bytes are the block's base from now on, where it has one.
fn set_base(bases: &mut [[u8; BLOCK_BYTES]], block: usize, bytes: [u8; BLOCK_BYTES])
    ensures { bases.new ≡ slice_set bases.old block bytes }
{
    if block < bases.len() {
        bases[block] = bytes;
    }
}

// Accepted writes, oldest first, make their bytes bases.
fn rebase_all(bases: &mut [[u8; BLOCK_BYTES]], writes: &[Accepted])
    ensures { bases.new ≡ rebased bases.old writes.now }
{
    for accepted in writes {
        set_base(bases, accepted.block, accepted.bytes);
    }
}

impl Accepted {
    // Did it give the block these bytes?
    fn gives(&self, block: usize, bytes: &[u8]) -> bool
        ensures { Decides result (Gives block bytes.now self.now) }
    {
        self.block == block && self.bytes.as_slice() == bytes
    }
}

impl Book {
    /// The base of so many blocks is zeros, their lists are empty.
    pub fn new(heap: Global, blocks: usize) -> Result<Book, AllocError>
        ensures { IfOk result (λ b. (b.bases.items ≡ replicate blocks zeros) × (b.writes.items ≡ [])) }
    {
        // Kept: with `vec!` the proof did not close: it tells the blocks by what the clone of an array gives.
        let mut bases = Vec::new(heap);
        for _ in 0..blocks {
            bases.push(ZEROS)?;
        }
        Ok(Book {
            bases,
            writes: Vec::new(heap),
        })
    }

    /// An accepted write adds its bytes to its block's list.
    pub fn write(&mut self, block: usize, bytes: [u8; BLOCK_BYTES]) -> Result<(), AllocError>
        ensures lists { MatchResult result (λ _. self.new.writes.items ≡ self.old.writes.items ++ (record { block = block; bytes = bytes } ∷ [])) (λ _. self.new.writes.items ≡ self.old.writes.items) }
        ensures bases { self.new.bases ≡ self.old.bases }
    {
        self.writes.push(Accepted { block, bytes })?;
        Ok(())
    }

    /// A format that power cut short adds zeros to every list.
    pub fn cut_format(&mut self) -> Result<(), AllocError>
        ensures lists { OnOk result (self.new.writes.items ≡ self.old.writes.items ++ zero_writes (vec_len self.old.bases)) }
        ensures bases { self.new.bases ≡ self.old.bases }
    {
        for block in 0..self.bases.len() {
            self.write(block, ZEROS)?;
        }
        Ok(())
    }

    /// These bytes are the block's base from now on.
    pub fn rebase(&mut self, block: usize, bytes: [u8; BLOCK_BYTES])
        ensures bases { self.new.bases.items ≡ slice_set self.old.bases.items block bytes }
        ensures lists { self.new.writes ≡ self.old.writes }
    {
        set_base(self.bases.as_mut_slice(), block, bytes);
    }

    /// The lists are empty from now on.
    pub fn empty_lists(&mut self)
        ensures lists { self.new.writes.items ≡ [] }
        ensures bases { self.new.bases ≡ self.old.bases }
    {
        self.writes.clear();
    }

    /// An accepted flush or close makes the newest bytes of each list the base.
    pub fn flush(&mut self)
        ensures bases { self.new.bases.items ≡ rebased self.old.bases.items self.old.writes.items }
        ensures lists { self.new.writes.items ≡ [] }
    {
        rebase_all(self.bases.as_mut_slice(), self.writes.as_slice());
        self.empty_lists();
    }

    /// An accepted format makes zeros the base of every block.
    pub fn format(&mut self)
        ensures bases { self.new.bases.items ≡ replicate (vec_len self.old.bases) zeros }
        ensures lists { self.new.writes.items ≡ [] }
    {
        // Kept: with `fill` the proof did not close: it tells the blocks by what the clone of an array gives.
        for block in 0..self.bases.len() {
            self.rebase(block, ZEROS);
        }
        self.empty_lists();
    }

    // Are these bytes on the block's list?
    fn lists(&self, block: usize, bytes: &[u8]) -> bool
        ensures { Decides result (OnList self.now.writes.items block bytes.now) }
    {
        self.writes
            .iter()
            .any(|accepted| accepted.gives(block, bytes))
    }

    /// May the block hold these bytes: are they its base or on its list?
    pub fn allows(&self, block: usize, bytes: &[u8]) -> bool
        ensures { Decides result (MayHold self.now.bases.items self.now.writes.items block bytes.now) }
    {
        let base = self.bases.get(block);
        base.is_some_and(|base| base.as_slice() == bytes || self.lists(block, bytes))
    }
}

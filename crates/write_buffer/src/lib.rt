// The write buffer: over any member store, holds up to 8 stores back.
#![tactic(auto)]

ghost use Rattle.std.specs.Prelude.{◌≡◌, ◌+◌, ◌<◌, true, false, [], length, OnOk, vec_len, MatchOption, MatchResult};
ghost use Rattle.member_store.specs.Meaning.{current};
ghost use Rattle.member_store.specs.Calls.{checks, Reads, Stored, Bars, PoweredOn};
ghost use Rattle.write_buffer.specs.Replay.{holds, buffered};
ghost use Rattle.write_buffer.specs.Passing.{OnlyLoses, PassesOldest, PassesAll};
ghost use Rattle.write_buffer.specs.Buffer.{Newest, Appended, MakesRoom, BufferReads, BufferStores, BufferBars};
ghost use Rattle.write_buffer.specs.Replays.{replay_stands, replay_whole};
ghost use Rattle.std.proofs.Common.{rules, arith};

pub mod buffer;
pub mod held;

use block_address::Address;
use buffer::WriteBuffer;
use held::HeldStore;
use member_store::refusal::Refusal;
use member_store::{BLOCK_BYTES, MemberStore};
use std::alloc::Global;

/// How many stores are held at most.
const CAPACITY: usize = 8;

impl<S: MemberStore> WriteBuffer<S> {
    /// An empty buffer over `below`, which comes back where there is no memory for 8 stores.
    pub fn new(heap: Global, below: S) -> Result<WriteBuffer<S>, S>
        ensures { MatchResult result (λ w. (w.below ≡ below) × (w.held.items ≡ [])) (λ s. s ≡ below) }
    {
        let Ok(held) = Vec::with_capacity(heap, CAPACITY) else {
            return Err(below);
        };
        Ok(WriteBuffer { below, held })
    }

    /// Gives the store below back; what is held is lost.
    pub fn into_below(self) -> S
        ensures { result ≡ self.below }
    {
        let WriteBuffer { below, .. } = self;
        below
    }

    /// The store below, to look at, whatever the power.
    pub fn below(&self) -> &S
        ensures { result.now ≡ self.now.below }
    {
        &self.below
    }

    /// The bytes of the newest held store to a block, whatever the power; none where none is held.
    pub fn held_bytes(&self, at: Address) -> Option<&[u8; 512]>
        ensures { MatchOption result (holds self.now.held.items at.member at.block ≡ false) (λ x. (holds self.now.held.items at.member at.block ≡ true) × (x.now ≡ current (buffered self.now.held.items (S.MemberStore.meaning self.now.below)) at.member at.block)) }
    {
        let newest = self.newest(at)?;
        Some(&self.held[newest].bytes)
    }

    // The place of the newest held store to a block.
    fn newest(&self, at: Address) -> Option<usize>
        ensures { Newest self.now.held.items at.member at.block result }
    {
        self.held.iter().rposition(|store| store.at == at)
    }

    // Kept: this and the next three ask for power in their contracts, since it may go in any of them, so no field tells it.
    // Passes the oldest held store below; where power goes it stays held and the refusal comes up.
    fn pass_oldest(&mut self) -> Result<(), Refusal>
        requires some { 0 < vec_len self.old.held }
        requires on { (S.MemberStore.meaning self.old.below).on ≡ true }
        ensures passes { PassesOldest S.MemberStore.meaning S.MemberStore.storing self.old.held.items self.old.below result self.new.held.items self.new.below }
        ensures means { OnlyLoses result (buffered self.old.held.items (S.MemberStore.meaning self.old.below)) (buffered self.new.held.items (S.MemberStore.meaning self.new.below)) }
        ensures len { MatchResult result (λ _. vec_len self.new.held + 1 ≡ vec_len self.old.held) (λ _. vec_len self.new.held ≡ vec_len self.old.held) }
    {
        let oldest = self.held[0];
        let answer = self.below.store(oldest.at, &oldest.bytes);
        if !self.below.powered() {
            return answer;
        }
        let _ = self.held.remove(0);
        Ok(())
    }

    // Passes all held stores below in order, until power goes.
    fn pass_all(&mut self) -> Result<(), Refusal>
        requires { (S.MemberStore.meaning self.old.below).on ≡ true }
        ensures passes { PassesAll S.MemberStore.meaning S.MemberStore.storing self.old.held.items self.old.below result self.new.held.items self.new.below }
        ensures means { OnlyLoses result (buffered self.old.held.items (S.MemberStore.meaning self.old.below)) (buffered self.new.held.items (S.MemberStore.meaning self.new.below)) }
        ensures none { OnOk result (self.new.held.items ≡ []) }
    {
        while !self.held.is_empty() {
            self.pass_oldest()?;
        }
        Ok(())
    }

    // Passes the oldest below where the buffer is full.
    fn make_room(&mut self) -> Result<(), Refusal>
        requires { (S.MemberStore.meaning self.old.below).on ≡ true }
        ensures makes { MakesRoom S.MemberStore.meaning S.MemberStore.storing result self.old.held.items self.old.below self.new.held.items self.new.below }
        ensures means { OnlyLoses result (buffered self.old.held.items (S.MemberStore.meaning self.old.below)) (buffered self.new.held.items (S.MemberStore.meaning self.new.below)) }
        ensures room { OnOk result (vec_len self.new.held < 8) }
    {
        if self.held.len() < CAPACITY {
            return Ok(());
        }
        self.pass_oldest()
    }

    // Holds a store after the others.
    fn hold(&mut self, at: Address, bytes: &[u8])
        requires room { vec_len self.old.held < 8 }
        requires on { (S.MemberStore.meaning self.old.below).on ≡ true }
        requires whole { length bytes.now ≡ 512 }
        ensures appended { Appended self.old.held.items at.member at.block bytes.now self.new.held.items }
        ensures stored { Stored (buffered self.old.held.items (S.MemberStore.meaning self.old.below)) at.member at.block bytes.now (buffered self.new.held.items (S.MemberStore.meaning self.new.below)) }
        ensures below { self.new.below ≡ self.old.below }
    {
        let bytes = <[u8; BLOCK_BYTES]>::try_from(bytes).unwrap();
        self.held.push_reserved(HeldStore { at, bytes });
    }
}

impl<S: MemberStore> MemberStore for WriteBuffer<S> {
    ghost meaning = { λ w. buffered w.held.items (S.MemberStore.meaning w.below) };

    ghost reading = { λ w m b old r new v. BufferReads S.MemberStore.meaning m b old r (Reads (S.MemberStore.meaning w.below) m b old r new (S.MemberStore.meaning v.below) × S.MemberStore.reading w.below m b old r new v.below) w.held.items w.below v.held.items v.below };

    ghost storing = { λ w m b x r v. BufferStores S.MemberStore.meaning S.MemberStore.storing m b x r w.held.items w.below v.held.items v.below };

    ghost barring = { λ w r v. BufferBars S.MemberStore.meaning S.MemberStore.storing S.MemberStore.barring r w.held.items w.below v.held.items v.below };

    ghost powering = { λ w v. (v.held.items ≡ []) × PoweredOn (S.MemberStore.meaning w.below) (S.MemberStore.meaning v.below) × S.MemberStore.powering w.below v.below };

    ghost counts = { first_of (Prim.search rules, Prim.grind (arith, Self.row.coded.inj)) };

    ghost stands = { λ s m b p. replay_stands m b s.held.items _ (S.MemberStore.stands s.below m b p) };

    ghost whole = { λ s m b v p k. replay_whole m b s.held.items _ (λ w j. S.MemberStore.whole s.below m b w p j) v k };

    fn powered(&self) -> bool {
        self.below.powered()
    }

    fn members(&self) -> usize {
        self.below.members()
    }

    fn blocks(&self) -> usize {
        self.below.blocks()
    }

    fn read(&mut self, at: Address, into: &mut [u8]) -> Result<(), Refusal> {
        self.check_access(at, into.len())?;
        match self.newest(at) {
            Some(i) => {
                into.copy_from_slice(&self.held[i].bytes);
                Ok(())
            }
            None => self.below.read(at, into),
        }
    }

    fn store(&mut self, at: Address, bytes: &[u8]) -> Result<(), Refusal> {
        self.check_access(at, bytes.len())?;
        self.make_room()?;
        self.hold(at, bytes);
        Ok(())
    }

    fn barrier(&mut self) -> Result<(), Refusal> {
        if !self.powered() {
            return Err(Refusal::PowerOff(None));
        }
        self.pass_all()?;
        self.below.barrier()
    }

    fn power_on(&mut self) {
        self.held.clear();
        self.below.power_on();
    }
}

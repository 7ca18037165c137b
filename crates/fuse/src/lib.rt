// The fuse: over any member store, loses power after a set number of stores and barriers.
#![tactic(auto)]

ghost use Rattle.std.specs.Prelude.{◌≡◌, true, false, length, if◌then◌else◌, None as Unset, MatchBool};
ghost use Rattle.member_store.specs.Refusals.{off_at, off_at_barrier};
ghost use Rattle.member_store.specs.Calls.{checks, barrier_checks, Reads, Stores, Bars, PoweredOn};
ghost use Rattle.fuse.specs.Fused.{fused, blows as blows_at, less, Counts, Passes};
ghost use Rattle.std.proofs.Common.{rules};

use block_address::Address;
use member_store::MemberStore;
use member_store::refusal::Refusal;

/// A store that loses power when its setting is used up; without a setting it never does.
#[derive(Drop)]
pub struct Fuse<S> {
    below: S,
    // how many stores and barriers may still act
    left: Option<usize>,
    // Kept: no enum of states takes the place of the two, since a blown fuse also holds the setting that `set` gives it.
    blown: bool,
}

impl<S: MemberStore> Fuse<S> {
    /// Lets `left` stores and barriers act, or any number where there is no setting.
    pub fn new(below: S, left: Option<usize>) -> Fuse<S>
        ensures { (result.below ≡ below) × (result.left ≡ left) × (result.blown ≡ false) }
    {
        Fuse {
            below,
            left,
            blown: false,
        }
    }

    /// Sets the fuse anew: lets `left` more stores and barriers act, or any number where there is no setting. A blown fuse stays blown.
    pub fn set(&mut self, left: Option<usize>)
        ensures left { self.new.left ≡ left }
        ensures below { self.new.below ≡ self.old.below }
        ensures blown { self.new.blown ≡ self.old.blown }
    {
        self.left = left;
    }

    /// The store below, to look at, whatever the power.
    pub fn below(&self) -> &S
        ensures { result.now ≡ self.now.below }
    {
        &self.below
    }

    /// Gives the store below back.
    pub fn into_below(self) -> S
        ensures { result ≡ self.below }
    {
        let Fuse { below, .. } = self;
        below
    }

    // Counts a valid store or barrier; says whether power goes in it.
    fn blows(&mut self) -> bool
        ensures value { result ≡ blows_at self.old.left }
        ensures below { self.new.below ≡ self.old.below }
        ensures left { self.new.left ≡ (if result then self.old.left else less self.old.left) }
        ensures blown { self.new.blown ≡ (if result then true else self.old.blown) }
    {
        match self.left {
            None => false,
            Some(0) => {
                self.blown = true;
                true
            }
            Some(n) => {
                self.left = Some(n - 1);
                false
            }
        }
    }
}

impl<S: MemberStore> MemberStore for Fuse<S> {
    ghost meaning = { λ f. fused f.blown (S.MemberStore.meaning f.below) };

    ghost reading = { λ f m b old r new g. Passes (off_at m b) r (Reads (S.MemberStore.meaning f.below) m b old r new (S.MemberStore.meaning g.below) × S.MemberStore.reading f.below m b old r new g.below) f.left f.blown f.below g.left g.blown g.below };

    ghost storing = { λ f m b x r g. Counts (checks (fused f.blown (S.MemberStore.meaning f.below)) m b (length x)) (off_at m b) r (Stores (S.MemberStore.meaning f.below) m b x r (S.MemberStore.meaning g.below) × S.MemberStore.storing f.below m b x r g.below) f.left f.blown f.below g.left g.blown g.below };

    ghost barring = { λ f r g. Counts (barrier_checks (fused f.blown (S.MemberStore.meaning f.below))) off_at_barrier r (Bars (S.MemberStore.meaning f.below) r (S.MemberStore.meaning g.below) × S.MemberStore.barring f.below r g.below) f.left f.blown f.below g.left g.blown g.below };

    ghost powering = { λ f g. (g.left ≡ Unset) × (g.blown ≡ false) × PoweredOn (S.MemberStore.meaning f.below) (S.MemberStore.meaning g.below) × S.MemberStore.powering f.below g.below };

    ghost counts = { Prim.search rules };

    ghost stands = { Prim.search rules };

    ghost whole = { Prim.search rules };

    fn powered(&self) -> bool {
        self.below.powered() && !self.blown
    }

    fn members(&self) -> usize {
        self.below.members()
    }

    fn blocks(&self) -> usize {
        self.below.blocks()
    }

    fn read(&mut self, at: Address, into: &mut [u8]) -> Result<(), Refusal> {
        if self.blown {
            return Err(Refusal::PowerOff(Some(at)));
        }
        self.below.read(at, into)
    }

    fn store(&mut self, at: Address, bytes: &[u8]) -> Result<(), Refusal> {
        self.check_access(at, bytes.len())?;
        if self.blows() {
            return Err(Refusal::PowerOff(Some(at)));
        }
        self.below.store(at, bytes)
    }

    fn barrier(&mut self) -> Result<(), Refusal> {
        if !self.powered() || self.blows() {
            return Err(Refusal::PowerOff(None));
        }
        self.below.barrier()
    }

    fn power_on(&mut self) {
        self.left = None;
        self.blown = false;
        self.below.power_on();
    }
}

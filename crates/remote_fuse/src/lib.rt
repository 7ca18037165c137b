//! A fuse that is set from outside, while it lies below other stores or in an array.
#![tactic(auto)]

ghost use Rattle.std.specs.Prelude.{◌≡◌, false, None as Unset};
ghost use Rattle.remote_fuse.specs.Remote.{AtSome};
ghost use Rattle.std.proofs.Common.{rules};

pub mod switch;

use block_address::Address;
use fuse::Fuse;
use member_store::MemberStore;
use member_store::refusal::Refusal;
use switch::Switch;

/// A fuse that takes its setting from a switch, before a store or a barrier. Power-on removes the setting, and what the
/// switch asked for before.
///
/// When power goes is up to the switch. Behind it lies a shared cell, of which no contract can speak. So it is proved that this
/// is a member store and that a store or a barrier does what a fuse does at some setting; that it is the switch's is tested.
#[derive(Drop)]
pub struct RemoteFuse<S, W> {
    fuse: Fuse<S>,
    switch: W,
}

impl<S: MemberStore, W: Switch> RemoteFuse<S, W> {
    /// A fuse without a setting.
    pub fn new(below: S, switch: W) -> RemoteFuse<S, W>
        ensures { (result.fuse.below ≡ below) × (result.fuse.left ≡ Unset) × (result.fuse.blown ≡ false) }
    {
        RemoteFuse {
            fuse: Fuse::new(below, None),
            switch,
        }
    }

    /// The store below, to look at.
    pub fn below(&self) -> &S
        ensures { result.now ≡ self.now.fuse.below }
    {
        self.fuse.below()
    }

    // Sets the fuse where the switch asks for it.
    fn obey(&mut self)
        ensures below { self.new.fuse.below ≡ self.old.fuse.below }
        ensures blown { self.new.fuse.blown ≡ self.old.fuse.blown }
    {
        if let Some(left) = self.switch.take() {
            self.fuse.set(Some(left));
        }
    }
}

impl<S: MemberStore, W: Switch> MemberStore for RemoteFuse<S, W> {
    ghost meaning = { λ f. ⟦<Fuse<S> as MemberStore>⟧.meaning f.fuse };

    ghost reading = { λ f m b old r new g. ⟦<Fuse<S> as MemberStore>⟧.reading f.fuse m b old r new g.fuse };

    ghost storing = { λ f m b x r g. AtSome (λ left. ⟦<Fuse<S> as MemberStore>⟧.storing (record { below = f.fuse.below; left = left; blown = f.fuse.blown }) m b x r g.fuse) };

    ghost barring = { λ f r g. AtSome (λ left. ⟦<Fuse<S> as MemberStore>⟧.barring (record { below = f.fuse.below; left = left; blown = f.fuse.blown }) r g.fuse) };

    ghost powering = { λ f g. ⟦<Fuse<S> as MemberStore>⟧.powering f.fuse g.fuse };

    ghost counts = { Prim.search rules };

    ghost stands = { Prim.search rules };

    ghost whole = { Prim.search rules };

    fn powered(&self) -> bool {
        self.fuse.powered()
    }

    fn members(&self) -> usize {
        self.fuse.members()
    }

    fn blocks(&self) -> usize {
        self.fuse.blocks()
    }

    fn read(&mut self, at: Address, into: &mut [u8]) -> Result<(), Refusal> {
        self.fuse.read(at, into)
    }

    fn store(&mut self, at: Address, bytes: &[u8]) -> Result<(), Refusal> {
        self.obey();
        self.fuse.store(at, bytes)
    }

    fn barrier(&mut self) -> Result<(), Refusal> {
        self.obey();
        self.fuse.barrier()
    }

    fn power_on(&mut self) {
        let _ = self.switch.take();
        self.fuse.power_on();
    }
}

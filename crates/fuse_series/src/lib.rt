// A fuse that each power-on sets again, from a series of settings: a script can so cut power many times.
#![tactic(auto)]

ghost use Rattle.std.specs.Prelude.{◌≡◌, false, None as Unset};
ghost use Rattle.member_store.specs.Calls.{PoweredOn};
ghost use Rattle.fuse_series.specs.Series.{next_setting, later_settings};
ghost use Rattle.std.proofs.Common.{rules};

use block_address::Address;
use fuse::Fuse;
use member_store::MemberStore;
use member_store::refusal::Refusal;

/// A fuse, and the settings of the power-ons to come.
// Kept: not one type with the remote fuse, which is set before each call and not at power-on, and of which less can be proved.
#[derive(Drop)]
pub struct FuseSeries<S> {
    fuse: Fuse<S>,
    // the next one last; after the last of them there is no setting
    settings: Vec<Option<usize>>,
}

impl<S: MemberStore> FuseSeries<S> {
    /// A fuse without a setting; the next power-on takes the last of `settings`.
    pub fn new(below: S, settings: Vec<Option<usize>>) -> FuseSeries<S>
        ensures fuse { (result.fuse.below ≡ below) × (result.fuse.left ≡ Unset) × (result.fuse.blown ≡ false) }
        ensures settings { result.settings ≡ settings }
    {
        FuseSeries {
            fuse: Fuse::new(below, None),
            settings,
        }
    }

    /// The store below, to look at, whatever the power.
    pub fn below(&self) -> &S
        ensures { result.now ≡ self.now.fuse.below }
    {
        self.fuse.below()
    }
}

impl<S: MemberStore> MemberStore for FuseSeries<S> {
    ghost meaning = { λ f. ⟦<Fuse<S> as MemberStore>⟧.meaning f.fuse };

    ghost reading = { λ f m b old r new g. (g.settings ≡ f.settings) × ⟦<Fuse<S> as MemberStore>⟧.reading f.fuse m b old r new g.fuse };

    ghost storing = { λ f m b x r g. (g.settings ≡ f.settings) × ⟦<Fuse<S> as MemberStore>⟧.storing f.fuse m b x r g.fuse };

    ghost barring = { λ f r g. (g.settings ≡ f.settings) × ⟦<Fuse<S> as MemberStore>⟧.barring f.fuse r g.fuse };

    ghost powering = { λ f g. (g.fuse.left ≡ next_setting f.settings.items) × (g.settings.items ≡ later_settings f.settings.items) × (g.fuse.blown ≡ false) × PoweredOn (S.MemberStore.meaning f.fuse.below) (S.MemberStore.meaning g.fuse.below) × S.MemberStore.powering f.fuse.below g.fuse.below };

    ghost counts = { Prim.search rules };

    ghost stands = { Prim.search rules };

    ghost whole = { Prim.search rules };

    fn powered(&self) -> bool {
        self.fuse.powered()
    }

    fn members(&self) -> usize {
        self.fuse.members()
    }

    fn blocks(&self) -> usize {
        self.fuse.blocks()
    }

    fn read(&mut self, at: Address, into: &mut [u8]) -> Result<(), Refusal> {
        self.fuse.read(at, into)
    }

    fn store(&mut self, at: Address, bytes: &[u8]) -> Result<(), Refusal> {
        self.fuse.store(at, bytes)
    }

    fn barrier(&mut self) -> Result<(), Refusal> {
        self.fuse.barrier()
    }

    fn power_on(&mut self) {
        let left = self.settings.pop().flatten();
        self.fuse.power_on();
        self.fuse.set(left);
    }
}

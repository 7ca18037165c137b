// Member stores: the interface, what its calls mean, and why they are refused.
#![tactic(auto)]

ghost use Rattle.std.specs.Prelude.{◌≡◌, ℕ, ◌≤◌, List, length, Some, None, MatchResult, Result as Answer};
ghost use Rattle.member_store.specs.declared.refusal.Refusal.{Refusal as Cause};
ghost use Rattle.member_store.specs.Meaning.{Meaning, current, Version, HasBlock};
ghost use Rattle.member_store.specs.Refusals.{number as number_of, place as place_of};
ghost use Rattle.member_store.specs.Calls.{checked, checks, Reads, Stores, Bars, PoweredOn};

pub mod refusal;
pub mod text;

use block_address::Address;
use refusal::Refusal;

/// The bytes of a block.
pub const BLOCK_BYTES: usize = 512;

impl Refusal {
    /// The number by which users know the cause.
    pub fn number(&self) -> u8
        ensures { result ≡ number_of self.now }
    {
        match self {
            Refusal::PowerOff(_) => 1,
            Refusal::NoMember(_) | Refusal::NoBlock(_) => 7,
            Refusal::WrongLength(_) => 8,
        }
    }

    /// Member and block of the device call in which power was missing; a barrier has none.
    pub fn place(&self) -> Option<Address>
        ensures { result ≡ place_of self.now }
    {
        match self {
            Refusal::PowerOff(place) => *place,
            Refusal::NoMember(_) | Refusal::NoBlock(_) | Refusal::WrongLength(_) => None,
        }
    }
}

/// The checks that every store makes before a read or a store of `len` bytes: power, member, block, length.
pub fn first_refusal(
    on: bool,
    members: usize,
    blocks: usize,
    member: usize,
    block: usize,
    len: usize,
) -> Option<Refusal>
    ensures { result ≡ checked on members blocks member block len }
{
    if !on {
        return Some(Refusal::PowerOff(Some(Address { member, block })));
    }
    if member >= members {
        return Some(Refusal::NoMember(member));
    }
    if block >= blocks {
        return Some(Refusal::NoBlock(block));
    }
    if len != BLOCK_BYTES {
        return Some(Refusal::WrongLength(len));
    }
    None
}

/// The disks of a box: members with the same number of blocks, which keep several versions of a block until a barrier.
pub trait MemberStore {
    ghost meaning: { Self → Meaning };

    /// What a kind says of its own calls beyond the meaning, by the store before and after and the answer.
    ghost reading: { Self → ℕ → ℕ → List ℕ → Answer (Unit {0}) Cause → List ℕ → Self → Type 0 } = { λ _ _ _ _ _ _ _. Unit {0} };

    ghost storing: { Self → ℕ → ℕ → List ℕ → Answer (Unit {0}) Cause → Self → Type 0 } = { λ _ _ _ _ _ _. Unit {0} };

    ghost barring: { Self → Answer (Unit {0}) Cause → Self → Type 0 } = { λ _ _ _. Unit {0} };

    ghost powering: { Self → Self → Type 0 } = { λ _ _. Unit {0} };

    /// Is power on?
    fn powered(&self) -> bool
        ensures { result ≡ (meaning self.now).on };

    /// How many members there are, at least 1.
    fn members(&self) -> usize
        ensures { result ≡ (meaning self.now).members };

    /// How many blocks each member has, at least 1.
    fn blocks(&self) -> usize
        ensures { result ≡ (meaning self.now).blocks };

    /// The checks of a read or a store of `len` bytes at a block, in their order: power, member, block, length.
    fn check_access(&self, at: Address, len: usize) -> Result<(), Refusal>
        ensures { MatchResult result (λ _. checks (meaning self.now) at.member at.block len ≡ None) (λ e. checks (meaning self.now) at.member at.block len ≡ Some e) }
    {
        let refusal = first_refusal(
            self.powered(),
            self.members(),
            self.blocks(),
            at.member,
            at.block,
            len,
        );
        refusal.map_or(Ok(()), Err)
    }

    /// Copies the current bytes of a block into `into`, which a refusal leaves as it was.
    fn read(&mut self, at: Address, into: &mut [u8]) -> Result<(), Refusal>
        ensures means { Reads (meaning self.old) at.member at.block into.old result into.new (meaning self.new) }
        ensures own { reading self.old at.member at.block into.old result into.new self.new };

    /// Makes `bytes` the current version of a block; until a barrier former versions may stand after a cut.
    fn store(&mut self, at: Address, bytes: &[u8]) -> Result<(), Refusal>
        ensures means { Stores (meaning self.old) at.member at.block bytes.now result (meaning self.new) }
        ensures own { storing self.old at.member at.block bytes.now result self.new };

    /// Leaves each block its current version only.
    fn barrier(&mut self) -> Result<(), Refusal>
        ensures means { Bars (meaning self.old) result (meaning self.new) }
        ensures own { barring self.old result self.new };

    /// Turns power on; each block has one of its versions from then on.
    fn power_on(&mut self)
        ensures means { PoweredOn (meaning self.old) (meaning self.new) }
        ensures own { powering self.old self.new };

    ghost counts: { (s : Self) → (1 ≤ (meaning s).members) × (1 ≤ (meaning s).blocks) };

    ghost stands: { (s : Self) (m b : ℕ) → HasBlock (meaning s) m b → Version (meaning s) m b (current (meaning s) m b) };

    ghost whole: { (s : Self) (m b : ℕ) (v : List ℕ) → HasBlock (meaning s) m b → Version (meaning s) m b v → length v ≡ 512 };
}

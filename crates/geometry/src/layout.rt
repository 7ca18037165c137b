// Layouts: which member of a stripe holds the parity, and which one the data at a position.
ghost use Rattle.std.specs.Prelude.{◌≡◌, ℕ, ◌-◌, ◌<◌, ◌≤◌};
ghost use Rattle.geometry.specs.Counts.{counted};
ghost use Rattle.geometry.specs.Layouts.{Arrangement, Lawful, member_at, position_at, rising, falling, restarted, restarted_back, continued, continued_back, right_asymmetric, left_asymmetric, left_symmetric};
ghost use Rattle.std.proofs.Common.{rules};
ghost use Rattle.geometry.specs.Rounds.{left_symmetric_lawful};

use crate::shape::MemberCount;

/// A layout of RAID-5. Its meaning is the arrangement of each stripe over each number of members,
/// so it gives the same answer always for the same stripe and members.
pub trait Layout {
    // by the number of members and the stripe
    ghost arrangement: { ℕ → ℕ → Arrangement };

    /// The member that holds the parity of a stripe.
    fn parity_member(&self, members: MemberCount, stripe: usize) -> usize
        ensures { result ≡ (arrangement (counted members) stripe).parity };

    /// The member of a position, or None where the stripe has no such position.
    fn member_of(&self, members: MemberCount, stripe: usize, position: usize) -> Option<usize>
        ensures { result ≡ member_at (counted members) (arrangement (counted members) stripe) position };

    /// The position on a member, or None on the parity's member and where there is no such member.
    fn position_on(&self, members: MemberCount, stripe: usize, member: usize) -> Option<usize>
        ensures { result ≡ position_at (counted members) (arrangement (counted members) stripe) member };

    ghost lawful: { (m s : ℕ) → 3 ≤ m → m ≤ 8 → Lawful m (arrangement m s) };
}

/// RAID level qualifier 0: rotating parity 0 with data restart.
#[derive(Clone, Copy)]
pub struct RightAsymmetric;

/// RAID level qualifier 2: rotating parity N with data restart.
#[derive(Clone, Copy)]
pub struct LeftAsymmetric;

/// RAID level qualifier 3: rotating parity N with data continuation.
#[derive(Clone, Copy)]
pub struct LeftSymmetric;

// Parity that moves up by one member with each stripe.
fn rising_parity(members: MemberCount, stripe: usize) -> usize
    ensures value { result ≡ rising (counted members) stripe }
    ensures below { result < counted members }
{
    stripe % members.count
}

// Parity that moves down by one member with each stripe.
fn falling_parity(members: MemberCount, stripe: usize) -> usize
    ensures value { result ≡ falling (counted members) stripe }
    ensures below { result < counted members }
{
    members.count - 1 - stripe % members.count
}

// Data that restarts at member 0 in each stripe, and passes over the parity.
fn restarted_member(members: MemberCount, parity: usize, position: usize) -> Option<usize>
    ensures { result ≡ member_at (counted members) (record { parity = parity; member = restarted parity; position = restarted_back parity }) position }
{
    if position >= members.positions() {
        return None;
    }
    if position < parity {
        return Some(position);
    }
    Some(position + 1)
}

fn restarted_position(members: MemberCount, parity: usize, member: usize) -> Option<usize>
    ensures { result ≡ position_at (counted members) (record { parity = parity; member = restarted parity; position = restarted_back parity }) member }
{
    if member >= members.count || member == parity {
        return None;
    }
    if member < parity {
        return Some(member);
    }
    Some(member - 1)
}

// Kept: the two asymmetric layouts differ in one call of each method; a trait of rotations with one impl over it is longer.
impl Layout for RightAsymmetric {
    ghost arrangement = { right_asymmetric };

    ghost lawful = { Prim.search rules };

    fn parity_member(&self, members: MemberCount, stripe: usize) -> usize {
        rising_parity(members, stripe)
    }

    fn member_of(&self, members: MemberCount, stripe: usize, position: usize) -> Option<usize> {
        restarted_member(members, rising_parity(members, stripe), position)
    }

    fn position_on(&self, members: MemberCount, stripe: usize, member: usize) -> Option<usize> {
        restarted_position(members, rising_parity(members, stripe), member)
    }
}

impl Layout for LeftAsymmetric {
    ghost arrangement = { left_asymmetric };

    ghost lawful = { Prim.search rules };

    fn parity_member(&self, members: MemberCount, stripe: usize) -> usize {
        falling_parity(members, stripe)
    }

    fn member_of(&self, members: MemberCount, stripe: usize, position: usize) -> Option<usize> {
        restarted_member(members, falling_parity(members, stripe), position)
    }

    fn position_on(&self, members: MemberCount, stripe: usize, member: usize) -> Option<usize> {
        restarted_position(members, falling_parity(members, stripe), member)
    }
}

impl Layout for LeftSymmetric {
    ghost arrangement = { left_symmetric };

    ghost lawful = { left_symmetric_lawful };

    fn parity_member(&self, members: MemberCount, stripe: usize) -> usize {
        falling_parity(members, stripe)
    }

    fn member_of(&self, members: MemberCount, stripe: usize, position: usize) -> Option<usize> {
        if position >= members.positions() {
            return None;
        }
        Some((falling_parity(members, stripe) + 1 + position) % members.count)
    }

    fn position_on(&self, members: MemberCount, stripe: usize, member: usize) -> Option<usize> {
        let parity = falling_parity(members, stripe);
        if member >= members.count || member == parity {
            return None;
        }
        Some((member + (members.count - 1 - parity)) % members.count)
    }
}

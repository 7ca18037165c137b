// Working one member's block out of the others, without touching that member.
ghost use Rattle.std.specs.Prelude.{◌≡◌, ℕ, ◌-◌, ◌<◌, take, OnOk};
ghost use Rattle.geometry.specs.Counts.{counted, members_of, blocks_of};
ghost use Rattle.geometry.specs.Layouts.{restarted};
ghost use Rattle.parity.specs.Xor.{without};
ghost use Rattle.device_calls.specs.Lists.{Performs};
ghost use Rattle.stripe_work.specs.Stripe.{row_blocks};
ghost use Rattle.stripe_work.specs.Work.{other_reads};
ghost use Rattle.stripe_work.specs.Promises.{Reconstructs};

use crate::block::read_block;
use crate::data::{Block, MOST_POSITIONS};
use crate::refusal::StripeRefusal;
use block_address::Address;
use geometry::array_geometry::Geometry;
use geometry::layout::Layout;
use geometry::shape::MemberCount;
use member_store::refusal::Refusal;
use member_store::{BLOCK_BYTES, MemberStore};
use parity::missing_block;

// The member whose block goes into a row: the rows are by member and pass over the absent one.
fn other_member(absent: usize, row: usize) -> usize
    requires { row < 7 }
    ensures { result ≡ restarted absent row }
{
    if row < absent { row } else { row + 1 }
}

// Reads the same block of each of the members but one, into rows, by member.
fn read_others<S: MemberStore>(
    store: &mut S,
    members: MemberCount,
    absent: Address,
    rows: &mut [Block; MOST_POSITIONS],
) -> Result<(), Refusal>
    requires { absent.member < counted members }
    ensures calls { Performs (other_reads (counted members) absent.block absent.member) (S.MemberStore.meaning store.old) result (S.MemberStore.meaning store.new) }
    ensures rows { OnOk result (take (counted members - 1) rows.new ≡ without absent.member (row_blocks (counted members) absent.block (S.MemberStore.meaning store.old))) }
{
    let others = &mut rows[..members.positions()];
    for (row, into) in others.iter_mut().enumerate() {
        let member = other_member(absent.member, row);
        read_block(store, Address { member, ..absent }, into)?;
    }
    Ok(())
}

/// Works the block at an address out of what the other members hold in its row, whether it is data or parity, reading
/// them by member and not touching the member of the address. A refusal leaves the buffer as it was.
pub fn reconstruct_block<S: MemberStore, L: Layout>(
    store: &mut S,
    geometry: &Geometry<L>,
    absent: Address,
    into: &mut Block,
) -> Result<(), StripeRefusal>
    ensures { Reconstructs L.Layout.arrangement (members_of geometry.now.shape) (blocks_of geometry.now.shape) absent into.old (S.MemberStore.meaning store.old) result into.new (S.MemberStore.meaning store.new) }
{
    let members = geometry.shape.members();
    if absent.member >= members.get() {
        return Err(StripeRefusal::NoMember(absent.member));
    }
    if geometry.content(absent).is_none() {
        return Err(StripeRefusal::NoBlock(absent.block));
    }
    let mut rows = [[0; BLOCK_BYTES]; MOST_POSITIONS];
    read_others(store, members, absent, &mut rows)?;
    let _ = missing_block(&rows[..members.positions()], into);
    Ok(())
}

// The script: 24 stores with two barriers among them, and what is known of it after a cut.
#![tactic(auto)]

ghost use Rattle.std.specs.Prelude.{◌≡◌, ◌/◌, ◌%◌, ◌≤◌, IfOk};
ghost use Rattle.cut_script.specs.Account.{at, Accounted, FirstBytes};
ghost use Rattle.cut_script.specs.Script.{place as place_of, barrier_after, LastStore};

use block_address::Address;
use member_store::refusal::Refusal;
use member_store::{BLOCK_BYTES, MemberStore};

/// The stores, numbered from 1; each fills its block with its number.
pub const STORES: u8 = 24;

/// The members that the script needs.
pub const MEMBERS: usize = 4;

/// The blocks of each member that the script needs.
pub const BLOCKS: usize = 2;

/// The store that the first barrier follows.
pub const FIRST_BARRIER: u8 = 6;

/// The store that the second barrier follows.
pub const SECOND_BARRIER: u8 = 12;

/// How far the script came.
#[derive(Clone, Copy)]
pub struct Progress {
    /// The stores made, one that was refused included.
    pub made: u8,
    /// The stores before the last barrier that was not refused.
    pub barred: u8,
    pub refusal: Option<Refusal>,
    ghost within: { made ≤ 24 },
    ghost before: { barred ≤ made },
}

// The block of a number: member after member, and then the next block of each.
fn numbered(number: usize) -> Address
    ensures { result ≡ at (number % 4) (number / 4) }
{
    Address {
        member: number % MEMBERS,
        block: number / MEMBERS,
    }
}

/// The block of a store: triangular numbers, which come to a block again after few or many stores.
pub fn place_of(store: u8) -> Address
    ensures { result ≡ place_of store }
{
    let n = usize::from(store);
    numbered(n * (n + 1) / 2 % (MEMBERS * BLOCKS))
}

// Does a barrier follow the store?
fn is_barrier_after(store: u8) -> bool
    ensures { result ≡ barrier_after store }
{
    store == FIRST_BARRIER || store == SECOND_BARRIER
}

/// Makes the stores in order, until one of them or a barrier is refused.
pub fn run<S: MemberStore>(store: &mut S) -> Progress
    ensures { Accounted (S.MemberStore.meaning store.old) result.made result.barred (S.MemberStore.meaning store.new) }
{
    let mut barred = 0;
    for number in 1..=STORES {
        let place = place_of(number);
        // Kept: a refusal ends the script, and is told with how far it came; it is no error of the run, so no `?` stands here.
        if let Err(e) = store.store(place, &[number; BLOCK_BYTES]) {
            return Progress {
                made: number,
                barred,
                refusal: Some(e),
            };
        }
        if is_barrier_after(number) {
            if let Err(e) = store.barrier() {
                return Progress {
                    made: number,
                    barred,
                    refusal: Some(e),
                };
            }
            barred = number;
        }
    }
    Progress {
        made: STORES,
        barred,
        refusal: None,
    }
}

/// The last of the first `count` stores to a block, 0 where there is none.
pub fn last_store(place: Address, count: u8) -> u8
    ensures { LastStore place count result }
{
    // Kept: of `(1..=count).rev().find(..)` the proof doesn't close, for want of a law of such a range taken from behind.
    let mut last = 0;
    for number in 1..=count {
        if place_of(number) == place {
            last = number;
        }
    }
    last
}

/// The first byte of each block, which is the number of the store that it has; 0 are the zeros before the script.
pub fn standing<S: MemberStore>(store: &mut S) -> Result<[u8; 8], Refusal>
    ensures { IfOk result (λ v. FirstBytes (S.MemberStore.meaning store.old) 8 v) }
{
    let mut stands = [0u8; 8];
    for (number, first) in stands.iter_mut().enumerate() {
        let mut into = [0u8; BLOCK_BYTES];
        store.read(numbered(number), &mut into)?;
        *first = into[0];
    }
    Ok(stands)
}

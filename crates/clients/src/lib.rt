//! Two clients of an array, as they have to be written. What the check refuses of their wrong twins is kept in misuse/.
#![tactic(auto)]

ghost use Rattle.array.specs.Sound.{Sound};

use array::array::Array;
use array::refusal::TokenRefusal;
use array::tokens::{ReadyPermit, ResyncTicket};
use array_model::refusal::ArrayRefusal;
use geometry::layout::Layout;
use intent_log::IntentLog;
use member_store::MemberStore;

// Steps to the end, as many times as the array can have stripes.
fn resynchronize<S: MemberStore, G: IntentLog, L: Layout>(
    array: &mut Array<S, G, L>,
    ticket: &ResyncTicket,
) -> Result<(), ArrayRefusal>
    ensures { Sound S.MemberStore.meaning G.IntentLog.meaning G.IntentLog.sound array.old → Sound S.MemberStore.meaning G.IntentLog.meaning G.IntentLog.sound array.new }
{
    for _ in 0..16_777_217 {
        if array.step(ticket)?.is_none() {
            return Ok(());
        }
    }
    Ok(())
}

// The refusal of a call that takes a token. A token that came back is given up.
fn handed_in<S: MemberStore, G: IntentLog, L: Layout, K>(
    array: &mut Array<S, G, L>,
    refused: TokenRefusal<K>,
) -> ArrayRefusal
    ensures { Sound S.MemberStore.meaning G.IntentLog.meaning G.IntentLog.sound array.old → Sound S.MemberStore.meaning G.IntentLog.meaning G.IntentLog.sound array.new }
{
    match refused {
        TokenRefusal::Returned(state, token) => {
            array.give_up(token);
            ArrayRefusal::WrongState(state)
        }
        TokenRefusal::Taken(e) => e,
    }
}

/// Opens an array that is down and writes a block: one steps to the end and finishes before one writes.
pub fn open_and_write<S: MemberStore, G: IntentLog, L: Layout>(
    array: &mut Array<S, G, L>,
    block: usize,
    bytes: &[u8],
) -> Result<ReadyPermit, ArrayRefusal>
    ensures { Sound S.MemberStore.meaning G.IntentLog.meaning G.IntentLog.sound array.old → Sound S.MemberStore.meaning G.IntentLog.meaning G.IntentLog.sound array.new }
{
    let ticket = array.open()?;
    // Kept: a token is handed in before a refusal goes up. Below, with `map_err` and a closure that hands it in, the proof did not close.
    if let Err(e) = resynchronize(array, &ticket) {
        array.give_up(ticket);
        return Err(e);
    }
    let ready = match array.finish(ticket) {
        Ok((permit, _)) => permit,
        Err(refused) => return Err(handed_in(array, refused)),
    };
    if let Err(e) = array.write(&ready, block, bytes) {
        array.give_up(ready);
        return Err(e);
    }
    Ok(ready)
}

/// Reads a block and closes: what is to be read is read before the close takes the permit.
pub fn read_and_close<S: MemberStore, G: IntentLog, L: Layout>(
    array: &mut Array<S, G, L>,
    permit: ReadyPermit,
    block: usize,
    into: &mut [u8],
) -> Result<(), ArrayRefusal>
    ensures { Sound S.MemberStore.meaning G.IntentLog.meaning G.IntentLog.sound array.old → Sound S.MemberStore.meaning G.IntentLog.meaning G.IntentLog.sound array.new }
{
    let outcome = array.read(&permit, block, into);
    if let Err(refused) = array.close(permit) {
        return Err(handed_in(array, refused));
    }
    outcome
}

// The call on a short permit.
ghost use Rattle.array_run.specs.Calls.{Tries};
ghost use Rattle.array_run.specs.declared.call.Call.TheVariants as call;
ghost use Rattle.array.specs.Sound.{means, Sound};
ghost use Rattle.array_run.specs.TokenCounts.{counts_of};

use crate::answer::Answer;
use crate::buffer::{read_told, zero_buffer};
use crate::tokens::Tokens;
use array::array::Array;
use geometry::layout::Layout;
use intent_log::IntentLog;
use member_store::MemberStore;
use std::alloc::{AllocError, Global};

pub(super) fn read_short<S: MemberStore, G: IntentLog, L: Layout>(
    heap: Global,
    array: &mut Array<S, G, L>,
    tokens: &Tokens,
    block: usize,
    length: usize,
) -> Result<Answer, AllocError>
    ensures sound { Sound S.MemberStore.meaning G.IntentLog.meaning G.IntentLog.sound array.old → Sound S.MemberStore.meaning G.IntentLog.meaning G.IntentLog.sound array.new }
    ensures made { Sound S.MemberStore.meaning G.IntentLog.meaning G.IntentLog.sound array.old → Tries L.Layout.arrangement (call.ReadShort block length) (counts_of tokens.now) (means S.MemberStore.meaning G.IntentLog.meaning array.old) result (counts_of tokens.now) (means S.MemberStore.meaning G.IntentLog.meaning array.new) }
{
    let mut buffer = zero_buffer(heap, length)?;
    // Kept: handed to `on_last`, the call would carry the buffer in and out, and be no plainer.
    match tokens.shorts.last() {
        Some(permit) => {
            let outcome = array.read_short(permit, block, buffer.as_mut_slice());
            Ok(read_told(outcome, buffer))
        }
        None => Ok(Answer::NoToken),
    }
}

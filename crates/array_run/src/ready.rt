// The calls on a ready permit.
ghost use Rattle.array_run.specs.Calls.{Made, Tries};
ghost use Rattle.array_run.specs.declared.call.Call.TheVariants as call;
ghost use Rattle.array.specs.Sound.{means, Sound};
ghost use Rattle.array_run.specs.TokenCounts.{Grown, counts_of};

use crate::answer::Answer;
use crate::buffer::{read_told, zero_buffer};
use crate::last::on_last;
use crate::tokens::Tokens;
use array::array::Array;
use array::refusal::CloseRefusal;
use array_model::refusal::ArrayRefusal;
use geometry::layout::Layout;
use intent_log::IntentLog;
use member_store::MemberStore;
use std::alloc::{AllocError, Global};

pub(super) fn write<S: MemberStore, G: IntentLog, L: Layout>(
    array: &mut Array<S, G, L>,
    tokens: &Tokens,
    block: usize,
    bytes: &[u8],
) -> Answer
    ensures sound { Sound S.MemberStore.meaning G.IntentLog.meaning G.IntentLog.sound array.old → Sound S.MemberStore.meaning G.IntentLog.meaning G.IntentLog.sound array.new }
    ensures made { Sound S.MemberStore.meaning G.IntentLog.meaning G.IntentLog.sound array.old → Made L.Layout.arrangement (call.Write block bytes.entry) (counts_of tokens.now) (means S.MemberStore.meaning G.IntentLog.meaning array.old) result (counts_of tokens.now) (means S.MemberStore.meaning G.IntentLog.meaning array.new) }
{
    on_last(array, &tokens.permits, |array, permit| {
        Answer::Plain(array.write(permit, block, bytes))
    })
}

pub(super) fn read<S: MemberStore, G: IntentLog, L: Layout>(
    heap: Global,
    array: &mut Array<S, G, L>,
    tokens: &Tokens,
    block: usize,
    length: usize,
) -> Result<Answer, AllocError>
    ensures sound { Sound S.MemberStore.meaning G.IntentLog.meaning G.IntentLog.sound array.old → Sound S.MemberStore.meaning G.IntentLog.meaning G.IntentLog.sound array.new }
    ensures made { Sound S.MemberStore.meaning G.IntentLog.meaning G.IntentLog.sound array.old → Tries L.Layout.arrangement (call.Read block length) (counts_of tokens.now) (means S.MemberStore.meaning G.IntentLog.meaning array.old) result (counts_of tokens.now) (means S.MemberStore.meaning G.IntentLog.meaning array.new) }
{
    let mut buffer = zero_buffer(heap, length)?;
    // Kept: handed to `on_last`, the call would carry the buffer in and out, and be no plainer.
    match tokens.permits.last() {
        Some(permit) => {
            let outcome = array.read(permit, block, buffer.as_mut_slice());
            Ok(read_told(outcome, buffer))
        }
        None => Ok(Answer::NoToken),
    }
}

pub(super) fn destage<S: MemberStore, G: IntentLog, L: Layout>(
    array: &mut Array<S, G, L>,
    tokens: &Tokens,
) -> Answer
    ensures sound { Sound S.MemberStore.meaning G.IntentLog.meaning G.IntentLog.sound array.old → Sound S.MemberStore.meaning G.IntentLog.meaning G.IntentLog.sound array.new }
    ensures made { Sound S.MemberStore.meaning G.IntentLog.meaning G.IntentLog.sound array.old → Made L.Layout.arrangement call.Destage (counts_of tokens.now) (means S.MemberStore.meaning G.IntentLog.meaning array.old) result (counts_of tokens.now) (means S.MemberStore.meaning G.IntentLog.meaning array.new) }
{
    on_last(array, &tokens.permits, |array, permit| {
        Answer::Destage(array.destage(permit))
    })
}

pub(super) fn flush<S: MemberStore, G: IntentLog, L: Layout>(
    array: &mut Array<S, G, L>,
    tokens: &Tokens,
) -> Answer
    ensures sound { Sound S.MemberStore.meaning G.IntentLog.meaning G.IntentLog.sound array.old → Sound S.MemberStore.meaning G.IntentLog.meaning G.IntentLog.sound array.new }
    ensures made { Sound S.MemberStore.meaning G.IntentLog.meaning G.IntentLog.sound array.old → Made L.Layout.arrangement call.Flush (counts_of tokens.now) (means S.MemberStore.meaning G.IntentLog.meaning array.old) result (counts_of tokens.now) (means S.MemberStore.meaning G.IntentLog.meaning array.new) }
{
    on_last(array, &tokens.permits, |array, permit| {
        Answer::Flush(array.flush(permit))
    })
}

pub(super) fn close<S: MemberStore, G: IntentLog, L: Layout>(
    array: &mut Array<S, G, L>,
    tokens: &mut Tokens,
) -> Answer
    ensures sound { Sound S.MemberStore.meaning G.IntentLog.meaning G.IntentLog.sound array.old → Sound S.MemberStore.meaning G.IntentLog.meaning G.IntentLog.sound array.new }
    ensures made { Sound S.MemberStore.meaning G.IntentLog.meaning G.IntentLog.sound array.old → Made L.Layout.arrangement call.Close (counts_of tokens.old) (means S.MemberStore.meaning G.IntentLog.meaning array.old) result (counts_of tokens.new) (means S.MemberStore.meaning G.IntentLog.meaning array.new) }
    ensures grown { Grown 1 tokens.old tokens.new }
{
    match tokens.permits.pop() {
        Some(permit) => match array.close(permit) {
            Ok(()) => Answer::Plain(Ok(())),
            Err(CloseRefusal::Returned(state, permit)) => {
                tokens.permits.push_reserved(permit);
                Answer::Plain(Err(ArrayRefusal::WrongState(state)))
            }
            Err(CloseRefusal::Taken(e)) => Answer::Plain(Err(e)),
        },
        None => Answer::NoToken,
    }
}

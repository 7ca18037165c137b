// The calls on a resync ticket.
ghost use Rattle.array_run.specs.Calls.{Made, Tries};
ghost use Rattle.array_run.specs.declared.call.Call.TheVariants as call;
ghost use Rattle.std.specs.Prelude.{◌≡◌, true, is_ok};
ghost use Rattle.array.specs.Sound.{means, Sound};
ghost use Rattle.array_run.specs.TokenCounts.{Grown, Room, counts_of};

use crate::answer::Answer;
use crate::last::on_last;
use crate::tokens::Tokens;
use array::array::Array;
use array::refusal::FinishRefusal;
use array_model::refusal::ArrayRefusal;
use geometry::layout::Layout;
use intent_log::IntentLog;
use member_store::MemberStore;
use std::alloc::AllocError;

pub(super) fn step<S: MemberStore, G: IntentLog, L: Layout>(
    array: &mut Array<S, G, L>,
    tokens: &Tokens,
) -> Answer
    ensures sound { Sound S.MemberStore.meaning G.IntentLog.meaning G.IntentLog.sound array.old → Sound S.MemberStore.meaning G.IntentLog.meaning G.IntentLog.sound array.new }
    ensures made { Sound S.MemberStore.meaning G.IntentLog.meaning G.IntentLog.sound array.old → Made L.Layout.arrangement call.Step (counts_of tokens.now) (means S.MemberStore.meaning G.IntentLog.meaning array.old) result (counts_of tokens.now) (means S.MemberStore.meaning G.IntentLog.meaning array.new) }
{
    on_last(array, &tokens.tickets, |array, ticket| {
        Answer::Step(array.step(ticket))
    })
}

pub(super) fn finish<S: MemberStore, G: IntentLog, L: Layout>(
    array: &mut Array<S, G, L>,
    tokens: &mut Tokens,
) -> Result<Answer, AllocError>
    ensures sound { Sound S.MemberStore.meaning G.IntentLog.meaning G.IntentLog.sound array.old → Sound S.MemberStore.meaning G.IntentLog.meaning G.IntentLog.sound array.new }
    ensures made { Sound S.MemberStore.meaning G.IntentLog.meaning G.IntentLog.sound array.old → Tries L.Layout.arrangement call.Finish (counts_of tokens.old) (means S.MemberStore.meaning G.IntentLog.meaning array.old) result (counts_of tokens.new) (means S.MemberStore.meaning G.IntentLog.meaning array.new) }
    ensures grown { Grown 1 tokens.old tokens.new }
    ensures enough { Room 1 tokens.old → is_ok result ≡ true }
{
    tokens.permits.reserve(1)?;
    match tokens.tickets.pop() {
        Some(ticket) => match array.finish(ticket) {
            Ok((permit, counts)) => {
                tokens.permits.push_reserved(permit);
                Ok(Answer::Finish(Ok(counts)))
            }
            Err(FinishRefusal::Returned(state, ticket)) => {
                tokens.tickets.push_reserved(ticket);
                Ok(Answer::Finish(Err(ArrayRefusal::WrongState(state))))
            }
            Err(FinishRefusal::Taken(e)) => Ok(Answer::Finish(Err(e))),
        },
        None => Ok(Answer::NoToken),
    }
}

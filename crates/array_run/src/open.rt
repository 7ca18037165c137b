// The openings, which add a ticket or a permit.
ghost use Rattle.array_run.specs.Calls.{Tries};
ghost use Rattle.array_run.specs.declared.call.Call.TheVariants as call;
ghost use Rattle.std.specs.Prelude.{◌≡◌, true, is_ok};
ghost use Rattle.array.specs.Sound.{means, Sound};
ghost use Rattle.array_run.specs.TokenCounts.{Grown, Room, counts_of};

use crate::answer::Answer;
use crate::tokens::Tokens;
use array::array::Array;
use geometry::layout::Layout;
use intent_log::IntentLog;
use member_store::MemberStore;
use std::alloc::AllocError;

pub(super) fn open<S: MemberStore, G: IntentLog, L: Layout>(
    array: &mut Array<S, G, L>,
    tokens: &mut Tokens,
) -> Result<Answer, AllocError>
    ensures sound { Sound S.MemberStore.meaning G.IntentLog.meaning G.IntentLog.sound array.old → Sound S.MemberStore.meaning G.IntentLog.meaning G.IntentLog.sound array.new }
    ensures made { Sound S.MemberStore.meaning G.IntentLog.meaning G.IntentLog.sound array.old → Tries L.Layout.arrangement call.Open (counts_of tokens.old) (means S.MemberStore.meaning G.IntentLog.meaning array.old) result (counts_of tokens.new) (means S.MemberStore.meaning G.IntentLog.meaning array.new) }
    ensures grown { Grown 1 tokens.old tokens.new }
    ensures enough { Room 1 tokens.old → is_ok result ≡ true }
{
    tokens.tickets.reserve(1)?;
    match array.open() {
        Ok(ticket) => {
            tokens.tickets.push_reserved(ticket);
            Ok(Answer::Plain(Ok(())))
        }
        Err(e) => Ok(Answer::Plain(Err(e))),
    }
}

pub(super) fn open_short<S: MemberStore, G: IntentLog, L: Layout>(
    array: &mut Array<S, G, L>,
    tokens: &mut Tokens,
    absent: usize,
) -> Result<Answer, AllocError>
    ensures sound { Sound S.MemberStore.meaning G.IntentLog.meaning G.IntentLog.sound array.old → Sound S.MemberStore.meaning G.IntentLog.meaning G.IntentLog.sound array.new }
    ensures made { Sound S.MemberStore.meaning G.IntentLog.meaning G.IntentLog.sound array.old → Tries L.Layout.arrangement (call.OpenShort absent) (counts_of tokens.old) (means S.MemberStore.meaning G.IntentLog.meaning array.old) result (counts_of tokens.new) (means S.MemberStore.meaning G.IntentLog.meaning array.new) }
    ensures grown { Grown 1 tokens.old tokens.new }
    ensures enough { Room 1 tokens.old → is_ok result ≡ true }
{
    tokens.shorts.reserve(1)?;
    match array.open_short(absent) {
        Ok(permit) => {
            tokens.shorts.push_reserved(permit);
            Ok(Answer::Plain(Ok(())))
        }
        Err(e) => Ok(Answer::Plain(Err(e))),
    }
}

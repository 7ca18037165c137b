// A list of calls, made one after the other.
ghost use Rattle.std.specs.Prelude.{◌≡◌, ◌+◌, ◌≤◌, true, length, is_ok, vec_len, vec_capacity};
ghost use Rattle.array.specs.Sound.{means, Sound};
ghost use Rattle.array_run.specs.TokenCounts.{Grown, Room, counts_of};
ghost use Rattle.array_run.specs.Calls.{Tries, unbuffered, all_unbuffered, before_read};
ghost use Rattle.array_run.specs.Trace.{WellFormed, KeepsPromise};

use crate::answer::Answer;
use crate::call::Call;
use crate::give_up::give_up;
use crate::open::{open, open_short};
use crate::ready::{close, destage, flush, read, write};
use crate::resync::{finish, step};
use crate::short::read_short;
use crate::tokens::Tokens;
use array::array::Array;
use geometry::layout::Layout;
use intent_log::IntentLog;
use member_store::MemberStore;
use std::alloc::{AllocError, Global};

// Makes one call with the tokens at hand.
fn make<S: MemberStore, G: IntentLog, L: Layout>(
    heap: Global,
    array: &mut Array<S, G, L>,
    tokens: &mut Tokens,
    call: Call,
) -> Result<Answer, AllocError>
    ensures sound { Sound S.MemberStore.meaning G.IntentLog.meaning G.IntentLog.sound array.old → Sound S.MemberStore.meaning G.IntentLog.meaning G.IntentLog.sound array.new }
    ensures made { Sound S.MemberStore.meaning G.IntentLog.meaning G.IntentLog.sound array.old → Tries L.Layout.arrangement call.entry (counts_of tokens.old) (means S.MemberStore.meaning G.IntentLog.meaning array.old) result (counts_of tokens.new) (means S.MemberStore.meaning G.IntentLog.meaning array.new) }
    ensures grown { Grown 1 tokens.old tokens.new }
    ensures enough { unbuffered call.entry ≡ true → Room 1 tokens.old → is_ok result ≡ true }
{
    match call {
        Call::PowerOn => Ok(Answer::Plain(array.power_on())),
        Call::Format => Ok(Answer::Plain(array.format())),
        Call::Open => open(array, tokens),
        Call::OpenShort { absent } => open_short(array, tokens, absent),
        Call::Step => Ok(step(array, tokens)),
        Call::Finish => finish(array, tokens),
        Call::Write { block, bytes } => Ok(write(array, tokens, block, bytes)),
        Call::Read { block, length } => read(heap, array, tokens, block, length),
        Call::ReadShort { block, length } => read_short(heap, array, tokens, block, length),
        Call::Destage => Ok(destage(array, tokens)),
        Call::Flush => Ok(flush(array, tokens)),
        Call::Close => Ok(close(array, tokens)),
        Call::GiveUp(kind) => Ok(give_up(array, tokens, kind)),
    }
}

/// Makes the calls one after the other, and puts their answers behind those that are there. Where memory is wanting it
/// stops between two calls, and there are as many new answers as calls were made. Where there is room for answers and tokens,
/// only a read can stop it, whose buffer finds no memory.
pub fn run<S: MemberStore, G: IntentLog, L: Layout>(
    heap: Global,
    array: &mut Array<S, G, L>,
    tokens: &mut Tokens,
    calls: &[Call],
    answers: &mut Vec<Answer>,
) -> Result<(), AllocError>
    ensures enough { all_unbuffered calls.now ≡ true → Room (length calls.now) tokens.old → vec_len answers.old + length calls.now ≤ vec_capacity answers.old → is_ok result ≡ true }
    ensures reaches { Room (length calls.now) tokens.old → vec_len answers.old + length calls.now ≤ vec_capacity answers.old → vec_len answers.old + before_read calls.now ≤ vec_len answers.new }
    ensures well_formed { WellFormed S.MemberStore.meaning G.IntentLog.meaning G.IntentLog.sound array.old → WellFormed S.MemberStore.meaning G.IntentLog.meaning G.IntentLog.sound array.new }
    ensures promise { WellFormed S.MemberStore.meaning G.IntentLog.meaning G.IntentLog.sound array.old → KeepsPromise L.Layout.arrangement calls.now answers.old.items answers.new.items (counts_of tokens.old) (means S.MemberStore.meaning G.IntentLog.meaning array.old) result (counts_of tokens.new) (means S.MemberStore.meaning G.IntentLog.meaning array.new) }
{
    for call in calls {
        answers.reserve(1)?;
        let answer = make(heap, array, tokens, *call)?;
        answers.push_reserved(answer);
    }
    Ok(())
}

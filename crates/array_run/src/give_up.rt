// Give-up of tickets and permits.
ghost use Rattle.std.specs.Prelude.{◌≤◌, vec_len, vec_capacity};
ghost use Rattle.array_run.specs.Calls.{Made, GivesUpLast, AfterGiveUps};
ghost use Rattle.array_run.specs.declared.call.Call.TheVariants as call;
ghost use Rattle.array.specs.Sound.{means, Sound};
ghost use Rattle.array_run.specs.TokenCounts.{Grown, counts_of, total};

use crate::answer::Answer;
use crate::call::TokenKind;
use crate::tokens::Tokens;
use array::array::Array;
use array::tokens::Token;
use geometry::layout::Layout;
use intent_log::IntentLog;
use member_store::MemberStore;

// Hands in the last of these tokens, where there is one.
fn give_up_last<S: MemberStore, G: IntentLog, L: Layout, K>(
    array: &mut Array<S, G, L>,
    held: &mut Vec<Token<K>>,
) -> Answer
    ensures sound { Sound S.MemberStore.meaning G.IntentLog.meaning G.IntentLog.sound array.old → Sound S.MemberStore.meaning G.IntentLog.meaning G.IntentLog.sound array.new }
    ensures given { GivesUpLast (vec_len held.old) (means S.MemberStore.meaning G.IntentLog.meaning array.old) result (vec_len held.new) (means S.MemberStore.meaning G.IntentLog.meaning array.new) }
    ensures room { vec_capacity held.old ≤ vec_capacity held.new }
{
    match held.pop() {
        Some(last) => {
            array.give_up(last);
            Answer::GivenUp
        }
        None => Answer::NoToken,
    }
}

pub(super) fn give_up<S: MemberStore, G: IntentLog, L: Layout>(
    array: &mut Array<S, G, L>,
    tokens: &mut Tokens,
    kind: TokenKind,
) -> Answer
    ensures sound { Sound S.MemberStore.meaning G.IntentLog.meaning G.IntentLog.sound array.old → Sound S.MemberStore.meaning G.IntentLog.meaning G.IntentLog.sound array.new }
    ensures made { Sound S.MemberStore.meaning G.IntentLog.meaning G.IntentLog.sound array.old → Made L.Layout.arrangement (call.GiveUp kind) (counts_of tokens.old) (means S.MemberStore.meaning G.IntentLog.meaning array.old) result (counts_of tokens.new) (means S.MemberStore.meaning G.IntentLog.meaning array.new) }
    ensures grown { Grown 1 tokens.old tokens.new }
{
    match kind {
        TokenKind::Resync => give_up_last(array, &mut tokens.tickets),
        TokenKind::Ready => give_up_last(array, &mut tokens.permits),
        TokenKind::Short => give_up_last(array, &mut tokens.shorts),
    }
}

// Hands in these tokens.
fn give_up_held<S: MemberStore, G: IntentLog, L: Layout, K>(
    array: &mut Array<S, G, L>,
    mut held: Vec<Token<K>>,
)
    ensures sound { Sound S.MemberStore.meaning G.IntentLog.meaning G.IntentLog.sound array.old → Sound S.MemberStore.meaning G.IntentLog.meaning G.IntentLog.sound array.new }
    ensures given { AfterGiveUps (vec_len held) (means S.MemberStore.meaning G.IntentLog.meaning array.old) (means S.MemberStore.meaning G.IntentLog.meaning array.new) }
{
    while let Some(token) = held.pop() {
        array.give_up(token);
    }
    held.destroy_empty();
}

/// Hands in every ticket and permit: where there is one, the caches are emptied and the opening is left.
pub fn give_up_all<S: MemberStore, G: IntentLog, L: Layout>(
    array: &mut Array<S, G, L>,
    tokens: Tokens,
)
    ensures sound { Sound S.MemberStore.meaning G.IntentLog.meaning G.IntentLog.sound array.old → Sound S.MemberStore.meaning G.IntentLog.meaning G.IntentLog.sound array.new }
    ensures given { AfterGiveUps (total (counts_of tokens)) (means S.MemberStore.meaning G.IntentLog.meaning array.old) (means S.MemberStore.meaning G.IntentLog.meaning array.new) }
{
    let Tokens {
        tickets,
        permits,
        shorts,
    } = tokens;
    give_up_held(array, tickets);
    give_up_held(array, permits);
    give_up_held(array, shorts);
}

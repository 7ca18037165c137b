// Calls on a token that stays with the others.
ghost use Rattle.std.specs.Prelude.{◌≡◌, ◌<◌, length};
ghost use Rattle.array_run.specs.declared.answer.Answer.TheVariants.{NoToken};

use crate::answer::Answer;
use array::tokens::Token;

// Makes a call on the last of these tokens, where there is one.
pub(super) fn on_last<A, K, F: FnOnce(&mut A, &Token<K>) -> Answer>(
    array: &mut A,
    held: &[Token<K>],
    call: F,
) -> Answer
    requires { F.IsAlwaysCallable call }
    ensures none { length held.now ≡ 0 → (result ≡ NoToken) × (array.new ≡ array.old) }
    ensures called { 0 < length held.now → (a : _) × (token : _) × (b : _) × (a.now ≡ array.old) × (b.now ≡ array.new) × F.post call a token result b }
{
    match held.last() {
        Some(token) => call(array, token),
        None => Answer::NoToken,
    }
}

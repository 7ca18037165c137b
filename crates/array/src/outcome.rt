// What becomes of an array when work on its devices is cut short.
ghost use Rattle.std.specs.Prelude.{◌≡◌};
ghost use Rattle.array_work.specs.Outcomes.{state_after};

use array_model::refusal::ArrayRefusal;
use array_model::state::State;

// The outcome of work, handed on. Refused, the array falls; only a spent log leaves its state.
pub(super) fn or_fall<T>(
    state: &mut State,
    outcome: Result<T, ArrayRefusal>,
) -> Result<T, ArrayRefusal>
    ensures same { result ≡ outcome }
    ensures leaves { state.new ≡ state_after state.old result }
{
    match &outcome {
        Ok(_) | Err(ArrayRefusal::LogSpent) => {}
        Err(_) => *state = State::Fallen,
    }
    outcome
}

// Give-up of a ticket or permit, in any state.
ghost use Rattle.std.specs.Prelude.{◌≡◌};
ghost use Rattle.array_model.specs.Calls.{GivesUp, given_up};
ghost use Rattle.array.specs.Sound.{means, Sound};

use crate::array::Array;
use crate::tokens::Token;
use array_model::state::State;
use geometry::layout::Layout;
use intent_log::IntentLog;
use member_store::MemberStore;

// The state after a give-up: fallen stays fallen, any other leads to down.
fn state_given_up(state: State) -> State
    ensures { result ≡ given_up state }
{
    match state {
        State::Fallen => State::Fallen,
        State::Down | State::Resync(_) | State::Ready | State::Short(_) => State::Down,
    }
}

impl<S: MemberStore, G: IntentLog, L: Layout> Array<S, G, L> {
    /// Takes a ticket or permit back: empties the caches and leaves the opening.
    pub fn give_up<K>(&mut self, token: Token<K>)
        ensures sound { Sound S.MemberStore.meaning G.IntentLog.meaning G.IntentLog.sound self.old → Sound S.MemberStore.meaning G.IntentLog.meaning G.IntentLog.sound self.new }
        ensures does { GivesUp (means S.MemberStore.meaning G.IntentLog.meaning self.old) (means S.MemberStore.meaning G.IntentLog.meaning self.new) }
    {
        token.spend();
        self.caches.clear();
        self.state = state_given_up(self.state);
    }
}

// A new array.
ghost use Rattle.std.specs.Prelude.{◌≡◌};
ghost use Rattle.cache.specs.Contents.{empty as no_contents};
ghost use Rattle.array_model.specs.Meaning.{array as array_of};
ghost use Rattle.array_model.specs.declared.state.State.TheVariants.{Fallen};
ghost use Rattle.array.specs.Sound.{means, Sound};

use crate::array::Array;
use array_model::state::State;
use cache::caches::Caches;
use geometry::layout::Layout;
use intent_log::IntentLog;
use member_store::MemberStore;

impl<S: MemberStore, G: IntentLog, L: Layout> Array<S, G, L> {
    /// An array that is fallen, with empty caches; so it is sound.
    pub fn new(store: S, log: G, layout: L) -> Array<S, G, L>
        ensures means { means S.MemberStore.meaning G.IntentLog.meaning result ≡ array_of Fallen no_contents (S.MemberStore.meaning store) (G.IntentLog.meaning log) }
        ensures sound { Sound S.MemberStore.meaning G.IntentLog.meaning G.IntentLog.sound result }
    {
        Array {
            store,
            log,
            layout,
            caches: Caches::new(),
            state: State::Fallen,
        }
    }
}

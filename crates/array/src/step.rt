// One step of a resynchronization.
ghost use Rattle.std.specs.Prelude.{◌≡◌, ◌<◌, ◌≤◌, not};
ghost use Rattle.geometry.specs.Counts.{members_of, blocks_of};
ghost use Rattle.geometry.specs.Places.{stripes as stripe_count};
ghost use Rattle.array_model.specs.Meaning.{geometry};
ghost use Rattle.array_model.specs.Calls.{Steps, Takes, taken as taken_of};
ghost use Rattle.array.specs.Sound.{means, LogOn, Sized, Bounded, Sound};

use crate::array::Array;
use crate::next::next_stripe;
use crate::outcome::or_fall;
use crate::tokens::ResyncTicket;
use array_model::answer::TakenStripe;
use array_model::refusal::ArrayRefusal;
use array_model::state::{Progress, State};
use array_work::resync::take_stripe;
use geometry::array_geometry::Geometry;
use geometry::layout::Layout;
use geometry::shape::Shape;
use intent_log::IntentLog;
use member_store::MemberStore;

// How far a resynchronization has come once this stripe is taken. The counts of a sound array stay far below the most
// that a number holds.
fn taken(progress: Progress, stripe: usize, mended: bool) -> Progress
    requires { stripe < 16777216 }
    ensures { Bounded progress → result ≡ taken_of progress stripe (not mended) }
{
    Progress {
        next: stripe + 1,
        read: progress.read.saturating_add(1),
        mended: progress.mended.saturating_add(usize::from(mended)),
    }
}

impl<S: MemberStore, G: IntentLog, L: Layout> Array<S, G, L> {
    // Takes a stripe: reads it, and stores its parity where that was wrong. Cut short: fallen.
    fn take(
        &mut self,
        shape: Shape,
        progress: Progress,
        stripe: usize,
    ) -> Result<Option<TakenStripe>, ArrayRefusal>
        requires { stripe < stripe_count (blocks_of shape) }
        ensures sound { LogOn (G.IntentLog.sound self.old.log) (G.IntentLog.meaning self.old.log) → Sized (S.MemberStore.meaning self.old.store) → Bounded progress → progress.next ≤ stripe → Sound S.MemberStore.meaning G.IntentLog.meaning G.IntentLog.sound self.new }
        ensures does { members_of shape ≡ (S.MemberStore.meaning self.old.store).members → blocks_of shape ≡ (S.MemberStore.meaning self.old.store).blocks → Bounded progress → Takes (geometry L.Layout.arrangement (means S.MemberStore.meaning G.IntentLog.meaning self.old)) progress stripe (means S.MemberStore.meaning G.IntentLog.meaning self.old) result (means S.MemberStore.meaning G.IntentLog.meaning self.new) }
    {
        let geometry = Geometry {
            layout: &self.layout,
            shape,
        };
        let outcome = take_stripe(&mut self.store, &geometry, stripe);
        let mended = or_fall(&mut self.state, outcome)?;
        self.state = State::Resync(taken(progress, stripe, mended));
        Ok(Some(TakenStripe { stripe, mended }))
    }

    /// Takes the next named stripe of the array that is not yet taken, and tells it, or that none is left.
    pub fn step(&mut self, _ticket: &ResyncTicket) -> Result<Option<TakenStripe>, ArrayRefusal>
        ensures sound { Sound S.MemberStore.meaning G.IntentLog.meaning G.IntentLog.sound self.old → Sound S.MemberStore.meaning G.IntentLog.meaning G.IntentLog.sound self.new }
        ensures does { Sound S.MemberStore.meaning G.IntentLog.meaning G.IntentLog.sound self.old → Steps (geometry L.Layout.arrangement (means S.MemberStore.meaning G.IntentLog.meaning self.old)) (means S.MemberStore.meaning G.IntentLog.meaning self.old) result (means S.MemberStore.meaning G.IntentLog.meaning self.new) }
    {
        match self.state {
            State::Resync(progress) => {
                let (shape, next) = next_stripe(&self.store, &self.log, progress.next)?;
                match next {
                    Some(stripe) => self.take(shape, progress, stripe),
                    None => Ok(None),
                }
            }
            State::Fallen | State::Down | State::Ready | State::Short(_) => Err(
                ArrayRefusal::WrongState(self.state),
            ),
        }
    }
}

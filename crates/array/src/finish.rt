// The end of a resynchronization.
ghost use Rattle.std.specs.Prelude.{◌≡◌};
ghost use Rattle.array_model.specs.Meaning.{geometry};
ghost use Rattle.cache.specs.Meaning.{contents};
ghost use Rattle.array_model.specs.Calls.{Finishes, FinishesFrom, finish_actions, totals};
ghost use Rattle.array_model.specs.Work.{Performs};
ghost use Rattle.array_model.specs.declared.state.State.TheVariants.{Ready};
ghost use Rattle.array.specs.Sound.{means, LogOn, Sized, Sound};
ghost use Rattle.array.specs.Tickets.{counted, TicketBack};

use crate::array::Array;
use crate::next::next_stripe;
use crate::outcome::or_fall;
use crate::refusal::FinishRefusal;
use crate::tokens::{ReadyPermit, ResyncTicket};
use array_model::answer::ResyncCounts;
use array_model::refusal::ArrayRefusal;
use array_model::state::{Progress, State};
use array_work::finish::finish_work;
use geometry::layout::Layout;
use intent_log::IntentLog;
use member_store::MemberStore;

impl<S: MemberStore, G: IntentLog, L: Layout> Array<S, G, L> {
    // Bars the members and clears the log. Cut short: fallen.
    fn settle(&mut self, progress: Progress) -> Result<ResyncCounts, ArrayRefusal>
        ensures sound { LogOn (G.IntentLog.sound self.old.log) (G.IntentLog.meaning self.old.log) → Sized (S.MemberStore.meaning self.old.store) → Sound S.MemberStore.meaning G.IntentLog.meaning G.IntentLog.sound self.new }
        ensures does { G.IntentLog.sound self.old.log → Performs finish_actions (totals progress) Ready (contents self.old.caches) (means S.MemberStore.meaning G.IntentLog.meaning self.old) result (means S.MemberStore.meaning G.IntentLog.meaning self.new) }
    {
        let outcome = finish_work(&mut self.store, &mut self.log);
        or_fall(&mut self.state, outcome)?;
        self.state = State::Ready;
        Ok(ResyncCounts {
            read: progress.read,
            mended: progress.mended,
        })
    }

    // A finish, once the state allows it: refused where a named stripe is left.
    fn finish_resync(&mut self, progress: Progress) -> Result<ResyncCounts, ArrayRefusal>
        ensures sound { LogOn (G.IntentLog.sound self.old.log) (G.IntentLog.meaning self.old.log) → Sized (S.MemberStore.meaning self.old.store) → Sound S.MemberStore.meaning G.IntentLog.meaning G.IntentLog.sound self.new }
        ensures does { LogOn (G.IntentLog.sound self.old.log) (G.IntentLog.meaning self.old.log) → Sized (S.MemberStore.meaning self.old.store) → FinishesFrom (geometry L.Layout.arrangement (means S.MemberStore.meaning G.IntentLog.meaning self.old)) progress (means S.MemberStore.meaning G.IntentLog.meaning self.old) result (means S.MemberStore.meaning G.IntentLog.meaning self.new) }
    {
        let (_, left) = next_stripe(&self.store, &self.log, progress.next)?;
        match left {
            Some(stripe) => {
                self.state = State::Down;
                Err(ArrayRefusal::StripeLeft(stripe))
            }
            None => self.settle(progress),
        }
    }

    /// Takes the ticket, and gives a ready permit with the counts of stripes read and mended. Where the state does not
    /// allow it, the ticket comes back.
    pub fn finish(
        &mut self,
        ticket: ResyncTicket,
    ) -> Result<(ReadyPermit, ResyncCounts), FinishRefusal>
        ensures sound { Sound S.MemberStore.meaning G.IntentLog.meaning G.IntentLog.sound self.old → Sound S.MemberStore.meaning G.IntentLog.meaning G.IntentLog.sound self.new }
        ensures does { Sound S.MemberStore.meaning G.IntentLog.meaning G.IntentLog.sound self.old → Finishes (geometry L.Layout.arrangement (means S.MemberStore.meaning G.IntentLog.meaning self.old)) (means S.MemberStore.meaning G.IntentLog.meaning self.old) (counted result) (means S.MemberStore.meaning G.IntentLog.meaning self.new) }
        ensures back { TicketBack self.old.state ticket result }
    {
        match self.state {
            State::Resync(progress) => {
                ticket.spend();
                let counts = self.finish_resync(progress).map_err(FinishRefusal::Taken)?;
                Ok((ReadyPermit::new(), counts))
            }
            State::Fallen | State::Down | State::Ready | State::Short(_) => Err(
                FinishRefusal::Returned(self.state, ticket),
            ),
        }
    }
}

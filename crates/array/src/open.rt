// The openings: with every member, and without one of them.
ghost use Rattle.std.specs.Prelude.{◌≡◌, ℕ, OnOk};
ghost use Rattle.member_store.specs.Meaning.{Meaning as StoreMeaning};
ghost use Rattle.cache.specs.Contents.{Contents};
ghost use Rattle.array_model.specs.Meaning.{Arrange, array as array_of, geometry, geometry_on};
ghost use Rattle.array_model.specs.Checks.{record_check, open_checks, open_short_checks};
ghost use Rattle.array_model.specs.Calls.{begun, Opens, OpensShort};
ghost use Rattle.array_model.specs.declared.state.State.{State as StateOf};
ghost use Rattle.array.specs.Sound.{means, LogOn, Sized, Sound, plain, verdict};

use crate::array::Array;
use crate::checks::shape_of;
use crate::tokens::{ResyncTicket, ShortPermit};
use array_model::refusal::ArrayRefusal;
use array_model::state::{Progress, State};
use geometry::layout::Layout;
use intent_log::IntentLog;
use member_store::MemberStore;

// A resynchronization that begins.
const NOTHING_TAKEN: Progress = Progress {
    next: 0,
    read: 0,
    mended: 0,
};

// Does a record stand?
fn check_record<G: IntentLog>(log: &G) -> Result<(), ArrayRefusal>
    ensures { (q : StateOf) (c : Contents) (m : StoreMeaning) → LogOn (G.IntentLog.sound log.now) (G.IntentLog.meaning log.now) → result ≡ verdict (record_check (array_of q c m (G.IntentLog.meaning log.now))) }
{
    if log.stands()? {
        return Ok(());
    }
    Err(ArrayRefusal::NoRecord)
}

// The checks of an opening, after that of the state.
fn check_open<S: MemberStore, G: IntentLog>(store: &S, log: &G) -> Result<(), ArrayRefusal>
    ensures sized { OnOk result (Sized (S.MemberStore.meaning store.now)) }
    ensures checks { (arrange : Arrange) (q : StateOf) (c : Contents) → LogOn (G.IntentLog.sound log.now) (G.IntentLog.meaning log.now) → result ≡ verdict (open_checks (geometry_on arrange (S.MemberStore.meaning store.now)) (array_of q c (S.MemberStore.meaning store.now) (G.IntentLog.meaning log.now))) }
{
    shape_of(store)?;
    check_record(log)
}

// The checks of an opening without one member, after that of the state.
fn check_open_short<S: MemberStore, G: IntentLog>(
    store: &S,
    log: &G,
    absent: usize,
) -> Result<(), ArrayRefusal>
    ensures sized { OnOk result (Sized (S.MemberStore.meaning store.now)) }
    ensures checks { (arrange : Arrange) (q : StateOf) (c : Contents) → LogOn (G.IntentLog.sound log.now) (G.IntentLog.meaning log.now) → result ≡ verdict (open_short_checks (geometry_on arrange (S.MemberStore.meaning store.now)) absent (array_of q c (S.MemberStore.meaning store.now) (G.IntentLog.meaning log.now))) }
{
    shape_of(store)?;
    if absent >= store.members() {
        return Err(ArrayRefusal::NoMember(absent));
    }
    check_record(log)
}

impl<S: MemberStore, G: IntentLog, L: Layout> Array<S, G, L> {
    /// Begins a resynchronization, in which no stripe is taken yet, and gives its ticket.
    pub fn open(&mut self) -> Result<ResyncTicket, ArrayRefusal>
        ensures sound { Sound S.MemberStore.meaning G.IntentLog.meaning G.IntentLog.sound self.old → Sound S.MemberStore.meaning G.IntentLog.meaning G.IntentLog.sound self.new }
        ensures does { Sound S.MemberStore.meaning G.IntentLog.meaning G.IntentLog.sound self.old → Opens (geometry L.Layout.arrangement (means S.MemberStore.meaning G.IntentLog.meaning self.old)) (means S.MemberStore.meaning G.IntentLog.meaning self.old) (plain result) (means S.MemberStore.meaning G.IntentLog.meaning self.new) }
    {
        match self.state {
            State::Down => {
                check_open(&self.store, &self.log)?;
                self.state = State::Resync(NOTHING_TAKEN);
                Ok(ResyncTicket::new())
            }
            State::Fallen | State::Resync(_) | State::Ready | State::Short(_) => Err(
                ArrayRefusal::WrongState(self.state),
            ),
        }
    }

    /// Opens without one member, only to read, and gives the permit.
    pub fn open_short(&mut self, absent: usize) -> Result<ShortPermit, ArrayRefusal>
        ensures sound { Sound S.MemberStore.meaning G.IntentLog.meaning G.IntentLog.sound self.old → Sound S.MemberStore.meaning G.IntentLog.meaning G.IntentLog.sound self.new }
        ensures does { Sound S.MemberStore.meaning G.IntentLog.meaning G.IntentLog.sound self.old → OpensShort (geometry L.Layout.arrangement (means S.MemberStore.meaning G.IntentLog.meaning self.old)) absent (means S.MemberStore.meaning G.IntentLog.meaning self.old) (plain result) (means S.MemberStore.meaning G.IntentLog.meaning self.new) }
    {
        match self.state {
            State::Down => {
                check_open_short(&self.store, &self.log, absent)?;
                self.state = State::Short(absent);
                Ok(ShortPermit::new())
            }
            State::Fallen | State::Resync(_) | State::Ready | State::Short(_) => Err(
                ArrayRefusal::WrongState(self.state),
            ),
        }
    }
}

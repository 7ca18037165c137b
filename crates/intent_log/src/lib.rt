//! Intent logs: the interface, what its calls mean, and why they are refused.
#![tactic(auto)]

ghost use Rattle.std.specs.Prelude.{◌≡◌, ℕ, true, false, ◌&&◌, List, is_some, None, Result as Answer, OnOk};
ghost use Rattle.intent_log.specs.declared.refusal.LogRefusal.{LogRefusal as Cause};
ghost use Rattle.intent_log.specs.Meaning.{Meaning, Standing, MayStand, listed};
ghost use Rattle.intent_log.specs.Refusals.{number as number_of, layer as layer_of, place as place_of};
ghost use Rattle.intent_log.specs.Checks.{Powered, TakesList};
ghost use Rattle.intent_log.specs.Calls.{Answers, FindsNext, Marks, Freshens, Clears, Blanks, PowersOn};

pub mod refusal;
pub mod state;

use block_address::Address;
use member_store::MemberStore;
use refusal::{Layer, LogRefusal};
use state::LogState;
use stripe_set::is_rising;

/// The most stripes in a list that is marked.
pub const LONGEST_LIST: usize = 32;

impl LogRefusal {
    /// The number by which users know the cause.
    pub fn number(&self) -> u8
        ensures { result ≡ number_of self.now }
    {
        match self {
            LogRefusal::Store(refusal) => refusal.number(),
            LogRefusal::Off => 1,
            LogRefusal::TooSmall(_, _) => 2,
            LogRefusal::NoRecord => 4,
            LogRefusal::WrongList(_) => 12,
            LogRefusal::Spent => 11,
            LogRefusal::DoesNotFit(_) => 13,
        }
    }

    /// The part of the box that refused.
    pub fn layer(&self) -> Layer
        ensures { result ≡ layer_of self.now }
    {
        match self {
            LogRefusal::Store(_) => Layer::LogStore,
            LogRefusal::Off
            | LogRefusal::TooSmall(_, _)
            | LogRefusal::NoRecord
            | LogRefusal::WrongList(_)
            | LogRefusal::Spent
            | LogRefusal::DoesNotFit(_) => Layer::Log,
        }
    }

    /// Member and block of the device call in which power was missing, if there was one.
    pub fn place(&self) -> Option<Address>
        ensures { result ≡ place_of self.now }
    {
        match self {
            LogRefusal::Store(refusal) => refusal.place(),
            LogRefusal::Off
            | LogRefusal::TooSmall(_, _)
            | LogRefusal::NoRecord
            | LogRefusal::WrongList(_)
            | LogRefusal::Spent
            | LogRefusal::DoesNotFit(_) => None,
        }
    }
}

/// Is this a list of 1 to 32 rising stripe numbers?
pub fn is_list(list: &[u32]) -> bool
    ensures { result ≡ listed list.now }
{
    (1..=LONGEST_LIST).contains(&list.len()) && is_rising(list)
}

impl<S: MemberStore, R> LogState<S, R> {
    /// What a log on a store keeps until its first power-on.
    pub fn new(store: S) -> LogState<S, R>
        ensures { (result.store ≡ store) × (result.awake ≡ false) × (result.standing ≡ None) }
    {
        LogState {
            store,
            awake: false,
            standing: None,
        }
    }

    /// Refuses while the log is off.
    pub fn check_power(&self) -> Result<(), LogRefusal>
        ensures { Powered (self.now.awake && (S.MemberStore.meaning self.now.store).on) result }
    {
        if self.awake && self.store.powered() {
            Ok(())
        } else {
            Err(LogRefusal::Off)
        }
    }

    /// The checks that a log makes before it takes a list: power, a record, the list itself.
    pub fn check_list(&self, list: &[u32]) -> Result<(), LogRefusal>
        ensures { TakesList (self.now.awake && (S.MemberStore.meaning self.now.store).on) (is_some self.now.standing) list.now result }
    {
        self.check_power()?;
        if self.standing.is_none() {
            return Err(LogRefusal::NoRecord);
        }
        if !is_list(list) {
            return Err(LogRefusal::WrongList(list.len()));
        }
        Ok(())
    }
}

/// A log of the stripes that may be written to: it names them before they are, so that a resync finds them after a cut.
pub trait IntentLog {
    ghost meaning: { Self → Meaning };

    /// What is kept in memory agrees with what the log lies on. It holds while off; power-on makes it true and every call keeps it.
    ghost sound: { Self → Type 0 };

    /// What a kind says of its own calls beyond the meaning, by the log before and after and the answer.
    ghost marking: { Self → List ℕ → Answer (Unit {0}) Cause → Self → Type 0 } = { λ _ _ _ _. Unit {0} };

    ghost freshening: { Self → List ℕ → Answer (Unit {0}) Cause → Self → Type 0 } = { λ _ _ _ _. Unit {0} };

    ghost clearing: { Self → Answer (Unit {0}) Cause → Self → Type 0 } = { λ _ _ _. Unit {0} };

    ghost blanking: { Self → Answer (Unit {0}) Cause → Self → Type 0 } = { λ _ _ _. Unit {0} };

    ghost powering: { Self → Answer (Unit {0}) Cause → Self → Type 0 } = { λ _ _ _. Unit {0} };

    /// Is this stripe named?
    fn is_named(&self, stripe: u32) -> Result<bool, LogRefusal>
        ensures { sound self.now → Answers (meaning self.now) ((meaning self.now).standing.names stripe) result };

    /// The next named stripe at or above a number, where there is one.
    fn next_named(&self, at: u32) -> Result<Option<u32>, LogRefusal>
        ensures { sound self.now → FindsNext (meaning self.now) at result };

    /// Does a record stand?
    fn stands(&self) -> Result<bool, LogRefusal>
        ensures { sound self.now → Answers (meaning self.now) (meaning self.now).standing.stands result };

    /// Does this list fit?
    fn fits(&self, list: &[u32]) -> Result<bool, LogRefusal>
        ensures { sound self.now → Answers (meaning self.now) ((meaning self.now).fits list.now) result };

    /// Is the log spent?
    fn spent(&self) -> Result<bool, LogRefusal>
        ensures { sound self.now → Answers (meaning self.now) (meaning self.now).spent result };

    /// Adds a list to what is named.
    fn mark(&mut self, list: &[u32]) -> Result<(), LogRefusal>
        ensures sound { sound self.old → sound self.new }
        ensures means { sound self.old → Marks list.now (meaning self.old) result (meaning self.new) }
        ensures own { sound self.old → marking self.old list.now result self.new };

    /// Names at least a list; the rest may be dropped.
    fn fresh(&mut self, list: &[u32]) -> Result<(), LogRefusal>
        ensures sound { sound self.old → sound self.new }
        ensures means { sound self.old → Freshens list.now (meaning self.old) result (meaning self.new) }
        ensures own { sound self.old → freshening self.old list.now result self.new };

    /// Names nothing; a log without a record has its first one then.
    fn clear(&mut self) -> Result<(), LogRefusal>
        ensures sound { sound self.old → sound self.new }
        ensures means { sound self.old → Clears (meaning self.old) result (meaning self.new) }
        ensures own { sound self.old → clearing self.old result self.new };

    /// Leaves no record.
    fn blank(&mut self) -> Result<(), LogRefusal>
        ensures sound { sound self.old → sound self.new }
        ensures means { sound self.old → Blanks (meaning self.old) result (meaning self.new) }
        ensures own { sound self.old → blanking self.old result self.new };

    /// Turns power on and finds what stands.
    fn power_on(&mut self) -> Result<(), LogRefusal>
        ensures sound { OnOk result (sound self.new) }
        ensures means { PowersOn (meaning self.old) result (meaning self.new) }
        ensures own { powering self.old result self.new };

    ghost rests: { (l : Self) → (meaning l).on ≡ false → sound l };

    ghost single: { (l : Self) → sound l → (meaning l).on ≡ true → (c : Standing) → MayStand (meaning l) c → c ≡ (meaning l).standing };

    ghost lists: { (l : Self) (w : List ℕ) → (meaning l).fits w ≡ true → listed w ≡ true };
}

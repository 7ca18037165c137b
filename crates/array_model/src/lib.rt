//! The model of the array: its states, refusals and answers, what each call does to what an array means, the book of
//! accepted writes, runs over any list of calls, and the crash promise.
#![tactic(auto)]

ghost use Rattle.std.specs.Prelude.{◌≡◌};
ghost use Rattle.array_model.specs.Promise.{CrashPromise};
ghost use Rattle.array_model.specs.Witness.{RunsExist};
ghost use Rattle.array_model.specs.Refusals.{number as number_of, layer as layer_of, detail as detail_of};

pub mod answer;
pub mod refusal;
pub mod state;
mod text;

use intent_log::refusal::LogRefusal;
use refusal::{ArrayRefusal, BoxLayer, Detail};

/// The crash promise, proved: along every run of calls over every layout, member store and log, wherever power goes,
/// a finish leaves right parity everywhere and stored to named stripes only, each block holds its base or bytes on its
/// list by the book, and so does what is read without one member.
pub fn crash_promise()
    ensures { CrashPromise }
{}

/// Runs exist, proved: on every array within the limits one formats, opens, finishes, writes a block and closes, and the
/// block then holds what was written.
pub fn runs_exist()
    ensures { RunsExist }
{}

impl ArrayRefusal {
    /// The number by which users know the cause.
    pub fn number(&self) -> u8
        ensures { result ≡ number_of self.now }
    {
        match self {
            ArrayRefusal::Members(e) => e.number(),
            ArrayRefusal::Log(e) => e.number(),
            ArrayRefusal::Limits(_, _) => 2,
            ArrayRefusal::WrongState(_) => 3,
            ArrayRefusal::NoRecord => 4,
            ArrayRefusal::NoSlot(_) => 5,
            ArrayRefusal::StripeLeft(_) => 6,
            ArrayRefusal::NoBlock(_) => 7,
            ArrayRefusal::WrongLength(_) => 8,
            ArrayRefusal::StripeNamed(_) => 9,
            ArrayRefusal::NoMember(_) => 10,
            ArrayRefusal::LogSpent => 11,
        }
    }

    /// The part of the box that refused.
    pub fn layer(&self) -> BoxLayer
        ensures { result ≡ layer_of self.now }
    {
        match self {
            ArrayRefusal::Members(_) => BoxLayer::Members,
            ArrayRefusal::Log(e) => e.layer().into(),
            _ => BoxLayer::Array,
        }
    }

    /// What the refusal tells besides its number and its layer, if anything.
    pub fn detail(&self) -> Option<Detail>
        ensures { result ≡ detail_of self.now }
    {
        match self {
            ArrayRefusal::Members(e) | ArrayRefusal::Log(LogRefusal::Store(e)) => {
                e.place().map(Detail::At)
            }
            ArrayRefusal::Limits(members, blocks)
            | ArrayRefusal::Log(LogRefusal::TooSmall(members, blocks)) => {
                Some(Detail::Counts(*members, *blocks))
            }
            ArrayRefusal::WrongState(state) => Some(Detail::In(*state)),
            ArrayRefusal::NoSlot(number)
            | ArrayRefusal::StripeLeft(number)
            | ArrayRefusal::NoBlock(number)
            | ArrayRefusal::WrongLength(number)
            | ArrayRefusal::StripeNamed(number)
            | ArrayRefusal::NoMember(number)
            | ArrayRefusal::Log(LogRefusal::WrongList(number) | LogRefusal::DoesNotFit(number)) => {
                Some(Detail::Number(*number))
            }
            ArrayRefusal::NoRecord
            | ArrayRefusal::LogSpent
            | ArrayRefusal::Log(LogRefusal::Off | LogRefusal::NoRecord | LogRefusal::Spent) => None,
        }
    }
}

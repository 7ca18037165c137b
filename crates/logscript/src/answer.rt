// The answers to commands.
use super::command::Command;
use flag_log::flag::{FlagLog, FlagRecord};
use intent_log::IntentLog;
use intent_log::refusal::{Layer, LogRefusal};
use member_store::MemberStore;
use member_store::refusal::Refusal;
use record::form::Record;
use ring_log::ring::RingLog;
use std::fmt;

/// What an accepted command is answered with.
#[derive(Clone, Copy)]
pub enum Answer {
    Done,
    Truth(bool),
    Next(Option<u32>),
    Ring(Option<Record>),
    Flag(Option<FlagRecord>),
}

/// Why a command was refused.
#[derive(Clone, Copy)]
pub struct Refused(LogRefusal);

impl From<LogRefusal> for Refused {
    fn from(refusal: LogRefusal) -> Refused {
        Refused(refusal)
    }
}

/// A log that tells its record.
pub trait Shows {
    fn show(&self) -> Result<Answer, LogRefusal>;
}

impl<S: MemberStore> Shows for RingLog<S> {
    fn show(&self) -> Result<Answer, LogRefusal> {
        self.standing_record().map(Answer::Ring)
    }
}

impl<S: MemberStore> Shows for FlagLog<S> {
    fn show(&self) -> Result<Answer, LogRefusal> {
        self.standing_record().map(Answer::Flag)
    }
}

/// Makes the call. A cut is done at the next power-on, by the fuse.
pub fn perform<L: IntentLog + Shows>(log: &mut L, command: &Command) -> Result<Answer, Refused> {
    Ok(match command {
        Command::Cut(_) => Answer::Done,
        Command::PowerOn => log.power_on().map(|()| Answer::Done)?,
        Command::Mark(list) => log.mark(list.as_slice()).map(|()| Answer::Done)?,
        Command::Fresh(list) => log.fresh(list.as_slice()).map(|()| Answer::Done)?,
        Command::Fits(list) => Answer::Truth(log.fits(list.as_slice())?),
        Command::Clear => log.clear().map(|()| Answer::Done)?,
        Command::Blank => log.blank().map(|()| Answer::Done)?,
        Command::IsNamed(stripe) => Answer::Truth(log.is_named(*stripe)?),
        Command::NextNamed(at) => Answer::Next(log.next_named(*at)?),
        Command::Stands => Answer::Truth(log.stands()?),
        Command::Spent => Answer::Truth(log.spent()?),
        Command::Show => log.show()?,
    })
}

impl fmt::Display for Answer {
    fn fmt<W: fmt::Write>(&self, f: &mut fmt::Formatter<W>) -> fmt::Result {
        match *self {
            Answer::Done => f.write_str("ok"),
            Answer::Truth(true) => f.write_str("yes"),
            Answer::Truth(false) => f.write_str("no"),
            Answer::Next(Some(stripe)) => write!(f, "{stripe}"),
            Answer::Next(None) => f.write_str("none"),
            Answer::Ring(Some(record)) => write!(f, "{record}"),
            Answer::Flag(Some(record)) => write!(f, "{record}"),
            Answer::Ring(None) | Answer::Flag(None) => f.write_str("no record"),
        }
    }
}

impl fmt::Display for Refused {
    fn fmt<W: fmt::Write>(&self, f: &mut fmt::Formatter<W>) -> fmt::Result {
        let number = self.0.number();
        let layer = match self.0.layer() {
            Layer::LogStore => "log-store",
            Layer::Log => "log",
        };
        write!(f, "refused {number} {layer}")?;
        if let Some(place) = self.0.place() {
            return write!(f, " {} {}", place.member, place.block);
        }
        match self.0 {
            LogRefusal::Store(
                Refusal::NoMember(n) | Refusal::NoBlock(n) | Refusal::WrongLength(n),
            ) => write!(f, " {n}"),
            LogRefusal::TooSmall(members, blocks) => write!(f, " {members} {blocks}"),
            LogRefusal::WrongList(len) | LogRefusal::DoesNotFit(len) => write!(f, " {len}"),
            _ => Ok(()),
        }
    }
}

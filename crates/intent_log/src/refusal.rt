// Why a log refuses a call.
ghost use Rattle.std.specs.Prelude.{◌≡◌};
ghost use Rattle.intent_log.specs.declared.refusal.LogRefusal.TheVariants.{Store as FromStore};

use member_store::refusal::Refusal;

/// The part of a box that refused.
#[derive(Clone, Copy, PartialEq, Eq, Debug)]
pub enum Layer {
    /// The member store that the log lies on.
    LogStore,
    /// The log itself.
    Log,
}

/// Why a call of a log was refused.
#[derive(Clone, Copy, PartialEq, Eq, Debug)]
pub enum LogRefusal {
    /// The log's store refused a device call.
    Store(Refusal),
    /// The log is off.
    Off,
    /// The log's store is too small: its counts of members and blocks.
    TooSmall(usize, usize),
    /// No record stands.
    NoRecord,
    /// The list, of this length, is not 1 to 32 rising stripe numbers.
    WrongList(usize),
    /// The log is spent.
    Spent,
    /// The list, of this length, does not fit.
    DoesNotFit(usize),
}

impl From<Refusal> for LogRefusal {
    ghost from_gives = { λ refusal e. e ≡ FromStore refusal };

    fn from(refusal: Refusal) -> LogRefusal {
        LogRefusal::Store(refusal)
    }
}

// What the calls of a list answer.
use array_model::answer::{Destage, FlushCounts, ResyncCounts, TakenStripe};
use array_model::refusal::ArrayRefusal;

/// The answer of one call.
#[derive(Drop)]
pub enum Answer {
    /// There is no ticket or permit of the kind that the call takes: it was not made.
    NoToken,
    /// Power-on, format, the openings, write and close tell nothing more.
    Plain(Result<(), ArrayRefusal>),
    /// The stripe that was taken; none where no named stripe of the array is left.
    Step(Result<Option<TakenStripe>, ArrayRefusal>),
    Finish(Result<ResyncCounts, ArrayRefusal>),
    /// The buffer of a read.
    Read(Result<Vec<u8>, ArrayRefusal>),
    Destage(Result<Destage, ArrayRefusal>),
    Flush(Result<FlushCounts, ArrayRefusal>),
    GivenUp,
}

// Tickets and permits: each must be handed in. Only the array makes them, and only it can spend one.
ghost use Rattle.std.specs.Prelude.{◌≡◌};

pub use crate::refusal::FinishRefusal;
use std::marker::PhantomData;

/// A ticket or permit of one kind. It can be dropped only once the array has spent it.
pub struct Token<K> {
    number: usize,
    kind: PhantomData<K>,
}

/// The kind of a ticket to resynchronize.
pub struct Resyncing;

/// The kind of a permit to write and read.
pub struct Writing;

/// The kind of a permit to read without one member.
pub struct ReadingShort;

/// What an opening gives: it allows to resynchronize. A finish takes it, or a give-up.
pub type ResyncTicket = Token<Resyncing>;

/// What a finish gives: it allows to write and read. A close takes it, or a give-up.
pub type ReadyPermit = Token<Writing>;

/// What an opening without one member gives: it allows to read. A give-up takes it.
pub type ShortPermit = Token<ReadingShort>;

impl<K> Drop for Token<K> {
    fn drop(self)
        requires { self.number ≡ 0 }
    {
        let Token { number: _, kind: _ } = self;
    }
}

impl<K> Token<K> {
    pub(crate) fn new() -> Token<K>
        ensures { result.number ≡ 1 }
    {
        Token {
            number: 1,
            kind: PhantomData,
        }
    }

    pub(crate) fn spend(mut self) {
        self.number = 0;
    }
}

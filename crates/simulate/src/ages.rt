// The kinds of the tickets and permits that a scenario holds, by age. Within a kind the array's tokens have the same order.
ghost use Rattle.simulate.specs.Ages.{NewestOf, Forgets};

use array_model::refusal::ArrayRefusal;
use array_run::answer::Answer;
use array_run::call::{Call, TokenKind};
use std::alloc::{AllocError, Global};

#[derive(Drop)]
pub struct Ages {
    // the oldest first
    kinds: Vec<TokenKind>,
}

// The token that a call has taken, by what it answered.
fn taken(call: &Call, answer: &Answer) -> Option<TokenKind> {
    let kind = match call {
        Call::Finish => TokenKind::Resync,
        Call::Close => TokenKind::Ready,
        Call::GiveUp(kind) => *kind,
        _ => return None,
    };
    match answer {
        // Where the state does not allow the call, a finish or close leaves the token.
        Answer::NoToken
        | Answer::Finish(Err(ArrayRefusal::WrongState(_)))
        | Answer::Plain(Err(ArrayRefusal::WrongState(_))) => None,
        _ => Some(kind),
    }
}

// The token that a call has given.
fn given(call: &Call, answer: &Answer) -> Option<TokenKind> {
    match (call, answer) {
        (Call::Open, Answer::Plain(Ok(()))) => Some(TokenKind::Resync),
        (Call::OpenShort { .. }, Answer::Plain(Ok(()))) => Some(TokenKind::Short),
        (Call::Finish, Answer::Finish(Ok(_))) => Some(TokenKind::Ready),
        _ => None,
    }
}

impl Ages {
    pub fn new(heap: Global) -> Ages {
        Ages {
            kinds: Vec::new(heap),
        }
    }

    /// The kind of the newest of all.
    pub fn newest(&self) -> Option<TokenKind> {
        self.kinds.last().copied()
    }

    // The place of the newest of a kind.
    fn place(&self, kind: TokenKind) -> Option<usize>
        ensures { NewestOf self.now.kinds.items kind result }
    {
        self.kinds.iter().rposition(|held| *held == kind)
    }

    fn forget(&mut self, kind: TokenKind)
        ensures { Forgets self.old.kinds.items kind self.new.kinds.items }
    {
        if let Some(i) = self.place(kind) {
            let _ = self.kinds.remove(i);
        }
    }

    /// Follows a call that was made.
    pub fn follow(&mut self, call: &Call, answer: &Answer) -> Result<(), AllocError> {
        if let Some(kind) = taken(call, answer) {
            self.forget(kind);
        }
        if let Some(kind) = given(call, answer) {
            self.kinds.push(kind)?;
        }
        Ok(())
    }
}

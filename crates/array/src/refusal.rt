// Why a call that takes a ticket or permit is refused.
use crate::tokens::{Resyncing, Token, Writing};
use array_model::refusal::ArrayRefusal;
use array_model::state::State;

/// Why a call that takes a ticket or permit was refused.
pub enum TokenRefusal<K> {
    /// This state does not allow the call: the token comes back.
    Returned(State, Token<K>),
    /// Any other refusal: the token is taken.
    Taken(ArrayRefusal),
}

/// Why a finish was refused.
pub type FinishRefusal = TokenRefusal<Resyncing>;

/// Why a close was refused.
pub type CloseRefusal = TokenRefusal<Writing>;

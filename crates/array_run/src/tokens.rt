// The tickets and permits that a caller holds.
ghost use Rattle.std.specs.Prelude.{◌≡◌, OnOk};
ghost use Rattle.array_run.specs.TokenCounts.{counts_of, no_tokens, Room};

use array::tokens::{ReadyPermit, ResyncTicket, ShortPermit};
use std::alloc::{AllocError, Global};

// Kept: how far a call lets these grow stands in the contract of each call, since it compares two values, which no type does.
/// Tickets and permits, each kind by itself. They must be handed in: `give_up_all` ends them.
pub struct Tokens {
    pub(super) tickets: Vec<ResyncTicket>,
    pub(super) permits: Vec<ReadyPermit>,
    pub(super) shorts: Vec<ShortPermit>,
}

impl Tokens {
    /// None of any kind.
    pub fn new(heap: Global) -> Tokens
        ensures { counts_of result ≡ no_tokens }
    {
        Tokens {
            tickets: Vec::new(heap),
            permits: Vec::new(heap),
            shorts: Vec::new(heap),
        }
    }

    /// Makes room for so many more of each kind.
    pub fn reserve(&mut self, more: usize) -> Result<(), AllocError>
        ensures same { counts_of self.new ≡ counts_of self.old }
        ensures room { OnOk result (Room more self.new) }
    {
        self.tickets.reserve(more)?;
        self.permits.reserve(more)?;
        self.shorts.reserve(more)
    }
}

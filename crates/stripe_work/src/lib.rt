//! Work on one stripe, over any member store and any layout: check its parity, make it right, move cached blocks to the
//! members, and work one member's block out of the others.
#![tactic(auto)]

mod block;
pub mod data;
pub mod destage;
pub mod reconstruct;
pub mod refusal;
pub mod resync;
pub mod stripe;

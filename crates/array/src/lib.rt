//! The array: its calls over any member store, log and layout.
#![tactic(auto)]

pub mod array;
mod block;
mod checks;
mod close;
mod destage;
mod finish;
mod flush;
mod format;
mod give_up;
mod new;
mod next;
mod open;
mod outcome;
mod power;
mod questions;
mod read;
mod read_short;
pub mod refusal;
mod step;
pub mod tokens;
mod write;

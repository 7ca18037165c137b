//! The work below the calls of an array, over any member store, log and layout: what a call does once the array's state
//! allows it and its checks have passed. These are inner functions: the array's calls are a match on its state above them.
#![tactic(auto)]

// Kept: that the log stays sound, and that it has power, stand in each contract: what makes a log sound is a fact that its kind chooses.

pub mod destage;
pub mod finish;
pub mod flush;
pub mod format;
pub mod naming;
pub mod power;
pub mod read;
mod refusal;
pub mod resync;

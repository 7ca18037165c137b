//! The write caches of an array: blocks that were written and not yet moved to the members.
//!
//! 32 slots stand inline in one value, shared by the buffering cache, which takes the writes, and the destaging cache,
//! whose stripes are moved to the members one by one.
#![tactic(auto)]

pub mod caches;
mod calls;
mod change;
pub mod list;
mod search;
pub mod slot;
mod stripes;

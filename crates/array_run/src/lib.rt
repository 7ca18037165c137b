//! Lists of calls of an array, and the crash promise over them.
#![tactic(auto)]

ghost use Rattle.array_run.specs.Trace.{CachesStayEmpty};

pub mod answer;
mod buffer;
pub mod call;
pub mod give_up;
mod last;
mod open;
mod ready;
mod resync;
pub mod run;
mod short;
pub mod tokens;

/// Proved: whatever call is made, an array that is down, resynchronizing or short has empty caches, so that nothing stale
/// appears after an opening.
pub fn caches_stay_empty()
    ensures { CachesStayEmpty }
{}

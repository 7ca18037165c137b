// A ring's state, in a file of its own, since the definitions that read it stand beside it.
use intent_log::state::LogState;
use record::form::Record;

/// The record that stands, and its slot.
#[derive(Clone, Copy)]
pub struct StandingRecord {
    pub(super) slot: usize,
    pub(super) record: Record,
}

/// A log that goes round the first blocks of a store, one record a slot; the highest version stands.
#[derive(Drop)]
pub struct RingLog<S> {
    pub(super) state: LogState<S, StandingRecord>,
}

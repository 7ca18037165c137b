// The array.
use array_model::state::State;
use cache::caches::Caches;

// Kept: that an array is sound stands in the contract of each call, and not in the type: what makes a log sound may be any fact that
// its kind chooses, and a fact of a type may have one proof at most.
/// An array over a member store, with its log and its layout. A new one is fallen: it has to be powered on.
#[derive(Drop)]
pub struct Array<S, G, L> {
    pub(super) store: S,
    pub(super) log: G,
    pub(super) layout: L,
    pub(super) caches: Caches,
    pub(super) state: State,
}

// The state that all logs have.

/// What a log keeps: the store that it lies on, and what power-on found there.
#[derive(Drop)]
pub struct LogState<S, R> {
    pub store: S,
    /// Power-on has found what stands.
    // Kept: a flag beside the value, since an `Option<Option<R>>` would be no plainer and `is_none` would ask two things.
    pub awake: bool,
    /// The record that stands, if any.
    pub standing: Option<R>,
}

// The state of a write buffer.
ghost use Rattle.std.specs.Prelude.{◌≤◌, vec_len, vec_capacity};

use super::held::HeldStore;

/// A store that holds up to 8 stores back, oldest first, before it passes them below.
#[derive(Drop)]
pub struct WriteBuffer<S> {
    pub(super) below: S,
    pub(super) held: Vec<HeldStore>,
    ghost room: { 8 ≤ vec_capacity held },
    ghost few: { vec_len held ≤ 8 },
}

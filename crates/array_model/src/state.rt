// The states of an array.

/// How far a resynchronization has come since the open that began it.
#[derive(Clone, Copy, PartialEq, Eq, Debug)]
pub struct Progress {
    /// The named stripes below this number are taken.
    pub next: usize,
    /// How many stripes were read.
    pub read: usize,
    /// How many of them had wrong parity, which was stored.
    pub mended: usize,
}

/// The state of an array: which calls it allows.
#[derive(Clone, Copy, PartialEq, Eq, Debug)]
pub enum State {
    /// New, or power was missing: nothing but a power-on helps.
    Fallen,
    /// Under power and closed: it may be formatted or opened.
    Down,
    /// Opened, and being resynchronized.
    Resync(Progress),
    /// Opened: blocks may be written and read.
    Ready,
    /// Opened without the member of this number, only to read.
    Short(usize),
}

// What accepted calls answer.

/// A stripe that a step of resynchronization has taken.
#[derive(Clone, Copy, PartialEq, Eq, Debug)]
pub struct TakenStripe {
    pub stripe: usize,
    /// Was its parity wrong, and so stored?
    pub mended: bool,
}

/// The counts that a finish answers.
#[derive(Clone, Copy, PartialEq, Eq, Debug)]
pub struct ResyncCounts {
    /// How many stripes were read.
    pub read: usize,
    /// How many of them had wrong parity, which was stored.
    pub mended: usize,
}

/// The answer of a destage.
#[derive(Clone, Copy, PartialEq, Eq, Debug)]
pub enum Destage {
    /// This stripe of the destaging cache was written to the members.
    Moved(usize),
    /// The caches changed places, after so many puts to the log: 0 or 1.
    Changed(usize),
    /// Both caches are empty.
    Idle,
}

/// The counts that a flush answers.
#[derive(Clone, Copy, PartialEq, Eq, Debug, Default)]
pub struct FlushCounts {
    /// How many stripes were written, one from each cache counted twice.
    pub stripes: usize,
    /// How many puts to the log.
    pub puts: usize,
}

// What sets a fuse from outside.
use std::alloc::{AllocError, Global};
use std::cell::Cell;
use std::rc::Rc;

/// Sets a fuse from outside.
pub trait Switch {
    /// The setting that was asked for since the last time, if any.
    fn take(&self) -> Option<usize>;
}

/// A switch that a program holds while the fuse lies deep in an array. A clone is another handle on the same switch.
#[derive(Clone, Drop)]
pub struct FuseSwitch {
    // the setting that the fuse has not taken yet
    pending: Rc<Cell<Option<usize>>>,
}

impl FuseSwitch {
    /// A switch that asks for nothing.
    pub fn new(heap: Global) -> Result<FuseSwitch, AllocError> {
        Ok(FuseSwitch {
            pending: Rc::new(heap, Cell::new(None))?,
        })
    }

    /// Asks the fuse to let `count` more stores and barriers act, and to lose power at the next one.
    pub fn cut_after(&self, count: usize) {
        self.pending.set(Some(count));
    }
}

impl Switch for FuseSwitch {
    fn take(&self) -> Option<usize> {
        self.pending.take()
    }
}

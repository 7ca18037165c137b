// Names of places in the array's data, and of what stands on its members.

/// A place in the data: the stripe, and the position among its data blocks.
#[derive(Clone, Copy, PartialEq, Eq, Debug)]
pub struct Location {
    pub stripe: usize,
    pub position: usize,
}

/// What a member holds in a stripe: a block of the array's data, by its number, or the parity.
#[derive(Clone, Copy, PartialEq, Eq, Debug)]
pub enum Content {
    Data(usize),
    Parity,
}

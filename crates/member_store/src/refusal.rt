// Why a member store refuses a call.
use block_address::Address;

/// Why a read, a store or a barrier was refused.
#[derive(Clone, Copy, PartialEq, Eq, Debug)]
pub enum Refusal {
    /// Power is off, or went in the call: the place of the device call, none for a barrier.
    PowerOff(Option<Address>),
    /// There is no member of this number.
    NoMember(usize),
    /// There is no block of this number.
    NoBlock(usize),
    /// The buffer has this length and not that of a block.
    WrongLength(usize),
}

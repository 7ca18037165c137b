// Why parity is not worked out.
ghost use Rattle.std.specs.Prelude.{Some};
ghost use Rattle.parity.specs.Text.{refusal_text};

use std::error::Error;
use std::fmt;

/// Buffers that are no stripe's.
#[derive(Clone, Copy, PartialEq, Eq, Debug)]
pub enum Refusal {
    /// This many blocks, and not 2 to 7.
    BlockCount(usize),
    /// The result's buffer has this length, and not that of a block.
    WrongLength(usize),
}

impl fmt::Display for Refusal {
    ghost output = { λ r. Some (refusal_text r) };

    fn fmt<W: fmt::Write>(&self, f: &mut fmt::Formatter<W>) -> fmt::Result {
        match self {
            Refusal::BlockCount(count) => write!(f, "{count} blocks, not 2 to 7"),
            Refusal::WrongLength(len) => write!(f, "a buffer of {len} bytes, not 512"),
        }
    }
}

impl Error for Refusal {}

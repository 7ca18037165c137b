// The two sides of a box.
ghost use Rattle.program_parts.specs.Words.{Reads, side_word};

use crate::line_error::NoForm;
use std::str::FromStr;

/// The disks of a box that power is cut from.
#[derive(Clone, Copy, Debug, PartialEq, Eq)]
pub enum Side {
    /// Those of the array.
    Members,
    /// Those of the log.
    Log,
}

impl FromStr for Side {
    type Err = NoForm;

    ghost from_str_gives = { Reads side_word };

    fn from_str(word: &str) -> Result<Side, NoForm> {
        match word {
            "members" => Ok(Side::Members),
            "log" => Ok(Side::Log),
            _ => Err(NoForm),
        }
    }
}

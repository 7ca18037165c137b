// The layouts, by their RAID level qualifiers.
ghost use Rattle.std.specs.Prelude.{Some};
ghost use Rattle.program_parts.specs.Words.{Reads, qualifier};

use crate::line_error::NoForm;
use std::fmt;
use std::str::FromStr;

/// The layouts, each written as its RAID level qualifier.
#[derive(Clone, Copy, Debug, PartialEq, Eq)]
pub enum LayoutKind {
    RightAsymmetric,
    LeftAsymmetric,
    LeftSymmetric,
}

impl FromStr for LayoutKind {
    type Err = NoForm;

    ghost from_str_gives = { Reads qualifier };

    fn from_str(word: &str) -> Result<LayoutKind, NoForm> {
        match word {
            "0" => Ok(LayoutKind::RightAsymmetric),
            "2" => Ok(LayoutKind::LeftAsymmetric),
            "3" => Ok(LayoutKind::LeftSymmetric),
            _ => Err(NoForm),
        }
    }
}

impl fmt::Display for LayoutKind {
    ghost output = { λ layout. Some (qualifier layout) };

    fn fmt<W: fmt::Write>(&self, f: &mut fmt::Formatter<W>) -> fmt::Result {
        f.write_str(match self {
            LayoutKind::RightAsymmetric => "0",
            LayoutKind::LeftAsymmetric => "2",
            LayoutKind::LeftSymmetric => "3",
        })
    }
}

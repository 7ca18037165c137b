// The kinds of log.
ghost use Rattle.std.specs.Prelude.{Some};
ghost use Rattle.program_parts.specs.Words.{Reads, log_word};

use crate::line_error::NoForm;
use std::fmt;
use std::str::FromStr;

/// The kinds of log.
#[derive(Clone, Copy, Debug, PartialEq, Eq)]
pub enum LogKind {
    Ring,
    Flag,
}

impl FromStr for LogKind {
    type Err = NoForm;

    ghost from_str_gives = { Reads log_word };

    fn from_str(word: &str) -> Result<LogKind, NoForm> {
        match word {
            "ring" => Ok(LogKind::Ring),
            "flag" => Ok(LogKind::Flag),
            _ => Err(NoForm),
        }
    }
}

impl fmt::Display for LogKind {
    ghost output = { λ kind. Some (log_word kind) };

    fn fmt<W: fmt::Write>(&self, f: &mut fmt::Formatter<W>) -> fmt::Result {
        f.write_str(match self {
            LogKind::Ring => "ring",
            LogKind::Flag => "flag",
        })
    }
}

// The commands of a scenario.
use super::words::{byte, number};
use program_parts::line_error::NoForm;
use program_parts::side::Side;
use std::str::FromStr;

/// A call of the array, the setting of a fuse, or a look at everything.
#[derive(Clone, Copy)]
pub enum Command {
    /// The fuse lets so many more stores and barriers act.
    Cut(Side, usize),
    PowerOn,
    Format,
    Open,
    /// Without this member.
    OpenShort(usize),
    Step,
    Finish,
    /// Fills a block with a byte.
    Write(usize, u8),
    Read(usize),
    ReadShort(usize),
    Destage,
    Flush,
    Close,
    GiveUp,
    Show,
}

// A command without numbers.
fn plain(word: &str) -> Result<Command, NoForm> {
    match word {
        "power-on" => Ok(Command::PowerOn),
        "format" => Ok(Command::Format),
        "open" => Ok(Command::Open),
        "step" => Ok(Command::Step),
        "finish" => Ok(Command::Finish),
        "destage" => Ok(Command::Destage),
        "flush" => Ok(Command::Flush),
        "close" => Ok(Command::Close),
        "give-up" => Ok(Command::GiveUp),
        "show" => Ok(Command::Show),
        _ => Err(NoForm),
    }
}

impl FromStr for Command {
    type Err = NoForm;

    fn from_str(line: &str) -> Result<Command, NoForm> {
        let mut words = line.split(' ');
        let word = words.next().ok_or(NoForm)?;
        match (word, words.next(), words.next(), words.next()) {
            (_, None, ..) => plain(word),
            ("open-short", Some(absent), None, _) => Ok(Command::OpenShort(number(absent)?)),
            ("read", Some(block), None, _) => Ok(Command::Read(number(block)?)),
            ("read-short", Some(block), None, _) => Ok(Command::ReadShort(number(block)?)),
            ("cut", Some(side), Some(count), None) => {
                Ok(Command::Cut(side.parse()?, number(count)?))
            }
            ("write", Some(block), Some(fill), None) => {
                Ok(Command::Write(number(block)?, byte(fill)?))
            }
            _ => Err(NoForm),
        }
    }
}

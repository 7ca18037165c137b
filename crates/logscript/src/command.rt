// The commands of a script: each line is a word and numbers.
use program_parts::line_error::{LineError, NoForm};
use std::alloc::Global;

/// A call of a log, or the setting of the fuse at the next power-on.
#[derive(Drop)]
pub enum Command {
    Cut(usize),
    PowerOn,
    Mark(Vec<u32>),
    Fresh(Vec<u32>),
    Fits(Vec<u32>),
    Clear,
    Blank,
    IsNamed(u32),
    NextNamed(u32),
    Stands,
    Spent,
    Show,
}

// A command without numbers.
fn plain(word: &str) -> Result<Command, NoForm> {
    match word {
        "power-on" => Ok(Command::PowerOn),
        "clear" => Ok(Command::Clear),
        "blank" => Ok(Command::Blank),
        "stands" => Ok(Command::Stands),
        "spent" => Ok(Command::Spent),
        "show" => Ok(Command::Show),
        _ => Err(NoForm),
    }
}

// A command with one number.
fn with_number(word: &str, number: u32) -> Result<Command, NoForm> {
    match word {
        "cut" => Ok(Command::Cut(number as usize)),
        "named" => Ok(Command::IsNamed(number)),
        "next" => Ok(Command::NextNamed(number)),
        _ => Err(NoForm),
    }
}

// The command of a word and the numbers behind it.
fn form(word: &str, numbers: Vec<u32>) -> Result<Command, NoForm> {
    match word {
        "mark" => Ok(Command::Mark(numbers)),
        "fresh" => Ok(Command::Fresh(numbers)),
        "fits" => Ok(Command::Fits(numbers)),
        _ => match numbers.as_slice() {
            [] => plain(word),
            [number] => with_number(word, *number),
            _ => Err(NoForm),
        },
    }
}

impl Command {
    /// Reads a line.
    pub fn parse(heap: Global, line: &str) -> Result<Command, LineError> {
        let mut words = line.split_whitespace();
        let word = words.next().ok_or(NoForm)?;
        let mut numbers = Vec::new(heap);
        for number in words {
            let number = number.parse::<u32>().ok().ok_or(NoForm)?;
            numbers.push(number)?;
        }
        Ok(form(word, numbers)?)
    }
}

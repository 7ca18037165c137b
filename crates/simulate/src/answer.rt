// The answer lines.
ghost use Rattle.simulate.specs.Lines.{FillOf};

use super::command::Command;
use super::show::Picture;
use array_run::answer::Answer;
use std::fmt;

/// A line that answers a command.
#[derive(Drop)]
pub enum Line {
    /// A fuse was set.
    Set,
    Shown(Picture),
    /// What a call that this command makes answered.
    Told(Command, Answer),
    /// The line of this number has no form.
    Bad(usize),
}

// What an accepted call says that tells nothing more.
fn done_word(command: Command) -> &'static str {
    match command {
        Command::PowerOn => "down",
        Command::Format => "formatted",
        Command::Open => "opened",
        Command::OpenShort(_) => "short",
        Command::Write(_, _) => "buffered",
        Command::Close => "closed",
        _ => "ok",
    }
}

// The byte that fills all of them, where there is one.
fn fill_of(bytes: &[u8]) -> Option<u8>
    ensures { FillOf bytes.now result }
{
    let fill = *bytes.first()?;
    bytes.iter().all(|byte| *byte == fill).then_some(fill)
}

fn write_read<W: fmt::Write>(f: &mut fmt::Formatter<W>, bytes: &[u8]) -> fmt::Result {
    match fill_of(bytes) {
        Some(fill) => write!(f, "fill {fill}"),
        None => f.write_str("mixed"),
    }
}

fn write_answer<W: fmt::Write>(
    f: &mut fmt::Formatter<W>,
    command: Command,
    answer: &Answer,
) -> fmt::Result {
    match answer {
        Answer::NoToken => f.write_str("no token"),
        Answer::GivenUp => f.write_str("given up"),
        Answer::Plain(Ok(())) => f.write_str(done_word(command)),
        Answer::Step(Ok(Some(taken))) => write!(f, "{taken}"),
        Answer::Step(Ok(None)) => f.write_str("none left"),
        Answer::Finish(Ok(counts)) => write!(f, "ready {counts}"),
        Answer::Read(Ok(bytes)) => write_read(f, bytes.as_slice()),
        Answer::Destage(Ok(destage)) => write!(f, "{destage}"),
        Answer::Flush(Ok(counts)) => write!(f, "{counts}"),
        Answer::Plain(Err(e))
        | Answer::Step(Err(e))
        | Answer::Finish(Err(e))
        | Answer::Read(Err(e))
        | Answer::Destage(Err(e))
        | Answer::Flush(Err(e)) => write!(f, "{e}"),
    }
}

impl fmt::Display for Line {
    fn fmt<W: fmt::Write>(&self, f: &mut fmt::Formatter<W>) -> fmt::Result {
        match self {
            Line::Set => f.write_str("ok"),
            Line::Shown(picture) => write!(f, "{picture}"),
            Line::Told(command, answer) => write_answer(f, *command, answer),
            Line::Bad(number) => write!(f, "bad {number}"),
        }
    }
}

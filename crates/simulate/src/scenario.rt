// A scenario: its settings, its commands, and the first line of no form.
use super::command::Command;
use super::settings::{Setting, Settings};
use program_parts::line_error::{LineError, NoForm};
use std::alloc::Global;

#[derive(Drop)]
pub struct Scenario {
    pub settings: Settings,
    /// Those before the first line of no form.
    pub commands: Vec<Command>,
    /// The number of the first line of no form, which ends the scenario.
    pub bad_line: Option<usize>,
}

// A line without its comment and the spaces before that.
fn without_comment(line: &str) -> &str {
    match line.split_once('#') {
        Some((before, _)) => before.trim_end_matches(' '),
        None => line,
    }
}

impl Scenario {
    // Takes what a line says.
    fn take(&mut self, line: &str) -> Result<(), LineError> {
        if line.is_empty() {
            return Ok(());
        }
        if self.commands.is_empty() {
            if let Ok(setting) = line.parse::<Setting>() {
                return Ok(self.settings.take(setting)?);
            }
        }
        self.commands.push(line.parse()?)?;
        Ok(())
    }

    // Takes the bytes of a line; those that are no text have no form of one.
    fn take_bytes(&mut self, line: &[u8]) -> Result<(), LineError> {
        let text = std::str::from_utf8(line).ok().ok_or(NoForm)?;
        self.take(without_comment(text))
    }
}

/// Reads a scenario, up to the first line of no form.
pub fn read_scenario(heap: Global, bytes: &[u8]) -> Result<Scenario, LineError> {
    let mut scenario = Scenario {
        settings: Settings::default(),
        commands: Vec::new(heap),
        bad_line: None,
    };
    for (number, line) in (1usize..).zip(bytes.split(|byte| *byte == b'\n')) {
        match scenario.take_bytes(line) {
            Ok(()) => {}
            Err(LineError::NoForm) => {
                scenario.bad_line = Some(number);
                return Ok(scenario);
            }
            Err(e) => return Err(e),
        }
    }
    Ok(scenario)
}

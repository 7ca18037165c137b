// What a scenario may set before its first command.
ghost use Rattle.std.specs.Prelude.{◌*◌, ◌<◌, ◌≤◌};

use super::words::number;
use program_parts::layout_kind::LayoutKind;
use program_parts::line_error::NoForm;
use program_parts::log_kind::LogKind;
use program_parts::side::Side;
use std::str::FromStr;

/// The most blocks of all members together.
const MOST_BLOCKS: usize = 65_536;

/// How many members there are, and how many blocks each has.
#[derive(Clone, Copy)]
pub struct Counts {
    pub members: usize,
    pub blocks: usize,
    ghost some_members: { 0 < members },
    ghost some_blocks: { 0 < blocks },
    ghost few: { members * blocks ≤ 65536 },
}

const ARRAY_COUNTS: Counts = Counts {
    members: 4,
    blocks: 16,
};

const LOG_COUNTS: Counts = Counts {
    members: 1,
    blocks: 8,
};

/// One setting.
#[derive(Clone, Copy)]
pub enum Setting {
    Members(Counts),
    Layout(LayoutKind),
    Log(LogKind, Counts),
    Buffer(Side),
}

/// The settings of a scenario, each as it was given.
#[derive(Clone, Copy, Default)]
pub struct Settings {
    members: Option<Counts>,
    layout: Option<LayoutKind>,
    log: Option<(LogKind, Counts)>,
    members_buffered: bool,
    log_buffered: bool,
}

impl Counts {
    fn parse(members: &str, blocks: &str) -> Result<Counts, NoForm> {
        let members = number(members)?;
        let blocks = number(blocks)?;
        if members == 0 || blocks == 0 || members > MOST_BLOCKS / blocks {
            return Err(NoForm);
        }
        Ok(Counts { members, blocks })
    }
}

impl FromStr for Setting {
    type Err = NoForm;

    fn from_str(line: &str) -> Result<Setting, NoForm> {
        let mut words = line.split(' ');
        let word = words.next().ok_or(NoForm)?;
        match (word, words.next(), words.next(), words.next(), words.next()) {
            ("layout", Some(layout), None, ..) => Ok(Setting::Layout(layout.parse()?)),
            ("buffer", Some(side), None, ..) => Ok(Setting::Buffer(side.parse()?)),
            ("members", Some(members), Some(blocks), None, _) => {
                Ok(Setting::Members(Counts::parse(members, blocks)?))
            }
            ("log", Some(kind), Some(members), Some(blocks), None) => Ok(Setting::Log(
                kind.parse()?,
                Counts::parse(members, blocks)?,
            )),
            _ => Err(NoForm),
        }
    }
}

impl Settings {
    // Was this set before?
    fn has(&self, setting: Setting) -> bool {
        match setting {
            Setting::Members(_) => self.members.is_some(),
            Setting::Layout(_) => self.layout.is_some(),
            Setting::Log(_, _) => self.log.is_some(),
            Setting::Buffer(on) => self.buffered(on),
        }
    }

    /// Takes a setting that was not set before.
    pub fn take(&mut self, setting: Setting) -> Result<(), NoForm> {
        if self.has(setting) {
            return Err(NoForm);
        }
        match setting {
            Setting::Members(counts) => self.members = Some(counts),
            Setting::Layout(layout) => self.layout = Some(layout),
            Setting::Log(kind, counts) => self.log = Some((kind, counts)),
            Setting::Buffer(Side::Members) => self.members_buffered = true,
            Setting::Buffer(Side::Log) => self.log_buffered = true,
        }
        Ok(())
    }

    /// The counts of the array, or of the log.
    pub fn counts(&self, of: Side) -> Counts {
        match of {
            Side::Members => self.members.unwrap_or(ARRAY_COUNTS),
            Side::Log => self.log.map_or(LOG_COUNTS, |(_, counts)| counts),
        }
    }

    pub fn layout(&self) -> LayoutKind {
        self.layout.unwrap_or(LayoutKind::LeftSymmetric)
    }

    pub fn log_kind(&self) -> LogKind {
        self.log.map_or(LogKind::Ring, |(kind, _)| kind)
    }

    /// Does a write buffer lie over this fuse?
    pub fn buffered(&self, on: Side) -> bool {
        match on {
            Side::Members => self.members_buffered,
            Side::Log => self.log_buffered,
        }
    }
}

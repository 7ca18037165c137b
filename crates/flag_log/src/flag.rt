// The flag's record and a flag log's state, in a file of their own, since the definitions that read them stand beside
// them.
ghost use Rattle.std.specs.Prelude.{◌≡◌, Some};
ghost use Rattle.std.specs.Result.{result_ok};
ghost use Rattle.flag_log.specs.Form.{first_byte, byte_record};
ghost use Rattle.flag_log.specs.Text.{text};

use intent_log::state::LogState;
use std::fmt;

/// What the flag's record says.
#[derive(Clone, Copy, PartialEq, Eq, Debug)]
pub enum FlagRecord {
    /// No stripe is named.
    NamesNothing,
    /// Every stripe is named.
    NamesEvery,
}

impl From<FlagRecord> for u8 {
    ghost from_gives = { λ flag byte. byte ≡ first_byte (Some flag) };

    fn from(record: FlagRecord) -> u8 {
        match record {
            FlagRecord::NamesNothing => 1,
            FlagRecord::NamesEvery => 2,
        }
    }
}

/// A byte that is no record's.
#[derive(Clone, Copy, PartialEq, Eq, Debug)]
pub struct NoRecordByte(pub u8);

impl TryFrom<u8> for FlagRecord {
    type Error = NoRecordByte;

    ghost try_from_gives = { λ byte flag. result_ok flag ≡ byte_record byte };

    fn try_from(byte: u8) -> Result<FlagRecord, NoRecordByte> {
        match byte {
            1 => Ok(FlagRecord::NamesNothing),
            2 => Ok(FlagRecord::NamesEvery),
            _ => Err(NoRecordByte(byte)),
        }
    }
}

impl fmt::Display for FlagRecord {
    ghost output = { λ flag. Some (text flag) };

    fn fmt<W: fmt::Write>(&self, f: &mut fmt::Formatter<W>) -> fmt::Result {
        f.write_str(match self {
            FlagRecord::NamesNothing => "names nothing",
            FlagRecord::NamesEvery => "names every stripe",
        })
    }
}

/// A log in block 0 of member 0 of a store: its record names nothing or every stripe.
#[derive(Drop)]
pub struct FlagLog<S> {
    pub(super) state: LogState<S, FlagRecord>,
}

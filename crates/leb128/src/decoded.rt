// What bytes begin with: a number, or why there is none.
ghost use Rattle.std.specs.Prelude.{Some};
ghost use Rattle.leb128.specs.Text.{error_text};

use std::error::Error;
use std::fmt;

/// A number, and how many bytes it took.
#[derive(Clone, Copy, PartialEq, Eq, Debug)]
pub struct Decoded {
    pub value: u32,
    pub taken: usize,
}

/// Why bytes begin with no number.
#[derive(Clone, Copy, PartialEq, Eq, Debug)]
pub enum DecodeError {
    /// The last of several groups is zero: the number has a shorter form.
    LongerForm,
    /// A sixth group, or a number above 4,294,967,295.
    Overflow,
    /// The bytes end before the last group.
    EndOfBytes,
}

impl fmt::Display for DecodeError {
    ghost output = { λ e. Some (error_text e) };

    fn fmt<W: fmt::Write>(&self, f: &mut fmt::Formatter<W>) -> fmt::Result {
        f.write_str(match self {
            DecodeError::LongerForm => "a number in a longer form than it needs",
            DecodeError::Overflow => "a number above 4294967295",
            DecodeError::EndOfBytes => "the bytes end inside a number",
        })
    }
}

impl Error for DecodeError {}

// Why words and lines are not taken.
ghost use Rattle.std.specs.Prelude.{◌≡◌, Some};
ghost use Rattle.program_parts.specs.Words.{no_form_text, line_error_text};
ghost use Rattle.program_parts.specs.declared.line_error.LineError.TheVariants.{NoForm as LineOfNoForm, OutOfMemory};

use std::alloc::{AllocError, AllocFailed};
use std::error::Error;
use std::fmt;

/// The text has not the form of what is read from it.
#[derive(Clone, Copy, Debug, PartialEq, Eq)]
pub struct NoForm;

/// Why a line is not taken.
#[derive(Clone, Copy, Debug, PartialEq, Eq)]
pub enum LineError {
    NoForm,
    OutOfMemory,
}

impl fmt::Display for NoForm {
    ghost output = { λ _. Some no_form_text };

    fn fmt<W: fmt::Write>(&self, f: &mut fmt::Formatter<W>) -> fmt::Result {
        f.write_str("no such form")
    }
}

impl Error for NoForm {}

impl fmt::Display for LineError {
    ghost output = { λ e. Some (line_error_text e) };

    fn fmt<W: fmt::Write>(&self, f: &mut fmt::Formatter<W>) -> fmt::Result {
        f.write_str(match self {
            Self::NoForm => "no such form",
            Self::OutOfMemory => "memory allocation failed",
        })
    }
}

impl Error for LineError {}

impl From<NoForm> for LineError {
    ghost from_gives = { λ _ e. e ≡ LineOfNoForm };

    fn from(_error: NoForm) -> LineError {
        LineError::NoForm
    }
}

impl From<AllocError> for LineError {
    ghost from_gives = { λ _ e. e ≡ OutOfMemory };

    fn from(_error: AllocError) -> LineError {
        LineError::OutOfMemory
    }
}

impl<T: Drop> From<AllocFailed<T>> for LineError {
    ghost from_gives = { λ _ e. e ≡ OutOfMemory };

    fn from(_error: AllocFailed<T>) -> LineError {
        LineError::OutOfMemory
    }
}

// The lines of the sheet.
use crate::trial::{Found, Trial};
use program_parts::side::Side;
use std::fmt;
use std::ops::AddAssign;

/// The row of one cut.
#[derive(Clone, Copy)]
pub struct Row {
    /// How many stores and barriers were let through.
    pub let_through: usize,
    pub trial: Trial,
}

/// The row of all trials with cuts of one kind.
#[derive(Clone, Copy)]
pub struct TotalsRow {
    /// Where the load is cut.
    pub first: Side,
    /// Where the resynchronization is cut.
    pub second: Option<Side>,
    pub totals: Totals,
}

/// What trials add up to.
#[derive(Clone, Copy, Default)]
pub struct Totals {
    pub trials: usize,
    pub found: Found,
}

/// The first line of the sheet.
pub const TITLE: &str =
    "Power cuts of 4 members of 16 blocks, layout 3, under 100 writes with destages and flushes among them";

/// The first line of a table of rows.
pub const ROW_HEADER: &str = "let through  wrong before  named  mended  wrong after  off the book";

/// The first line of a table of totals.
pub const TOTALS_HEADER: &str =
    "first cut    second cut   trials  wrong before   named  mended  wrong after  off the book";

impl From<Trial> for Totals {
    fn from(trial: Trial) -> Totals {
        Totals {
            trials: 1,
            found: trial.found,
        }
    }
}

impl AddAssign<Totals> for Totals {
    fn add_assign(&mut self, other: Totals) {
        self.trials = self.trials.saturating_add(other.trials);
        self.found += other.found;
    }
}

impl fmt::Display for Row {
    fn fmt<W: fmt::Write>(&self, f: &mut fmt::Formatter<W>) -> fmt::Result {
        let k = self.let_through;
        let Found {
            wrong_before: before,
            named,
            mended,
            wrong_after: after,
            off_book: off,
        } = self.trial.found;
        write!(
            f,
            "{k:>11}  {before:>12}  {named:>5}  {mended:>6}  {after:>11}  {off:>12}"
        )
    }
}

impl fmt::Display for Totals {
    fn fmt<W: fmt::Write>(&self, f: &mut fmt::Formatter<W>) -> fmt::Result {
        let trials = self.trials;
        let Found {
            wrong_before: before,
            named,
            mended,
            wrong_after: after,
            off_book: off,
        } = self.found;
        write!(
            f,
            "{trials:>6}  {before:>12}  {named:>6}  {mended:>6}  {after:>11}  {off:>12}"
        )
    }
}

fn side_name(side: Side) -> &'static str {
    match side {
        Side::Members => "members",
        Side::Log => "log's store",
    }
}

impl fmt::Display for TotalsRow {
    fn fmt<W: fmt::Write>(&self, f: &mut fmt::Formatter<W>) -> fmt::Result {
        let first = side_name(self.first);
        let second = self.second.map_or("-", side_name);
        let totals = self.totals;
        write!(f, "{first:<11}  {second:<11}  {totals}")
    }
}

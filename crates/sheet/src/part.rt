// The part of the sheet over one log.
use crate::cuts::{Cut, Cuts, try_cuts};
use crate::table::{ROW_HEADER, Row, TOTALS_HEADER, Totals, TotalsRow};
use crate::trial::{Script, Trial};
use anyhow::anyhow;
use program_parts::log_kind::LogKind;
use program_parts::side::Side;

/// More stores and barriers than any load or resynchronization makes.
const MOST: usize = 10_000;

// Makes trials of what is named, each with one more store or barrier let through, up to the first that is not cut.
fn until_uncut<F: FnMut(usize) -> anyhow::Result<bool>>(
    name: &str,
    mut is_cut: F,
) -> anyhow::Result<()>
    requires { F.IsAlwaysCallable is_cut }
{
    for let_through in 0..MOST {
        if !is_cut(let_through)? {
            return Ok(());
        }
    }
    Err(anyhow!("{name} does not end"))
}

#[derive(Clone, Copy)]
pub struct Part<'r, 's, 'c> {
    rt: &'r HostRuntime,
    kind: LogKind,
    script: &'s Script<'c>,
}

impl<'r, 's, 'c> Part<'r, 's, 'c> {
    pub fn new(rt: &'r HostRuntime, kind: LogKind, script: &'s Script<'c>) -> Part<'r, 's, 'c> {
        Part { rt, kind, script }
    }

    fn trial(&self, cuts: Cuts) -> anyhow::Result<Trial> {
        try_cuts(self.rt.alloc(), self.kind, self.script, cuts)
    }

    // Every cut of the load on the members, one row for each.
    fn print_rows(&self) -> anyhow::Result<Totals> {
        let mut totals = Totals::default();
        self.rt.println(ROW_HEADER)?;
        until_uncut("the load", |let_through| {
            let trial = self.trial(Cuts::single(Side::Members, let_through))?;
            totals += Totals::from(trial);
            self.rt.println(Row { let_through, trial })?;
            Ok(trial.load_cut)
        })?;
        Ok(totals)
    }

    // Every cut of the load in the log's store.
    fn log_cuts(&self) -> anyhow::Result<Totals> {
        let mut totals = Totals::default();
        until_uncut("the load", |let_through| {
            let trial = self.trial(Cuts::single(Side::Log, let_through))?;
            if trial.load_cut {
                totals += Totals::from(trial);
            }
            Ok(trial.load_cut)
        })?;
        Ok(totals)
    }

    // Every second cut on one side after one first cut; answers whether the load was cut.
    fn after_first(&self, first: Cut, side: Side, totals: &mut Totals) -> anyhow::Result<bool> {
        let mut load_cut = false;
        until_uncut("the resynchronization", |let_through| {
            let second = Some(Cut { side, let_through });
            let trial = self.trial(Cuts { first, second })?;
            load_cut = trial.load_cut;
            if trial.resync_cut {
                *totals += Totals::from(trial);
            }
            Ok(trial.resync_cut)
        })?;
        Ok(load_cut)
    }

    // Every second cut on one side after every first cut on another.
    fn second_cuts(&self, first: Side, second: Side) -> anyhow::Result<Totals> {
        let mut totals = Totals::default();
        until_uncut("the load", |let_through| {
            let cut = Cut {
                side: first,
                let_through,
            };
            self.after_first(cut, second, &mut totals)
        })?;
        Ok(totals)
    }

    fn print_totals(&self, first: Side, second: Option<Side>) -> anyhow::Result<Totals> {
        let totals = match second {
            Some(second) => self.second_cuts(first, second)?,
            None => self.log_cuts()?,
        };
        self.rt.println(TotalsRow {
            first,
            second,
            totals,
        })?;
        Ok(totals)
    }

    /// Prints the part; answers its rows, and what all its trials add up to.
    pub fn print(&self) -> anyhow::Result<(usize, Totals)> {
        let (rt, kind) = (self.rt, self.kind);
        println!(rt; "\nOver the {kind} log, cuts on the members:")?;
        let mut all = self.print_rows()?;
        let rows = all.trials;
        println!(rt; "\nOver the {kind} log, the other cuts, added up:")?;
        rt.println(TOTALS_HEADER)?;
        all += self.print_totals(Side::Log, None)?;
        all += self.print_totals(Side::Members, Some(Side::Members))?;
        all += self.print_totals(Side::Members, Some(Side::Log))?;
        all += self.print_totals(Side::Log, Some(Side::Members))?;
        all += self.print_totals(Side::Log, Some(Side::Log))?;
        Ok((rows, all))
    }
}

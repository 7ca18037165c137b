// What the program tells: a line for each block, and which stores survived.
use block_address::Address;
use cut_script::{FIRST_BARRIER, MEMBERS, Progress, SECOND_BARRIER, STORES, last_store, place_of};
use std::fmt;

/// The array of blocks after the cut.
#[derive(Clone, Copy)]
pub struct Report {
    pub progress: Progress,
    /// For each block the number of the store whose bytes stand, 0 for the zeros before the first.
    pub stands: [u8; 8],
}

/// A block after the cut.
#[derive(Clone, Copy)]
struct Row {
    place: Address,
    progress: Progress,
    stands: u8,
}

// Writes the numbers of the stores above `after` and up to `to` that went to the block.
fn write_stores<W: fmt::Write>(
    f: &mut fmt::Formatter<W>,
    place: Address,
    after: u8,
    to: u8,
) -> fmt::Result {
    let numbers = after.saturating_add(1)..to.saturating_add(1);
    for number in numbers.filter(|number| place_of(*number) == place) {
        write!(f, " {number}")?;
    }
    Ok(())
}

impl fmt::Display for Row {
    fn fmt<W: fmt::Write>(&self, f: &mut fmt::Formatter<W>) -> fmt::Result {
        let place = self.place;
        let stands = self.stands;
        let base = last_store(place, self.progress.barred);
        write!(f, "{place}: stored")?;
        write_stores(f, place, 0, self.progress.made)?;
        write!(f, "; stands {stands}; could stand {base}")?;
        write_stores(f, place, self.progress.barred, self.progress.made)
    }
}

// Writes the numbers of the stores whose bytes stand.
fn write_survivors<W: fmt::Write>(f: &mut fmt::Formatter<W>, report: &Report) -> fmt::Result {
    for number in (1..=STORES).filter(|number| report.stands.contains(number)) {
        write!(f, " {number}")?;
    }
    Ok(())
}

// Says how power went.
fn write_cut<W: fmt::Write>(f: &mut fmt::Formatter<W>, progress: Progress) -> fmt::Result {
    let made = progress.made;
    match progress.refusal {
        Some(e) => writeln!(f, "Power went when {made} stores were made: {e}."),
        None => writeln!(f, "Power was cut after all {made} stores."),
    }
}

impl fmt::Display for Report {
    fn fmt<W: fmt::Write>(&self, f: &mut fmt::Formatter<W>) -> fmt::Result {
        writeln!(
            f,
            "{STORES} stores, with barriers after {FIRST_BARRIER} and {SECOND_BARRIER}."
        )?;
        write_cut(f, self.progress)?;
        for (number, stands) in self.stands.iter().enumerate() {
            let row = Row {
                place: Address {
                    member: number % MEMBERS,
                    block: number / MEMBERS,
                },
                progress: self.progress,
                stands: *stands,
            };
            writeln!(f, "{row}")?;
        }
        write!(f, "Stores that survived:")?;
        write_survivors(f, self)
    }
}

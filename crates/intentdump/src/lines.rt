// What the program tells of slots.
use record::form::Record;
use std::fmt;

/// A slot and the record in it.
#[derive(Clone, Copy)]
pub struct SlotLine {
    pub slot: usize,
    pub found: Option<Record>,
}

impl fmt::Display for SlotLine {
    fn fmt<W: fmt::Write>(&self, f: &mut fmt::Formatter<W>) -> fmt::Result {
        let slot = self.slot;
        let Some(found) = self.found else {
            return write!(f, "slot {slot} no record");
        };
        let version = found.version();
        let stripes = found.stripes();
        let count = stripes.len();
        write!(f, "slot {slot} version {version} count {count} stripes")?;
        for stripe in stripes.as_slice() {
            write!(f, " {stripe}")?;
        }
        Ok(())
    }
}

// What a record says to a user.
ghost use Rattle.std.specs.Prelude.{Some};
ghost use Rattle.record.specs.Contents.{contents};
ghost use Rattle.record.specs.Text.{record_text};

use super::form::Record;
use std::fmt;

impl fmt::Display for Record {
    ghost output = { λ r. Some (record_text (contents r)) };

    fn fmt<W: fmt::Write>(&self, f: &mut fmt::Formatter<W>) -> fmt::Result {
        let version = self.version();
        write!(f, "version {version} stripes")?;
        let stripes = self.stripes();
        for stripe in stripes.as_slice() {
            write!(f, " {stripe}")?;
        }
        Ok(())
    }
}

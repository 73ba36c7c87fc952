// Records as text.
ghost use Rattle.std.specs.Prelude.{Some};
ghost use Rattle.records.specs.Texts.{values_text, record_text, listing_text, journal_text};

use crate::record::Record;
use crate::step::Step;
use std::fmt;
use values::few::Few;
use values::row::Row;

/// Values with a space before each.
#[derive(Clone, Copy)]
pub struct Values<'a>(pub &'a [Row]);

impl fmt::Display for Values<'_> {
    ghost output = { λ v. Some (values_text v.0.now) };

    fn fmt<W: fmt::Write>(&self, f: &mut fmt::Formatter<W>) -> fmt::Result {
        for row in self.0 {
            let value = row.value();
            write!(f, " {value}")?;
        }
        Ok(())
    }
}

/// The step, how many values it exchanged, and the values.
impl fmt::Display for Record {
    ghost output = { λ r. Some (record_text r) };

    fn fmt<W: fmt::Write>(&self, f: &mut fmt::Formatter<W>) -> fmt::Result {
        let step = self.step;
        let count = self.count;
        let used = Few::first(self.values, count as usize);
        let values = Values(used.as_slice());
        write!(f, "{step} {count}{values}")
    }
}

/// A list of steps: how many, and each on a line.
#[derive(Clone, Copy)]
pub struct Listing<'a>(pub &'a [Step]);

impl fmt::Display for Listing<'_> {
    ghost output = { λ l. Some (listing_text l.0.now) };

    fn fmt<W: fmt::Write>(&self, f: &mut fmt::Formatter<W>) -> fmt::Result {
        let count = self.0.len();
        write!(f, "listed {count}")?;
        for step in self.0 {
            write!(f, "\n{step}")?;
        }
        Ok(())
    }
}

/// The records of a journal: how many, and each on a line.
#[derive(Clone, Copy)]
pub struct Entries<'a>(pub &'a [Record]);

impl fmt::Display for Entries<'_> {
    ghost output = { λ e. Some (journal_text e.0.now) };

    fn fmt<W: fmt::Write>(&self, f: &mut fmt::Formatter<W>) -> fmt::Result {
        let count = self.0.len();
        write!(f, "journal {count}")?;
        for record in self.0 {
            write!(f, "\n{record}")?;
        }
        Ok(())
    }
}

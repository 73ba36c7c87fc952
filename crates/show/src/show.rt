// The command `show`: an admitted file as indented text, each command with its place.
use admission::load::examine;
use commands::bytes::bytes_from;
use files::file::{LEVELS, Summary};
use inspect::check::{answer_bytes, print_check};
use values::kind::Kind;
use values::row::Row;

mod behaviour;
mod expression;
mod statement;

/// Begins a line: the place, and two spaces for each level.
pub fn begin(rt: &HostRuntime, at: usize, level: u8) -> anyhow::Result<()> {
    print!(rt; "{at:5} ")?;
    for _ in 0..level {
        print!(rt; "  ")?;
    }
    Ok(())
}

// A model file, and where its text goes. Place and level stay parameters: each part has others.
#[derive(Clone, Copy)]
pub struct Page<'a> {
    rt: &'a HostRuntime,
    file: &'a [u8],
}

impl Page<'_> {
    fn begin(&self, at: usize, level: u8) -> anyhow::Result<()> {
        begin(self.rt, at, level)
    }

    // By a pattern: a variable that is cut short is not shown.
    fn show_variable(&self, at: usize, i: u8) -> anyhow::Result<()> {
        let [kind, known, a, b, c, d, ..] = bytes_from(self.file, at) else {
            return Ok(());
        };
        let row = Row {
            kind: *kind,
            known: *known,
            number: i32::from_le_bytes([*a, *b, *c, *d]),
        };
        let value = row.value();
        self.begin(at, 1)?;
        println!(self.rt; "variable {i} {} {value}", value.kind())?;
        Ok(())
    }

    // Some variables one after the other; answers the place behind them.
    fn show_variables(&self, start: usize, count: u8) -> anyhow::Result<usize> {
        let mut at = start;
        // the number is printed, and the place moves by the size of a variable
        for i in 0..count {
            self.show_variable(at, i)?;
            at = at.saturating_add(6);
        }
        Ok(at)
    }

    fn show_declaration(&self, at: usize) -> anyhow::Result<()> {
        let [way, channel, message, count, kinds @ ..] = bytes_from(self.file, at) else {
            return Ok(());
        };
        let way = if *way == 1 { "receives" } else { "sends" };
        self.begin(at, 1)?;
        print!(self.rt; "{way} channel {channel} message {message}")?;
        for kind in kinds.iter().take(*count as usize) {
            if let Ok(kind) = Kind::try_from(*kind) {
                print!(self.rt; " {kind}")?;
            }
        }
        println!(self.rt; "")?;
        Ok(())
    }

    // Some declarations one after the other; answers the place behind them.
    fn show_declarations(&self, start: usize, count: u8) -> anyhow::Result<usize> {
        let mut at = start;
        // the place moves by the size of a declaration, so there is only their number to go over
        for _ in 0..count {
            self.show_declaration(at)?;
            at = at.saturating_add(8);
        }
        Ok(at)
    }

    // A class at a place; answers the place behind it.
    fn show_class(&self, at: usize, class: u8) -> anyhow::Result<usize> {
        let [low, high, variables, ..] = bytes_from(self.file, at) else {
            return Ok(at);
        };
        self.begin(at, 0)?;
        println!(self.rt; "class {class}")?;
        let behind = self.show_variables(at.saturating_add(3), *variables)?;
        if let [declarations, ..] = bytes_from(self.file, behind) {
            let statement = self.show_declarations(behind.saturating_add(1), *declarations)?;
            self.show_statement(statement, 1)?;
        }
        let long = u16::from_le_bytes([*low, *high]);
        Ok(at.saturating_add(2).saturating_add(long as usize))
    }

    fn show_file(&self, summary: Summary) -> anyhow::Result<()> {
        let mut at = 4;
        // the number is printed, and a class begins where the one before it ends
        for class in 0..summary.classes {
            at = self.show_class(at, class)?;
        }
        self.begin(summary.behaviour, 0)?;
        println!(self.rt; "behaviour")?;
        self.show_behaviour(summary.behaviour, 1)
    }
}

fn print_file(rt: &HostRuntime, file: &[u8]) -> anyhow::Result<()> {
    match examine(file) {
        Ok(summary) => Page { rt, file }.show_file(summary),
        Err(_) => print_check(rt, file),
    }
}

pub fn show_words(rt: &HostRuntime, words: &[&str]) -> anyhow::Result<()> {
    answer_bytes(rt, words, print_file)
}

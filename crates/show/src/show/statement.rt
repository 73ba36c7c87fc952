// Statements as indented text.
use crate::show::Page;
use commands::command::read;
use commands::statement::StatementCommand;
use files::file::LEVELS;

impl Page<'_> {
    // Some expressions one after the other.
    fn show_values(&self, start: usize, count: u8, level: u8) -> anyhow::Result<()> {
        let mut at = start;
        // an expression begins where the one before it ends, so there is only their number to go over
        for _ in 0..count {
            at = self.show_expression(at, level)?;
        }
        Ok(())
    }

    // The statement at a place, at a level of indentation.
    pub fn show_statement(&self, at: usize, level: u8) -> anyhow::Result<()> {
        if level > LEVELS {
            return Ok(());
        }
        let Some(command) = read::<StatementCommand>(self.file, at) else {
            return Ok(());
        };
        self.begin(at, level)?;
        println!(self.rt; "{command}")?;
        match command {
            StatementCommand::Skip => Ok(()),
            StatementCommand::Recv(_channel, _message, _count, _variables) => Ok(()),
            StatementCommand::Set(_variable) => {
                let _end = self.show_expression(at + 2, level + 1)?;
                Ok(())
            }
            StatementCommand::Send(_channel, _message, count) => {
                self.show_values(at + 4, count, level + 1)
            }
            StatementCommand::Seq(place) | StatementCommand::Sel(place) => {
                self.show_statement(at + 3, level + 1)?;
                self.show_statement(place as usize, level + 1)
            }
            StatementCommand::Guard(place) | StatementCommand::Do(place) => {
                let _end = self.show_expression(at + 3, level + 1)?;
                self.show_statement(place as usize, level + 1)
            }
            StatementCommand::If(place, other) => {
                let _end = self.show_expression(at + 5, level + 1)?;
                self.show_statement(place as usize, level + 1)?;
                self.show_statement(other as usize, level + 1)
            }
        }
    }
}

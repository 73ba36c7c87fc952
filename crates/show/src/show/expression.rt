// Expressions as indented text.
use crate::show::Page;
use commands::command::read;
use commands::expression::ExpressionCommand;
use files::file::LEVELS;

impl Page<'_> {
    // The expression at a place, at a level of indentation; answers the place behind it.
    pub fn show_expression(&self, at: usize, level: u8) -> anyhow::Result<usize> {
        if level > LEVELS {
            return Ok(at);
        }
        let Some(command) = read::<ExpressionCommand>(self.file, at) else {
            return Ok(at);
        };
        self.begin(at, level)?;
        println!(self.rt; "{command}")?;
        match command {
            ExpressionCommand::Leaf(leaf) => Ok(at + leaf.size()),
            ExpressionCommand::Binary(_, place) => {
                let _first = self.show_expression(at + 3, level + 1)?;
                self.show_expression(place as usize, level + 1)
            }
            ExpressionCommand::Not => self.show_expression(at + 1, level + 1),
        }
    }
}

// Behaviours as indented text.
use crate::show::Page;
use commands::behaviour::BehaviourCommand;
use commands::command::read;
use files::file::LEVELS;

impl Page<'_> {
    // The behaviour at a place, at a level of indentation.
    pub fn show_behaviour(&self, at: usize, level: u8) -> anyhow::Result<()> {
        if level > LEVELS {
            return Ok(());
        }
        let Some(command) = read::<BehaviourCommand>(self.file, at) else {
            return Ok(());
        };
        self.begin(at, level)?;
        println!(self.rt; "{command}")?;
        match command {
            BehaviourCommand::Proc(_) => Ok(()),
            BehaviourCommand::Par(place) => {
                self.show_behaviour(at + 3, level + 1)?;
                self.show_behaviour(place as usize, level + 1)
            }
            BehaviourCommand::Hide(_) => self.show_behaviour(at + 5, level + 1),
            BehaviourCommand::Rename(..) => self.show_behaviour(at + 3, level + 1),
        }
    }
}

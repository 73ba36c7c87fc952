// The commands of behaviours.
ghost use Rattle.commands.specs.Behaviours.{behaviour_command, command_size};

use crate::command::Command;

pub const PROC: u8 = 0x40;

pub const PAR: u8 = 0x41;

pub const HIDE: u8 = 0x42;

pub const RENAME: u8 = 0x43;

// A command with its operands; `Par` has the place of its second part.
#[derive(Clone, Copy)]
pub enum BehaviourCommand {
    Proc(u8),
    Par(u16),
    Hide(u32),
    Rename(u8, u8),
}

impl Command for BehaviourCommand {
    ghost command = { behaviour_command };

    ghost size = { command_size };

    fn first(bytes: &[u8]) -> Option<BehaviourCommand> {
        match bytes {
            [PROC, class, ..] => Some(BehaviourCommand::Proc(*class)),
            [PAR, lo, hi, ..] => Some(BehaviourCommand::Par(u16::from_le_bytes([*lo, *hi]))),
            [HIDE, a, b, c, d, ..] => Some(BehaviourCommand::Hide(u32::from_le_bytes([
                *a, *b, *c, *d,
            ]))),
            [RENAME, from, to, ..] => Some(BehaviourCommand::Rename(*from, *to)),
            _ => None,
        }
    }
}
